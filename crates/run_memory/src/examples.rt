// Scripts with what they may print and the histories that they may leave, as the definitions say.
use crate::answer::Answer;
use crate::text::first_word;
use mt_base::{NoMemory, Twin};
use mt_plain::{allows, replies_after};
use mt_values::{Cause, Command, Entry, Schema, Statement};
use sql_read::{Next, next_statement};
use std::alloc::Global;

/// No script that the plain program runs has more statements.
const MOST_STATEMENTS: u32 = 64;

/// A script with a name, which later lines cite.
#[derive(Drop)]
pub struct Example {
    name: Vec<u8>,
    script: Vec<u8>,
}

// The script of a name.
fn named<'a>(examples: &'a [Example], name: &str) -> Option<&'a [u8]> {
    for example in examples {
        if example.name.as_slice() == name.as_bytes() {
            return Some(&example.script);
        }
    }
    None
}

// The schema of the first table that is made.
fn first_schema(alloc: Global, history: &[Entry]) -> Option<Schema> {
    for entry in history {
        if let Command::Create(create) = &entry.command {
            return create.schema.twin(alloc).ok();
        }
    }
    None
}

impl Answer {
    /// The statements of a script, and why texts of it are refused.
    pub fn statements(&mut self, script: &[u8]) -> Vec<Result<Statement, Cause>> {
        let mut statements = Vec::new(self.alloc);
        let mut rest = script;
        for _ in 0..MOST_STATEMENTS {
            let (statement, used) = match next_statement(self.alloc, rest, true) {
                Next::Found(statement, used) => (Ok(statement), used),
                Next::Refused(cause, used) => (Err(cause), used),
                _ => break,
            };
            self.push(&mut statements, statement);
            rest = rest.get(used..).unwrap_or(&[]);
        }
        statements
    }

    // The history that the plain program comes to by these statements.
    fn history_of(&mut self, statements: &[Result<Statement, Cause>]) -> Vec<Entry> {
        let mut history = Vec::new(self.alloc);
        for statement in statements {
            let replies = replies_after(self.alloc, &mut history, statement);
            self.note(replies.is_ok());
        }
        history
    }

    /// The schema of the first table that the plain program makes by a script.
    pub fn schema_made(&mut self, script: &[u8]) -> Option<Schema> {
        let statements = self.statements(script);
        let history = self.history_of(&statements);
        first_schema(self.alloc, &history)
    }

    /// Keeps a script under a name.
    pub fn name_script(&mut self, examples: &mut Vec<Example>, rest: &str) {
        let (name, script) = first_word(rest);
        let name = self.copied(name.as_bytes());
        let script = self.bytes_of(script);
        self.push(examples, Example { name, script });
    }

    // Prints whether a text is allowed.
    fn answer_allowed(&mut self, allowed: Result<bool, NoMemory>) {
        match allowed {
            Ok(true) => self.put("true"),
            Ok(false) => self.put("false"),
            Err(_) => self.note(false),
        }
    }

    // Prints whether a script may leave the history that another one leaves of an empty root, and print a text.
    fn allowed(&mut self, script: &[u8], other: &[u8], printed: &[u8]) {
        let script = self.statements(script);
        let other = self.statements(other);
        let history = self.history_of(&other);
        self.answer_allowed(allows(self.alloc, &script, &history, printed));
    }

    /// The same of scripts with names.
    pub fn allows(&mut self, examples: &[Example], rest: &str) {
        let (script, rest) = first_word(rest);
        let (history, printed) = first_word(rest);
        let printed = self.bytes_of(printed);
        self.open();
        match (named(examples, script), named(examples, history)) {
            (Some(script), Some(history)) => self.allowed(script, history, &printed),
            _ => self.fail("no script of this name"),
        }
    }
}
