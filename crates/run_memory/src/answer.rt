// What is printed of a line.
use mt_values::FileMark;
use row_merge::digest_file::mark_of;
use std::alloc::Global;
use std::mem;

/// The most bytes that are written out. Of more only their number and their digest are.
const MOST_SHOWN: usize = 1000;

/// What is wrong where a call fails that no case lets fail.
const NOT_DONE: &str = "out of memory, or the disk failed";

/// What is printed of a line, and what is wrong with it first. What fails is kept here and gives no value, so that a line is read and
/// answered without a way out at each step.
#[derive(Drop)]
pub struct Answer {
    pub alloc: Global,
    /// The name of the case that the line belongs to, and the names of the cases before it.
    case: String,
    cases: Vec<String>,
    pub text: String,
    pub fault: Option<&'static str>,
}

impl Answer {
    /// Nothing, of which nothing is wrong.
    pub fn new(alloc: Global) -> Answer {
        Answer {
            alloc,
            case: String::new(alloc),
            cases: Vec::new(alloc),
            text: String::new(alloc),
            fault: None,
        }
    }

    /// Keeps what is wrong, if nothing was before.
    pub fn fail(&mut self, why: &'static str) {
        self.fault = self.fault.or(Some(why));
    }

    /// Keeps that a call failed, where it did.
    pub fn note(&mut self, is_done: bool) {
        if !is_done {
            self.fail(NOT_DONE);
        }
    }

    /// Adds an item to a list.
    pub fn push<T: Drop>(&mut self, list: &mut Vec<T>, item: T) {
        let pushed = list.push(item).is_ok();
        self.note(pushed);
    }

    /// Adds bytes to a list.
    pub fn extend(&mut self, list: &mut Vec<u8>, bytes: &[u8]) {
        let extended = list.extend_from_slice(bytes).is_ok();
        self.note(extended);
    }

    /// Prints a text.
    pub fn put(&mut self, text: &str) {
        let put = self.text.push_str(text).is_ok();
        self.note(put);
    }

    /// Prints a number.
    pub fn number(&mut self, number: u64) {
        let put = write!(self.text, "{number}").is_ok();
        self.note(put);
    }

    /// Prints a word with a count after it.
    pub fn counted(&mut self, what: &str, count: usize) {
        self.put(what);
        self.number(count as u64);
    }

    /// Prints bytes, as Rust escapes them.
    pub fn escaped(&mut self, bytes: &[u8]) {
        let put = write!(self.text, "{}", bytes.escape_ascii()).is_ok();
        self.note(put);
    }

    /// Prints bytes between quotes, or their number and their digest where they are many.
    pub fn bytes(&mut self, bytes: &[u8]) {
        if bytes.len() > MOST_SHOWN {
            self.mark(mark_of(bytes));
        } else {
            self.put("\"");
            self.escaped(bytes);
            self.put("\"");
        }
    }

    /// Prints how many bytes a file has, and their digest.
    pub fn mark(&mut self, mark: FileMark) {
        self.number(mark.size);
        self.put(" bytes, SHA-256 ");
        match hex::encode(self.alloc, mark.digest) {
            Ok(digest) => self.put(&digest),
            Err(_) => self.note(false),
        }
    }

    // Whether a case has this name already.
    fn is_named(&self, name: &str) -> bool {
        if self.case.as_str() == name {
            return true;
        }
        for case in &self.cases {
            if case.as_str() == name {
                return true;
            }
        }
        false
    }

    /// Names the case that the lines after this one belong to. No two cases have one name.
    pub fn name_case(&mut self, name: &str) {
        if name.is_empty() || self.is_named(name) {
            self.fail("a case has no name, or that of another");
        }
        let name = self.owned(name);
        let before = mem::replace(&mut self.case, name);
        let kept = self.cases.push(before).is_ok();
        self.note(kept);
    }

    /// Begins a line of what the case comes to, with its name.
    pub fn open(&mut self) {
        if self.case.is_empty() {
            self.fail("no case was named before it");
        }
        let put = write!(self.text, "  {}: ", self.case).is_ok();
        self.note(put);
    }

    /// The same of a run over a root that has a name.
    pub fn open_over(&mut self, root: &str) {
        if root.is_empty() {
            return self.open();
        }
        let put = write!(self.text, "  {}, over {}: ", self.case, root).is_ok();
        self.note(put);
    }

    /// The text of another answer. What is wrong with that is wrong with this.
    pub fn ended(&mut self, other: Answer) -> String {
        self.fault = self.fault.or(other.fault);
        other.text
    }

    /// Begins with a line, as it stands.
    pub fn begin(&mut self, line: &str) {
        self.fault = None;
        self.text.clear();
        self.put(line);
        self.put("\n");
    }

    /// Where something is wrong with a line, says that alone after it.
    pub fn end(&mut self, line: &str) {
        if let Some(why) = self.fault {
            self.begin(line);
            let put = write!(self.text, "  ? {}: {}\n", self.case, why).is_ok();
            self.note(put);
        }
    }
}
