// What a line says, and what it comes to.
use crate::bench::{Bench, Machine};
use crate::text::first_word;
use std::sync::Wait;
use std::thread::Threads;

impl Bench {
    // Does what a line says that sets up the root.
    fn set_root(&mut self, word: &str, rest: &str) -> bool {
        match word {
            "" | "#" => {}
            "case" => self.answer.name_case(rest),
            "new" => self.begin_root(rest),
            "share" => self.share_root(rest),
            "folder" => self.answer.folder(&mut self.root, rest),
            "entry" => self.answer.entry(&mut self.root, rest),
            "part" => self.answer.part(&mut self.root, rest),
            "file" => self.answer.file(&mut self.root, rest),
            _ => return false,
        }
        true
    }

    // Does what a line says that sets up the next run.
    fn set_run(&mut self, word: &str, rest: &str) -> bool {
        match word {
            "damage" => self.answer.damage(&mut self.setting, rest),
            "fail" => self.answer.fail_call(&mut self.setting, rest),
            "read" | "write" | "stop" => self.answer.fail_next(&mut self.setting, word, rest),
            "bytes" => self.setting.by_bytes = true,
            "words" => self.setting.words = self.answer.words_of(rest),
            _ => return false,
        }
        true
    }

    // Does what a line says of scripts.
    fn set_script(&mut self, word: &str, rest: &str) -> bool {
        match word {
            "script" => self.script = self.answer.bytes_of(rest),
            "add" => self.answer.add(&mut self.script, rest),
            "repeat" => self.answer.repeat(&mut self.script, rest),
            "named" => self.answer.name_script(&mut self.examples, rest),
            _ => return false,
        }
        true
    }

    // Does what a line says that is found without a run.
    fn find(&mut self, word: &str, rest: &str) -> bool {
        match word {
            "allows" => self.answer.allows(&self.examples, rest),
            "row" => self.answer.row(rest),
            "values" => self.answer.values(rest),
            "block" => self.answer.block(rest),
            "core" => self.answer.core(rest),
            "course" => self.answer.course(rest),
            "steps" => self.answer.steps(rest),
            "pin" => self.answer.pin(rest),
            "twin" => self.answer.twin(&self.left, rest),
            "fold" => self.answer.rules(rest, false),
            "merge" => self.answer.rules(rest, true),
            "random" => self.answer.random(rest),
            "grow" => self.answer.grow(&self.script, rest),
            "append" => self.answer.append(rest),
            "stream" => self.answer.stream(&self.script, rest),
            _ => return false,
        }
        self.answer.put("\n");
        true
    }

    // Does what a line says that runs nothing.
    fn set_up(&mut self, word: &str, rest: &str) -> bool {
        self.set_root(word, rest)
            || self.set_run(word, rest)
            || self.set_script(word, rest)
            || self.find(word, rest)
    }

    // Does what a line says that runs, or that speaks of what the last run left.
    fn act<M: Machine, R: Threads + Wait + Sync>(
        &mut self,
        machine: &M,
        rt: &R,
        word: &str,
        rest: &str,
    ) {
        match word {
            "run" => self.run(machine, rt, rest),
            "probe" => self.probe(machine, rt, rest),
            "again" => self.again(machine, rt, rest),
            "check" => self.check(machine, rt, rest),
            "names" => self.names(),
            "left" => self.file_left(rest),
            "crash" => self.crash_by(rest),
            "each" => self.each(machine, rt, rest),
            "crashes" => self.stops(machine, rt, rest, true),
            "stops" => self.stops(machine, rt, rest, false),
            _ => self.answer.fail("no such directive"),
        }
    }

    /// Does what a line says. What was set up for the next run alone ends with it.
    pub fn tell<M: Machine, R: Threads + Wait + Sync>(&mut self, machine: &M, rt: &R, line: &str) {
        let (word, rest) = first_word(line);
        self.answer.begin(line);
        if !self.set_up(word, rest) {
            self.act(machine, rt, word, rest);
            self.setting = self.answer.setting();
        }
        self.answer.end(line);
    }
}
