// What lines set up, what the last run left, and what is printed.
ghost use Rattle.std.specs.Thread.{IsSync};

use crate::answer::Answer;
use crate::examples::Example;
use crate::left::{ALL_KEPT, Left, fresh, image_of};
use crate::root::{Folder, Shared};
use crate::setting::Setting;
use crate::text::first_word;
use disk_mem::{Listed, MemDisk, MemSource};
use mt_base::Seq;
use std::alloc::Global;
use std::mem;
use std::sync::Wait;
use std::thread::Threads;

/// What runs a script over what the last run left.
pub trait Machine {
    /// Runs the script that the source gives, with these words, and writes replies to the sink of what is left.
    fn run<R: Threads + Wait + Sync>(
        &self,
        rt: &R,
        words: &[String],
        source: MemSource,
        left: Left,
    ) -> Left
        requires sync { IsSync R.row };
}

/// What the lines before the next run have set up, what the last run left, and what is printed of a line.
#[derive(Drop)]
pub struct Bench {
    pub answer: Answer,
    pub root: Vec<Folder>,
    /// The name of the root that this one was begun from, empty where it was begun from none.
    pub base: String,
    /// The roots that were given a name.
    pub shared: Vec<Shared>,
    pub script: Vec<u8>,
    /// The script of the runs after the first one, where disks stop.
    pub later: Vec<u8>,
    pub setting: Setting,
    /// What the last run left, which is away only within a run.
    pub left: Option<Left>,
    /// The scripts that were named.
    pub examples: Vec<Example>,
}

// Plans which calls of the disk fail, and after how many calls it stops.
fn plan(left: &mut Option<Left>, failing: &[Listed], stop: Option<u64>) -> bool {
    match left {
        Some(left) => {
            if let Some(calls) = stop {
                left.disk.stop_after(calls);
            }
            left.disk.fail(failing).is_ok()
        }
        None => false,
    }
}

// What is left where a script runs over what was left.
fn ran<M: Machine, R: Threads + Wait + Sync>(
    machine: &M,
    rt: &R,
    words: &[String],
    source: MemSource,
    left: Option<Left>,
) -> Option<Left> {
    match left {
        Some(left) => Some(machine.run(rt, words, source, left)),
        None => None,
    }
}

impl Bench {
    /// An empty root, and no script.
    pub fn new(alloc: Global) -> Bench {
        let mut answer = Answer::new(alloc);
        let setting = answer.setting();
        Bench {
            answer,
            root: Vec::new(alloc),
            base: String::new(alloc),
            shared: Vec::new(alloc),
            script: Vec::new(alloc),
            later: Vec::new(alloc),
            setting,
            left: None,
            examples: Vec::new(alloc),
        }
    }

    /// An empty disk.
    pub fn clear(&mut self) {
        let alloc = self.answer.alloc;
        self.left = fresh(alloc, MemDisk::new(alloc).ok());
    }

    /// A crash, which leaves the image of this choice. What was accepted is forgotten.
    pub fn crash(&mut self, choice: u64) {
        self.left = fresh(self.answer.alloc, image_of(&self.left, choice));
    }

    /// The disk stops after this many further calls.
    pub fn stop(&mut self, calls: u64) {
        let planned = plan(&mut self.left, &[], Some(calls));
        self.answer.note(planned);
    }

    /// The same of a choice as a line writes it.
    pub fn crash_by(&mut self, rest: &str) {
        let choice = self.answer.number_of(rest);
        self.crash(choice);
    }

    /// Begins with the root of a name, or with one without names where no name is there.
    pub fn begin_root(&mut self, name: &str) {
        self.root.clear();
        self.base.clear();
        if !name.is_empty() {
            self.answer.copy_shared(&self.shared, name, &mut self.root);
            self.base = self.answer.owned(name);
        }
    }

    /// Gives the root as it is set up a name, by which later cases begin with it.
    pub fn share_root(&mut self, name: &str) {
        let folders = mem::replace(&mut self.root, Vec::new(self.answer.alloc));
        self.answer.share(&mut self.shared, name, folders);
        self.begin_root(name);
    }

    // Takes the script of a line that runs, where one is there.
    fn set_any(&mut self, script: &str) {
        if !script.is_empty() {
            self.script = self.answer.bytes_of(script);
        }
    }

    // Makes what the next run finds: the root as it was set up, with the damaged files, of which the listed calls fail.
    fn begin(&mut self) {
        let setting = &self.setting;
        let disk = self.answer.disk_of(&self.root, &setting.damages);
        self.left = fresh(self.answer.alloc, disk);
        let planned = plan(&mut self.left, &setting.failing_calls, setting.stop);
        self.answer.note(planned);
    }

    // What gives the script, or the later one.
    fn source(&mut self, is_later: bool) -> MemSource {
        if is_later {
            self.answer.source(&self.setting, &self.later)
        } else {
            self.answer.source(&self.setting, &self.script)
        }
    }

    // What the last run left, with a sink of its own for the next one.
    fn begun(&mut self) -> Option<Left> {
        let mut left = self.left.take()?;
        left.sink = self.answer.sink(&self.setting);
        Some(left)
    }

    /// Runs the script, or the later one, with the words and the streams that are set up, over what is there.
    pub fn go<M: Machine, R: Threads + Wait + Sync>(
        &mut self,
        machine: &M,
        rt: &R,
        is_later: bool,
    ) {
        let source = self.source(is_later);
        let begun = self.begun();
        self.left = ran(machine, rt, &self.setting.words, source, begun);
    }

    // Prints how the last run ended, after what is printed of it already.
    fn tell_ending(&mut self, title: &str) {
        self.answer.put(title);
        self.answer.ending(&self.left);
        self.answer.put("\n");
    }

    /// Runs a script over the root.
    pub fn run<M: Machine, R: Threads + Wait + Sync>(&mut self, machine: &M, rt: &R, script: &str) {
        self.set_any(script);
        self.begin();
        self.go(machine, rt, false);
        self.answer.open_over(&self.base);
        self.tell_ending("");
    }

    // The root that the last run left, with each byte of its files.
    fn root_left(&mut self) -> String {
        let mut told = Answer::new(self.answer.alloc);
        told.debug_root(&self.left);
        self.answer.ended(told)
    }

    /// Runs a script over the root, and says whether the root is as it was.
    pub fn probe<M: Machine, R: Threads + Wait + Sync>(
        &mut self,
        machine: &M,
        rt: &R,
        script: &str,
    ) {
        self.set_any(script);
        self.begin();
        let before = self.root_left();
        self.go(machine, rt, false);
        let after = self.root_left();
        self.answer.open_over(&self.base);
        self.tell_ending(if before == after {
            "root kept, "
        } else {
            "root changed, "
        });
    }

    /// Runs a script over what the last run left, with its annals.
    pub fn again<M: Machine, R: Threads + Wait + Sync>(
        &mut self,
        machine: &M,
        rt: &R,
        script: &str,
    ) {
        self.set_any(script);
        self.go(machine, rt, false);
        self.answer.open();
        self.tell_ending("");
    }

    // All that the last run told.
    fn told(&mut self) -> String {
        let mut told = Answer::new(self.answer.alloc);
        if let Some(left) = &self.left {
            told.told(left.status, left.annals.list(), left.sink.written());
        }
        self.answer.ended(told)
    }

    // All that a run of the script over an empty disk tells.
    fn told_alone<M: Machine, R: Threads + Wait + Sync>(
        &mut self,
        machine: &M,
        rt: &R,
        by_bytes: bool,
    ) -> String {
        self.clear();
        self.setting.by_bytes = by_bytes;
        self.go(machine, rt, false);
        self.told()
    }

    /// Runs a script over an empty disk, in whole pieces and by single bytes.
    pub fn check<M: Machine, R: Threads + Wait + Sync>(
        &mut self,
        machine: &M,
        rt: &R,
        script: &str,
    ) {
        self.set_any(script);
        let by_bytes = self.told_alone(machine, rt, true);
        let whole = self.told_alone(machine, rt, false);
        self.answer.open();
        self.tell_ending(if by_bytes == whole {
            "both alike, "
        } else {
            "not alike, "
        });
    }

    // Runs the script over the root, with the read, the write or the call of a number failing.
    fn run_failing<M: Machine, R: Threads + Wait + Sync>(
        &mut self,
        machine: &M,
        rt: &R,
        what: &str,
        number: u64,
    ) {
        self.answer.fail_at(&mut self.setting, what, number);
        self.begin();
        self.go(machine, rt, false);
        self.answer.open_over(&self.base);
        self.answer.put(what);
        self.answer.put(" ");
        self.answer.number(number);
        self.tell_ending(": ");
    }

    /// Runs the script this many times over the root, with one read, write or call failing in turn.
    pub fn each<M: Machine, R: Threads + Wait + Sync>(&mut self, machine: &M, rt: &R, rest: &str) {
        let (what, count) = first_word(rest);
        for number in 0..self.answer.number_of(count) {
            self.run_failing(machine, rt, what, number);
        }
    }

    /// Tells the names of the root that the last run left.
    pub fn names(&mut self) {
        let names = self.answer.names_of(&self.left, ALL_KEPT);
        self.answer.open();
        self.answer.number(names.len() as u64);
        self.answer.put(" names");
        self.answer.names(&names);
        self.answer.put("\n");
    }

    /// Tells the bytes of a file that the last run left.
    pub fn file_left(&mut self, rest: &str) {
        let (name, file) = first_word(rest);
        let id = self.answer.file_of(file);
        let name = Seq::of(self.answer.bytes_of(name));
        self.answer.open();
        self.answer.file_left(&self.left, &name, id);
        self.answer.put("\n");
    }
}
