// What is set up for the next run alone: its words and streams, the calls that fail, and damaged files.
use crate::answer::Answer;
use crate::text::first_word;
use disk_mem::{CallKind, Listed, MemSink, MemSource};
use mt_base::Seq;
use mt_values::{FileId, Name};

/// How a file is damaged.
#[derive(Clone, Copy)]
pub enum Change {
    /// Not at all.
    Kept,
    Missing,
    /// Cut off after this many bytes.
    Cut(usize),
    /// The lowest bit of the byte at a place is turned.
    Turned(usize),
    /// A byte of zero follows it.
    Longer,
}

/// The file of a folder that is damaged, and how.
#[derive(Drop)]
pub struct Damage {
    pub name: Name,
    pub id: FileId,
    pub change: Change,
}

/// What is set up for the next run alone.
#[derive(Drop)]
pub struct Setting {
    /// The words of the command line.
    pub words: Vec<String>,
    /// Whether each read gives one byte, and each write takes one.
    pub by_bytes: bool,
    /// The numbers of the read and of the write that fail, from 0.
    pub failing_read: Option<u64>,
    pub failing_write: Option<u64>,
    pub failing_calls: Vec<Listed>,
    /// After how many calls the disk stops.
    pub stop: Option<u64>,
    pub damages: Vec<Damage>,
}

// The kind of call of this name.
fn kind_of(word: &str) -> Option<CallKind> {
    match word {
        "start" => Some(CallKind::Start),
        "arm" => Some(CallKind::Arm),
        "list" => Some(CallKind::List),
        "open" => Some(CallKind::Open),
        "publish" => Some(CallKind::Publish),
        "remove" => Some(CallKind::Remove),
        "sync-names" => Some(CallKind::SyncNames),
        "stage" => Some(CallKind::Stage),
        "read" => Some(CallKind::Read),
        "append" => Some(CallKind::Append),
        "sync" => Some(CallKind::Sync),
        _ => None,
    }
}

impl Answer {
    /// The usual words, streams in whole pieces, and nothing that fails.
    pub fn setting(&mut self) -> Setting {
        Setting {
            words: self.words_of("mergetree --path d"),
            by_bytes: false,
            failing_read: None,
            failing_write: None,
            failing_calls: Vec::new(self.alloc),
            stop: None,
            damages: Vec::new(self.alloc),
        }
    }

    // The change of a word with a number after it, where it takes one.
    fn change_of(&mut self, text: &str) -> Change {
        let (word, number) = first_word(text);
        let number = number.parse::<usize>().unwrap_or(0);
        match word {
            "missing" => return Change::Missing,
            "longer" => return Change::Longer,
            "cut" => return Change::Cut(number),
            "turned" => return Change::Turned(number),
            _ => self.fail("no such change"),
        }
        Change::Kept
    }

    /// A file of the root that is damaged, and how.
    pub fn damage(&mut self, setting: &mut Setting, rest: &str) {
        let (name, rest) = first_word(rest);
        let (file, change) = first_word(rest);
        let id = self.file_of(file);
        let change = self.change_of(change);
        let name = Seq::of(self.bytes_of(name));
        self.push(&mut setting.damages, Damage { name, id, change });
    }

    /// A call that fails, of an arm, a stage, a kind and a number. An arm or a stage that is none is written as a dash.
    pub fn fail_call(&mut self, setting: &mut Setting, text: &str) {
        let (arm, rest) = first_word(text);
        let (stage, rest) = first_word(rest);
        let (kind, number) = first_word(rest);
        let arm = arm.parse::<u32>().ok();
        let stage = stage.parse::<u32>().ok();
        let number = u32::try_from(self.number_of(number)).unwrap_or(u32::MAX);
        match kind_of(kind) {
            Some(kind) => self.push(
                &mut setting.failing_calls,
                Listed {
                    arm,
                    stage,
                    kind,
                    number,
                },
            ),
            None => self.fail("no such call"),
        }
    }

    /// The read or the write of a number fails, or the disk stops after this many calls.
    pub fn fail_at(&mut self, setting: &mut Setting, what: &str, number: u64) {
        match what {
            "read" => setting.failing_read = Some(number),
            "write" => setting.failing_write = Some(number),
            "stop" => setting.stop = Some(number),
            _ => self.fail("nothing of this name can fail"),
        }
    }

    /// The same of a number in decimal digits.
    pub fn fail_next(&mut self, setting: &mut Setting, what: &str, number: &str) {
        let number = self.number_of(number);
        self.fail_at(setting, what, number);
    }

    // The numbers of the calls of a stream that fail.
    fn failing(&mut self, number: Option<u64>) -> Vec<u64> {
        let mut numbers = Vec::new(self.alloc);
        if let Some(number) = number {
            self.push(&mut numbers, number);
        }
        numbers
    }

    /// A copy of bytes.
    pub fn copied(&mut self, bytes: &[u8]) -> Vec<u8> {
        let mut copy = Vec::new(self.alloc);
        self.extend(&mut copy, bytes);
        copy
    }

    /// What gives a script as it is set up: in one piece, or byte by byte.
    pub fn source(&mut self, setting: &Setting, script: &[u8]) -> MemSource {
        let length = if setting.by_bytes {
            1
        } else {
            script.len().max(1)
        };
        let mut pieces = Vec::new(self.alloc);
        for piece in script.chunks(length) {
            let piece = self.copied(piece);
            self.push(&mut pieces, piece);
        }
        let failing = self.failing(setting.failing_read);
        MemSource::new(pieces, failing)
    }

    /// What takes the replies as it is set up.
    pub fn sink(&mut self, setting: &Setting) -> MemSink {
        let most = if setting.by_bytes { 1 } else { usize::MAX };
        let failing = self.failing(setting.failing_write);
        MemSink::with_most(self.alloc, failing, most)
    }
}
