//! Cases of two works that are open at once, which no script makes: put and let go in each order, and put where a source is gone.
//!
//! Each begins with a root over the disk in memory that a run of the program made, in which a table has four parts of one row each. After
//! each step the visible parts are printed in block order, with a `*` after each that bears a mark. Standard output is compared with what
//! is wanted.
#![tactic(auto)]

ghost use Rattle.std.specs.Prelude.{◌≡◌, IfOk};
ghost use Rattle.run_works.specs.Works.{MayBeMerged};

use disk_mem::{KeptAnnals, MemArm, MemDir, MemDisk, MemSink, MemSource, OpenGate};
use mt_base::{Name, NoMemory, Partition, Policy, Seq, Twin};
use mt_outside::{Disk, DiskError};
use mt_program::root_log::open;
use mt_program::session::give_back_part;
use mt_program::session::row_merge::merge_parts;
use mt_program::session::shared_store::merge_select::Scope;
use mt_program::session::shared_store::part_name::text;
use mt_program::session::shared_store::part_reader::Part;
use mt_program::session::shared_store::part_set::Kept;
use mt_program::session::shared_store::root_commits::Returned;
use mt_program::session::shared_store::{Engine, Put, Work};
use mt_program::{Done, run};
use std::alloc::Global;
use std::io;
use std::sync::Wait;
use std::thread::Threads;
use thiserror::Error;

/// What becomes of two works.
#[derive(Clone, Copy)]
enum Case {
    InOrder,
    OtherOrder,
    FirstDropped,
    SecondDropped,
    /// Between them the merge of the two parts in the middle is put, which was not taken up.
    SourceGone,
}

/// Why a case was not told to its end.
#[derive(Clone, Copy, Debug, Error)]
enum Fault {
    #[error("{0}")]
    Memory(#[from] NoMemory),
    #[error("{0}")]
    Disk(#[from] DiskError),
    #[error("refused")]
    Refused,
}

/// A part that is kept.
type Shown = Kept<Part<MemDir>>;
/// A work, or why there is none.
type Taken = Result<Work<MemDir>, Fault>;

/// A root that is open, an arm of its disk, and what was told of it.
struct Root {
    alloc: Global,
    engine: Engine<MemDir, MemArm, MemDisk, KeptAnnals>,
    arm: MemArm,
    table: Name,
    text: String,
}

/// Adds the names of parts, and a `*` after each that bears a mark.
fn add_names(alloc: Global, line: &mut String, parts: &[Shown]) -> Result<(), NoMemory> {
    for kept in parts {
        let name = text(alloc, &kept.name)?;
        let mark = if kept.busy { "*" } else { "" };
        line.push_str(format!(in alloc; " {}{mark}", name.escape_ascii())?.as_str())?;
    }
    Ok(line.push_str("\n")?)
}

/// Copies of the second and the third of some parts.
fn copies(alloc: Global, parts: &[Shown]) -> Result<Vec<Shown>, NoMemory> {
    let mut copies = Vec::new(alloc);
    for kept in parts.get(1..3).unwrap_or(&[]) {
        copies.push(kept.twin(alloc)?)?;
    }
    Ok(copies)
}

impl Root {
    /// Takes up two works and tells what becomes of them, and then takes up and puts a third.
    fn show(&mut self, case: Case) -> Result<(), Fault> {
        let first = self.take();
        let second = self.take();
        self.end(case, first, second)?;
        let third = self.take();
        self.put("third", third)
    }

    /// Tells what was done with a work, and the visible parts then.
    fn tell(&mut self, name: &str, done: &str, source: &[u8]) -> Result<(), Fault> {
        let found = self.engine.snapshot(self.alloc, &self.table)?;
        let snap = found.ok_or(Fault::Refused)?;
        let told = write!(self.text, "  {name} {done}{}:", source.escape_ascii());
        let names = add_names(self.alloc, &mut self.text, snap.parts.as_slice());
        self.engine.give_back(snap);
        told.map_err(|_| NoMemory)?;
        Ok(names?)
    }

    /// Takes up the merge of the pair at the head.
    fn take(&mut self) -> Taken
        ensures { IfOk result MayBeMerged }
    {
        let found = self.engine.take_merge(self.alloc, Scope::All)?;
        found.ok_or(Fault::Refused)
    }

    /// The merge of the second and the third part, as a work that was not taken up.
    fn middle(&mut self) -> Taken
        ensures { IfOk result MayBeMerged }
    {
        let table = self.table.twin(self.alloc)?;
        let found = self.engine.snapshot(self.alloc, &table)?;
        let snap = found.ok_or(Fault::Refused)?;
        let sources = copies(self.alloc, snap.parts.as_slice());
        let schema = snap.schema.twin(self.alloc);
        self.engine.give_back(snap);
        let (sources, schema, partition) = (sources?, schema?, Partition::Whole);
        if sources.is_empty() {
            return Err(Fault::Refused);
        }
        Ok(Work {
            table,
            schema,
            partition,
            sources,
        })
    }

    /// Merges the parts of a work, and puts what they became.
    fn put(&mut self, name: &str, work: Taken) -> Result<(), Fault>
        requires { IfOk work MayBeMerged }
    {
        let work = work?;
        let (alloc, arm) = (self.alloc, &mut self.arm);
        let Ok(part) = merge_parts(alloc, arm, &work.schema, work.sources.as_slice()) else {
            self.engine.drop_work(work);
            return Err(Fault::Refused);
        };
        match self.engine.put_work(alloc, work, part) {
            Ok(Put::Done) => self.tell(name, "put", b""),
            Ok(Put::Gone { part, back }) => {
                give_back_part(&mut self.arm, Some(back));
                let source = text(alloc, &part)?;
                self.tell(name, "gone at ", &source)
            }
            Err(Returned { cause: _, back }) => {
                give_back_part(&mut self.arm, back);
                Err(Fault::Refused)
            }
        }
    }

    /// Lets a work go.
    fn let_go(&mut self, name: &str, work: Taken) -> Result<(), Fault> {
        self.engine.drop_work(work?);
        self.tell(name, "dropped", b"")
    }

    /// Puts two works or lets them go.
    fn end(&mut self, case: Case, first: Taken, second: Taken) -> Result<(), Fault>
        requires first { IfOk first MayBeMerged }
        requires second { IfOk second MayBeMerged }
    {
        let taken = self.tell("both", "taken", b"");
        let (before, after) = match case {
            Case::InOrder => (self.put("first", first), self.put("second", second)),
            Case::OtherOrder => (self.put("second", second), self.put("first", first)),
            Case::FirstDropped => (self.let_go("first", first), self.put("second", second)),
            Case::SecondDropped => (self.let_go("second", second), self.put("first", first)),
            Case::SourceGone => {
                let middle = self.middle();
                let before = self.put("first", first);
                let between = self.put("middle", middle);
                (before.and(between), self.put("second", second))
            }
        };
        taken.and(before).and(after)
    }
}

/// The words of the command line.
fn words(alloc: Global) -> Result<Vec<String>, NoMemory> {
    let mut words = Vec::new(alloc);
    for word in ["mergetree", "--path", "d"] {
        words.push(String::from_str(alloc, word)?)?;
    }
    Ok(words)
}

/// The pieces of the script that makes the table, and its parts by an INSERT each.
fn script(alloc: Global) -> Result<Vec<Vec<u8>>, NoMemory> {
    let mut pieces = Vec::new(alloc);
    let table = b"CREATE TABLE t (a UInt8) ENGINE = MergeTree ORDER BY a;\n";
    pieces.push(Vec::from_slice(alloc, table)?)?;
    for _part in 0..4 {
        pieces.push(Vec::from_slice(alloc, b"INSERT INTO t;\n1\n\\.\n")?)?;
    }
    Ok(pieces)
}

/// A disk on which the program made the table and its parts, and of which no call failed.
fn made<R: Threads + Wait + Sync>(rt: &R, alloc: Global) -> Result<MemDisk, Fault>
    ensures { IfOk result (λ disk. disk.plan.failed ≡ 0) }
{
    let words = words(alloc)?;
    let mut source = MemSource::new(script(alloc)?, Vec::new(alloc));
    let mut sink = MemSink::new(alloc, Vec::new(alloc));
    let disk = MemDisk::new(alloc)?;
    let annals = KeptAnnals::new(alloc);
    let gate = &mut OpenGate;
    let Done {
        status,
        disk,
        annals: _,
    } = run(
        rt,
        alloc,
        &words,
        &mut source,
        &mut sink,
        disk,
        annals,
        gate,
    );
    if status > 0 {
        return Err(Fault::Refused);
    }
    if disk.faults() > 0 {
        return Err(Fault::Refused);
    }
    Ok(disk)
}

/// What a case comes to, over a root that was made anew.
fn told<R: Threads + Wait + Sync>(rt: &R, alloc: Global, case: Case) -> Result<String, Fault> {
    let table = Seq::from_slice(alloc, b"t")?;
    let mut disk = made(rt, alloc)?;
    let mut arm = disk.arm(alloc)?;
    let Ok(store) = open(alloc, &mut disk, &mut arm) else {
        disk.take_back(arm);
        return Err(Fault::Refused);
    };
    let mut root = Root {
        alloc,
        engine: Engine::new(store, disk, KeptAnnals::new(alloc), Policy::Head),
        arm,
        table,
        text: String::new(alloc),
    };
    let shown = root.show(case);
    let Root {
        alloc: _,
        engine,
        arm,
        table: _,
        text,
    } = root;
    let (mut disk, _) = engine.into_outside();
    disk.take_back(arm);
    shown?;
    Ok(text)
}

fn main(rt: HostRuntime) -> io::Result<()> {
    for (case, name) in [
        (Case::InOrder, "put in the order taken"),
        (Case::OtherOrder, "put in the other order"),
        (Case::FirstDropped, "the first dropped, the second put"),
        (Case::SecondDropped, "the second dropped, the first put"),
        (Case::SourceGone, "put where a source is gone"),
    ] {
        println!(rt; "{name}")?;
        match told(&rt, rt.alloc(), case) {
            Ok(text) => rt.print(text.as_str())?,
            Err(fault) => println!(rt; "  ? {fault}")?,
        }
    }
    Ok(())
}
