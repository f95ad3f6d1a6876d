// Which calls of an object fail, and how many have failed.
ghost use Rattle.std.specs.Prelude.{◌≡◌, ◌<◌, ◌≤◌, ◌||◌, ◌↔◌, IsTrue, Some, None, [], length, replicate, IfOk, OnOk, OnErr, ◌++◌};
ghost use Rattle.fault_plan.specs.Plan.{place_of, made_of, same_number, names_next, is_listed, called, taken, of_arm, of_stage, fresh, next_arm, next_stage};

use mt_base::{NoMemory, Seq};
use std::alloc::Global;

/// What a call that can fail is.
#[derive(Clone, Copy)]
pub enum CallKind {
    /// Calls of the disk.
    Start,
    Arm,
    List,
    Open,
    Publish,
    Remove,
    SyncNames,
    /// Calls of an arm.
    Stage,
    Read,
    /// Calls of a stage.
    Append,
    Sync,
}

/// A call that is to fail.
#[derive(Clone, Copy)]
pub struct Listed {
    /// The number of the `arm` call, from 0, that made the arm whose call it is, or whose stage's. None: it is a call of the disk itself.
    pub arm: Option<u32>,
    /// The number of that arm's `stage` call, from 0, that made the stage whose call it is. None: it is a call of the arm or the disk itself.
    pub stage: Option<u32>,
    pub kind: CallKind,
    /// Its number, from 0, among the calls of its kind in that object.
    pub number: u32,
}

/// Which calls of an object fail.
#[derive(Drop)]
pub struct Plan {
    /// Which object it is: a disk has neither number, an arm no stage's.
    pub arm: Option<u64>,
    pub stage: Option<u64>,
    /// The calls that are to fail, of the object and of those that it makes.
    pub listed: Seq<Listed>,
    /// How many calls of each kind were made, as far as 64 bits count.
    pub made: [u64; 11],
    /// How many calls have failed, as far as 64 bits count.
    pub failed: u64,
}

// Where the calls of a kind are counted.
fn place(kind: CallKind) -> usize
    ensures place { result ≡ place_of kind }
    ensures bound { result < 11 }
{
    match kind {
        CallKind::Start => 0,
        CallKind::Arm => 1,
        CallKind::List => 2,
        CallKind::Open => 3,
        CallKind::Publish => 4,
        CallKind::Remove => 5,
        CallKind::SyncNames => 6,
        CallKind::Stage => 7,
        CallKind::Read => 8,
        CallKind::Append => 9,
        CallKind::Sync => 10,
    }
}

// Whether both name one object, or none.
fn is_number(listed: Option<u32>, number: Option<u64>) -> bool
    ensures { result ≡ same_number listed number }
{
    match (listed, number) {
        (None, None) => true,
        (Some(m), Some(n)) => m as u64 == n,
        _ => false,
    }
}

// The calls of the arm with this number, and of its stages.
fn calls_of_arm(alloc: Global, listed: &[Listed], arm: u64) -> Result<Seq<Listed>, NoMemory>
    ensures { IfOk result (λ v. v ≡ of_arm arm listed.now) }
{
    let mut calls = Seq::new(alloc);
    for call in listed {
        if is_number(call.arm, Some(arm)) {
            calls.push(*call)?;
        }
    }
    Ok(calls)
}

// The calls of the stage with this number.
fn calls_of_stage(alloc: Global, listed: &[Listed], stage: u64) -> Result<Seq<Listed>, NoMemory>
    ensures { IfOk result (λ v. v ≡ of_stage stage listed.now) }
{
    let mut calls = Seq::new(alloc);
    for call in listed {
        if is_number(call.stage, Some(stage)) {
            calls.push(*call)?;
        }
    }
    Ok(calls)
}

impl Plan {
    /// The plan of a disk of which no call is listed. Takes no memory.
    pub fn none(alloc: Global) -> Plan
        ensures { result ≡ fresh None None [] }
    {
        Plan {
            arm: None,
            stage: None,
            listed: Seq::new(alloc),
            made: [0; 11],
            failed: 0,
        }
    }

    // Whether an entry names the next call of this kind.
    fn names_next(&self, kind: CallKind, listed: &Listed) -> bool
        ensures { result ≡ names_next self.now kind listed.now }
    {
        is_number(listed.arm, self.arm)
            && is_number(listed.stage, self.stage)
            && place(listed.kind) == place(kind)
            && listed.number as u64 == self.made[place(kind)]
    }

    // Whether the next call of this kind is listed.
    fn is_listed(&self, kind: CallKind) -> bool
        ensures { result ≡ is_listed self.now kind }
    {
        self.listed
            .as_slice()
            .iter()
            .any(|l| self.names_next(kind, l))
    }

    /// Counts a call, which fails where it is listed or for another cause, and says whether it fails.
    pub fn call(&mut self, kind: CallKind, other_cause: bool) -> bool
        ensures fails { result ≡ (other_cause || is_listed self.old kind) }
        ensures plan { self.new ≡ called kind (other_cause || is_listed self.old kind) self.old }
        ensures later { self.old.failed ≤ self.new.failed }
    {
        let fails = other_cause || self.is_listed(kind);
        let made = self.made[place(kind)];
        self.made[place(kind)] = made.saturating_add(1);
        if fails {
            self.failed = self.failed.saturating_add(1);
        }
        fails
    }

    /// Takes over a count of failed calls.
    pub fn take(&mut self, failed: u64)
        ensures plan { self.new ≡ taken failed self.old }
        ensures later { self.old.failed ≤ self.new.failed }
    {
        if failed > 0 {
            self.failed = self.failed.saturating_add(1);
        }
    }

    /// Lists more calls.
    ///
    /// `NoMemory` where the allocation failed; the list stays as it was.
    pub fn list(&mut self, calls: &[Listed]) -> Result<(), NoMemory>
        ensures ok { OnOk result
            (self.new ≡ record self.old { listed = self.old.listed ++ calls.now }) }
        ensures err { OnErr result (self.new ≡ self.old) }
    {
        self.listed.extend(calls)
    }

    /// The plan of the arm that the next `arm` call makes.
    pub fn next_arm(&self, alloc: Global) -> Result<Plan, NoMemory>
        ensures { IfOk result (λ p. p ≡ next_arm self.now) }
    {
        let arm = self.made[place(CallKind::Arm)];
        Ok(Plan {
            arm: Some(arm),
            stage: None,
            listed: calls_of_arm(alloc, self.listed.as_slice(), arm)?,
            made: [0; 11],
            failed: 0,
        })
    }

    /// The plan of the stage that the next `stage` call makes.
    pub fn next_stage(&self, alloc: Global) -> Result<Plan, NoMemory>
        ensures { IfOk result (λ p. p ≡ next_stage self.now) }
    {
        let stage = self.made[place(CallKind::Stage)];
        Ok(Plan {
            arm: self.arm,
            stage: Some(stage),
            listed: calls_of_stage(alloc, self.listed.as_slice(), stage)?,
            made: [0; 11],
            failed: 0,
        })
    }
}
