// The calls of a disk in memory.
ghost use Rattle.std.specs.Prelude.{◌≡◌, ◌≤◌, ◌||◌, None, []};
ghost use Rattle.fault_plan.specs.Plan.{is_listed, called, fresh};
ghost use Rattle.disk_mem.specs.Disks.{at_stop, one_less};

use fault_plan::{CallKind, Plan};
use std::alloc::Global;

/// The calls of a disk, which may stop.
#[derive(Drop)]
pub struct DiskCalls {
    pub plan: Plan,
    /// How many more calls pass, where the disk is to stop.
    pub stop: Option<u64>,
}

impl DiskCalls {
    /// No call is listed, and no stop is set. Takes no memory.
    pub fn none(alloc: Global) -> DiskCalls
        ensures plan { result.plan ≡ fresh None None [] }
        ensures stop { result.stop ≡ None }
    {
        DiskCalls {
            plan: Plan::none(alloc),
            stop: None,
        }
    }

    // Whether the disk was stopped.
    fn is_stopped(&self) -> bool
        ensures { result ≡ at_stop self.now.stop }
    {
        match self.stop {
            Some(left) => left == 0,
            None => false,
        }
    }

    /// Counts a call, which fails where the disk was stopped, where it is listed or for another cause, and says whether it fails.
    pub fn call(&mut self, kind: CallKind, other_cause: bool) -> bool
        ensures fails { result ≡
            (other_cause || (at_stop self.old.stop || is_listed self.old.plan kind)) }
        ensures plan { self.new.plan ≡ called kind
            (other_cause || (at_stop self.old.stop || is_listed self.old.plan kind)) self.old.plan }
        ensures stop { self.new.stop ≡ one_less self.old.stop }
        ensures later { self.old.plan.failed ≤ self.new.plan.failed }
    {
        let stopped = self.is_stopped();
        if let Some(left) = self.stop {
            self.stop = Some(left.saturating_sub(1));
        }
        self.plan.call(kind, other_cause || stopped)
    }
}
