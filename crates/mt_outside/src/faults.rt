// Counts of failed calls.
ghost use Rattle.std.specs.Prelude.{◌≡◌, ◌<◌, ◌≤◌, IsErrOf, OnErr, OnOk, true, false, nat_lt, if◌then◌else◌};
ghost use Rattle.mt_outside.specs.Causes.{Rose};
ghost use Rattle.mt_outside.specs.DiskCauses.{HasDiskCause};
ghost use Rattle.mt_outside.specs.Counts.{next, counted};

use crate::DiskError;

/// A count of failed calls, as far as 64 bits count.
#[derive(Drop)]
pub struct Faults {
    pub count: u64,
}

impl Faults {
    /// No call has failed.
    pub fn none() -> Faults
        ensures { result.count ≡ 0 }
    {
        Faults { count: 0 }
    }

    /// One more call has failed.
    pub fn raise(&mut self)
        ensures count { self.new.count ≡ next self.old.count }
        ensures rose { Rose self.old.count self.new.count }
        ensures later { self.old.count ≤ self.new.count }
    {
        self.count = self.count.saturating_add(1);
    }

    /// Passes on how a call ended. Where it is a fault, one more call has failed.
    pub fn note<T>(&mut self, outcome: Result<T, DiskError>) -> Result<T, DiskError>
        ensures same { result ≡ outcome }
        ensures count { self.new.count ≡ counted outcome self.old.count }
        ensures cause { HasDiskCause self.old.count self.new.count result }
    {
        if let Err(DiskError::Fault) = &outcome {
            self.raise();
        }
        outcome
    }

    /// Answers a call that has no other error than a fault. Where it was not done, one more call has failed.
    pub fn finish(&mut self, done: bool) -> Result<(), DiskError>
        ensures ok { OnOk result (done ≡ true) }
        ensures err { OnErr result (done ≡ false) }
        ensures takes_none { IsErrOf result DiskError.NoMemory → ⊥ }
        ensures cause { HasDiskCause self.old.count self.new.count result }
    {
        if done {
            return Ok(());
        }
        self.raise();
        Err(DiskError::Fault)
    }

    /// Takes over the count of an object that is given up: where calls of it had failed, one more has failed here.
    pub fn take(&mut self, failed: u64)
        ensures count { self.new.count ≡
            (if nat_lt 0 failed then next self.old.count else self.old.count) }
        ensures taken { 0 < failed → Rose self.old.count self.new.count }
        ensures none_failed { failed ≡ 0 → self.new.count ≡ self.old.count }
        ensures later { self.old.count ≤ self.new.count }
    {
        if failed > 0 {
            self.raise();
        }
    }
}
