// How a run ends.
ghost use Rattle.std.specs.Prelude.{◌≡◌};
ghost use Rattle.mt_program.specs.Statuses.{status_number};

/// How a run ends: by what ends it early, or else, at the script's end, by damage before a disk's fault before a refusal.
#[derive(Clone, Copy)]
pub enum Status {
    /// All statements were answered, none was refused.
    Done,
    /// All statements were answered, at least one was refused.
    Refused,
    /// The words are no command line.
    NotWords,
    /// The source failed.
    ReadFault,
    /// The sink failed.
    WriteFault,
    /// The disk's count of faults rose, or stood at its type's end before.
    DiskFault,
    NoMemory,
    /// The root was found damaged as it was opened, or a reply told of damage.
    Damaged,
    /// 2^40 bytes were read, and no end was met.
    TooLong,
}

impl Status {
    /// The number with which the program ends.
    pub fn number(self) -> u8
        ensures { result ≡ status_number self }
    {
        match self {
            Status::Done => 0,
            Status::Refused => 1,
            Status::NotWords => 2,
            Status::ReadFault => 3,
            Status::WriteFault => 4,
            Status::DiskFault => 5,
            Status::NoMemory => 6,
            Status::Damaged => 7,
            Status::TooLong => 8,
        }
    }
}
