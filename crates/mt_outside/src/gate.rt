// Where a test may hold a session or a merger.

/// Who passes a gate.
#[derive(Clone, Copy)]
pub enum Who {
    /// The session with this number; 0 is the script's own.
    Session(u64),
    /// The merger with this number of its group, from 1.
    Merger(u32),
}

/// Where a gate is passed. No pass is made while a lock is held.
#[derive(Clone, Copy)]
pub enum Point {
    /// A statement is about to be run.
    StatementStart,
    /// The snapshot of a SELECT is held.
    ScanStart,
    /// The reply of a statement is formed.
    Answered,
    /// A merger holds a unit of work.
    WorkTaken,
}

/// What a session or a merger passes on its way. A pass means nothing for the answers.
pub trait Gate: Drop + Send {
    /// Passes; it may hold the caller for a while.
    fn pass(&mut self, who: Who, point: Point);

    /// A gate for another session or merger.
    fn fork(&self) -> Self;
}

/// A gate that holds nobody.
#[derive(Clone, Copy)]
pub struct OpenGate;

impl Gate for OpenGate {
    fn pass(&mut self, _who: Who, _point: Point) {}

    fn fork(&self) -> Self {
        OpenGate
    }
}
