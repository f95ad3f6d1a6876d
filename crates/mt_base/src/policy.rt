// Which neighbours are merged first.

/// Which pair of neighbours a merge takes (docs/engines.md, "Which parts are merged").
#[derive(Clone, Copy, Debug, PartialEq, Eq)]
pub enum Policy {
    /// The first pair in block order whose numbers of rows are near each other.
    Near,
    /// The first pair in block order.
    Head,
    /// The last pair in block order.
    Tail,
}
