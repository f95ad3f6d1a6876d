// Where a byte of a script stands.

/// Where a byte of a statement's text stands.
#[derive(Clone, Copy, PartialEq, Eq)]
pub enum Place {
    Outside,
    InString,
    BehindBackslash,
    InComment,
}
