// What a seat or a note knows. Contracts speak of it, and no value of it is ever made.
use mt_values::Entry;
use std::collections::LinkedList;

/// Whose view it is.
pub enum Kind {
    /// Of a history that was not opened yet.
    Unopened,
    /// The lock's.
    Lock,
    /// A session's.
    Session,
    /// A note's, also of one that was taken in.
    Note,
}

/// What a seat or a note knows of the history.
pub struct View {
    pub kind: Kind,
    /// The entries after the base's, a front of those that there are.
    pub list: LinkedList<Entry>,
    /// Lists of which it learns at a load that they are fronts of its own.
    pub olds: LinkedList<LinkedList<Entry>>,
    /// The entries that the session added.
    pub mine: LinkedList<Entry>,
    /// The entry that the session tried last, where its commit failed and the session added none since.
    pub tried: Option<Entry>,
    /// Of who has the pen: the entry that is begun, since a session tried it, its commit failed, and none was added since. Of
    /// others: what it was when they had the pen.
    pub begun: Option<Entry>,
    /// The session's number; 0 also of what is no session.
    pub number: u64,
    /// How many sessions session 0 has made; 0 of all others.
    pub made: u64,
    /// Who has the pen has the whole list. There is one pen.
    pub pen: bool,
}
