// How many rows a merge has in memory, beside those in the state of its rule.
ghost use Rattle.std.specs.Prelude.{◌≡◌};
ghost use Rattle.row_merge.specs.Held.{appended, gave, no_rows, read_more, took, took_some};

/// Counts of rows in memory: those that were read and not yet taken, and those that it gave and that are not yet appended.
#[derive(Debug, Clone, Copy, PartialEq, Eq)]
pub struct Held {
    pub read: u64,
    pub made: u64,
    /// The greatest values of these so far.
    pub most_read: u64,
    pub most_made: u64,
    /// The greatest number of rows that the rule gave at once.
    pub most_given: u64,
}

impl Held {
    /// No rows.
    pub fn new() -> Self
        ensures { result ≡ no_rows }
    {
        Held {
            read: 0,
            made: 0,
            most_read: 0,
            most_made: 0,
            most_given: 0,
        }
    }

    /// This many rows were read.
    pub(crate) fn read_more(&mut self, rows: u64)
        ensures { self.new ≡ read_more rows self.old }
    {
        self.read = self.read.saturating_add(rows);
        self.most_read = self.most_read.max(self.read);
    }

    /// A row was taken: the rule gets it, or it was copied or left out.
    pub(crate) fn took(&mut self)
        ensures { self.new ≡ took self.old }
    {
        self.read = self.read.saturating_sub(1);
    }

    /// This many rows were copied, without the rule.
    pub(crate) fn took_some(&mut self, rows: u64)
        ensures { self.new ≡ took_some rows self.old }
    {
        self.read = self.read.saturating_sub(rows);
    }

    /// The rule gave this many rows at once.
    pub(crate) fn gave(&mut self, rows: u64)
        ensures { self.new ≡ gave rows self.old }
    {
        self.made = self.made.saturating_add(rows);
        self.most_made = self.most_made.max(self.made);
        self.most_given = self.most_given.max(rows);
    }

    /// This many of the rows that the rule gave were appended.
    pub(crate) fn appended(&mut self, rows: u64)
        ensures { self.new ≡ appended rows self.old }
    {
        self.made = self.made.saturating_sub(rows);
    }
}
