// The clauses of a CREATE TABLE: each at most once, in any order.
ghost use Rattle.std.specs.Prelude.{◌≡◌, Bool, List};
ghost use Rattle.std.specs.List.{list_any};
ghost use Rattle.mt_values.specs.declared.statement.Clause.{Clause};
ghost use Rattle.mt_values.specs.declared.statement.Statement.{Statement};
ghost use Rattle.mt_values.specs.declared.token.Placed.{Placed};
ghost use Rattle.mt_values.specs.Grammar.{begins, clauses, is_granularity, is_order_by, is_partition_by, is_primary_key, order_by, partition_by, primary_key, settings};
ghost use Rattle.mt_values.specs.Readers.{Part};
ghost use Rattle.sql_read.specs.Parts.{found_clause, next_clause};
ghost use Rattle.sql_read.specs.Reads.{Reads, first_is};

use crate::cursor::Cursor;
use mt_base::{Seq, Stop};
use mt_values::{Clause, Slip, Symbol};
use std::alloc::Global;

/// A CREATE has no more clauses than this: one of each kind.
const CLAUSE_LIMIT: usize = 4;

// Whether an ORDER BY is among the clauses.
fn has_order_by(clauses: &[Clause]) -> bool
    ensures { result ≡ list_any is_order_by clauses.now }
{
    clauses
        .iter()
        .any(|clause| matches!(clause, Clause::OrderBy(_)))
}

// Whether a PARTITION BY is among the clauses.
fn has_partition_by(clauses: &[Clause]) -> bool
    ensures { result ≡ list_any is_partition_by clauses.now }
{
    clauses
        .iter()
        .any(|clause| matches!(clause, Clause::PartitionBy(_)))
}

// Whether a PRIMARY KEY is among the clauses.
fn has_primary_key(clauses: &[Clause]) -> bool
    ensures { result ≡ list_any is_primary_key clauses.now }
{
    clauses
        .iter()
        .any(|clause| matches!(clause, Clause::PrimaryKey(_)))
}

// Whether a clause that says the granularity is among the clauses.
fn has_granularity(clauses: &[Clause]) -> bool
    ensures { result ≡ list_any is_granularity clauses.now }
{
    clauses
        .iter()
        .any(|clause| matches!(clause, Clause::Granularity(_)))
}

// A clause that came next, as it was read.
fn found(clause: Result<Clause, Stop<Slip>>) -> Result<Option<Clause>, Stop<Slip>>
    ensures { (part : Part Statement Clause) (from to : List Placed)
        → Reads part from clause to → Reads (found_clause part) from result to }
{
    match clause {
        Ok(clause) => Ok(Some(clause)),
        Err(stop) => Err(stop),
    }
}

impl Cursor<'_> {
    // Whether this keyword comes next and begins a clause: of its kind none was read yet.
    fn begins(&self, wanted: &[u8], is_read: bool) -> bool
        ensures { (kind : Clause → Bool) (seen : List Clause) → is_read ≡ list_any kind seen
            → result ≡ first_is (begins wanted.now kind seen) self.now }
    {
        self.at_keyword(wanted) && !is_read
    }

    // order_by = ORDER BY key
    fn order_by(&mut self, alloc: Global) -> Result<Clause, Stop<Slip>>
        ensures { Reads order_by self.old result self.new }
    {
        let names = self.key_after(alloc, b"ORDER", b"BY")?;
        Ok(Clause::OrderBy(names))
    }

    // partition_by = PARTITION BY name
    fn partition_by(&mut self, alloc: Global) -> Result<Clause, Stop<Slip>>
        ensures { Reads partition_by self.old result self.new }
    {
        let name = self.name_after(alloc, b"PARTITION", b"BY")?;
        Ok(Clause::PartitionBy(name))
    }

    // primary_key = PRIMARY KEY key
    fn primary_key(&mut self, alloc: Global) -> Result<Clause, Stop<Slip>>
        ensures { Reads primary_key self.old result self.new }
    {
        let names = self.key_after(alloc, b"PRIMARY", b"KEY")?;
        Ok(Clause::PrimaryKey(names))
    }

    // settings = SETTINGS index_granularity "=" number
    fn settings(&mut self, alloc: Global) -> Result<Clause, Stop<Slip>>
        ensures { Reads settings self.old result self.new }
    {
        self.keyword(b"SETTINGS")?;
        self.exactly(b"index_granularity")?;
        self.symbol(Symbol::Equal)?;
        let digits = self.number(alloc)?;
        Ok(Clause::Granularity(digits))
    }

    // One more clause, of a kind that is not among those before it; none where none comes and ORDER BY is among them.
    fn next_clause(&mut self, alloc: Global, seen: &[Clause]) -> Result<Option<Clause>, Stop<Slip>>
        ensures { Reads (next_clause seen.now) self.old result self.new }
    {
        if self.begins(b"PARTITION", has_partition_by(seen)) {
            return found(self.partition_by(alloc));
        }
        if self.begins(b"PRIMARY", has_primary_key(seen)) {
            return found(self.primary_key(alloc));
        }
        if self.begins(b"SETTINGS", has_granularity(seen)) {
            return found(self.settings(alloc));
        }
        if has_order_by(seen) {
            return Ok(None);
        }
        found(self.order_by(alloc))
    }

    /// The clauses of a CREATE, in the order of the text. Their names and digits are copied, once.
    pub fn clauses(&mut self, alloc: Global) -> Result<Seq<Clause>, Stop<Slip>>
        ensures { Reads clauses self.old result self.new }
    {
        let mut seen = Seq::new(alloc);
        for count in 0..CLAUSE_LIMIT {
            match self.next_clause(alloc, seen.as_slice())? {
                Some(clause) => seen.push(clause)?,
                None => return Ok(seen),
            }
        }
        Ok(seen)
    }
}
