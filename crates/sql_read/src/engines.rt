// The engine of a CREATE TABLE with its arguments. docs/grammar.md, "Statements".
//
// The first word says which engine it is. Only those of the plain and of the aggregating one have no arguments, and only
// those of the collapsing ones must have some.
ghost use Rattle.std.specs.Prelude.{◌≡◌, [], None};
ghost use Rattle.mt_values.specs.Grammar.{aggregating_engine, collapsing_engine, engine, key, optional, plain_engine, replacing_engine, some_name, summing_engine, two_names, versioned_engine};
ghost use Rattle.mt_values.specs.Readers.{Reader, either};
ghost use Rattle.mt_values.specs.declared.statement.Statement.{Statement};
ghost use Rattle.sql_read.specs.Parts.{argument_or, created_engine, empty_arguments};
ghost use Rattle.sql_read.specs.Reads.{Reads};

use crate::cursor::Cursor;
use mt_base::{Seq, Stop};
use mt_values::{EngineText, Name, Slip, Symbol};
use std::alloc::Global;

impl Cursor<'_> {
    // [ "(" ")" ]
    fn empty_arguments(&mut self) -> Result<(), Stop<Slip>>
        ensures { Reads empty_arguments self.old result self.new }
    {
        if !self.skip(Symbol::Open) {
            return Ok(());
        }
        self.symbol(Symbol::Close)
    }

    // [ "(" [ ")" ] ]: whether an argument must follow, and then a ")".
    fn opens_argument(&mut self) -> bool
        ensures { (argument none : Reader Statement)
            → argument_or argument none self.old ≡ either result argument none self.new }
    {
        if !self.skip(Symbol::Open) {
            return false;
        }
        !self.skip(Symbol::Close)
    }

    // [ "(" [ name ] ")" ]
    fn optional_name(&mut self, alloc: Global) -> Result<Option<Name>, Stop<Slip>>
        ensures { Reads (optional None some_name) self.old result self.new }
    {
        if !self.opens_argument() {
            return Ok(None);
        }
        let name = self.name(alloc)?;
        self.symbol(Symbol::Close)?;
        Ok(Some(name))
    }

    // [ "(" [ key ] ")" ]
    fn optional_key(&mut self, alloc: Global) -> Result<Seq<Name>, Stop<Slip>>
        ensures { Reads (optional [] key) self.old result self.new }
    {
        if !self.opens_argument() {
            return Ok(Seq::new(alloc));
        }
        let names = self.key(alloc)?;
        self.symbol(Symbol::Close)?;
        Ok(names)
    }

    // name "," name
    fn two_names(&mut self, alloc: Global) -> Result<(Name, Name), Stop<Slip>>
        ensures { Reads two_names self.old result self.new }
    {
        let first = self.name(alloc)?;
        self.symbol(Symbol::Comma)?;
        let second = self.name(alloc)?;
        Ok((first, second))
    }

    // MergeTree [ "(" ")" ]
    fn plain_engine(&mut self) -> Result<EngineText, Stop<Slip>>
        ensures { Reads plain_engine self.old result self.new }
    {
        self.exactly(b"MergeTree")?;
        self.empty_arguments()?;
        Ok(EngineText::Plain)
    }

    // AggregatingMergeTree [ "(" ")" ]
    fn aggregating_engine(&mut self) -> Result<EngineText, Stop<Slip>>
        ensures { Reads aggregating_engine self.old result self.new }
    {
        self.exactly(b"AggregatingMergeTree")?;
        self.empty_arguments()?;
        Ok(EngineText::Aggregating)
    }

    // ReplacingMergeTree [ "(" [ name ] ")" ]
    fn replacing_engine(&mut self, alloc: Global) -> Result<EngineText, Stop<Slip>>
        ensures { Reads replacing_engine self.old result self.new }
    {
        self.exactly(b"ReplacingMergeTree")?;
        let version = self.optional_name(alloc)?;
        Ok(EngineText::Replacing(version))
    }

    // SummingMergeTree [ "(" [ key ] ")" ]
    fn summing_engine(&mut self, alloc: Global) -> Result<EngineText, Stop<Slip>>
        ensures { Reads summing_engine self.old result self.new }
    {
        self.exactly(b"SummingMergeTree")?;
        let names = self.optional_key(alloc)?;
        Ok(EngineText::Summing(names))
    }

    // CollapsingMergeTree "(" name ")"
    fn collapsing_engine(&mut self, alloc: Global) -> Result<EngineText, Stop<Slip>>
        ensures { Reads collapsing_engine self.old result self.new }
    {
        self.exactly(b"CollapsingMergeTree")?;
        self.symbol(Symbol::Open)?;
        let sign = self.name(alloc)?;
        self.symbol(Symbol::Close)?;
        Ok(EngineText::Collapsing(sign))
    }

    // VersionedCollapsingMergeTree "(" name "," name ")"
    fn versioned_engine(&mut self, alloc: Global) -> Result<EngineText, Stop<Slip>>
        ensures { Reads versioned_engine self.old result self.new }
    {
        self.exactly(b"VersionedCollapsingMergeTree")?;
        self.symbol(Symbol::Open)?;
        let (sign, version) = self.two_names(alloc)?;
        self.symbol(Symbol::Close)?;
        Ok(EngineText::Versioned { sign, version })
    }

    // engine = one of the six
    fn engine(&mut self, alloc: Global) -> Result<EngineText, Stop<Slip>>
        ensures { Reads engine self.old result self.new }
    {
        if self.at_exactly(b"ReplacingMergeTree") {
            return self.replacing_engine(alloc);
        }
        if self.at_exactly(b"SummingMergeTree") {
            return self.summing_engine(alloc);
        }
        if self.at_exactly(b"CollapsingMergeTree") {
            return self.collapsing_engine(alloc);
        }
        if self.at_exactly(b"VersionedCollapsingMergeTree") {
            return self.versioned_engine(alloc);
        }
        if self.at_exactly(b"AggregatingMergeTree") {
            return self.aggregating_engine();
        }
        self.plain_engine()
    }

    /// ENGINE "=" engine. The names of its columns are copied, once.
    pub fn created_engine(&mut self, alloc: Global) -> Result<EngineText, Stop<Slip>>
        ensures { Reads created_engine self.old result self.new }
    {
        self.keyword(b"ENGINE")?;
        self.symbol(Symbol::Equal)?;
        self.engine(alloc)
    }
}
