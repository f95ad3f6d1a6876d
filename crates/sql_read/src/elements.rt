// The elements of a CREATE TABLE: its columns and its indexes, in any order. docs/grammar.md, "Statements".
//
// INDEX is no name, so the first token of an element says which it is.
ghost use Rattle.std.specs.Prelude.{◌<◌, OnOk, length};
ghost use Rattle.mt_values.specs.Grammar.{aggregated_type, column, column_type, index, index_kind, list_of, plain_type, set_kind, table_element};
ghost use Rattle.sql_read.specs.Parts.{created_elements, index_granularity, index_type, minmax_kind};
ghost use Rattle.sql_read.specs.Reads.{Reads};

use crate::cursor::Cursor;
use mt_base::{Seq, Stop};
use mt_values::{Aggregate, Bytes, ColType, Column, Element, IndexText, KindText, Slip, Symbol};
use std::alloc::Global;

impl Cursor<'_> {
    // plain
    fn plain_type(&mut self) -> Result<(ColType, Option<Aggregate>), Stop<Slip>>
        ensures read { Reads plain_type self.old result self.new }
        ensures less { OnOk result (length self.new < length self.old) }
    {
        let col_type = self.plain()?;
        Ok((col_type, None))
    }

    // SimpleAggregateFunction "(" function "," plain ")"
    fn aggregated_type(&mut self) -> Result<(ColType, Option<Aggregate>), Stop<Slip>>
        ensures read { Reads aggregated_type self.old result self.new }
        ensures less { OnOk result (length self.new < length self.old) }
    {
        self.exactly(b"SimpleAggregateFunction")?;
        self.symbol(Symbol::Open)?;
        let function = self.function()?;
        self.symbol(Symbol::Comma)?;
        let col_type = self.plain()?;
        self.symbol(Symbol::Close)?;
        Ok((col_type, Some(function)))
    }

    // type = plain | SimpleAggregateFunction "(" function "," plain ")"
    fn column_type(&mut self) -> Result<(ColType, Option<Aggregate>), Stop<Slip>>
        ensures read { Reads column_type self.old result self.new }
        ensures less { OnOk result (length self.new < length self.old) }
    {
        if self.at_exactly(b"SimpleAggregateFunction") {
            return self.aggregated_type();
        }
        self.plain_type()
    }

    // column = name type
    fn column(&mut self, alloc: Global) -> Result<Element, Stop<Slip>>
        ensures read { Reads column self.old result self.new }
        ensures less { OnOk result (length self.new < length self.old) }
    {
        let name = self.name(alloc)?;
        let (col_type, function) = self.column_type()?;
        Ok(Element::Column(Column {
            name,
            col_type,
            function,
        }))
    }

    // minmax
    fn minmax_kind(&mut self) -> Result<KindText, Stop<Slip>>
        ensures read { Reads minmax_kind self.old result self.new }
        ensures less { OnOk result (length self.new < length self.old) }
    {
        self.exactly(b"minmax")?;
        Ok(KindText::MinMax)
    }

    // set "(" number ")"
    fn set_kind(&mut self, alloc: Global) -> Result<KindText, Stop<Slip>>
        ensures read { Reads set_kind self.old result self.new }
        ensures less { OnOk result (length self.new < length self.old) }
    {
        self.exactly(b"set")?;
        self.symbol(Symbol::Open)?;
        let digits = self.number(alloc)?;
        self.symbol(Symbol::Close)?;
        Ok(KindText::Set(digits))
    }

    // kind = minmax | set "(" number ")"
    fn index_kind(&mut self, alloc: Global) -> Result<KindText, Stop<Slip>>
        ensures read { Reads index_kind self.old result self.new }
        ensures less { OnOk result (length self.new < length self.old) }
    {
        if self.at_exactly(b"minmax") {
            return self.minmax_kind();
        }
        self.set_kind(alloc)
    }

    // TYPE kind
    fn index_type(&mut self, alloc: Global) -> Result<KindText, Stop<Slip>>
        ensures read { Reads index_type self.old result self.new }
        ensures less { OnOk result (length self.new < length self.old) }
    {
        self.keyword(b"TYPE")?;
        self.index_kind(alloc)
    }

    // GRANULARITY number
    fn index_granularity(&mut self, alloc: Global) -> Result<Bytes, Stop<Slip>>
        ensures read { Reads index_granularity self.old result self.new }
        ensures less { OnOk result (length self.new < length self.old) }
    {
        self.keyword(b"GRANULARITY")?;
        self.number(alloc)
    }

    // index = INDEX name name TYPE kind GRANULARITY number
    fn index(&mut self, alloc: Global) -> Result<Element, Stop<Slip>>
        ensures read { Reads index self.old result self.new }
        ensures less { OnOk result (length self.new < length self.old) }
    {
        self.keyword(b"INDEX")?;
        let name = self.name(alloc)?;
        let column = self.name(alloc)?;
        let kind = self.index_type(alloc)?;
        let granularity = self.index_granularity(alloc)?;
        Ok(Element::Index(IndexText {
            name,
            column,
            kind,
            granularity,
        }))
    }

    // element = column | index
    fn element(&mut self, alloc: Global) -> Result<Element, Stop<Slip>>
        ensures read { Reads table_element self.old result self.new }
        ensures less { OnOk result (length self.new < length self.old) }
    {
        if self.at_keyword(b"INDEX") {
            return self.index(alloc);
        }
        self.column(alloc)
    }

    // element { "," element }
    fn elements(&mut self, alloc: Global) -> Result<Seq<Element>, Stop<Slip>>
        ensures { Reads (list_of table_element) self.old result self.new }
    {
        let mut elements = Seq::new(alloc);
        'elements: loop {
            let element = self.element(alloc)?;
            elements.push(element)?;
            if !self.skip(Symbol::Comma) {
                return Ok(elements);
            }
        }
    }

    /// The columns and indexes of a CREATE in their parentheses, in the order of the text. Their names and digits are copied,
    /// once.
    pub fn created_elements(&mut self, alloc: Global) -> Result<Seq<Element>, Stop<Slip>>
        ensures { Reads created_elements self.old result self.new }
    {
        self.symbol(Symbol::Open)?;
        let elements = self.elements(alloc)?;
        self.symbol(Symbol::Close)?;
        Ok(elements)
    }
}
