// The productions of the grammar, each of which takes its tokens from the left.
ghost use Rattle.std.specs.Prelude.{◌∷◌, [], Bool, List};
ghost use Rattle.mt_values.specs.declared.token.Placed.{Placed};
ghost use Rattle.mt_values.specs.Grammar.{create, explain, insert, key, list_of, one_name, optimize, partition_id, select, select_text, selection};
ghost use Rattle.sql_read.specs.Parts.{inserted_format, key_after, name_after, selected_table};
ghost use Rattle.sql_read.specs.Reads.{Ends, IsRead, Reads, ReadsEnd};

use crate::cursor::Cursor;
use mt_base::{Seq, Stop};
use mt_values::{
    Bytes, CreateText, InsertText, Name, OptimizeText, SelectText, Selected, Slip, Statement,
    Symbol,
};
use std::alloc::Global;

// The list of one name.
fn only(alloc: Global, name: Name) -> Result<Seq<Name>, Stop<Slip>>
    ensures { (tokens : List Placed) → Reads (λ next. next (name ∷ [])) tokens result tokens }
{
    let mut names = Seq::new(alloc);
    names.push(name)?;
    Ok(names)
}

impl Cursor<'_> {
    // name { "," name }
    fn names(&mut self, alloc: Global) -> Result<Seq<Name>, Stop<Slip>>
        ensures { Reads (list_of one_name) self.old result self.new }
    {
        let mut names = Seq::new(alloc);
        'names: loop {
            let name = self.name(alloc)?;
            names.push(name)?;
            if !self.skip(Symbol::Comma) {
                return Ok(names);
            }
        }
    }

    /// key = name | "(" name { "," name } ")"
    pub fn key(&mut self, alloc: Global) -> Result<Seq<Name>, Stop<Slip>>
        ensures { Reads key self.old result self.new }
    {
        if self.skip(Symbol::Open) {
            let names = self.names(alloc)?;
            self.symbol(Symbol::Close)?;
            return Ok(names);
        }
        let name = self.name(alloc)?;
        only(alloc, name)
    }

    // selected = "*" | name { "," name }
    fn selection(&mut self, alloc: Global) -> Result<Selected, Stop<Slip>>
        ensures { Reads selection self.old result self.new }
    {
        if self.skip(Symbol::Star) {
            return Ok(Selected::All);
        }
        let names = self.names(alloc)?;
        Ok(Selected::Named(names))
    }

    // The semicolon that ends a statement, after which no token may stand.
    fn end(&mut self) -> Result<(), Stop<Slip>>
        ensures { Ends self.old result self.new }
    {
        self.symbol(Symbol::Semicolon)?;
        if !self.rest().is_empty() {
            return Err(Stop::Refused(Slip::Wrong));
        }
        Ok(())
    }

    /// Two keywords and a name, as CREATE TABLE name.
    pub fn name_after(
        &mut self,
        alloc: Global,
        first: &[u8],
        second: &[u8],
    ) -> Result<Name, Stop<Slip>>
        ensures { Reads (name_after first.now second.now) self.old result self.new }
    {
        self.keyword(first)?;
        self.keyword(second)?;
        self.name(alloc)
    }

    /// Two keywords and a key, as ORDER BY key.
    pub fn key_after(
        &mut self,
        alloc: Global,
        first: &[u8],
        second: &[u8],
    ) -> Result<Seq<Name>, Stop<Slip>>
        ensures { Reads (key_after first.now second.now) self.old result self.new }
    {
        self.keyword(first)?;
        self.keyword(second)?;
        self.key(alloc)
    }

    // [ FORMAT format ], and the statement's end
    fn inserted_format(&mut self) -> Result<(), Stop<Slip>>
        ensures { ReadsEnd inserted_format self.old result self.new }
    {
        if !self.skip_keyword(b"FORMAT") {
            return self.end();
        }
        self.format()?;
        self.end()
    }

    // FROM name
    fn selected_table(&mut self, alloc: Global) -> Result<Name, Stop<Slip>>
        ensures { Reads selected_table self.old result self.new }
    {
        self.keyword(b"FROM")?;
        self.name(alloc)
    }

    /// A CREATE of this text. Its bytes and its names are copied, once.
    pub fn create(&mut self, alloc: Global, text: &[u8]) -> Result<Statement, Stop<Slip>>
        ensures { IsRead (create text.now) self.old result self.new }
    {
        let table = self.name_after(alloc, b"CREATE", b"TABLE")?;
        let elements = self.created_elements(alloc)?;
        let engine = self.created_engine(alloc)?;
        let clauses = self.clauses(alloc)?;
        self.end()?;
        let text = Seq::from_slice(alloc, text)?;
        Ok(Statement::Create(CreateText {
            text,
            table,
            elements,
            engine,
            clauses,
        }))
    }

    /// An INSERT with these lines of data, which are copied, once, and only where the statement is of the grammar.
    pub fn insert(
        &mut self,
        alloc: Global,
        lines: &[u8],
        ended: bool,
    ) -> Result<Statement, Stop<Slip>>
        ensures { IsRead (insert lines.now ended) self.old result self.new }
    {
        let table = self.name_after(alloc, b"INSERT", b"INTO")?;
        self.inserted_format()?;
        let lines = Seq::from_slice(alloc, lines)?;
        Ok(Statement::Insert(InsertText {
            table,
            lines,
            ended,
        }))
    }

    // SELECT selected FROM name [ FINAL ] [ WHERE expr ]
    fn select_text(&mut self, alloc: Global) -> Result<SelectText, Stop<Slip>>
        ensures { Reads select_text self.old result self.new }
    {
        self.keyword(b"SELECT")?;
        let columns = self.selection(alloc)?;
        let table = self.selected_table(alloc)?;
        let is_final = self.skip_keyword(b"FINAL");
        let condition = self.condition(alloc)?;
        Ok(SelectText {
            columns,
            table,
            is_final,
            condition,
        })
    }

    /// A SELECT. Its names and literals are copied, once.
    pub fn select(&mut self, alloc: Global) -> Result<Statement, Stop<Slip>>
        ensures { IsRead select self.old result self.new }
    {
        let asked = self.select_text(alloc)?;
        self.end()?;
        Ok(Statement::Select(asked))
    }

    /// EXPLAIN and a SELECT. Its names and literals are copied, once.
    pub fn explain(&mut self, alloc: Global) -> Result<Statement, Stop<Slip>>
        ensures { IsRead explain self.old result self.new }
    {
        self.keyword(b"EXPLAIN")?;
        let asked = self.select_text(alloc)?;
        self.end()?;
        Ok(Statement::Explain(asked))
    }

    // [ PARTITION ID string ]
    fn partition_id(&mut self, alloc: Global) -> Result<Option<Bytes>, Stop<Slip>>
        ensures { Reads partition_id self.old result self.new }
    {
        if !self.skip_keyword(b"PARTITION") {
            return Ok(None);
        }
        self.keyword(b"ID")?;
        let id = self.string(alloc)?;
        Ok(Some(id))
    }

    /// OPTIMIZE TABLE name [ PARTITION ID string ] [ FINAL ]. Its name and the id are copied, once.
    pub fn optimize(&mut self, alloc: Global) -> Result<Statement, Stop<Slip>>
        ensures { IsRead optimize self.old result self.new }
    {
        let table = self.name_after(alloc, b"OPTIMIZE", b"TABLE")?;
        let partition = self.partition_id(alloc)?;
        let whole = self.skip_keyword(b"FINAL");
        self.end()?;
        Ok(Statement::Optimize(OptimizeText {
            table,
            partition,
            whole,
        }))
    }
}
