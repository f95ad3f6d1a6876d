// The conditions of WHERE. docs/grammar.md, "Statements".
//
// AND and OR are loops; only a parenthesis or a NOT goes deeper, and at most `DEPTH_LIMIT` of them are open at once. Each
// part is added to those before it in time of its own size, at most once for each parenthesis around it: so the time of the
// whole is in proportion to its tokens.
ghost use Rattle.std.specs.Prelude.{◌≡◌, ◌+◌, ◌*◌, ◌<◌, ◌≤◌, Bool, IfOk, Ok, OnOk, length};
ghost use Rattle.mt_base.specs.Limits.{depth_limit};
ghost use Rattle.mt_values.specs.Conditions.{height};
ghost use Rattle.mt_values.specs.Grammar.{all_of, compared, comparing, holding, list_of, literal, membership, number_at, opened, opens, sign, some_of, term_within, test, text_at, where_part};
ghost use Rattle.sql_read.specs.Reads.{Reads, first_is};

use crate::cursor::Cursor;
use mt_base::{DEPTH_LIMIT, NoMemory, Seq, Stop};
use mt_values::{Comparison, Expr, Literal, LiteralText, Slip, Symbol, TestText};
use std::alloc::Global;

impl Cursor<'_> {
    // [ "+" | "-" ]: whether it is a minus
    fn sign(&mut self) -> bool
        ensures read { Reads sign self.old (Ok result) self.new }
        ensures no_more { length self.new ≤ length self.old }
    {
        if self.skip(Symbol::Plus) {
            return false;
        }
        self.skip(Symbol::Minus)
    }

    // [ "+" | "-" ] number, of a literal that begins at this place
    fn number_at(&mut self, alloc: Global, at: usize) -> Result<Literal, Stop<Slip>>
        ensures read { Reads (number_at at) self.old result self.new }
        ensures less { OnOk result (length self.new < length self.old) }
    {
        let negative = self.sign();
        let digits = self.number(alloc)?;
        let text = LiteralText::Number { negative, digits };
        Ok(Literal { at, text })
    }

    // A string, of a literal that begins at this place.
    fn text_at(&mut self, alloc: Global, at: usize) -> Result<Literal, Stop<Slip>>
        ensures read { Reads (text_at at) self.old result self.new }
        ensures less { OnOk result (length self.new < length self.old) }
    {
        let said = self.string(alloc)?;
        let text = LiteralText::Text(said);
        Ok(Literal { at, text })
    }

    // literal = [ "+" | "-" ] number | string
    fn literal(&mut self, alloc: Global) -> Result<Literal, Stop<Slip>>
        ensures read { Reads literal self.old result self.new }
        ensures less { OnOk result (length self.new < length self.old) }
    {
        let at = self.place();
        if self.at_text() {
            return self.text_at(alloc, at);
        }
        self.number_at(alloc, at)
    }

    // literal { "," literal }
    fn literals(&mut self, alloc: Global) -> Result<Seq<Literal>, Stop<Slip>>
        ensures read { Reads (list_of literal) self.old result self.new }
        ensures less { OnOk result (length self.new < length self.old) }
    {
        let mut literals = Seq::new(alloc);
        'literals: loop {
            let literal = self.literal(alloc)?;
            literals.push(literal)?;
            if !self.skip(Symbol::Comma) {
                return Ok(literals);
            }
        }
    }

    // IN "(" literal { "," literal } ")", which is `Equal` with one of several
    fn membership(&mut self, alloc: Global) -> Result<(Comparison, Seq<Literal>), Stop<Slip>>
        ensures read { Reads membership self.old result self.new }
        ensures less { OnOk result (length self.new < length self.old) }
    {
        self.keyword(b"IN")?;
        self.symbol(Symbol::Open)?;
        let literals = self.literals(alloc)?;
        self.symbol(Symbol::Close)?;
        Ok((Comparison::Equal, literals))
    }

    // op literal
    fn comparing(&mut self, alloc: Global) -> Result<(Comparison, Seq<Literal>), Stop<Slip>>
        ensures read { Reads comparing self.old result self.new }
        ensures less { OnOk result (length self.new < length self.old) }
    {
        let comparison = self.operator()?;
        let literal = self.literal(alloc)?;
        let mut literals = Seq::new(alloc);
        literals.push(literal)?;
        Ok((comparison, literals))
    }

    // A comparison with a literal, or with several.
    fn compared(&mut self, alloc: Global) -> Result<(Comparison, Seq<Literal>), Stop<Slip>>
        ensures read { Reads compared self.old result self.new }
        ensures less { OnOk result (length self.new < length self.old) }
    {
        if self.at_keyword(b"IN") {
            return self.membership(alloc);
        }
        self.comparing(alloc)
    }

    // test = name op literal | name IN "(" literal { "," literal } ")"
    fn test(&mut self, alloc: Global) -> Result<TestText, Stop<Slip>>
        ensures read { Reads test self.old result self.new }
        ensures less { OnOk result (length self.new < length self.old) }
    {
        let column = self.name(alloc)?;
        let (comparison, literals) = self.compared(alloc)?;
        Ok(TestText {
            column,
            comparison,
            literals,
        })
    }

    // The condition that is one test.
    fn holding(&mut self, alloc: Global) -> Result<Expr<TestText>, Stop<Slip>>
        ensures read { Reads holding self.old result self.new }
        ensures low { IfOk result (λ e. height e ≤ 1) }
        ensures less { OnOk result (length self.new < length self.old) }
    {
        let test = self.test(alloc)?;
        let found = Expr::of(alloc, test)?;
        Ok(found)
    }

    // Whether the next token opens a parenthesis or a NOT.
    fn opens(&self) -> bool
        ensures { result ≡ first_is opens self.now }
    {
        self.at_keyword(b"NOT") || self.at_symbol(Symbol::Open)
    }

    // term = NOT term | "(" expr ")" | test, with so many parentheses and NOTs that may still be opened. `TooDeep` at the first
    // that is one more.
    #[cycle(conditions)]
    fn term(&mut self, alloc: Global, within: usize) -> Result<Expr<TestText>, Stop<Slip>>
        requires { within ≤ depth_limit }
        ensures read { Reads (term_within within) self.old result self.new }
        ensures low { IfOk result (λ e. height e ≤ 2 * within + 1) }
        ensures less { OnOk result (length self.new < length self.old) }
    {
        if !self.opens() {
            return self.holding(alloc);
        }
        if within == 0 {
            return Err(Stop::Refused(Slip::TooDeep));
        }
        self.opened(alloc, within - 1)
    }

    // NOT term | "(" expr ")"
    #[cycle(conditions)]
    fn opened(&mut self, alloc: Global, within: usize) -> Result<Expr<TestText>, Stop<Slip>>
        requires { within ≤ depth_limit }
        ensures read { Reads (opened (term_within within)) self.old result self.new }
        ensures low { IfOk result (λ e. height e ≤ 2 * within + 3) }
        ensures less { OnOk result (length self.new < length self.old) }
    {
        if self.skip_keyword(b"NOT") {
            let mut negated = self.term(alloc, within)?;
            negated.negate()?;
            return Ok(negated);
        }
        self.symbol(Symbol::Open)?;
        let found = self.some_of(alloc, within)?;
        self.symbol(Symbol::Close)?;
        Ok(found)
    }

    // conj = term { AND term }
    #[cycle(conditions)]
    fn all_of(&mut self, alloc: Global, within: usize) -> Result<Expr<TestText>, Stop<Slip>>
        requires { within ≤ depth_limit }
        ensures read { Reads (all_of (term_within within)) self.old result self.new }
        ensures low { IfOk result (λ e. height e ≤ 2 * within + 2) }
        ensures less { OnOk result (length self.new < length self.old) }
    {
        let mut found = self.term(alloc, within)?;
        'terms: while self.skip_keyword(b"AND") {
            let more = self.term(alloc, within)?;
            let both = found.and(more)?;
            found = both;
        }
        Ok(found)
    }

    // expr = conj { OR conj }
    #[cycle(conditions)]
    fn some_of(&mut self, alloc: Global, within: usize) -> Result<Expr<TestText>, Stop<Slip>>
        requires { within ≤ depth_limit }
        ensures read { Reads (some_of (term_within within)) self.old result self.new }
        ensures low { IfOk result (λ e. height e ≤ 2 * within + 3) }
        ensures less { OnOk result (length self.new < length self.old) }
    {
        let mut found = self.all_of(alloc, within)?;
        'parts: while self.skip_keyword(b"OR") {
            let more = self.all_of(alloc, within)?;
            let either = found.or(more)?;
            found = either;
        }
        Ok(found)
    }

    /// [ WHERE expr ]. Names and literals are copied, once. `TooDeep` at the first parenthesis or NOT that is one more than
    /// may be open at once.
    pub fn condition(&mut self, alloc: Global) -> Result<Expr<TestText>, Stop<Slip>>
        ensures { Reads where_part self.old result self.new }
    {
        if !self.skip_keyword(b"WHERE") {
            let always = Expr::always(alloc)?;
            return Ok(always);
        }
        self.some_of(alloc, DEPTH_LIMIT)
    }
}
