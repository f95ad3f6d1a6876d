// What is left of a statement's tokens, read from the left.
ghost use Rattle.std.specs.Prelude.{◌≡◌, ◌<◌, ◌≤◌, Bool, length, OnOk, codes};
ghost use Rattle.mt_values.specs.declared.token.Token.{Token};
ghost use Rattle.mt_values.specs.Grammar.{comparison_of, exactly, fits_name, format, function, function_named, is_format, is_symbol, is_text, is_word, keyword, name, number, operator, passing, plain, same_bytes, string, the, type_named};
ghost use Rattle.mt_values.specs.Readers.{expect, place_of_next};
ghost use Rattle.mt_values.specs.Tokens.{is_keyword};
ghost use Rattle.sql_read.specs.Reads.{Reads, Skips, first_is};

use mt_base::{NAME_LIMIT, Stop, Twin};
use mt_values::{
    Aggregate, Bytes, ColType, Comparison, Name, Placed, Slip, Symbol, Token, is_keyword,
    is_reserved,
};
use std::alloc::Global;
use std::marker::Model;

// Whether the word names the one format.
fn is_format(word: &[u8]) -> bool
    ensures { result ≡ is_format word.now }
{
    same_bytes(word, b"TabSeparated") || same_bytes(word, b"TSV")
}

/// What is left of the tokens of a statement. Contracts see the list of them.
#[derive(Drop)]
pub struct Cursor<'a> {
    rest: &'a [Placed],
}

impl<'a> Model for Cursor<'a> {
    ghost use Rattle.std.specs.Prelude.{List};
    ghost use Rattle.mt_values.specs.declared.token.Placed.{Placed};

    ghost Value = { List Placed };

    ghost view = { λ c. c.rest.now };
}

// Whether a name may be so long.
fn fits_name(name: &[u8]) -> bool
    ensures { result ≡ fits_name name.now }
{
    name.len() <= NAME_LIMIT
}

// Whether both are the same bytes.
fn same_bytes(a: &[u8], b: &[u8]) -> bool
    ensures { result ≡ same_bytes a.now b.now }
{
    a == b
}

// The type that is written so.
fn type_named(word: &[u8]) -> Result<ColType, Slip>
    ensures { result ≡ type_named word.now }
{
    if same_bytes(word, b"UInt8") {
        return Ok(ColType::UInt8);
    }
    if same_bytes(word, b"UInt16") {
        return Ok(ColType::UInt16);
    }
    if same_bytes(word, b"UInt32") {
        return Ok(ColType::UInt32);
    }
    if same_bytes(word, b"UInt64") {
        return Ok(ColType::UInt64);
    }
    if same_bytes(word, b"Int8") {
        return Ok(ColType::Int8);
    }
    if same_bytes(word, b"Int16") {
        return Ok(ColType::Int16);
    }
    if same_bytes(word, b"Int32") {
        return Ok(ColType::Int32);
    }
    if same_bytes(word, b"Int64") {
        return Ok(ColType::Int64);
    }
    if same_bytes(word, b"String") {
        return Ok(ColType::Text);
    }
    Err(Slip::Wrong)
}

// The function that is written so.
fn function_named(word: &[u8]) -> Result<Aggregate, Slip>
    ensures { result ≡ function_named word.now }
{
    if same_bytes(word, b"any") {
        return Ok(Aggregate::Any);
    }
    if same_bytes(word, b"anyLast") {
        return Ok(Aggregate::AnyLast);
    }
    if same_bytes(word, b"min") {
        return Ok(Aggregate::Min);
    }
    if same_bytes(word, b"max") {
        return Ok(Aggregate::Max);
    }
    if same_bytes(word, b"sum") {
        return Ok(Aggregate::Sum);
    }
    if same_bytes(word, b"groupBitAnd") {
        return Ok(Aggregate::BitAnd);
    }
    if same_bytes(word, b"groupBitOr") {
        return Ok(Aggregate::BitOr);
    }
    if same_bytes(word, b"groupBitXor") {
        return Ok(Aggregate::BitXor);
    }
    Err(Slip::Wrong)
}

// The comparison that a symbol says.
fn comparison_of(symbol: Symbol) -> Result<Comparison, Slip>
    ensures { result ≡ comparison_of symbol }
{
    match symbol {
        Symbol::Equal => Ok(Comparison::Equal),
        Symbol::NotEqual => Ok(Comparison::NotEqual),
        Symbol::Less => Ok(Comparison::Less),
        Symbol::LessOrEqual => Ok(Comparison::LessOrEqual),
        Symbol::Greater => Ok(Comparison::Greater),
        Symbol::GreaterOrEqual => Ok(Comparison::GreaterOrEqual),
        _ => Err(Slip::Wrong),
    }
}

impl<'a> Cursor<'a> {
    /// A cursor before these tokens.
    pub fn new(tokens: &'a [Placed]) -> Self
        ensures { result ≡ tokens.now }
    {
        Cursor { rest: tokens }
    }

    /// The tokens that are left.
    pub fn rest(&self) -> &'a [Placed]
        ensures { result.now ≡ self.now }
    {
        self.rest
    }

    /// The place of the next token, from 0 at the statement's first byte; 0 where there is none.
    pub fn place(&self) -> usize
        ensures { result ≡ place_of_next self.now }
    {
        match self.rest {
            [first, ..] => first.at,
            [] => 0,
        }
    }

    /// Whether the next token is a string.
    pub fn at_text(&self) -> bool
        ensures { result ≡ first_is is_text self.now }
    {
        match self.rest {
            [first, ..] => matches!(&first.token, Token::Text(_)),
            [] => false,
        }
    }

    /// Whether the next token is this symbol.
    pub fn at_symbol(&self, symbol: Symbol) -> bool
        ensures { result ≡ first_is (is_symbol symbol) self.now }
    {
        match self.rest {
            [first, ..] => match &first.token {
                Token::Symbol(found) => *found == symbol,
                _ => false,
            },
            [] => false,
        }
    }

    /// Whether the next token is this keyword, in any case of its letters.
    pub fn at_keyword(&self, wanted: &[u8]) -> bool
        ensures { result ≡ first_is (is_word (is_keyword wanted.now)) self.now }
    {
        match self.rest {
            [first, ..] => match &first.token {
                Token::Word(word) => is_keyword(wanted, word.as_slice()),
                _ => false,
            },
            [] => false,
        }
    }

    /// Whether the next token is this word as it is written.
    pub fn at_exactly(&self, written: &[u8]) -> bool
        ensures { result ≡ first_is (is_word (same_bytes written.now)) self.now }
    {
        match self.rest {
            [first, ..] => match &first.token {
                Token::Word(word) => same_bytes(written, word.as_slice()),
                _ => false,
            },
            [] => false,
        }
    }

    // Whether the next token is the name of the one format.
    fn at_format(&self) -> bool
        ensures { result ≡ first_is (is_word is_format) self.now }
    {
        match self.rest {
            [first, ..] => match &first.token {
                Token::Word(word) => is_format(word.as_slice()),
                _ => false,
            },
            [] => false,
        }
    }

    // Takes the next token where it passes, a test of which is given, and says whether it did.
    fn skip_if(&mut self, passes: bool) -> bool
        ensures way { (test : Token → Bool) → passes ≡ first_is test self.old
            → Skips test self.old result self.new }
        ensures no_more { length self.new ≤ length self.old }
    {
        if passes {
            if let [_, more @ ..] = self.rest {
                self.rest = more;
            }
        }
        passes
    }

    /// Takes this symbol where it comes next, and says whether it did.
    pub fn skip(&mut self, symbol: Symbol) -> bool
        ensures way { Skips (is_symbol symbol) self.old result self.new }
        ensures no_more { length self.new ≤ length self.old }
    {
        self.skip_if(self.at_symbol(symbol))
    }

    /// Takes this keyword where it comes next, in any case of its letters, and says whether it did.
    pub fn skip_keyword(&mut self, wanted: &[u8]) -> bool
        ensures way { Skips (is_word (is_keyword wanted.now)) self.old result self.new }
        ensures no_more { length self.new ≤ length self.old }
    {
        self.skip_if(self.at_keyword(wanted))
    }

    // Takes the next token, which must pass: a test of it is given.
    fn take_if(&mut self, passes: bool) -> Result<(), Stop<Slip>>
        ensures read { (test : Token → Bool) → passes ≡ first_is test self.old
            → Reads (expect (λ t. passing (test t))) self.old result self.new }
        ensures less { OnOk result (length self.new < length self.old) }
    {
        let [_, more @ ..] = self.rest else {
            return Err(Stop::Refused(Slip::Wrong));
        };
        if !passes {
            return Err(Stop::Refused(Slip::Wrong));
        }
        self.rest = more;
        Ok(())
    }

    /// Takes a keyword, in any case of its letters.
    pub fn keyword(&mut self, wanted: &[u8]) -> Result<(), Stop<Slip>>
        ensures read { Reads (expect (keyword wanted.now)) self.old result self.new }
        ensures less { OnOk result (length self.new < length self.old) }
    {
        self.take_if(self.at_keyword(wanted))
    }

    /// Takes a word as it is written.
    pub fn exactly(&mut self, written: &[u8]) -> Result<(), Stop<Slip>>
        ensures read { Reads (expect (exactly written.now)) self.old result self.new }
        ensures less { OnOk result (length self.new < length self.old) }
    {
        self.take_if(self.at_exactly(written))
    }

    /// Takes a symbol.
    pub fn symbol(&mut self, symbol: Symbol) -> Result<(), Stop<Slip>>
        ensures read { Reads (expect (the symbol)) self.old result self.new }
        ensures less { OnOk result (length self.new < length self.old) }
    {
        self.take_if(self.at_symbol(symbol))
    }

    /// Takes the name of the one format.
    pub fn format(&mut self) -> Result<(), Stop<Slip>>
        ensures read { Reads (expect format) self.old result self.new }
        ensures less { OnOk result (length self.new < length self.old) }
    {
        self.take_if(self.at_format())
    }

    /// Takes a name. `LongName` where it is longer than a name may be.
    pub fn name(&mut self, alloc: Global) -> Result<Name, Stop<Slip>>
        ensures read { Reads (expect name) self.old result self.new }
        ensures less { OnOk result (length self.new < length self.old) }
    {
        let [first, more @ ..] = self.rest else {
            return Err(Stop::Refused(Slip::Wrong));
        };
        let Token::Word(word) = &first.token else {
            return Err(Stop::Refused(Slip::Wrong));
        };
        if is_reserved(word.as_slice()) {
            return Err(Stop::Refused(Slip::Wrong));
        }
        if !fits_name(word.as_slice()) {
            return Err(Stop::Refused(Slip::LongName));
        }
        let name = word.twin(alloc)?;
        self.rest = more;
        Ok(name)
    }

    /// Takes a type.
    pub fn plain(&mut self) -> Result<ColType, Stop<Slip>>
        ensures read { Reads (expect plain) self.old result self.new }
        ensures less { OnOk result (length self.new < length self.old) }
    {
        let [first, more @ ..] = self.rest else {
            return Err(Stop::Refused(Slip::Wrong));
        };
        let Token::Word(word) = &first.token else {
            return Err(Stop::Refused(Slip::Wrong));
        };
        match type_named(word.as_slice()) {
            Ok(col_type) => {
                self.rest = more;
                Ok(col_type)
            }
            Err(slip) => Err(Stop::Refused(slip)),
        }
    }

    /// Takes the function of a column that is folded.
    pub fn function(&mut self) -> Result<Aggregate, Stop<Slip>>
        ensures read { Reads (expect function) self.old result self.new }
        ensures less { OnOk result (length self.new < length self.old) }
    {
        let [first, more @ ..] = self.rest else {
            return Err(Stop::Refused(Slip::Wrong));
        };
        let Token::Word(word) = &first.token else {
            return Err(Stop::Refused(Slip::Wrong));
        };
        match function_named(word.as_slice()) {
            Ok(function) => {
                self.rest = more;
                Ok(function)
            }
            Err(slip) => Err(Stop::Refused(slip)),
        }
    }

    /// Takes a number, and gives its digits.
    pub fn number(&mut self, alloc: Global) -> Result<Bytes, Stop<Slip>>
        ensures read { Reads (expect number) self.old result self.new }
        ensures less { OnOk result (length self.new < length self.old) }
    {
        let [first, more @ ..] = self.rest else {
            return Err(Stop::Refused(Slip::Wrong));
        };
        let Token::Number(digits) = &first.token else {
            return Err(Stop::Refused(Slip::Wrong));
        };
        let digits = digits.twin(alloc)?;
        self.rest = more;
        Ok(digits)
    }

    /// Takes a string, and gives what it says.
    pub fn string(&mut self, alloc: Global) -> Result<Bytes, Stop<Slip>>
        ensures read { Reads (expect string) self.old result self.new }
        ensures less { OnOk result (length self.new < length self.old) }
    {
        let [first, more @ ..] = self.rest else {
            return Err(Stop::Refused(Slip::Wrong));
        };
        let Token::Text(said) = &first.token else {
            return Err(Stop::Refused(Slip::Wrong));
        };
        let said = said.twin(alloc)?;
        self.rest = more;
        Ok(said)
    }

    /// Takes a comparison.
    pub fn operator(&mut self) -> Result<Comparison, Stop<Slip>>
        ensures read { Reads (expect operator) self.old result self.new }
        ensures less { OnOk result (length self.new < length self.old) }
    {
        let [first, more @ ..] = self.rest else {
            return Err(Stop::Refused(Slip::Wrong));
        };
        let Token::Symbol(symbol) = &first.token else {
            return Err(Stop::Refused(Slip::Wrong));
        };
        match comparison_of(*symbol) {
            Ok(comparison) => {
                self.rest = more;
                Ok(comparison)
            }
            Err(slip) => Err(Stop::Refused(slip)),
        }
    }
}
