// The tokens that the grammar's statements are made of.
use crate::Bytes;

/// A token of one or two bytes that is no word, number or string.
#[derive(Clone, Copy, PartialEq, Eq)]
pub enum Symbol {
    /// `(`
    Open,
    /// `)`
    Close,
    /// `,`
    Comma,
    /// `=`
    Equal,
    /// `!=` or `<>`
    NotEqual,
    /// `<`
    Less,
    /// `<=`
    LessOrEqual,
    /// `>`
    Greater,
    /// `>=`
    GreaterOrEqual,
    /// `*`
    Star,
    /// `+`
    Plus,
    /// `-`
    Minus,
    /// `;`
    Semicolon,
}

/// A token of a statement.
#[derive(Drop)]
pub enum Token {
    /// A letter or `_`, and the letters, digits and `_` after it.
    Word(Bytes),
    /// A run of digits that no letter and no `_` follows.
    Number(Bytes),
    /// What a string between single quotes says.
    Text(Bytes),
    Symbol(Symbol),
    /// A byte that begins no token. No statement has it.
    Stray,
}

/// A token, and the place of its first byte in the statement, from 0.
#[derive(Drop)]
pub struct Placed {
    pub at: usize,
    pub token: Token,
}
