// Words that are keywords, and words that are no names (docs/grammar.md).
ghost use Rattle.std.specs.Prelude.{◌≡◌};
ghost use Rattle.mt_values.specs.Grammar.{is_reserved};
ghost use Rattle.mt_values.specs.Tokens.{is_keyword};

/// Whether the word is this keyword, in any case of its letters.
pub fn is_keyword(keyword: &[u8], word: &[u8]) -> bool
    ensures { result ≡ is_keyword keyword.now word.now }
{
    word.eq_ignore_ascii_case(keyword)
}

/// Whether the word is no name.
pub fn is_reserved(word: &[u8]) -> bool
    ensures { result ≡ is_reserved word.now }
{
    is_keyword(b"AND", word)
        || is_keyword(b"OR", word)
        || is_keyword(b"NOT", word)
        || is_keyword(b"IN", word)
        || is_keyword(b"FROM", word)
        || is_keyword(b"FINAL", word)
        || is_keyword(b"WHERE", word)
        || is_keyword(b"INDEX", word)
}
