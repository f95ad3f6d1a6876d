// Which words are names of tables.
ghost use Rattle.std.specs.Prelude.{◌≡◌};
ghost use Rattle.std.specs.List.{list_all};
ghost use Rattle.mt_values.specs.Tokens.{starts_word, in_word};
ghost use Rattle.part_set.specs.RootNames.{is_one_word, is_table};

use mt_values::is_reserved;

// Whether a word may begin with the byte.
fn starts_word(byte: u8) -> bool
    ensures { result ≡ starts_word byte }
{
    byte.is_ascii_alphabetic() || byte == b'_'
}

// Whether a word may go on with the byte.
fn in_word(byte: u8) -> bool
    ensures { result ≡ in_word byte }
{
    byte.is_ascii_alphanumeric() || byte == b'_'
}

// Whether a word may go on with each of the bytes.
fn all_in_word(bytes: &[u8]) -> bool
    ensures { result ≡ list_all in_word bytes.now }
{
    for byte in bytes {
        if !in_word(*byte) {
            return false;
        }
    }
    true
}

// Whether the bytes are one word.
fn is_one_word(bytes: &[u8]) -> bool
    ensures { result ≡ is_one_word bytes.now }
{
    match bytes {
        [] => false,
        [first, more @ ..] => starts_word(*first) && all_in_word(more),
    }
}

/// Whether a table may have the name.
pub fn is_table(name: &[u8]) -> bool
    ensures { result ≡ is_table name.now }
{
    is_one_word(name) && !is_reserved(name)
}
