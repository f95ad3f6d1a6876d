// Bytes, words and numbers as the lines of cases write them.
use crate::answer::Answer;

/// How bytes are written of which there are none.
const NONE: &str = "\"\"";

// The byte of two hexadecimal digits.
fn hex_byte(high: u8, low: u8) -> Option<u8> {
    let high = char::from(high).to_digit(16)?;
    let low = char::from(low).to_digit(16)?;
    u8::try_from(high * 16 + low).ok()
}

// The first byte of what is written, and the rest.
fn first_byte(text: &[u8]) -> Option<(u8, &[u8])> {
    match text {
        [b'\\', b'n', rest @ ..] => Some((b'\n', rest)),
        [b'\\', b't', rest @ ..] => Some((b'\t', rest)),
        [b'\\', b'\\', rest @ ..] => Some((b'\\', rest)),
        [b'\\', b'x', high, low, rest @ ..] => Some((hex_byte(*high, *low)?, rest)),
        [b'\\', ..] | [] => None,
        [byte, rest @ ..] => Some((*byte, rest)),
    }
}

/// The first word of a line, and what stands after the blank that follows it.
pub fn first_word(text: &str) -> (&str, &str) {
    text.split_once(' ').unwrap_or((text, ""))
}

impl Answer {
    // Adds the bytes that are written so, as far as they are written as they are to be, and gives the rest.
    fn add_bytes<'a>(&mut self, bytes: &mut Vec<u8>, text: &'a [u8]) -> &'a [u8] {
        let mut rest = text;
        // Each byte takes at least one of those that are written.
        for _ in 0..text.len() {
            if let Some((byte, after)) = first_byte(rest) {
                self.push(bytes, byte);
                rest = after;
            }
        }
        rest
    }

    /// The bytes that are written so, by the escapes \n, \t, \\ and \xNN. Where nothing is written, an argument is missing.
    pub fn bytes_of(&mut self, text: &str) -> Vec<u8> {
        let mut bytes = Vec::new(self.alloc);
        if text != NONE {
            let rest = self.add_bytes(&mut bytes, text.as_bytes());
            if text.is_empty() || !rest.is_empty() {
                self.fail("its bytes are not written as they are to be");
            }
        }
        bytes
    }

    // Adds a text this many times.
    fn add_times(&mut self, bytes: &mut Vec<u8>, text: &str, count: u64) {
        let piece = self.bytes_of(text);
        for _ in 0..count {
            self.extend(bytes, &piece);
        }
    }

    /// Adds a text.
    pub fn add(&mut self, bytes: &mut Vec<u8>, text: &str) {
        self.add_times(bytes, text, 1);
    }

    /// Adds a text the number of times that the first word says.
    pub fn repeat(&mut self, bytes: &mut Vec<u8>, rest: &str) {
        let (count, text) = first_word(rest);
        let count = self.number_of(count);
        self.add_times(bytes, text, count);
    }

    /// A number that is written in decimal digits.
    pub fn number_of(&mut self, word: &str) -> u64 {
        match word.parse::<u64>() {
            Ok(number) => number,
            Err(_) => {
                self.fail("a number is none");
                0
            }
        }
    }

    /// A text of its own.
    pub fn owned(&mut self, text: &str) -> String {
        let mut owned = String::new(self.alloc);
        let done = owned.push_str(text).is_ok();
        self.note(done);
        owned
    }

    /// The words of a command line. No word is written `""`.
    pub fn words_of(&mut self, text: &str) -> Vec<String> {
        let mut words = Vec::new(self.alloc);
        if !text.is_empty() {
            for word in text.split(' ') {
                let word = self.owned(if word == NONE { "" } else { word });
                self.push(&mut words, word);
            }
        }
        words
    }
}
