// The rules of engines, called as merges call them: what they leave of rows of one key, and what a merge leaves of inputs.
use crate::answer::Answer;
use crate::small::{Small, row_of};
use crate::text::first_word;
use mt_base::{NoMemory, Seq};
use mt_values::Row;
use row_merge::collapse_rules::{CollapsingRule, VersionedRule};
use row_merge::merge_sorted;
use row_merge::rule_aggregating::AggregatingRule;
use row_merge::rule_law::RowRule;
use row_merge::rule_replacing::{PlainRule, ReplacingRule};
use row_merge::rule_summing::SummingRule;
use std::alloc::Global;

/// How a list without rows is written.
const NO_ROW: &str = "-";

/// What is asked of a rule.
#[derive(Clone, Copy)]
pub enum Asked<'a> {
    /// To fold rows of one key.
    Fold(&'a [Row]),
    /// To merge sorted inputs.
    Merge(&'a [Vec<Row>]),
}

/// How rows are written.
#[derive(Clone, Copy)]
struct Hand {
    small: Small,
    /// Whether the columns of the key are written; they are 0 where not.
    keyed: bool,
    /// The mark that a star stands for.
    star: u8,
}

/// How many lists were asked, and what came of them.
#[derive(Clone, Copy)]
struct Tally {
    lists: u64,
    rows: u64,
    left: u64,
}

// What the rule's three calls leave of rows of one key.
fn folded<Q: RowRule>(alloc: Global, rule: &Q, rows: &[Row]) -> Result<Vec<Row>, NoMemory> {
    match rows {
        [] => Ok(Vec::new(alloc)),
        [first, others @ ..] => {
            let mut state = rule.begin(alloc, first)?;
            for row in others {
                rule.add(alloc, &mut state, row)?;
            }
            rule.end(alloc, state)
        }
    }
}

// What the rule of a small table leaves.
fn left_by<Q: RowRule>(
    alloc: Global,
    small: Small,
    rule: &Q,
    asked: Asked,
) -> Result<Vec<Row>, NoMemory> {
    match asked {
        Asked::Fold(rows) => folded(alloc, rule, rows),
        Asked::Merge(inputs) => merge_sorted(alloc, inputs, &small.schema(alloc)?, rule),
    }
}

// What the rule of SummingMergeTree leaves.
fn left_of_sums(alloc: Global, small: Small, asked: Asked) -> Result<Vec<Row>, NoMemory> {
    let rule = SummingRule {
        types: small.types(alloc)?,
        places: Seq::from_slice(alloc, &[1, 2])?,
    };
    left_by(alloc, small, &rule, asked)
}

// What the rule of AggregatingMergeTree leaves.
fn left_of_aggregates(alloc: Global, small: Small, asked: Asked) -> Result<Vec<Row>, NoMemory> {
    let rule = AggregatingRule {
        types: small.types(alloc)?,
        functions: small.functions(alloc)?,
    };
    left_by(alloc, small, &rule, asked)
}

/// What the rule of a small table's engine leaves.
pub fn left_of(alloc: Global, small: Small, asked: Asked) -> Result<Vec<Row>, NoMemory> {
    match small {
        Small::Plain => left_by(alloc, small, &PlainRule, asked),
        Small::Last => left_by(alloc, small, &ReplacingRule { version: None }, asked),
        Small::Newest => left_by(alloc, small, &ReplacingRule { version: Some(1) }, asked),
        Small::Sums => left_of_sums(alloc, small, asked),
        Small::Signs => left_by(alloc, small, &CollapsingRule { sign: 1 }, asked),
        Small::Versions => {
            let rule = VersionedRule {
                sign: 2,
                version: 1,
            };
            left_by(alloc, small, &rule, asked)
        }
        Small::Aggregates => left_of_aggregates(alloc, small, asked),
    }
}

// The digit of a place; those past the tenth have the tenth's.
fn digit(place: usize) -> u8 {
    b"0123456789".get(place).copied().unwrap_or(b'9')
}

impl Answer {
    // The letters of a row at a place in its list, with those that need not be written: of the key, of a mark that is the place, and of columns
    // that have one letter all.
    fn letters(&mut self, hand: Hand, text: &str, place: usize) -> Vec<u8> {
        let written = text.as_bytes();
        let mut letters = Vec::new(self.alloc);
        if !hand.keyed {
            for _ in 0..hand.small.keys() {
                self.push(&mut letters, b'0');
            }
        }
        for letter in written {
            let letter = if *letter == b'*' { hand.star } else { *letter };
            self.push(&mut letters, letter);
        }
        if let ([one], false) = (written, hand.small.has_mark()) {
            for _ in 2..hand.small.width() {
                self.push(&mut letters, *one);
            }
        }
        if hand.small.has_mark() && letters.len() < hand.small.width() as usize {
            self.push(&mut letters, digit(place));
        }
        letters
    }

    // The rows of a list, with commas between them. No row is written `-`.
    fn rows_written(&mut self, hand: Hand, text: &str) -> Vec<Row> {
        let mut rows = Vec::new(self.alloc);
        if text != NO_ROW {
            for (place, word) in text.split(',').enumerate() {
                let letters = self.letters(hand, word, place);
                match row_of(self.alloc, hand.small, &letters) {
                    Some(row) => self.push(&mut rows, row),
                    None => self.fail("a row is none"),
                }
            }
        }
        rows
    }

    // Whether rows are one of the results that are written, with bars between them. A star stands for the mark of any of the rows given.
    fn is_written(&mut self, hand: Hand, results: &str, given: usize, rows: &[Row]) -> bool {
        for text in results.split('|') {
            let stars = if text.contains('*') { given } else { 1 };
            for place in 0..stars {
                let star = digit(place);
                let written = self.rows_written(Hand { star, ..hand }, text);
                if written.as_slice() == rows {
                    return true;
                }
            }
        }
        false
    }

    // The inputs of a merge, with slashes between them.
    fn inputs_written(&mut self, hand: Hand, text: &str) -> Vec<Vec<Row>> {
        let mut inputs = Vec::new(self.alloc);
        for input in text.split('/') {
            let rows = self.rows_written(hand, input);
            self.push(&mut inputs, rows);
        }
        inputs
    }

    // What the rule leaves of what is written, and how many rows that is.
    fn left(&mut self, hand: Hand, text: &str) -> (Vec<Row>, usize) {
        let inputs = self.inputs_written(hand, text);
        let mut given = 0usize;
        for input in &inputs {
            given = given.saturating_add(input.len());
        }
        let left = match (hand.keyed, inputs.as_slice()) {
            (false, [rows]) => left_of(self.alloc, hand.small, Asked::Fold(rows)),
            _ => left_of(self.alloc, hand.small, Asked::Merge(&inputs)),
        };
        match left {
            Ok(rows) => (rows, given),
            Err(_) => {
                self.note(false);
                (Vec::new(self.alloc), given)
            }
        }
    }

    // Asks the rule of a list. Where results stand after it, what is left is to be one of them; else it is printed.
    fn ask(&mut self, hand: Hand, text: &str, tally: Tally) -> Tally {
        let (list, results) = text.split_once('=').unwrap_or((text, ""));
        let (rows, given) = self.left(hand, list);
        if results.is_empty() {
            self.lines_of(rows.as_slice());
            self.put("; ");
        } else if !self.is_written(hand, results, given, rows.as_slice()) {
            self.put(list);
            self.put(" leaves ");
            self.lines_of(rows.as_slice());
            self.put(", which it may not; ");
        }
        Tally {
            lists: tally.lists.saturating_add(1),
            rows: tally.rows.saturating_add(given as u64),
            left: tally.left.saturating_add(rows.len() as u64),
        }
    }

    // Asks the rule of lists, with blanks between them, and prints how many lists they are, how many rows they have and how many are left.
    fn ask_all(&mut self, hand: Hand, lists: &str) {
        let mut tally = Tally {
            lists: 0,
            rows: 0,
            left: 0,
        };
        for text in lists.split(' ') {
            tally = self.ask(hand, text, tally);
        }
        self.put("lists ");
        self.number(tally.lists);
        self.put(", rows ");
        self.number(tally.rows);
        self.put(", left ");
        self.number(tally.left);
    }

    /// Prints what the rule of a small table leaves of rows of one key, or what a merge leaves of inputs.
    pub fn rules(&mut self, rest: &str, keyed: bool) {
        self.open();
        let (name, lists) = first_word(rest);
        match Small::named(name) {
            Some(small) => {
                let star = b'0';
                self.ask_all(Hand { small, keyed, star }, lists);
            }
            None => self.fail("no such engine"),
        }
    }
}
