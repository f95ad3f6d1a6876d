// Random small lists of rows of one key, cut into runs, which the rules fold in every order of merging; each result is held against what
// may be left (docs/testing.md, "Rules").
use crate::answer::Answer;
use crate::dice::Dice;
use crate::held::Held;
use crate::rules::{Asked, left_of};
use crate::small::{Small, Writing, row_of};
use crate::text::first_word;
use mt_base::{NoMemory, Twin};
use mt_values::Row;
use std::alloc::Global;

/// The most rows of a list, and the most runs into which it is cut.
const MOST_ROWS: u64 = 6;

const MOST_RUNS: usize = 4;

/// What was asked so far, and what came of it.
#[derive(Drop)]
struct Tried {
    small: Small,
    held: Held,
    // What FINAL gave, as it may, of the list that is asked now.
    known: Vec<Vec<Row>>,
    merges: u64,
    results: u64,
    faults: u64,
}

impl Answer {
    // The letters of a random row.
    fn random_letters(&mut self, dice: &mut Dice, small: Small, mark: u8) -> Vec<u8> {
        let mut letters = Vec::new(self.alloc);
        for place in 0..small.width() {
            let letter = if place < small.keys() {
                b'0'
            } else if small.has_mark() && place.saturating_add(1) == small.width() {
                mark
            } else {
                match small.writing(place) {
                    Writing::Sign => dice.letter(b"+-"),
                    Writing::Quarters(_) => dice.letter(b"0123"),
                    _ => dice.letter(b"012"),
                }
            };
            self.push(&mut letters, letter);
        }
        letters
    }

    // A random list of rows of one key, whose marks are their places, or all alike.
    fn random_rows(&mut self, dice: &mut Dice, small: Small) -> Vec<Row> {
        let mut rows = Vec::new(self.alloc);
        let count = dice.below(MOST_ROWS).saturating_add(1);
        let alike = dice.below(4) == 0;
        for place in 0..count {
            let mark = b"0123456789".get(place as usize).copied();
            let mark = if alike { b'0' } else { mark.unwrap_or(b'9') };
            let letters = self.random_letters(dice, small, mark);
            match row_of(self.alloc, small, &letters) {
                Some(row) => self.push(&mut rows, row),
                None => self.fail("a row is none"),
            }
        }
        rows
    }

    // A copy of a row.
    fn add_row(&mut self, rows: &mut Vec<Row>, row: &Row) {
        match row.twin(self.alloc) {
            Ok(row) => self.push(rows, row),
            Err(_) => self.note(false),
        }
    }

    // Copies of rows.
    fn copied_rows(&mut self, rows: &[Row]) -> Vec<Row> {
        let mut copies = Vec::new(self.alloc);
        for row in rows {
            self.add_row(&mut copies, row);
        }
        copies
    }

    // A list, cut into runs at random.
    fn random_runs(&mut self, dice: &mut Dice, rows: &[Row]) -> Vec<Vec<Row>> {
        let mut runs = Vec::new(self.alloc);
        let mut run = Vec::new(self.alloc);
        for row in rows {
            if !run.is_empty() && runs.len() < MOST_RUNS - 1 && dice.below(2) == 0 {
                self.push(&mut runs, run);
                run = Vec::new(self.alloc);
            }
            self.add_row(&mut run, row);
        }
        self.push(&mut runs, run);
        runs
    }

    // What the rule leaves of rows of one key.
    fn left_of_rows(&mut self, small: Small, rows: &[Row]) -> Vec<Row> {
        match left_of(self.alloc, small, Asked::Fold(rows)) {
            Ok(left) => left,
            Err(_) => {
                self.note(false);
                Vec::new(self.alloc)
            }
        }
    }

    // Counts a result that may not be, where this one may not.
    fn judge(&mut self, tried: &mut Tried, may_be: Result<bool, NoMemory>) {
        self.note(may_be.is_ok());
        if !may_be.unwrap_or(false) {
            tried.faults = tried.faults.saturating_add(1);
        }
    }

    // What one merge leaves of rows, which is held against what it may leave.
    fn merged(&mut self, tried: &mut Tried, rows: &[Row]) -> Vec<Row> {
        let left = self.left_of_rows(tried.small, rows);
        tried.merges = tried.merges.saturating_add(1);
        if !rows.is_empty() {
            let may_be = tried.held.may_leave(self.alloc, rows, &left);
            self.judge(tried, may_be);
        }
        left
    }

    // The runs after a merge of the one at a place with the next.
    fn merged_at(&mut self, tried: &mut Tried, runs: &[Vec<Row>], at: usize) -> Vec<Vec<Row>> {
        let mut next = Vec::new(self.alloc);
        let mut joined = Vec::new(self.alloc);
        for (place, run) in runs.iter().enumerate() {
            let mut rows = self.copied_rows(run);
            if place == at || place == at.saturating_add(1) {
                let appended = joined.append(&mut rows).is_ok();
                self.note(appended);
                if place > at {
                    let left = self.merged(tried, &joined);
                    self.push(&mut next, left);
                }
            } else {
                self.push(&mut next, rows);
            }
        }
        next
    }

    // Whether FINAL may give this of all rows: what it may is kept, until other rows are asked.
    fn may_finish(
        &mut self,
        tried: &mut Tried,
        rows: &[Row],
        out: &Vec<Row>,
    ) -> Result<bool, NoMemory> {
        if tried.known.contains(out) {
            return Ok(true);
        }
        let may_be = tried.held.may_finish(self.alloc, rows, out.as_slice())?;
        if may_be {
            let own = self.copied_rows(out.as_slice());
            self.push(&mut tried.known, own);
        }
        Ok(may_be)
    }

    // What FINAL gives of the rows of runs, which is held against what it may give of all rows.
    fn finished(&mut self, tried: &mut Tried, rows: &[Row], runs: &[Vec<Row>]) -> Vec<Row> {
        let mut seen = Vec::new(self.alloc);
        for run in runs {
            for row in run {
                self.add_row(&mut seen, row);
            }
        }
        let out = self.left_of_rows(tried.small, &seen);
        let may_be = self.may_finish(tried, rows, &out);
        self.judge(tried, may_be);
        out
    }

    // Merges runs in the order of a number, until one is left, with what FINAL gives at each time; and gives what FINAL gives at the end.
    fn in_order(
        &mut self,
        tried: &mut Tried,
        rows: &[Row],
        runs: &[Vec<Row>],
        order: usize,
    ) -> Vec<Row> {
        let mut code = order;
        let mut now = Vec::new(self.alloc);
        for run in runs {
            let copy = self.copied_rows(run);
            self.push(&mut now, copy);
        }
        let mut out = self.finished(tried, rows, &now);
        for _ in 1..runs.len() {
            let choices = now.len().saturating_sub(1);
            let at = code.checked_rem(choices).unwrap_or(0);
            code = code.checked_div(choices).unwrap_or(0);
            now = self.merged_at(tried, &now, at);
            out = self.finished(tried, rows, &now);
        }
        out
    }

    // Merges runs in every order, and counts what different results FINAL gives at the end.
    fn in_all_orders(&mut self, tried: &mut Tried, rows: &[Row], runs: &[Vec<Row>]) {
        let orders = match runs.len() {
            0..=2 => 1,
            3 => 2,
            _ => 6,
        };
        tried.known = Vec::new(self.alloc);
        let mut results = Vec::new(self.alloc);
        for order in 0..orders {
            let out = self.in_order(tried, rows, runs, order);
            if !results.contains(&out) {
                self.push(&mut results, out);
            }
        }
        tried.results = tried.results.saturating_add(results.len() as u64);
    }

    // Asks the rule of a small table that many random lists.
    fn random_lists(&mut self, small: Small, held: Held, seed: u64, count: u64) {
        let mut dice = Dice::new(seed);
        let mut tried = Tried {
            small,
            held,
            known: Vec::new(self.alloc),
            merges: 0,
            results: 0,
            faults: 0,
        };
        for _ in 0..count {
            let rows = self.random_rows(&mut dice, small);
            let runs = self.random_runs(&mut dice, &rows);
            self.in_all_orders(&mut tried, &rows, &runs);
        }
        self.number(count);
        self.put(" lists, ");
        self.number(tried.merges);
        self.put(" merges, ");
        self.number(tried.results);
        self.put(" results, of which ");
        self.number(tried.faults);
        self.put(" may not be");
    }

    /// Prints what came of random lists of a small table, and how many results may not be.
    pub fn random(&mut self, rest: &str) {
        let (seed, rest) = first_word(rest);
        let (count, name) = first_word(rest);
        let seed = self.number_of(seed);
        let count = self.number_of(count);
        self.open();
        match Small::named(name) {
            Some(small) => match Held::new(self.alloc, small) {
                Ok(held) => self.random_lists(small, held, seed, count),
                Err(_) => self.note(false),
            },
            None => self.fail("no such engine"),
        }
    }
}
