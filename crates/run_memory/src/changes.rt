// The changes that texts say of tables of the events.
use crate::answer::Answer;
use mt_base::{NoMemory, Seq};
use mt_values::{Assigned, Assignment, Change, Comparison, Expr, Literals, Schema, Test, Value};
use std::alloc::Global;

// The place of a column by its name, which is one letter.
fn place_of(schema: &Schema, name: u8) -> Option<u32> {
    let mut place = 0u32;
    for column in schema.columns.as_slice() {
        if column.name.as_slice().first() == Some(&name) {
            return Some(place);
        }
        place = place.saturating_add(1);
    }
    None
}

// A condition of one test.
fn condition_of(
    alloc: Global,
    column: u32,
    comparison: Comparison,
    number: u8,
) -> Result<Expr<Test>, NoMemory> {
    let mut listed = Seq::new(alloc);
    listed.push(Value::UInt8(number))?;
    let literals = Literals::of(alloc, listed)?;
    let test = Test {
        column,
        comparison,
        literals,
    };
    Expr::of(alloc, test)
}

// What is added to the value of a column, or taken away.
fn moved(column: u32, is_more: bool, number: u8) -> Assigned {
    let number = Value::UInt8(number);
    if is_more {
        return Assigned::Plus { column, number };
    }
    Assigned::Minus { column, number }
}

impl Answer {
    // The place of a column by its name.
    fn column_of(&mut self, schema: &Schema, name: u8) -> u32 {
        match place_of(schema, name) {
            Some(place) => place,
            None => {
                self.fail("no such column");
                0
            }
        }
    }

    // What is assigned, as `7`, `b`, `b+7` or `b-7`.
    fn assigned(&mut self, schema: &Schema, text: &str) -> Assigned {
        match text.as_bytes() {
            [name] if name.is_ascii_alphabetic() => Assigned::Column(self.column_of(schema, *name)),
            [name, sign, ..] if name.is_ascii_alphabetic() => {
                let column = self.column_of(schema, *name);
                let (_, number) = text
                    .split_once(if *sign == b'+' { '+' } else { '-' })
                    .unwrap_or(("", ""));
                let number = self.small_of(number);
                moved(column, *sign == b'+', number)
            }
            _ => Assigned::Literal(Value::UInt8(self.small_of(text))),
        }
    }

    // Assignments, as `b=c,c=7`.
    fn assignments(&mut self, schema: &Schema, text: &str) -> Seq<Assignment> {
        let mut assignments = Seq::new(self.alloc);
        for one in text.split(',') {
            let (name, value) = one.split_once('=').unwrap_or(("", ""));
            let name = name.as_bytes().first().copied().unwrap_or(0);
            let column = self.column_of(schema, name);
            let value = self.assigned(schema, value);
            let pushed = assignments.push(Assignment { column, value }).is_ok();
            self.note(pushed);
        }
        assignments
    }

    // How a value is compared.
    fn comparison(&mut self, word: &str) -> Comparison {
        match word {
            "=" => Comparison::Equal,
            "!=" => Comparison::NotEqual,
            "<" => Comparison::Less,
            "<=" => Comparison::LessOrEqual,
            ">" => Comparison::Greater,
            ">=" => Comparison::GreaterOrEqual,
            _ => {
                self.fail("no such comparison");
                Comparison::Equal
            }
        }
    }

    // A condition, as `a < 2`, or none.
    fn condition(&mut self, schema: &Schema, text: &str) -> Option<Expr<Test>> {
        if text.is_empty() {
            return Expr::always(self.alloc).ok();
        }
        let (name, rest) = text.split_once(' ').unwrap_or((text, ""));
        let (word, number) = rest.split_once(' ').unwrap_or((rest, ""));
        let column = self.column_of(schema, name.as_bytes().first().copied().unwrap_or(0));
        let comparison = self.comparison(word);
        let number = self.small_of(number);
        condition_of(self.alloc, column, comparison, number).ok()
    }

    /// A change of a table, as `delete a < 2` or `update b=c,c=b a = 1`; without a condition of all rows.
    pub fn row_change(&mut self, schema: &Schema, text: &str) -> Option<Change> {
        let (word, rest) = text.split_once(' ').unwrap_or((text, ""));
        if word == "delete" {
            return Some(Change::Delete(self.condition(schema, rest)?));
        }
        let (assigned, rest) = rest.split_once(' ').unwrap_or((rest, ""));
        let assignments = self.assignments(schema, assigned);
        let condition = self.condition(schema, rest)?;
        Some(Change::Update {
            assignments,
            condition,
        })
    }
}
