//! Merges sorted rows by the rule of an engine, as often as its words say, and prints how many are left. `bench/merges.sh` measures it.
//!
//! The words are the engine (`plain`, `replacing`, `versions`, `summing`, `collapsing`, `versioned`, `aggregating`), the number of rows,
//! the number of inputs, the number of rows with one key, and how often the inputs are merged.
#![tactic(auto)]

mod inputs;

use inputs::{Shape, columns, dealt_inputs, schema};
use mt_base::{NoMemory, Seq};
use mt_values::{Aggregate, ColType, Row, Schema};
use row_merge::collapse_rules::{CollapsingRule, VersionedRule};
use row_merge::merge_sorted;
use row_merge::rule_aggregating::AggregatingRule;
use row_merge::rule_law::RowRule;
use row_merge::rule_replacing::{PlainRule, ReplacingRule};
use row_merge::rule_summing::SummingRule;
use std::alloc::{AllocGlobal, Global};
use std::process::ExitCode;
use std::{env, io};

/// What is merged, and how often.
#[derive(Drop)]
struct Task {
    engine: String,
    shape: Shape,
    times: u64,
}

/// The number that a word is.
fn number(words: &[String], place: usize) -> Option<u64> {
    words.get(place)?.parse::<u64>().ok()
}

/// The task that the words after the program's name say.
fn task_of(words: Vec<String>) -> Option<Task> {
    let rows = number(&words, 2)?;
    let inputs = number(&words, 3)?;
    let alike = number(&words, 4)?;
    let times = number(&words, 5)?;
    let engine = words.into_iter().nth(1)?;
    Some(Task {
        engine,
        shape: Shape {
            rows,
            inputs,
            alike,
        },
        times,
    })
}

/// Inputs, and how often they are merged.
#[derive(Drop)]
struct Merging<'a> {
    alloc: Global,
    lists: &'a [Vec<Row>],
    schema: &'a Schema,
    times: u64,
}

impl Merging<'_> {
    /// Merges the inputs by a rule, and gives the number of rows that the last merge left.
    fn by<Q: RowRule>(&self, rule: &Q) -> Result<Option<usize>, NoMemory> {
        let mut left = 0;
        for _time in 0..self.times {
            left = merge_sorted(self.alloc, self.lists, self.schema, rule)?.len();
        }
        Ok(Some(left))
    }
}

/// The types of the columns.
fn types(alloc: Global) -> Result<Seq<ColType>, NoMemory> {
    Seq::from_slice(alloc, columns().as_slice())
}

/// The rule that sums the numbers.
fn summing(alloc: Global) -> Result<SummingRule, NoMemory> {
    Ok(SummingRule {
        types: types(alloc)?,
        places: Seq::from_slice(alloc, &[1])?,
    })
}

/// The rule that sums the numbers and keeps the greatest text.
fn aggregating(alloc: Global) -> Result<AggregatingRule, NoMemory> {
    let mut functions = Seq::new(alloc);
    functions.push(None)?;
    functions.push(Some(Aggregate::Sum))?;
    functions.push(None)?;
    functions.push(Some(Aggregate::Max))?;
    Ok(AggregatingRule {
        types: types(alloc)?,
        functions,
    })
}

/// The number of rows that are left, or nothing where there is no such engine.
fn run(alloc: Global, task: &Task) -> Result<Option<usize>, NoMemory> {
    let lists = dealt_inputs(alloc, &task.shape)?;
    let schema = schema(alloc)?;
    let merging = Merging {
        alloc,
        lists: lists.as_slice(),
        schema: &schema,
        times: task.times,
    };
    match task.engine.as_str() {
        "plain" => merging.by(&PlainRule),
        "replacing" => merging.by(&ReplacingRule { version: None }),
        "versions" => merging.by(&ReplacingRule { version: Some(1) }),
        "summing" => merging.by(&summing(alloc)?),
        "collapsing" => merging.by(&CollapsingRule { sign: 2 }),
        "versioned" => merging.by(&VersionedRule {
            sign: 2,
            version: 1,
        }),
        "aggregating" => merging.by(&aggregating(alloc)?),
        _ => Ok(None),
    }
}

fn main(rt: HostRuntime) -> io::Result<ExitCode> {
    let alloc = rt.alloc();
    let words = env::args(&rt)?.collect::<Vec<String>>(alloc)?;
    let Some(task) = task_of(words) else {
        return Ok(ExitCode::from(2));
    };
    match run(alloc, &task) {
        Ok(Some(left)) => {
            println!(rt; "{left}")?;
            Ok(ExitCode::from(0))
        }
        Ok(None) => Ok(ExitCode::from(2)),
        Err(NoMemory) => Ok(ExitCode::from(6)),
    }
}
