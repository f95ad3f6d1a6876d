// That calls come to an answer where memory is ample. The answers were worked by hand.
ghost use Rattle.std.specs.Prelude.{◌≡◌, None};
ghost use Rattle.mt_base.specs.declared.partition.Partition.TheVariants.{Whole};

use crate::{Scope, pick, pick_all};
use mt_base::{Name, NoMemory, Partition, Policy, Rows, Seq};
use mutation_queue::Mutations;
use mutation_queue::part_set::part_name::PartName;
use mutation_queue::part_set::{PartSet, Run};
use std::alloc::Global;
use std::test::Fail;

/// What is kept of a part: its number of rows.
#[derive(Drop)]
struct Pile {
    rows: u64,
}

impl Rows for Pile {
    ghost row_count = { λ p. p.rows };

    fn rows(&self) -> u64 {
        self.rows
    }
}

/// The name of the part that the INSERT with this number makes.
fn fresh(number: u32) -> PartName
    ensures { result ≡ record {
      partition = Whole;
      min_block = number;
      max_block = number;
      level = 0;
      mutation = None;
    } }
{
    PartName {
        partition: Partition::Whole,
        min_block: number,
        max_block: number,
        level: 0,
        mutation: None,
    }
}

/// Two parts of a table, of these numbers of rows.
fn two_parts(
    alloc: Global,
    table: &Name,
    first: u64,
    second: u64,
) -> Result<PartSet<Pile>, NoMemory> {
    let mut set = PartSet::new(alloc);
    set.add(alloc, table, fresh(1), Pile { rows: first })?;
    set.add(alloc, table, fresh(2), Pile { rows: second })?;
    Ok(set)
}

#[test]
fn a_pair_is_picked(rt: HostRuntime) -> Result<(), Fail> {
    let alloc = rt.alloc();
    let table = Seq::from_slice(alloc, b"t".as_slice())?;
    let set = two_parts(alloc, &table, 10, 1021)?;
    let queue = Mutations::new(alloc);
    let near = pick(&set, &queue, Policy::Near, Scope::All);
    assert_eq!(rt; near.is_none(), true);
    let Some(tail) = pick(&set, &queue, Policy::Tail, Scope::Table(&table)) else {
        return Err(Fail::new("no pair"));
    };
    assert_eq!(rt; tail.run, Run { first: 0, count: 2 });
    let scope = Scope::Partition(&table, Partition::Number(7));
    assert_eq!(rt; pick(&set, &queue, Policy::Head, scope).is_none(), true);
    Ok(())
}

#[test]
fn all_parts_are_picked(rt: HostRuntime) -> Result<(), Fail> {
    let alloc = rt.alloc();
    let table = Seq::from_slice(alloc, b"t".as_slice())?;
    let set = two_parts(alloc, &table, 1, 5000)?;
    let queue = Mutations::new(alloc);
    let Ok(Some(run)) = pick_all(&set, &queue, &table, Partition::Whole) else {
        return Err(Fail::new("no run"));
    };
    assert_eq!(rt; run, Run { first: 0, count: 2 });
    let none = pick_all(&set, &queue, &table, Partition::Number(7));
    assert_eq!(rt; none.is_ok(), true);
    Ok(())
}
