// That calls come to an answer where memory is ample. The answers were worked by hand.
use crate::{Mutations, Scope, next_rewrite};
use mt_base::{NoMemory, Partition, Seq};
use mt_values::{Change, Expr, Mutation, Name};
use part_set::PartSet;
use part_set::part_name::PartName;
use std::alloc::Global;
use std::test::Fail;

/// The name of a part that begins with a block, and to which a mutation was applied or none.
fn part(min_block: u32, mutation: Option<u32>) -> PartName {
    PartName {
        partition: Partition::Whole,
        min_block,
        max_block: 9,
        level: 1,
        mutation,
    }
}

/// The mutations of a table, with the one of this number.
fn queue(alloc: Global, table: &Name, number: u32) -> Result<Mutations, NoMemory> {
    let mut queue = Mutations::new(alloc);
    queue.reserve(alloc, table)?;
    let change = Change::Delete(Expr::always(alloc)?);
    queue.accept(alloc, table, Mutation { number, change })?;
    Ok(queue)
}

#[test]
fn mutations_part_parts(rt: HostRuntime) -> Result<(), Fail> {
    let alloc = rt.alloc();
    let table = Seq::from_slice(alloc, b"t".as_slice())?;
    let queue = queue(alloc, &table, 5)?;
    assert_eq!(rt; queue.pending(&table, &part(4, None)).len(), 1);
    assert_eq!(rt; queue.pending(&table, &part(4, Some(5))).len(), 0);
    assert_eq!(rt; queue.pending(&table, &part(6, None)).len(), 0);
    assert_eq!(rt;
        queue.may_merge(&table, &part(1, None), &part(4, None)),
        true
    );
    assert_eq!(rt;
        queue.may_merge(&table, &part(1, None), &part(6, None)),
        false
    );
    assert_eq!(rt;
        queue.may_merge(&table, &part(1, Some(5)), &part(6, None)),
        true
    );
    Ok(())
}

/// The set with one part of a table.
fn one_part(alloc: Global, table: &Name, name: PartName) -> Result<PartSet<()>, NoMemory> {
    let mut set = PartSet::new(alloc);
    set.add(alloc, table, name, ())?;
    Ok(set)
}

#[test]
fn a_part_that_waits_is_rewritten(rt: HostRuntime) -> Result<(), Fail> {
    let alloc = rt.alloc();
    let table = Seq::from_slice(alloc, b"t".as_slice())?;
    let queue = queue(alloc, &table, 5)?;
    let set = one_part(alloc, &table, part(4, None))?;
    let Some(next) = next_rewrite(&set, &queue, Scope::All) else {
        return Err(Fail::new("no part"));
    };
    assert_eq!(rt; next.upto, 5);
    let elsewhere = Scope::Partition(&table, Partition::Number(7));
    assert_eq!(rt; next_rewrite(&set, &queue, elsewhere).is_none(), true);
    let set = one_part(alloc, &table, part(4, Some(5)))?;
    assert_eq!(rt;
        next_rewrite(&set, &queue, Scope::Table(&table)).is_none(),
        true
    );
    Ok(())
}
