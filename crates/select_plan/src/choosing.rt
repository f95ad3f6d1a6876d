// Making a plan: of each part of a pinned table which granules are read. A granule is read where the condition may be true in the box
// of its marks and, without FINAL, for each skip index of the part in the box of its block. Each box is asked by itself
// (docs/definitions.md, "Boxes of granules" and "Boxes of skip indexes"). Without a condition every granule is read, and no box is made.
// Without FINAL a conjunct of the condition is asked in those of these granules in the box of whose marks it may be false. With FINAL
// the condition is asked of folded rows.
ghost use Rattle.std.specs.Prelude.{◌≡◌, ◌-◌, ◌&&◌, [], ℕ, All, IfOk, false, fold, length, map, min, replicate, true};
ghost use Rattle.mt_values.specs.Conditions.{Condition, tests_of};
ghost use Rattle.mt_values.specs.declared.expr.Test.{Test};
ghost use Rattle.mt_values.specs.declared.schema.Schema.{Schema};
ghost use Rattle.mt_model.specs.predicate.Boxes.{can};
ghost use Rattle.mt_model.specs.predicate.Masks.{both};
ghost use Rattle.select_plan.specs.Plans.{asked_among, asked_unknown, planned, read_of};
ghost use Rattle.mt_model.specs.predicate.declared.extent.Extent.{Extent};
ghost use Rattle.part_reader.specs.skip_index.Choosing.{chosen_by};
ghost use Rattle.part_reader.specs.skip_index.declared.index.Index.{Index};

use crate::counting::Plan;
use mt_base::{NoMemory, Seq};
use mt_model::Query;
use mt_model::predicate::{Extent, can, may_match};
use mt_values::{Expr, Schema, Test};
use part_reader::Part;
use part_reader::part_writer::Loaded;
use part_reader::primary_marks::{boxes_where, choose};
use part_reader::skip_index::choose as choose_by_index;
use part_set::{Kept, Snap};
use std::alloc::Global;

/// The granules of a pinned table that a SELECT reads: those in whose boxes its condition may be true, by the marks of their part and,
/// without FINAL, by each of its skip indexes. A part without rows has none.
///
/// `NoMemory` where an allocation failed.
pub fn plan<F>(
    alloc: Global,
    snap: &Snap<Part<F>>,
    query: &Query,
    is_final: bool,
) -> Result<Plan, NoMemory>
    ensures { IfOk result
        (λ p. p.parts.items ≡ planned snap.now is_final query.now.condition) }
{
    let mut parts = Vec::with_capacity(alloc, snap.parts.len())?;
    for kept in &snap.parts {
        let chosen = plan_part(alloc, &snap.schema, kept, &query.condition, is_final)?;
        parts.push(Seq::of(chosen))?;
    }
    Ok(Plan { parts })
}

/// Of each conjunct of a condition in which of a part's chosen granules it is asked: those in whose box, by the marks, it may be false.
/// It is found when the part is read, and not kept with the plan: it may be long, where conjuncts and granules are many.
///
/// `NoMemory` where an allocation failed.
pub fn ask<F>(
    alloc: Global,
    schema: &Schema,
    kept: &Kept<Part<F>>,
    conjuncts: &[Expr<Test>],
    chosen: &[bool],
) -> Result<Seq<Seq<bool>>, NoMemory>
    ensures { IfOk result
        (λ asked. asked ≡ asked_among schema.now conjuncts.now kept.now chosen.now) }
{
    let marks = &kept.part.loaded.marks;
    if !have_tests(conjuncts) {
        return ask_alike(alloc, conjuncts, marks.granules(), chosen);
    }
    let boxes = boxes_where(alloc, schema, &kept.name.partition, marks, chosen)?;
    let mut asked = Seq::with_capacity(alloc, conjuncts.len())?;
    for conjunct in conjuncts {
        let own = unsure(alloc, conjunct, boxes.as_slice(), chosen)?;
        asked.push(Seq::of(own))?;
    }
    Ok(asked)
}

/// Whether some of these conditions has a test.
fn have_tests(conditions: &[Expr<Test>]) -> bool
    ensures { result ≡ false
        → All (λ (c : Condition Test). tests_of c ≡ []) conditions.now }
{
    for condition in conditions {
        if !condition.tests().is_empty() {
            return true;
        }
    }
    false
}

/// Of each of these conditions in which of the chosen granules it may be false, where so many granules have boxes that say nothing. No box
/// is made.
///
/// `NoMemory` where an allocation failed.
fn ask_alike(
    alloc: Global,
    conditions: &[Expr<Test>],
    granules: usize,
    chosen: &[bool],
) -> Result<Seq<Seq<bool>>, NoMemory>
    ensures { IfOk result (λ asked. asked ≡ map (asked_unknown granules chosen.now)
        conditions.now) }
{
    let unknown = Extent {
        columns: Seq::new(alloc),
    };
    let mut asked = Seq::with_capacity(alloc, conditions.len())?;
    for condition in conditions {
        let own = vec![in alloc; can(condition, &unknown).no; granules]?;
        asked.push(Seq::of(both(alloc, &own, chosen)?))?;
    }
    Ok(asked)
}

/// Whether a condition may be false in each of these boxes, where its granule is chosen.
///
/// `NoMemory` where an allocation failed.
fn unsure(
    alloc: Global,
    condition: &Expr<Test>,
    boxes: &[Extent],
    chosen: &[bool],
) -> Result<Vec<bool>, NoMemory>
    ensures { IfOk result
        (λ v. v.items ≡ both (map (λ e. (can condition.now e).no) boxes.now) chosen.now) }
{
    let mut answers = Vec::with_capacity(alloc, boxes.len())?;
    for (place, extent) in boxes.iter().enumerate() {
        let Some(is_chosen) = chosen.get(place) else {
            return Ok(answers);
        };
        answers.push(is_unsure(condition, extent, *is_chosen))?;
    }
    Ok(answers)
}

/// Whether a condition may be false in a box, where its granule is chosen.
fn is_unsure(condition: &Expr<Test>, extent: &Extent, is_chosen: bool) -> bool
    ensures { result ≡ ((can condition.now extent.now).no && is_chosen) }
{
    if is_chosen {
        return can(condition, extent).no;
    }
    false
}

/// The granules of a part that a SELECT reads.
///
/// `NoMemory` where an allocation failed.
#[tactic(auto, using(crate::proofs::Alike::no_tests))]
fn plan_part<F>(
    alloc: Global,
    schema: &Schema,
    kept: &Kept<Part<F>>,
    condition: &Expr<Test>,
    is_final: bool,
) -> Result<Vec<bool>, NoMemory>
    ensures { IfOk result (λ v. v.items ≡ read_of schema.now is_final condition.now kept.now) }
{
    let loaded: &Loaded = &kept.part.loaded;
    if condition.tests().is_empty() {
        return plan_alike(alloc, answers(loaded, is_final), condition);
    }
    let chosen = choose(
        alloc,
        schema,
        &kept.name.partition,
        condition,
        &loaded.marks,
    )?;
    if is_final {
        return Ok(chosen);
    }
    narrow(alloc, loaded, condition, chosen)
}

/// The granules that are chosen and that each skip index of a part leaves.
///
/// `NoMemory` where an allocation failed.
#[tactic(auto, using(crate::proofs::PredicateNarrowing::narrowed_more))]
fn narrow(
    alloc: Global,
    loaded: &Loaded,
    condition: &Expr<Test>,
    chosen: Vec<bool>,
) -> Result<Vec<bool>, NoMemory>
    ensures { IfOk result (λ v. v.items ≡ fold both chosen.items
        (map (λ (index : Index). chosen_by index condition.now []) loaded.now.indexes)) }
{
    let mut chosen = chosen;
    for index in loaded.indexes.as_slice() {
        let left = choose_by_index(alloc, index, condition, &[])?;
        chosen = both(alloc, &chosen, &left)?;
    }
    Ok(chosen)
}

/// So many granules of which a SELECT whose condition has no test reads all, or none. No box is made.
///
/// `NoMemory` where an allocation failed.
fn plan_alike(alloc: Global, granules: usize, condition: &Expr<Test>) -> Result<Vec<bool>, NoMemory>
    requires { tests_of condition.now ≡ [] }
    ensures { (e : Extent) → IfOk result
        (λ v. v.items ≡ replicate granules (can condition.now e).yes) }
{
    let unknown = Extent {
        columns: Seq::new(alloc),
    };
    let is_read = may_match(condition, &unknown);
    Ok(vec![in alloc; is_read; granules]?)
}

/// How many granules have an answer by the marks of a part and, without FINAL, by each of its skip indexes: all, where it was written as
/// a part.
#[tactic(auto, using(crate::proofs::PredicateNarrowing::fold_further))]
fn answers(loaded: &Loaded, is_final: bool) -> usize
    ensures folded { is_final ≡ true → result ≡ length loaded.now.marks - 1 }
    ensures plain { is_final ≡ false → result ≡ fold
        (λ (n : ℕ) (index : Index). min n index.granules) (length loaded.now.marks - 1)
        loaded.now.indexes }
{
    let mut answers = loaded.marks.granules();
    if is_final {
        return answers;
    }
    for index in loaded.indexes.as_slice().iter() {
        answers = answers.min(index.granules);
    }
    answers
}

/// The answers that are true in both lists, as far as both go.
///
/// `NoMemory` where the allocation failed.
#[tactic(auto, using(crate::proofs::PredicateNarrowing::both_next, crate::proofs::PredicateNarrowing::both_past))]
fn both(alloc: Global, some: &[bool], others: &[bool]) -> Result<Vec<bool>, NoMemory>
    ensures { IfOk result (λ v. v.items ≡ both some.now others.now) }
{
    let mut answers = Vec::with_capacity(alloc, some.len())?;
    for (place, one) in some.iter().enumerate() {
        let Some(other) = others.get(place) else {
            return Ok(answers);
        };
        answers.push(*one && *other)?;
    }
    Ok(answers)
}
