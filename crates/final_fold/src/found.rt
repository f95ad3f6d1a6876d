// The rows that FINAL sees and that meet the condition, as they are found: their values at the wanted places.
ghost use Rattle.std.proofs.Common.{◌∙◌, ap, append-nil, append_assoc, refl, subst, sym};
ghost use Rattle.std.specs.Prelude.{◌≡◌, ◌<◌, ◌+◌, ◌++◌, ◌∷◌, [], ℕ, All, IfOk, List, OnOk, filter_map, length, map, slice_get};
ghost use Rattle.mt_values.specs.Grid.{AreRowsOf, Cells};
ghost use Rattle.mt_values.specs.Schemas.{column_types};
ghost use Rattle.mt_values.specs.Values.{Row, types_of};
ghost use Rattle.row_merge.specs.part_reader.Parts.{with_columns};
ghost use Rattle.final_fold.specs.Asked.{IsWanted};
ghost use Rattle.final_fold.specs.Founds.{GetsMatches, HasFound, HasNone, IsFound};
ghost use Rattle.final_fold.specs.Matches.{matching};
ghost use Rattle.final_fold.specs.Scans.{HaveTypes};
ghost use Rattle.final_fold.specs.declared.asking.Wanted.{Wanted};

use crate::asking::Wanted;
use crate::counts::join_counts;
use mt_base::NoMemory;
use mt_outside::DiskError;
use mt_values::{Cell, ColumnData, Row};
use row_merge::RowSink;
use row_merge::part_reader::empty_columns;
use std::alloc::Global;

/// What is wanted of rows, and what was found of them so far.
#[derive(Drop)]
pub(crate) struct Found<'a> {
    pub(crate) wanted: Wanted<'a>,
    /// For each wanted place the values.
    pub(crate) columns: Vec<ColumnData>,
    /// How many rows were found.
    pub(crate) count: usize,
}

impl<'a> RowSink for Found<'a> {
    ghost ready = { IsFound };

    ghost types = { λ f. column_types f.wanted.schema.now };

    ghost gets = { GetsMatches };

    ghost failed = { λ f. 0 };

    ghost gets_none = { λ f found. record {
      wanted_is = refl;
      has = λ done base before has. subst (λ (rs : List Row). HasFound rs base before f) (sym (append-nil done)) has;
      even = λ n even. even;
      found = found;
    } };

    ghost gets_more = { λ first mid last rows others one two. record {
      wanted_is = two.wanted_is ∙ one.wanted_is;
      has = λ done base before has. subst (λ (rs : List Row). HasFound rs base before last)
          (append_assoc done rows others)
          (two.has (done ++ rows) base before (one.has done base before has));
      even = λ n even. two.even n (one.even n even);
      found = two.found;
    } };

    ghost stays = { λ old new rows found gets. (
      gets.found,
      ap (λ (w : Wanted). column_types w.schema.now) gets.wanted_is,
    ) };

    fn add_rows(&mut self, rows: &[Row]) -> Result<(), DiskError> {
        add_found(self, rows)?;
        Ok(())
    }
}

/// Nothing was found yet.
///
/// `NoMemory` where an allocation failed.
pub(crate) fn none_found<'a>(alloc: Global, wanted: &Wanted<'a>) -> Result<Found<'a>, NoMemory>
    requires wanted { IsWanted wanted.now }
    ensures found { IfOk result IsFound }
    ensures none { IfOk result HasNone }
    ensures wanted { IfOk result (λ f. f.wanted ≡ wanted.now) }
{
    let columns = empty_columns(alloc, wanted.schema, wanted.places)?;
    Ok(Found {
        wanted: *wanted,
        columns,
        count: 0,
    })
}

/// Puts the columns of what was found in the place of others, and these in theirs.
pub(crate) fn swap_columns(found: &mut Found, columns: &mut [ColumnData])
    requires many { length found.old.columns.items ≡ length columns.old }
    ensures columns { columns.new ≡ found.old.columns.items }
    ensures items { found.new.columns.items ≡ columns.old }
    ensures wanted { found.new.wanted ≡ found.old.wanted }
    ensures count { found.new.count ≡ found.old.count }
{
    found.columns.swap_with_slice(columns);
}

/// Adds those of the rows that meet the condition to what was found.
///
/// `NoMemory` where an allocation failed, or 32 bits can't count the rows; some of the values may have been added.
fn add_found(found: &mut Found, rows: &[Row]) -> Result<(), NoMemory>
    requires found { IsFound found.old }
    requires typed { AreRowsOf (column_types found.old.wanted.schema.now) rows.now }
    ensures { OnOk result (GetsMatches found.old rows.now found.new) }
{
    let wanted = found.wanted;
    let added = add_kept(&wanted, rows, &mut found.columns)?;
    let Some(count) = join_counts(found.count, added) else {
        return Err(NoMemory);
    };
    found.count = count;
    Ok(())
}

/// Adds those of the rows that meet the condition to columns: of each the values at the wanted places. Returns how many they are.
///
/// `NoMemory` where an allocation failed; some of the values may have been added.
fn add_kept(wanted: &Wanted, rows: &[Row], columns: &mut [ColumnData]) -> Result<usize, NoMemory>
    requires wanted { IsWanted wanted.now }
    requires columns { HaveTypes wanted.now.schema.now wanted.now.places.now columns.old }
    requires typed { AreRowsOf (column_types wanted.now.schema.now) rows.now }
    ensures values { OnOk result
        (columns.new ≡ with_columns (matching wanted.now.condition.now rows.now)
        wanted.now.places.now columns.old) }
    ensures counted { IfOk result
        (λ count. count ≡ length (matching wanted.now.condition.now rows.now)) }
    ensures even { (n : ℕ) → All (λ (c : Cells). length c.values ≡ n) columns.old
        → IfOk result (λ count. All (λ (c : Cells). length c.values ≡ n + count) columns.new) }
    ensures types { OnOk result (map (λ (c : Cells). c.col_type) columns.new ≡ map
        (λ (c : Cells). c.col_type) columns.old) }
{
    let mut count: usize = 0;
    for row in rows {
        if !wanted.condition.eval(row) {
            continue;
        }
        add_row(wanted.places, row, columns)?;
        count += 1;
    }
    Ok(count)
}

/// Adds the values that a row has at these places, counted from 0, each to its own column.
///
/// `NoMemory` where an allocation failed; some of the values may have been added.
fn add_row(places: &[u32], row: &Row, columns: &mut [ColumnData]) -> Result<(), NoMemory>
    requires within { All (λ place. place < length row.now) places.now }
    requires columns { map (λ (c : Cells). c.col_type) columns.old ≡ filter_map
        (slice_get (types_of row.now)) places.now }
    ensures { OnOk result
        (columns.new ≡ with_columns (row.now ∷ []) places.now columns.old) }
{
    for (number, place) in places.iter().enumerate() {
        columns[number].push_cell(Cell::of(row.at(*place as usize)))?;
    }
    Ok(())
}
