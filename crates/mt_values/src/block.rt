// Rows, kept by columns.
ghost use Rattle.std.specs.Prelude.{◌≡◌, ◌<◌, ◌^◌, ◌↔◌, ◌++◌, [], Some, All, IfOk, IsTrue, OnOk, length, slice_get};
ghost use Rattle.mt_values.specs.Grid.{AreRowsOf, Cells, HaveTypeAt, IsOrderBy, column_of, grid_of, picked};
ghost use Rattle.mt_values.specs.Tables.{sorting_columns};

use crate::column::ColumnData;
use crate::sorting::{all_places, cmp_pairs, led_places, places_of};
use crate::{Cell, ColType, Row, Schema};
use mt_base::{NoMemory, Seq};
use std::alloc::Global;
use std::marker::Model;

/// Rows of one table, kept in typed columns. Contracts see the types of the columns and the list of rows.
#[derive(Debug, Drop)]
pub struct Block {
    columns: Vec<ColumnData>,
    rows: usize,
}

impl Model for Block {
    ghost use Rattle.mt_values.specs.Grid.{AreAligned, Grid, grid_of};

    ghost Value = { Grid };

    ghost view = { λ b. grid_of b.columns.items b.rows };

    ghost invariant = { λ b. AreAligned b.columns.items b.rows };
}

impl Block {
    /// The block without rows, with columns of these types.
    ///
    /// `NoMemory` where an allocation failed.
    pub fn new(alloc: Global, types: &[ColType]) -> Result<Block, NoMemory>
        ensures { IfOk result (λ b. b ≡ record { types = types.now; rows = [] }) }
    {
        let rows: [Row; 0] = [];
        Block::from_rows(alloc, types, &rows)
    }

    /// The block of columns that have this many values each. Takes no memory.
    pub fn of_columns(columns: Vec<ColumnData>, rows: usize) -> Block
        requires few { rows < 2 ^ 32 }
        requires even { All (λ c. length c.values ≡ rows) columns.items }
        ensures { result ≡ grid_of columns.items rows }
    {
        // Reading each length shows that each column keeps to its type.
        for column in &columns {
            prove_eq!(column.len(), rows);
        }
        Block { columns, rows }
    }

    /// The block of these rows.
    ///
    /// `NoMemory` where an allocation failed.
    pub fn from_rows(alloc: Global, types: &[ColType], rows: &[Row]) -> Result<Block, NoMemory>
        requires typed { AreRowsOf types.now rows.now }
        requires few { length rows.now < 2 ^ 32 }
        ensures { IfOk result (λ b. b ≡ record { types = types.now; rows = rows.now }) }
    {
        let mut columns = Vec::with_capacity(alloc, types.len())?;
        for (place, col_type) in types.iter().enumerate() {
            let mut column = ColumnData::new(alloc, *col_type);
            push_values(&mut column, rows, place)?;
            columns.push_reserved(column);
        }
        Ok(Block::of_columns(columns, rows.len()))
    }

    /// The number of rows.
    pub fn len(&self) -> usize
        ensures count { result ≡ length self.now.rows }
        ensures typed { AreRowsOf self.now.types self.now.rows }
        ensures few { length self.now.rows < 2 ^ 32 }
    {
        self.rows
    }

    /// Whether there is no row.
    pub fn is_empty(&self) -> bool
        ensures { IsTrue result ↔ (self.now.rows ≡ []) }
    {
        self.len() == 0
    }

    /// The number of columns.
    pub fn width(&self) -> usize
        ensures { result ≡ length self.now.types }
    {
        self.columns.len()
    }

    /// The column at a place, counted from 0.
    pub fn column(&self, place: usize) -> &ColumnData
        requires { place < length self.now.types }
        ensures values { result.now.values ≡ column_of place self.now.rows }
        ensures col_type { slice_get self.now.types place ≡ Some result.now.col_type }
    {
        &self.columns[place]
    }

    /// The columns, in their order.
    pub fn columns(&self) -> &[ColumnData]
        ensures even { All (λ c. length c.values ≡ length self.now.rows) result.now }
        ensures block { self.now ≡ grid_of result.now (length self.now.rows) }
    {
        self.columns.as_slice()
    }

    /// The row at a place, counted from 0, as a row of its own.
    ///
    /// `NoMemory` where there was none for the row or a text of it.
    pub fn row(&self, alloc: Global, place: usize) -> Result<Row, NoMemory>
        requires { place < length self.now.rows }
        ensures { IfOk result (λ r. slice_get self.now.rows place ≡ Some r) }
    {
        let mut row = Seq::with_capacity(alloc, self.columns.len())?;
        for column in &self.columns {
            row.push(column.at(place).to_value(alloc)?)?;
        }
        Ok(row)
    }

    /// The rows at these places, counted from 0, in this order, gathered column by column.
    ///
    /// `NoMemory` where an allocation failed.
    pub fn pick(&self, alloc: Global, order: &[u32]) -> Result<Block, NoMemory>
        requires within { All (λ place. place < length self.now.rows) order.now }
        requires few { length order.now < 2 ^ 32 }
        ensures { IfOk result (λ b. b ≡ record self.now { rows = picked self.now.rows order.now }) }
    {
        // Reading the length shows that the rows keep to the types of the columns.
        let _rows = self.len();
        let mut columns = Vec::with_capacity(alloc, self.width())?;
        for place in 0..self.width() {
            columns.push_reserved(self.column(place).pick(alloc, order)?);
        }
        Ok(Block::of_columns(columns, order.len()))
    }

    /// The places of the rows, from 0, in the order by these columns; rows that are alike in them keep their order.
    ///
    /// `NoMemory` where there was none for the places.
    pub fn order_by(&self, alloc: Global, columns: &[u32]) -> Result<Vec<u32>, NoMemory>
        requires { All (λ place. place < length self.now.types) columns.now }
        ensures { IfOk result (λ v. IsOrderBy columns.now self.now.rows v.items) }
    {
        let rows = self.len();
        if columns.is_empty() {
            return all_places(alloc, rows as u32);
        }
        let mut pairs = led_places(alloc, self, columns)?;
        pairs.sort_by(|a, b| cmp_pairs(self, columns, *a, *b))?;
        places_of(alloc, &pairs)
    }

    /// The places of the rows, from 0, in the table's order: by the sorting key, and then by the version where a versioned
    /// collapsing table's key lacks it.
    ///
    /// `NoMemory` where there was none for the places.
    pub fn key_order(&self, alloc: Global, schema: &Schema) -> Result<Vec<u32>, NoMemory>
        requires { All (λ place. place < length self.now.types) (sorting_columns schema.now) }
        ensures { IfOk result (λ v. IsOrderBy (sorting_columns schema.now) self.now.rows v.items) }
    {
        let places = schema.sorting_places(alloc)?;
        self.order_by(alloc, places.as_slice())
    }
}

/// Adds the values that the rows have at a place to a column.
///
/// `NoMemory` where an allocation failed; some of the first values may have been added then.
fn push_values(column: &mut ColumnData, rows: &[Row], place: usize) -> Result<(), NoMemory>
    requires { HaveTypeAt place column.old.col_type rows.now }
    ensures { OnOk result (column.new ≡ record column.old {
      values = column.old.values ++ column_of
          place rows.now;
    }) }
{
    for row in rows {
        column.push_cell(Cell::of(row.at(place)))?;
    }
    Ok(())
}
