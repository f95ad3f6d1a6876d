// The values of a column at which a mask is true, added to another column: one match on the type, and then one loop over
// the vector of that type.
ghost use Rattle.std.specs.Prelude.{◌≡◌, ◌++◌, OnOk, length};
ghost use Rattle.mt_values.specs.Columns.{cells_of};
ghost use Rattle.mt_values.specs.Lists.{where_true};

use crate::ColumnData;
use crate::column::Cells;
use crate::strings::Strings;
use mt_base::NoMemory;

impl ColumnData {
    /// Adds the values of a column of the same type at which a mask is true, in their order.
    ///
    /// `NoMemory` where an allocation failed; some of the values may have been added.
    pub fn add_where(&mut self, from: &ColumnData, mask: &[bool]) -> Result<(), NoMemory>
        requires same { from.now.col_type ≡ self.old.col_type }
        requires even { length mask.now ≡ length from.now.values }
        ensures { OnOk result (self.new ≡ record self.old {
          values = self.old.values ++
              where_true mask.now from.now.values;
        }) }
    {
        self.cells.add_where(&from.cells, mask)
    }
}

impl Cells {
    /// Adds the values at which a mask is true.
    ///
    /// `NoMemory` where an allocation failed; some of the values may have been added.
    fn add_where(&mut self, from: &Cells, mask: &[bool]) -> Result<(), NoMemory>
        requires same { (cells_of from.now).col_type ≡ (cells_of self.old).col_type }
        requires even { length mask.now ≡ length (cells_of from.now).values }
        ensures { OnOk result (cells_of self.new ≡ record (cells_of self.old) {
          values = (cells_of self.old).values
              ++ where_true mask.now (cells_of from.now).values;
        }) }
    {
        // A column of another type does not come, so the second arms add nothing.
        match self {
            Cells::UInt8(v) => match from {
                Cells::UInt8(w) => add_numbers_where(v, w, mask),
                _ => Ok(()),
            },
            Cells::UInt16(v) => match from {
                Cells::UInt16(w) => add_numbers_where(v, w, mask),
                _ => Ok(()),
            },
            Cells::UInt32(v) => match from {
                Cells::UInt32(w) => add_numbers_where(v, w, mask),
                _ => Ok(()),
            },
            Cells::UInt64(v) => match from {
                Cells::UInt64(w) => add_numbers_where(v, w, mask),
                _ => Ok(()),
            },
            Cells::Int8(v) => match from {
                Cells::Int8(w) => add_numbers_where(v, w, mask),
                _ => Ok(()),
            },
            Cells::Int16(v) => match from {
                Cells::Int16(w) => add_numbers_where(v, w, mask),
                _ => Ok(()),
            },
            Cells::Int32(v) => match from {
                Cells::Int32(w) => add_numbers_where(v, w, mask),
                _ => Ok(()),
            },
            Cells::Int64(v) => match from {
                Cells::Int64(w) => add_numbers_where(v, w, mask),
                _ => Ok(()),
            },
            Cells::Text(v) => match from {
                Cells::Text(w) => add_texts_where(v, w, mask),
                _ => Ok(()),
            },
        }
    }
}

/// Adds the numbers at which a mask is true.
///
/// `NoMemory` where an allocation failed; some of them may have been added.
fn add_numbers_where<T: Copy>(
    numbers: &mut Vec<T>,
    from: &[T],
    mask: &[bool],
) -> Result<(), NoMemory>
    requires { length mask.now ≡ length from.now }
    ensures { OnOk result (numbers.new.items ≡ numbers.old.items ++ where_true mask.now from.now) }
{
    for (place, number) in from.iter().enumerate() {
        if !mask[place] {
            continue;
        }
        numbers.push(*number)?;
    }
    Ok(())
}

/// Adds the texts at which a mask is true.
///
/// `NoMemory` where an allocation failed; some of them may have been added.
fn add_texts_where(texts: &mut Strings, from: &Strings, mask: &[bool]) -> Result<(), NoMemory>
    requires { length mask.now ≡ length from.now }
    ensures { OnOk result (texts.new ≡ texts.old ++ where_true mask.now from.now) }
{
    for (place, is_true) in mask.iter().enumerate() {
        if !*is_true {
            continue;
        }
        texts.push(from.at(place))?;
    }
    Ok(())
}
