//! How a row's values go into the columns of a table, and where its flag goes.
ghost use Rattle.std.specs.Prelude.{◌≡◌, ◌<◌, ◌≤◌, length, slice_get, slice_index_or, All, Some, IsTrue, IfOk, OnOk, OnErr};
ghost use Rattle.std.specs.List.{AllZip};
ghost use Rattle.column_types.specs.declared.value.Value.TheVariants.{Null};
ghost use Rattle.column_types.specs.Value.{fits_kind};
ghost use Rattle.graph_model.specs.Seats.{Fit, HasRow, KeepsBelow, PutsAt, column_at, kinds_of, row_of, with_flag};

use column_types::{EditableColumn, List, NoMemory, Value, copy_value};
use std::alloc::Global;

/// Puts a value at a place: behind the last value, or over one that was put there before memory ran out.
fn put_value(column: &mut EditableColumn, place: u32, value: Value) -> Result<(), NoMemory>
    requires kind { IsTrue (fits_kind column.old.kind value) }
    requires place { place < 4294967295 }
    requires long { place ≤ length column.old.values }
    ensures kept { KeepsBelow place column.old column.new }
    ensures ok { OnOk result (slice_get column.new.values place ≡ Some value) }
{
    if place < column.len() {
        return column.set(place, value);
    }
    column.push(value)
}

/// The same in a column of a list.
fn put_at(
    columns: &mut List<EditableColumn>,
    column: usize,
    place: u32,
    value: Value,
) -> Result<(), NoMemory>
    requires column { column < length columns.old }
    requires kind { IsTrue (fits_kind (column_at columns.old column).kind value) }
    requires place { place < 4294967295 }
    requires long { place ≤ length (column_at columns.old column).values }
    ensures kept { PutsAt column place columns.old columns.new }
    ensures ok { OnOk result (slice_get (column_at columns.new column).values place ≡ Some value) }
{
    put_value(&mut columns.as_mut_slice()[column], place, value)
}

/// Puts a row's values at a place of each column. What stands below the place stays, also after an error.
pub(crate) fn put_row(
    columns: &mut List<EditableColumn>,
    place: u32,
    values: List<Value>,
) -> Result<(), NoMemory>
    requires place { place < 4294967295 }
    requires fit { Fit (kinds_of columns.old) values }
    requires long { All (λ c. place ≤ length c.values) columns.old }
    ensures kept { AllZip (KeepsBelow place) columns.old columns.new }
    ensures ok { OnOk result (HasRow place columns.new values) }
{
    let mut column = 0;
    for value in values.into_vec() {
        put_at(columns, column, place, value)?;
        column += 1;
    }
    Ok(())
}

/// A copy of the value at a place.
fn copy_cell(alloc: Global, column: &EditableColumn, place: u32) -> Result<Value, NoMemory>
    requires { place < length column.now.values }
    ensures { IfOk result (λ value. value ≡ slice_index_or column.now.values place Null) }
{
    copy_value(alloc, column.get(place))
}

/// A copy of the values at a place of each column.
pub(crate) fn copy_row(
    alloc: Global,
    columns: &[EditableColumn],
    place: u32,
) -> Result<List<Value>, NoMemory>
    requires { All (λ c. place < length c.values) columns.now }
    ensures { IfOk result (λ values. values ≡ row_of columns.now place) }
{
    let mut values = List::new(alloc);
    for column in columns {
        values.push(copy_cell(alloc, column, place)?)?;
    }
    Ok(values)
}

/// Makes flags up to that of a place. Those that are new are not set. After an error all flags are as before.
pub(crate) fn make_flags(flags: &mut Vec<bool>, place: u32) -> Result<(), NoMemory>
    ensures ok { OnOk result (flags.new.items ≡ with_flag flags.old.items place) }
    ensures err { OnErr result (flags.new.items ≡ flags.old.items) }
{
    let len = flags.len().max(place as usize + 1);
    flags.resize(len, false)?;
    Ok(())
}
