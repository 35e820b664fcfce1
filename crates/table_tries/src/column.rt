//! Cases of columns.
ghost use Rattle.std.specs.Prelude.{◌≡◌, ◌<◌};

use crate::values::{cell_of, kind_of, push_cell, word_of};
use column_types::{Column, ColumnBuilder, Kind, NoMemory, Steps, Text, Value, copy_value};
use journal_text::push_count;
use std::alloc::Global;
use std::marker::Brand;
use std::sync::ledger::{Blank, Ledger};
use std::thread::Threads;

/// `column KIND VALUE|VALUE`.
pub fn column<R: Threads + Sync>(rt: &R, alloc: Global, rest: &str) -> Result<Text, NoMemory> {
    let (word, values) = rest.split_once(' ').unwrap_or((rest, ""));
    let (first, second) = values.split_once('|').unwrap_or((values, ""));
    let kind = kind_of(word);
    let (first, second) = (cell_of(first), cell_of(second));
    if !kind.fits(first) || !kind.fits(second) {
        return Text::from_str(alloc, "another kind");
    }
    let values = (copy_value(alloc, first)?, copy_value(alloc, second)?);
    let column = column_of::<Brand, _>(rt, alloc, Blank::new(1), kind, values)?;
    shown(alloc, &column)
}

/// A column of two values, by a counter that nobody reads. It has none of them where one is of another kind.
fn column_of<L: Ledger, R: Threads + Sync>(
    rt: &R,
    alloc: Global,
    blank: Blank,
    kind: Kind,
    values: (Value, Value),
) -> Result<Column, NoMemory>
    requires name { blank.name ≡ L.name }
    requires parts { blank.parts ≡ L.parts }
    requires some { 0 < blank.parts }
{
    let (first, second) = values;
    let mut steps = Steps::<L>::new(rt, blank);
    let mut builder = ColumnBuilder::new(alloc, kind)?;
    if kind.fits(first.cell()) && kind.fits(second.cell()) {
        builder.push(first, &mut steps)?;
        builder.push(second, &mut steps)?;
    }
    Ok(builder.finish())
}

/// The kind of a column, its length and its values.
fn shown(alloc: Global, column: &Column) -> Result<Text, NoMemory> {
    let mut out = Text::from_str(alloc, word_of(column.kind()))?;
    out.push(" ")?;
    push_count(&mut out, u64::from(column.len()))?;
    for row in 0..column.len() {
        out.push(" ")?;
        push_cell(alloc, &mut out, column.get(row))?;
    }
    Ok(out)
}
