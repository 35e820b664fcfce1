//! Parts one at a time, each made of a column of a graph. Nothing is copied but what rows need.
ghost use Rattle.std.specs.Prelude.{◌≡◌, ◌<◌, ◌≤◌, ◌+◌, IfOk, OnOk, length, map};
ghost use Rattle.graph_slots.specs.Meaning.{longs, edge_rows};
ghost use Rattle.graph_slots.specs.declared.part.Part.TheVariants.{Cells as CellsOf};
ghost use Rattle.graph_columns.specs.TableParts.{ArePlaces, integers, places_told};

use column_types::{EditableColumn, List, NoMemory, Shared, Steps};
use csr_rows::Rows;
use graph_slots::Part;
use std::alloc::Global;
use std::sync::ledger::Ledger;

/// More than the place of any vertex.
const MOST_VERTICES: u32 = 1_048_576;

/// Keys, for a step each. They are moved.
pub fn key_part<L: Ledger>(
    alloc: Global,
    keys: List<i64>,
    steps: &mut Steps<L>,
) -> Result<Part, NoMemory>
    requires { length keys < 4294967296 }
    ensures part { IfOk result (λ part. part ≡ longs keys) }
    ensures counted { steps.new ≡ steps.old + length keys }
{
    let column = EditableColumn::of_longs(alloc, keys).finish(steps);
    Ok(Part::Cells(Shared::new(alloc, column)?))
}

/// The values of a property, for a step each. They are moved.
pub fn prop_part<L: Ledger>(
    alloc: Global,
    values: EditableColumn,
    steps: &mut Steps<L>,
) -> Result<Part, NoMemory>
    ensures part { IfOk result (λ part. part ≡ CellsOf values) }
    ensures counted { steps.new ≡ steps.old + length values.values }
{
    Ok(Part::Cells(Shared::new(alloc, values.finish(steps))?))
}

/// Places where edges start or end, for a step each. They are moved.
pub fn place_part<L: Ledger>(
    alloc: Global,
    places: List<i32>,
    steps: &mut Steps<L>,
) -> Result<Part, NoMemory>
    requires { length places < 4294967296 }
    ensures part { IfOk result (λ part. part ≡ integers places) }
    ensures counted { steps.new ≡ steps.old + length places }
{
    let column = EditableColumn::of_integers(alloc, places).finish(steps);
    Ok(Part::Cells(Shared::new(alloc, column)?))
}

/// Places as the ends that rows are made of.
fn ends_of(alloc: Global, places: &[i32]) -> Result<List<u32>, NoMemory>
    requires { ArePlaces places.now }
    ensures { IfOk result (λ ends. ends ≡ places_told places.now) }
{
    let mut ends = List::new(alloc);
    for place in places {
        ends.push(*place as u32)?;
    }
    Ok(ends)
}

/// For each vertex the places of the edges that start, or end, there, for a step for each edge. `places` are where the edges
/// start, or end.
pub fn row_part<L: Ledger>(
    alloc: Global,
    places: &[i32],
    steps: &mut Steps<L>,
) -> Result<Part, NoMemory>
    requires places { ArePlaces places.now }
    requires few { length places.now < 4294967295 }
    ensures part { IfOk result (λ part. part ≡ edge_rows (places_told places.now)) }
    ensures counted { OnOk result (steps.new ≡ steps.old + length places.now) }
    ensures least { steps.old ≤ steps.new }
    ensures most { steps.new ≤ steps.old + length places.now }
{
    let ends = ends_of(alloc, places)?;
    let rows = Rows::build(alloc, MOST_VERTICES, ends.as_slice(), steps)?;
    Ok(Part::Rows(Shared::new(alloc, rows)?))
}
