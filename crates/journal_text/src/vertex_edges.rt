//! The two lines of the edges at a vertex.
ghost use Rattle.std.specs.Prelude.{◌≡◌, ◌<◌, ◌++◌, All, OnOk, length, slice_get, Some, codes};
ghost use Rattle.std.specs.List.{flat_map};
ghost use Rattle.graph_snap.specs.Reading.{vertex_keys_at};
ghost use Rattle.journal_text.specs.Ends.{leaving, entering, keys_at};
ghost use Rattle.journal_text.specs.Graphs.{spaced_number, keys_line, two_lines};

use crate::laws::rows_list_the_edges_of_a_key;
use crate::rows::{push_heading, push_spaced};
use column_types::{NoMemory, Text};
use graph_schema::VertexTable;
use graph_snap::{Snapshot, VertexAt};

/// Appends the keys at some places, a space before each.
fn push_keys(out: &mut Text, keys: &[i64], places: &[u32]) -> Result<(), NoMemory>
    requires { All (λ place. place < length keys.now) places.now }
    ensures { OnOk result (out.new ≡ out.old ++ flat_map spaced_number (keys_at keys.now places.now)) }
{
    for place in places {
        push_spaced(out, keys[*place as usize])?;
    }
    Ok(())
}

/// Appends the keys of the edges that leave a vertex, whose key is given, a space before each.
fn push_leaving(out: &mut Text, on: &Snapshot, at: VertexAt, key: i64) -> Result<(), NoMemory>
    requires { slice_get (vertex_keys_at on.now at.table) at.place ≡ Some key }
    ensures { OnOk result (out.new ≡ out.old ++ flat_map spaced_number (leaving on.now at.table key)) }
{
    on.sound();
    for table in 0..on.schema().edges().len() as u32 {
        rows_list_the_edges_of_a_key(on, at, key, table);
        push_keys(out, on.edge_keys(table), on.out_row(at, table))?;
    }
    Ok(())
}

/// Appends the keys of the edges that enter a vertex, whose key is given, a space before each.
fn push_entering(out: &mut Text, on: &Snapshot, at: VertexAt, key: i64) -> Result<(), NoMemory>
    requires { slice_get (vertex_keys_at on.now at.table) at.place ≡ Some key }
    ensures { OnOk result (out.new ≡ out.old ++ flat_map spaced_number (entering on.now at.table key)) }
{
    on.sound();
    for table in 0..on.schema().edges().len() as u32 {
        rows_list_the_edges_of_a_key(on, at, key, table);
        push_keys(out, on.edge_keys(table), on.in_row(at, table))?;
    }
    Ok(())
}

/// Appends the line of the edges that leave a vertex.
fn push_out_line(
    out: &mut Text,
    on: &Snapshot,
    at: VertexAt,
    key: i64,
    shape: &VertexTable,
) -> Result<(), NoMemory>
    requires { slice_get (vertex_keys_at on.now at.table) at.place ≡ Some key }
    ensures { OnOk result (out.new ≡ out.old ++ keys_line (codes "out") shape.now key (leaving on.now at.table key)) }
{
    push_heading(out, "out", &shape.name, key)?;
    out.push(":")?;
    push_leaving(out, on, at, key)?;
    out.push("\n")
}

/// Appends the line of the edges that enter a vertex.
fn push_in_line(
    out: &mut Text,
    on: &Snapshot,
    at: VertexAt,
    key: i64,
    shape: &VertexTable,
) -> Result<(), NoMemory>
    requires { slice_get (vertex_keys_at on.now at.table) at.place ≡ Some key }
    ensures { OnOk result (out.new ≡ out.old ++ keys_line (codes "in") shape.now key (entering on.now at.table key)) }
{
    push_heading(out, "in", &shape.name, key)?;
    out.push(":")?;
    push_entering(out, on, at, key)?;
    out.push("\n")
}

/// Appends the two lines of a vertex, whose key and table are given.
pub fn push_two_lines(
    out: &mut Text,
    on: &Snapshot,
    at: VertexAt,
    key: i64,
    shape: &VertexTable,
) -> Result<(), NoMemory>
    requires { slice_get (vertex_keys_at on.now at.table) at.place ≡ Some key }
    ensures { OnOk result (out.new ≡ out.old ++ two_lines on.now (at.table, shape.now) key) }
{
    push_out_line(out, on, at, key, shape)?;
    push_in_line(out, on, at, key, shape)
}
