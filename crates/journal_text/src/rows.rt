//! The lines of single vertices and edges.
ghost use Rattle.std.specs.Prelude.{◌≡◌, ◌++◌, OnOk, IsTrue, codes};
ghost use Rattle.std.specs.List.{flat_map, list_all};
ghost use Rattle.column_types.specs.Value.{is_printable};
ghost use Rattle.journal_text.specs.Graphs.{spaced_number, spaced_value, heading, vertex_line, edge_line};

use crate::number::push_number;
use column_types::{NoMemory, Text, Value, value_text};
use graph_model::{EdgeRow, VertexRow};
use graph_schema::{EdgeTable, VertexTable};
use std::alloc::Global;

/// Appends a space and a number.
pub fn push_spaced(out: &mut Text, n: i64) -> Result<(), NoMemory>
    ensures { OnOk result (out.new ≡ out.old ++ spaced_number n) }
{
    out.push(" ")?;
    push_number(out, n)
}

/// Appends values, a space before each.
fn push_values(alloc: Global, out: &mut Text, values: &[Value]) -> Result<(), NoMemory>
    requires { IsTrue (list_all is_printable values.now) }
    ensures { OnOk result (out.new ≡ out.old ++ flat_map spaced_value values.now) }
{
    for value in values {
        out.push(" ")?;
        value_text(alloc, value.cell(), out)?;
    }
    Ok(())
}

/// Appends two spaces, a word, the name of a table and a key.
pub fn push_heading(out: &mut Text, word: &str, table: &Text, key: i64) -> Result<(), NoMemory>
    ensures { OnOk result (out.new ≡ out.old ++ heading word.now table.now key) }
{
    out.push("  ")?;
    out.push(word)?;
    out.push(" ")?;
    out.push(table.as_str())?;
    push_spaced(out, key)
}

/// Appends values, a space before each, and the end of the line.
fn push_values_end(alloc: Global, out: &mut Text, values: &[Value]) -> Result<(), NoMemory>
    requires { IsTrue (list_all is_printable values.now) }
    ensures { OnOk result (out.new ≡ out.old ++ flat_map spaced_value values.now ++ codes "\n") }
{
    push_values(alloc, out, values)?;
    out.push("\n")
}

pub fn push_vertex(
    alloc: Global,
    out: &mut Text,
    table: &VertexTable,
    row: &VertexRow,
) -> Result<(), NoMemory>
    requires { IsTrue (list_all is_printable row.now.values) }
    ensures { OnOk result (out.new ≡ out.old ++ vertex_line table.now row.now) }
{
    push_heading(out, "v", &table.name, row.key)?;
    push_values_end(alloc, out, row.values.as_slice())
}

/// Appends the ends and the values of an edge, and the end of the line.
fn push_edge_end(alloc: Global, out: &mut Text, row: &EdgeRow) -> Result<(), NoMemory>
    requires { IsTrue (list_all is_printable row.now.values) }
    ensures { OnOk result (out.new ≡ out.old ++ spaced_number row.now.source ++ spaced_number row.now.destination ++ flat_map spaced_value row.now.values ++ codes "\n") }
{
    push_spaced(out, row.source)?;
    push_spaced(out, row.destination)?;
    push_values_end(alloc, out, row.values.as_slice())
}

pub fn push_edge(
    alloc: Global,
    out: &mut Text,
    table: &EdgeTable,
    row: &EdgeRow,
) -> Result<(), NoMemory>
    requires { IsTrue (list_all is_printable row.now.values) }
    ensures { OnOk result (out.new ≡ out.old ++ edge_line table.now row.now) }
{
    push_heading(out, "e", &table.name, row.key)?;
    push_edge_end(alloc, out, row)
}
