//! Schemas of transposed graphs.
ghost use Rattle.std.specs.Prelude.{◌≡◌, map, IfOk};
ghost use Rattle.graph_mutate.specs.Transposed.{turned_schema as turned, turned_table};

use column_types::{List, NoMemory};
use graph_schema::{EdgeTable, Schema, SchemaFault};
use std::alloc::Global;

/// An edge table with its end tables swapped.
fn turned_copy(table: &EdgeTable) -> Result<EdgeTable, NoMemory>
    ensures { IfOk result (λ made. made ≡ turned_table table.now) }
{
    let mut made = table.clone()?;
    made.source = table.destination;
    made.destination = table.source;
    Ok(made)
}

/// Each edge table with its end tables swapped.
fn turned_tables(alloc: Global, tables: &[EdgeTable]) -> Result<List<EdgeTable>, NoMemory>
    ensures { IfOk result (λ made. made ≡ map turned_table tables.now) }
{
    let mut made = List::new(alloc);
    for table in tables {
        made.push(turned_copy(table)?)?;
    }
    Ok(made)
}

/// The schema whose edge tables have their end tables swapped.
pub(crate) fn turned_schema(alloc: Global, schema: &Schema) -> Result<Schema, NoMemory>
    ensures { IfOk result (λ made. made ≡ turned schema.now) }
{
    schema.sound();
    let Schema {
        keys,
        vertices,
        edges,
    } = schema.clone()?;
    let edges = turned_tables(alloc, edges.as_slice())?;
    match Schema::new(alloc, keys, vertices, edges) {
        Ok(made) => Ok(made),
        Err(SchemaFault::NoMemory) => Err(NoMemory),
        Err(SchemaFault::At { .. }) => unreachable!(),
    }
}
