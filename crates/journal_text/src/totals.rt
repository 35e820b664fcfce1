//! How many vertices and edges a snapshot has.
ghost use Rattle.std.specs.Prelude.{◌≡◌};
ghost use Rattle.graph_model.specs.Graph.{vertex_total, edge_total};

use graph_snap::Snapshot;

/// How many vertices all tables have.
pub fn vertex_total(on: &Snapshot) -> u64
    ensures { result ≡ vertex_total on.now }
{
    on.sound();
    let mut total = 0;
    for table in 0..on.schema().vertices().len() as u32 {
        total += u64::from(on.vertex_count(table));
    }
    total
}

/// How many edges all tables have.
pub fn edge_total(on: &Snapshot) -> u64
    ensures { result ≡ edge_total on.now }
{
    on.sound();
    let mut total = 0;
    for table in 0..on.schema().edges().len() as u32 {
        total += u64::from(on.edge_count(table));
    }
    total
}
