//! Positions of vertices as indexes.
ghost use Rattle.std.specs.Prelude.{◌≡◌, ◌+◌, ◌<◌, ◌≤◌, IfOk, length, sum, take};
ghost use Rattle.algo_digraph.specs.DigraphOf.{table_sizes, IsPosition, index_of};

use column_types::{List, NoMemory};
use graph_snap::{Snapshot, VertexAt};
use std::alloc::Global;
use std::marker::Model;

/// The order of the vertices of a graph: table by table, and in a table by places, so that indexes 0, 1 and so on go on from one
/// table to the next. Seen as the list of how many vertices each table has.
#[derive(Drop)]
pub struct VertexOrder {
    sizes: List<u32>,
    firsts: List<u32>,
    total: u32,
}

impl Model for VertexOrder {
    ghost use Rattle.std.specs.Prelude.{List, ℕ};
    ghost use Rattle.algo_digraph.specs.Orders.{AreSums};

    ghost Value = { List ℕ };

    ghost view = { λ o. o.sizes };

    ghost invariant = { λ o. AreSums o.sizes o.firsts o.total };
}

impl VertexOrder {
    /// The order of the vertices of a snapshot. Running out of memory is the only error.
    pub fn new(alloc: Global, on: &Snapshot) -> Result<VertexOrder, NoMemory>
        ensures { IfOk result (λ order. order ≡ table_sizes on.now) }
    {
        on.sound();
        let mut sizes = List::new(alloc);
        let mut firsts = List::new(alloc);
        let mut total = 0;
        for table in 0..on.schema().vertices().len() as u32 {
            let size = on.vertex_count(table);
            sizes.push(size)?;
            firsts.push(total)?;
            total += size;
        }
        Ok(VertexOrder {
            sizes,
            firsts,
            total,
        })
    }

    /// How many vertices there are.
    pub fn vertex_count(&self) -> u32
        ensures all { result ≡ sum self.now }
        ensures few { result ≤ 1048576 }
    {
        self.total
    }

    /// The index of the first vertex of a table, and where it has none, of that which would be its first.
    pub fn first(&self, table: u32) -> u32
        requires { table < length self.now }
        ensures { result ≡ sum (take table self.now) }
    {
        self.firsts.as_slice()[table as usize]
    }

    /// The index of the vertex of a position, in constant time.
    pub fn index(&self, at: VertexAt) -> u32
        requires { IsPosition self.now at }
        ensures value { result ≡ index_of self.now at }
        ensures within { result < sum self.now }
    {
        self.firsts.as_slice()[at.table as usize] + at.place
    }

    /// The position of the vertex of an index. It goes through the tables, of which a graph has at most 32.
    pub fn position(&self, index: u32) -> VertexAt
        requires { index < sum self.now }
        ensures within { IsPosition self.now result }
        ensures value { index_of self.now result ≡ index }
    {
        let mut place = index;
        let mut table = 0;
        for size in self.sizes.as_slice() {
            if place < *size {
                return VertexAt { table, place };
            }
            place -= *size;
            table += 1;
        }
        unreachable!()
    }
}
