//! New edge tables, told by lists.
ghost use Rattle.std.specs.Prelude.{◌≡◌, ◌<◌, ◌++◌, All, IfOk, OnOk, length};
ghost use Rattle.graph_mutate.specs.Taken.{taken};

use column_types::{List, NoMemory};

/// For each edge of a new table its key, the places where it starts and ends, and the place of an edge of the old table that
/// has its values.
#[derive(Drop)]
pub struct EdgeLists {
    pub keys: List<i64>,
    pub sources: List<i32>,
    pub destinations: List<i32>,
    pub origins: List<u32>,
}

/// Appends the ends at these places.
pub(crate) fn push_ends(ends: &mut List<i32>, items: &[i32], places: &[u32]) -> Result<(), NoMemory>
    requires { All (λ p. p < length items.now) places.now }
    ensures { OnOk result (ends.new ≡ ends.old ++ taken items.now places.now) }
{
    for place in places {
        ends.push(items[*place as usize])?;
    }
    Ok(())
}
