//! What the names of slots tell.
ghost use Rattle.std.specs.Prelude.{◌≡◌};
ghost use Rattle.graph_mutate.specs.Transposed.{turned_slot as turned};

use graph_slots::SlotName;

/// The slot of a graph that holds what this slot holds after transposing.
pub(crate) fn turned_slot(name: SlotName) -> SlotName
    ensures { result ≡ turned name }
{
    match name {
        SlotName::Source(table) => SlotName::Destination(table),
        SlotName::Destination(table) => SlotName::Source(table),
        SlotName::Out(table) => SlotName::Into(table),
        SlotName::Into(table) => SlotName::Out(table),
        SlotName::VertexKey(_)
        | SlotName::VertexProp(_, _)
        | SlotName::EdgeKey(_)
        | SlotName::EdgeProp(_, _) => name,
    }
}
