//! The slots of a schema: what each of them holds in a graph, and which of them a change touches.
//!
//! A graph is kept in pieces, one for each *slot* of its schema: the keys of a table, the values of a property, where the
//! edges of a table start and end, and the edges that leave or enter each vertex. [`SlotName`] names a slot, [`slot_names`]
//! lists those of a schema in slot order, and a [`Part`] is what a slot holds: `slot_value` of specs/Meaning says which
//! part that is in which graph.
//!
//! A graph after changes shares the parts of the slots that no change touches. [`touches`] tells whether a change touches a
//! slot, and the laws `slot_is_kept` and `slot_is_kept_by_all` say why sharing is right: a slot that is not touched holds
//! the same part as before.
//!
//! A [`Layout`] is a schema with its slots numbered: it finds the number of a slot by its name and the name by its number.
#![tactic(auto)]

mod laws;
mod layout;
mod part;
mod slot;
mod touch;

pub use laws::{one_more_change, slot_is_kept, slot_is_kept_by_all, slots_are_few};
pub use layout::Layout;
pub use part::Part;
pub use slot::{SlotName, slot_names};
pub use touch::touches;
