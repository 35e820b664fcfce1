//! Shared items under ids, with counts of their uses.
//!
//! A [`Registry`] lists items that several holders use, as graphs use columns. Each [`RegistryRow`] has an id, a count and
//! an item. `add` lists an item with count 1. A holder that starts to use listed items calls `retain` with their ids, which
//! raises their counts. A holder that stops calls `release`, which lowers them and drops each row whose count reaches 0.
//!
//! A registry is seen as the list of its rows, in rising ids, and a number `spare`: so many rows may be added without
//! memory. Only `reserve` takes memory. It is called first, where want of memory can still be told. `add`, `retain` and
//! `release` cannot fail.
//!
//! *Ids that come more than once.* In one call an id may come several times, and is then counted as often. So `retain` asks
//! for room in the counts, and `release` for counts that are high enough, and neither asks that the ids differ. Where they
//! do differ, `retain` may be called while counts are below the greatest number, and `release` always
//! (`distinct_ids_may_be_counted`).
//!
//! *Time.* A row is found by a binary search, so `retain` and `release` of k ids among n rows look at about k times log n
//! rows. `release` then goes once over all rows to close up. No clause says this.
#![tactic(auto)]

mod laws;
mod registry;
mod row;

pub use laws::{
    distinct_ids_may_be_counted, releasing_keeps_what_is_used, releasing_undoes_retaining,
    retaining_raises_counts, rows_are_added_under_new_ids,
};
pub use registry::Registry;
pub use row::RegistryRow;
