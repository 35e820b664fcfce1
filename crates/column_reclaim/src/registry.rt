//! Items under rising ids, with counts.
ghost use Rattle.std.specs.Prelude.{◌≡◌, ◌+◌, ◌-◌, ◌<◌, ◌≤◌, ◌^◌, [], ◌∷◌, ◌++◌, All, IsOk, OnOk, OnErr, max, vec_len, vec_capacity};
ghost use Rattle.column_reclaim.specs.Registry.{Listing, Rises, IsListed, times, raised, lowered};

use crate::row::{RegistryRow, drop_unused, lower, raise};
use column_types::NoMemory;
use std::alloc::Global;
use std::marker::Model;

/// Rows in rising ids, each with a count above 0, seen as the list of them and the number of rows that may be added
/// without memory.
#[derive(Debug, Drop)]
pub struct Registry<T> {
    rows: Vec<RegistryRow<T>>,
    spare: usize,
}

impl<T> Model for Registry<T> {
    ghost Value = { Listing T };

    ghost view = { λ l. record { rows = l.rows.items; spare = l.spare } };

    ghost invariant = { λ l. record {
      room : vec_len l.rows + l.spare ≤ vec_capacity l.rows;
      rises : Rises l.rows.items;
      counted : All (λ r. 0 < r.count) l.rows.items;
    } };
}

impl<T: Drop> Registry<T> {
    /// No rows, and no room. It takes no memory.
    pub fn new(alloc: Global) -> Registry<T>
        ensures { result ≡ record { rows = []; spare = 0 } }
    {
        Registry {
            rows: Vec::new(alloc),
            spare: 0,
        }
    }

    /// The rows.
    pub fn list(&self) -> &[RegistryRow<T>]
        ensures rows { result.now ≡ self.now.rows }
        ensures rises { Rises self.now.rows }
        ensures counted { All (λ r. 0 < r.count) self.now.rows }
    {
        self.rows.as_slice()
    }

    /// Makes room for at least `n` more rows. Where there is so much it takes no memory.
    pub fn reserve(&mut self, n: u32) -> Result<(), NoMemory>
        ensures rows { self.new.rows ≡ self.old.rows }
        ensures ok { OnOk result (self.new.spare ≡ max self.old.spare n) }
        ensures err { OnErr result (self.new.spare ≡ self.old.spare) }
        ensures there { n ≤ self.old.spare → IsOk result }
    {
        let room = self.spare.max(n as usize);
        self.rows.reserve(room)?;
        self.spare = room;
        Ok(())
    }

    /// Lists an item under an id that is greater than all, with count 1. It takes no memory.
    pub fn add(&mut self, id: u64, item: T)
        requires spare { 0 < self.old.spare }
        requires greatest { All (λ r. r.id < id) self.old.rows }
        ensures rows { self.new.rows ≡ self.old.rows ++ record { id = id; count = 1; item = item } ∷ [] }
        ensures spare { self.new.spare + 1 ≡ self.old.spare }
    {
        self.rows.push_reserved(RegistryRow { id, count: 1, item });
        self.spare -= 1;
    }

    /// Raises the count of each id by 1, each time that it comes. It takes no memory.
    #[tactic(auto, using(crate::proofs::Changes::retained_rows))]
    pub fn retain(&mut self, ids: &[u64])
        requires listed { All (IsListed self.old.rows) ids.now }
        requires room { All (λ r. r.count + times r.id ids.now < 2 ^ 64) self.old.rows }
        ensures rows { self.new.rows ≡ raised ids.now self.old.rows }
        ensures spare { self.new.spare ≡ self.old.spare }
    {
        for id in ids {
            raise(&mut self.rows, *id);
        }
    }

    /// Lowers the count of each id by 1, each time that it comes, and drops the rows whose count is then 0. It takes no
    /// memory.
    #[tactic(auto, using(crate::proofs::Changes::released_rows))]
    pub fn release(&mut self, ids: &[u64])
        requires listed { All (IsListed self.old.rows) ids.now }
        requires used { All (λ r. times r.id ids.now ≤ r.count) self.old.rows }
        ensures rows { self.new.rows ≡ lowered ids.now self.old.rows }
        ensures spare { self.new.spare ≡ self.old.spare }
    {
        for id in ids {
            lower(&mut self.rows, *id);
        }
        drop_unused(&mut self.rows);
    }
}
