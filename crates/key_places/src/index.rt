//! An index of keys.
ghost use Rattle.std.specs.Prelude.{◌≡◌, ◌↔◌, ℤ, None, Some, is_some, IsOk, IsTrue, OnOk, OnErr, if◌then◌else◌};
ghost use Rattle.std.specs.Option.{option_or};
ghost use Rattle.std.specs.HashMap.{get};
ghost use Rattle.std.specs.Ordering.{int_eq};
ghost use Rattle.key_places.specs.Places.{ExceptionsStay, GoesOn, IsOffRun, Puts, place_of};

use crate::run::{is_behind, place_in};
use column_types::NoMemory;
use std::alloc::Global;
use std::collections::HashMap;

/// For each key the place where it stands, or that it stands nowhere.
#[derive(Drop)]
pub struct KeyPlaces {
    /// The key `first + i` stands at place `i`, for each `i` below `run`, unless it is an exception.
    first: i64,
    run: u32,
    /// Keys with places of their own, and keys of the run that stand nowhere.
    exceptions: HashMap<i64, Option<u32>>,
}

impl KeyPlaces {
    /// An index that knows no key.
    pub fn new(alloc: Global) -> KeyPlaces
        ensures { (key : ℤ) → place_of result key ≡ None }
    {
        KeyPlaces {
            first: 0,
            run: 0,
            exceptions: HashMap::new(alloc),
        }
    }

    /// What the map of exceptions has of a key. Nothing is hashed where there are none.
    fn exception(&self, key: i64) -> Option<Option<u32>>
        ensures { result ≡ get int_eq self.now.exceptions key }
    {
        if self.exceptions.is_empty() {
            return None;
        }
        self.exceptions.get(&key).copied()
    }

    /// The place where a key stands.
    pub fn get(&self, key: i64) -> Option<u32>
        ensures { result ≡ place_of self.now key }
    {
        match self.exception(key) {
            Some(place) => place,
            None => place_in(self.first, self.run, key),
        }
    }

    /// Whether a key stands anywhere.
    pub fn contains(&self, key: i64) -> bool
        ensures { result ≡ is_some (place_of self.now key) }
    {
        self.get(key).is_some()
    }

    /// Whether the run grows by a key that is put at a place.
    fn goes_on(&self, key: i64, place: u32) -> bool
        ensures { IsTrue result ↔ GoesOn self.now key place }
    {
        place == self.run
            && place < u32::MAX
            && (place == 0 || is_behind(self.first, self.run, key))
            && self.exception(key).is_none()
    }

    /// Puts a key at a place, wherever it stood. A key with which the run goes on takes no memory. Where memory runs out, each
    /// key stands where it stood.
    pub fn insert(&mut self, key: i64, place: u32) -> Result<(), NoMemory>
        ensures ok { OnOk result (Puts self.old self.new key (Some place)) }
        ensures err { OnErr result ((k : ℤ) → place_of self.new k ≡ place_of self.old k) }
        ensures next { GoesOn self.old key place → IsOk result }
        ensures next_free { GoesOn self.old key place → ExceptionsStay self.old self.new }
    {
        if self.goes_on(key, place) {
            if place == 0 {
                self.first = key;
            }
            self.run += 1;
            return Ok(());
        }
        self.exceptions.insert(key, Some(place))?;
        Ok(())
    }

    /// Puts a key that stands nowhere at a place. Any other stays where it stands.
    pub fn insert_new(&mut self, key: i64, place: u32) -> Result<(), NoMemory>
        ensures ok { OnOk result ((k : ℤ) → place_of self.new k ≡ option_or (place_of self.old k) (if int_eq key k then Some place else None)) }
        ensures err { OnErr result ((k : ℤ) → place_of self.new k ≡ place_of self.old k) }
    {
        if self.contains(key) {
            return Ok(());
        }
        self.insert(key, place)
    }

    /// Takes a key out, wherever it stood. Only a key of the run may need memory. Where memory runs out, each key stands where
    /// it stood.
    pub fn remove(&mut self, key: i64) -> Result<(), NoMemory>
        ensures ok { OnOk result (Puts self.old self.new key None) }
        ensures err { OnErr result ((k : ℤ) → place_of self.new k ≡ place_of self.old k) }
        ensures off_run { IsOffRun self.old key → IsOk result }
    {
        match place_in(self.first, self.run, key) {
            Some(_) => {
                self.exceptions.insert(key, None)?;
            }
            None => {
                self.exceptions.remove(&key);
            }
        }
        Ok(())
    }
}
