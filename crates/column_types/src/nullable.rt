//! Items of one type, some of them missing.
ghost use Rattle.std.specs.Prelude.{◌≡◌, [], ◌∷◌, ◌++◌, ◌<◌, ◌≤◌, ◌-◌, false, length, map, replicate, Some, None, slice_get, slice_set, Contains, OnOk, OnErr, IfSome, IsNone};
ghost use Rattle.std.specs.Option.{option_copied};
ghost use Rattle.std.specs.List.{list_any};

use crate::NoMemory;
use std::alloc::Global;
use std::marker::Model;

/// Items, some of them with a flag that says that they are missing, seen as a list of options. There are flags up to some item
/// and none past it, so where nothing was ever missing they take no memory. A missing item keeps some item in its place.
#[derive(Drop)]
pub struct Nullable<T> {
    items: Vec<T>,
    missing: Vec<bool>,
}

impl<T> Model for Nullable<T> {
    ghost use Rattle.std.specs.Prelude.{List, Option, length, ◌≤◌};
    ghost use Rattle.std.specs.Coded.{coded_list, coded_option};
    ghost use Rattle.column_types.specs.Nullable.{entries};

    ghost Value = { List (Option T) };

    ghost coded = { coded_list (coded_option T.code) };

    ghost view = { λ n. entries n.missing.items n.items.items };

    ghost invariant = { λ n. length n.missing.items ≤ length n.items.items };
}

#[tactic(auto, using(crate::proofs::Entries::entries_steps))]
impl<T: Drop> Nullable<T> {
    pub fn new(alloc: Global) -> Nullable<T>
        ensures { result ≡ [] }
    {
        Nullable {
            items: Vec::new(alloc),
            missing: Vec::new(alloc),
        }
    }

    /// Items of which none is missing. It takes no memory.
    pub fn of_items(alloc: Global, items: Vec<T>) -> Nullable<T>
        ensures { result ≡ map Some items.items }
    {
        Nullable {
            items,
            missing: Vec::new(alloc),
        }
    }

    pub fn len(&self) -> usize
        ensures { result ≡ length self.now }
    {
        self.items.len()
    }

    pub fn push(&mut self, item: T) -> Result<(), NoMemory>
        ensures ok { OnOk result (self.new ≡ self.old ++ Some item ∷ []) }
        ensures err { OnErr result (self.new ≡ self.old) }
    {
        self.items.push(item)?;
        Ok(())
    }

    /// Appends a missing item, in whose place `filler` stands.
    pub fn push_missing(&mut self, filler: T) -> Result<(), NoMemory>
        ensures ok { OnOk result (self.new ≡ self.old ++ None ∷ []) }
        ensures err { OnErr result (self.new ≡ self.old) }
    {
        let len = self.items.len();
        flag_all(&mut self.missing, len)?;
        self.missing.reserve(1)?;
        self.items.push(filler)?;
        self.missing.push_reserved(true);
        Ok(())
    }

    /// Puts an item in a place.
    pub fn set(&mut self, place: usize, item: T)
        requires { place < length self.old }
        ensures { self.new ≡ slice_set self.old place (Some item) }
    {
        self.items[place] = item;
        if place < self.missing.len() {
            self.missing[place] = false;
        }
    }

    /// Says of the item in a place that it is missing. `filler` stands there from now on.
    pub fn set_missing(&mut self, place: usize, filler: T) -> Result<(), NoMemory>
        requires { place < length self.old }
        ensures ok { OnOk result (self.new ≡ slice_set self.old place None) }
        ensures err { OnErr result (self.new ≡ self.old) }
    {
        let len = self.items.len();
        flag_all(&mut self.missing, len)?;
        self.missing[place] = true;
        self.items[place] = filler;
        Ok(())
    }

    pub fn get(&self, place: usize) -> Option<&T>
        requires { place < length self.now }
        ensures { slice_get self.now place ≡ Some (option_copied result) }
    {
        if place >= self.missing.len() {
            return Some(&self.items[place]);
        }
        if self.missing[place] {
            return None;
        }
        Some(&self.items[place])
    }

    /// All items, where none of them is missing.
    pub fn whole(&self) -> Option<&[T]>
        ensures some { IfSome result (λ items. self.now ≡ map Some items.now) }
        ensures none { IsNone result → Contains self.now None }
    {
        if has_set(self.missing.as_slice()) {
            None
        } else {
            Some(self.items.as_slice())
        }
    }
}

/// Whether some flag is set.
fn has_set(flags: &[bool]) -> bool
    ensures { result ≡ list_any (λ flag. flag) flags.now }
{
    flags.iter().any(|flag| *flag)
}

/// Appends flags of items that are there until there are `len` of them.
fn flag_all(missing: &mut Vec<bool>, len: usize) -> Result<(), NoMemory>
    requires { length missing.old.items ≤ len }
    ensures ok { OnOk result (missing.new.items ≡ missing.old.items ++ replicate (len - length missing.old.items) false) }
    ensures len { OnOk result (length missing.new.items ≡ len) }
    ensures err { OnErr result (missing.new.items ≡ missing.old.items) }
{
    missing.resize(len, false)?;
    Ok(())
}
