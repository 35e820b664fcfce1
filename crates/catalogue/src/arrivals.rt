//! Snapshots that are derived from others, and were built before the call.
ghost use Rattle.std.specs.Prelude.{◌≡◌, ◌+◌, ◌<◌, ◌^◌, ◌++◌, ◌∷◌, [], IfOk, OnOk, IfErr, Contains, length, slice_index_or};
ghost use Rattle.graph_slots.specs.Slots.{slots};
ghost use Rattle.graph_snap.specs.Sharing.{graph_parts};
ghost use Rattle.catalogue_state.specs.declared.ask.How.{How as HowData};
ghost use Rattle.catalogue_state.specs.State.{roots};
ghost use Rattle.catalogue_state.specs.Derived.{numbers_by, numbers_kept, new_count, new_parts, IsBuilt};
ghost use Rattle.catalogue_state.specs.Bound.{IsReady};
ghost use Rattle.catalogue.specs.Coming.{snap_of_built, Arrives, TellsWhy};

use crate::response::Fault;
use crate::{Catalogue, Made, Snap};
use column_types::{List, NoMemory};
use graph_slots::Part;
use graph_snap::{Built, Snapshot};
use std::alloc::Global;

/// A snapshot that comes, with the numbers of the columns that it keeps of others, and its new parts.
#[derive(Drop)]
pub(crate) struct Coming {
    pub(crate) snap: Snap,
    pub(crate) kept: List<u64>,
    pub(crate) new: List<Part>,
}

/// The number of the base's column in a slot.
fn number_at(old: &[u64], slot: u32) -> u64
    ensures { result ≡ slice_index_or old.now slot 0 }
{
    match old.get(slot as usize) {
        Some(number) => *number,
        None => 0,
    }
}

/// Appends the number of one slot's column: that of the base where the slot keeps one, else the next one.
fn push_number(
    old: &[u64],
    slot: Option<u32>,
    next: &mut u64,
    made: &mut List<u64>,
) -> Result<(), NoMemory>
    requires { next.old + 1 < 2 ^ 64 }
    ensures made { OnOk result (made.new ≡ made.old ++ numbers_by old.now next.old (slot ∷ [])) }
    ensures next { OnOk result (next.new ≡ next.old + new_count (slot ∷ [])) }
{
    match slot {
        Some(base_slot) => made.push(number_at(old, base_slot)),
        None => {
            made.push(*next)?;
            *next += 1;
            Ok(())
        }
    }
}

/// The numbers of the columns of a derived snapshot: those of the base where a slot keeps one, and new ones from the first on.
fn numbers_by(
    alloc: Global,
    old: &[u64],
    first: u64,
    kept: &[Option<u32>],
) -> Result<List<u64>, NoMemory>
    requires { first + length kept.now < 2 ^ 64 }
    ensures { IfOk result (λ made. made ≡ numbers_by old.now first kept.now) }
{
    let mut made = List::new(alloc);
    let mut next = first;
    for slot in kept {
        push_number(old, *slot, &mut next, &mut made)?;
    }
    Ok(made)
}

/// Appends the number of the base's column, where a slot keeps one.
fn push_kept(old: &[u64], slot: Option<u32>, made: &mut List<u64>) -> Result<(), NoMemory>
    ensures { OnOk result (made.new ≡ made.old ++ numbers_kept old.now (slot ∷ [])) }
{
    match slot {
        Some(base_slot) => made.push(number_at(old, base_slot)),
        None => Ok(()),
    }
}

/// The numbers of the columns that a derived snapshot keeps of its base.
fn numbers_kept(alloc: Global, old: &[u64], kept: &[Option<u32>]) -> Result<List<u64>, NoMemory>
    ensures { IfOk result (λ made. made ≡ numbers_kept old.now kept.now) }
{
    let mut made = List::new(alloc);
    for slot in kept {
        push_kept(old, *slot, &mut made)?;
    }
    Ok(made)
}

/// One more holder of the part, where a slot keeps none of the base's.
fn push_part(part: &Part, slot: Option<u32>, made: &mut List<Part>) -> Result<(), NoMemory>
    ensures { OnOk result (made.new ≡ made.old ++ new_parts (slot ∷ []) (part.now ∷ [])) }
{
    match slot {
        Some(_) => Ok(()),
        None => made.push(part.share()?),
    }
}

/// One more holder of each part that is new. Nothing of them is copied.
fn new_parts(alloc: Global, shot: &Snapshot, kept: &[Option<u32>]) -> Result<List<Part>, NoMemory>
    requires { length kept.now ≡ length (slots shot.now.schema) }
    ensures { IfOk result (λ made. made ≡ new_parts kept.now (graph_parts shot.now)) }
{
    let mut made = List::new(alloc);
    for slot in 0..shot.slot_count() {
        push_part(shot.part(slot), kept[slot as usize], &mut made)?;
    }
    Ok(made)
}

impl Catalogue {
    /// The snapshot that was built from a base, with the next id, the base's numbers where it keeps columns, and new ones.
    fn derived(&self, alloc: Global, base: &Snap, built: Built) -> Result<Coming, NoMemory>
        requires ready { IsReady self.now }
        requires each { length built.kept ≡ length (slots built.shot.schema) }
        ensures snap { IfOk result (λ c. c.snap ≡ snap_of_built self.now base.now built) }
        ensures kept { IfOk result (λ c. c.kept ≡ numbers_kept base.now.columns built.kept) }
        ensures new { IfOk result (λ c. c.new ≡ new_parts built.kept (graph_parts built.shot)) }
    {
        let old = base.columns.as_slice();
        let slots = built.kept.as_slice();
        let columns = numbers_by(alloc, old, self.next_column, slots)?;
        let kept = numbers_kept(alloc, old, slots)?;
        let new = new_parts(alloc, &built.shot, slots)?;
        let snap = Snap {
            sid: self.next_sid,
            front: 0,
            shot: built.shot,
            columns,
        };
        Ok(Coming { snap, kept, new })
    }

    /// What comes of what was built from a base: its snapshot, or why there is none.
    pub(crate) fn coming(&self, alloc: Global, base: &Snap, made: Made) -> Result<Coming, Fault>
        requires ready { IsReady self.now }
        requires root { Contains (roots self.now) base.now }
        requires built { (how : HowData) × IsBuilt how base.now.shot made }
        ensures ok { IfOk result (λ c. (how : HowData) → IsBuilt how base.now.shot made → Arrives self.now base.now how c) }
        ensures err { IfErr result (λ fault. (how : HowData) → IsBuilt how base.now.shot made → TellsWhy how base.now.shot fault) }
    {
        self.sound();
        let _few = base.shot.slot_count();
        match made {
            Made::Ready(built) => Ok(self.derived(alloc, base, built)?),
            Made::Refused(refusal) => Err(Fault::Refused(refusal)),
            Made::Missing => unreachable!(),
        }
    }
}
