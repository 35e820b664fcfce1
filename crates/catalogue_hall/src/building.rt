//! What a call derives is built before its turn, from the snapshot that its caller holds.
ghost use Rattle.std.specs.Prelude.{◌≡◌, IfOk, Some, slice_get};
ghost use Rattle.catalogue_state.specs.declared.ask.How.TheVariants.{Mutate, Changes};
ghost use Rattle.catalogue_state.specs.Derived.{name_of, refusal_of, IsBuilt};
ghost use Rattle.catalogue_state.specs.Ready.{IsBuiltFrom};
ghost use Rattle.catalogue_hall.specs.History.{snap_named};
ghost use Rattle.catalogue_hall.specs.Building.{IsMadeOf};

use crate::Held;
use catalogue::{Ask, How, Made, Refusal};
use changeset::{ChangeList, FitFault};
use column_types::{NoMemory, Steps, Text};
use delta_fold::fold;
use graph_mutate::{MutateFault, Mutation, mutate};
use graph_schema::Schema;
use graph_snap::Snapshot;
use std::alloc::Global;
use std::sync::ledger::Ledger;

/// The name of an edge table, empty where there is no such table.
fn table_name(alloc: Global, schema: &Schema, table: u32) -> Result<Text, NoMemory>
    ensures { IfOk result (λ name. name ≡ name_of (slice_get schema.now.edges table)) }
{
    match schema.edges().get(table as usize) {
        Some(table) => Text::from_str(alloc, table.name.as_str()),
        None => Ok(Text::new(alloc)),
    }
}

/// The refusal that a fault is told as.
fn refusal_of(alloc: Global, schema: &Schema, fault: MutateFault) -> Result<Refusal, NoMemory>
    ensures { IfOk result (λ refusal. refusal_of schema.now fault ≡ Some refusal) }
{
    match fault {
        MutateFault::MixedEnds(table) => Ok(Refusal::MixedEnds(table_name(alloc, schema, table)?)),
        MutateFault::KeysSpent => Ok(Refusal::KeysSpent),
        MutateFault::TooBig => Ok(Refusal::TooBig),
        MutateFault::NoMemory => Err(NoMemory),
    }
}

/// The snapshot of a graph that is changed as a whole, or why there is none.
fn mutated<L: Ledger>(
    alloc: Global,
    base: &Snapshot,
    how: Mutation,
    steps: &mut Steps<L>,
) -> Result<Made, NoMemory>
    ensures { IfOk result (IsBuilt (Mutate how) base.now) }
{
    match mutate(alloc, base, how, steps) {
        Ok(built) => Ok(Made::Ready(built)),
        Err(fault) => Ok(Made::Refused(refusal_of(alloc, base.schema(), fault)?)),
    }
}

/// The snapshot after a list of changes, or the first of them that does not fit.
fn changed<L: Ledger>(
    alloc: Global,
    base: &Snapshot,
    changes: &ChangeList,
    steps: &mut Steps<L>,
) -> Result<Made, NoMemory>
    ensures { IfOk result (IsBuilt (Changes changes.now) base.now) }
{
    match changes.fits(alloc, base) {
        Ok(()) => Ok(Made::Ready(fold(alloc, base, changes.list(), steps)?)),
        Err(FitFault::BadChange { place, why }) => {
            Ok(Made::Refused(Refusal::BadChange(place, why)))
        }
        Err(FitFault::NoMemory) => Err(NoMemory),
    }
}

/// What is built from the snapshot that is held under a name by a change of the whole; nothing where none is.
fn mutated_from<L: Ledger>(
    alloc: Global,
    held: &Held,
    base: &Text,
    how: Mutation,
    steps: &mut Steps<L>,
) -> Result<Made, NoMemory>
    ensures { IfOk result (IsBuiltFrom (snap_named held.now base.now) (Mutate how)) }
{
    match held.snap(base.as_str()) {
        Some(snap) => mutated(alloc, &snap.shot, how, steps),
        None => Ok(Made::Missing),
    }
}

/// What is built from the snapshot that is held under a name by a list of changes; nothing where none is.
fn changed_from<L: Ledger>(
    alloc: Global,
    held: &Held,
    base: &Text,
    changes: &ChangeList,
    steps: &mut Steps<L>,
) -> Result<Made, NoMemory>
    ensures { IfOk result (IsBuiltFrom (snap_named held.now base.now) (Changes changes.now)) }
{
    match held.snap(base.as_str()) {
        Some(snap) => changed(alloc, &snap.shot, changes, steps),
        None => Ok(Made::Missing),
    }
}

/// What a call brings that is built before its turn.
pub(crate) fn made_of<L: Ledger>(
    alloc: Global,
    held: &Held,
    ask: &Ask,
    steps: &mut Steps<L>,
) -> Result<Made, NoMemory>
    ensures { IfOk result (IsMadeOf held.now ask.now) }
{
    match ask {
        Ask::Derive {
            base,
            how: How::Mutate(how),
            ..
        } => mutated_from(alloc, held, base, *how, steps),
        Ask::Derive {
            base,
            how: How::Changes(changes),
            ..
        } => changed_from(alloc, held, base, changes, steps),
        Ask::Append { name, changes } => changed_from(alloc, held, name, changes, steps),
        Ask::OpenSession
        | Ask::CloseSession
        | Ask::Peek { .. }
        | Ask::Place { .. }
        | Ask::Publish { .. }
        | Ask::Unpublish { .. }
        | Ask::Get { .. }
        | Ask::Checkout { .. }
        | Ask::Release { .. }
        | Ask::Columns
        | Ask::Lines => Ok(Made::Missing),
    }
}
