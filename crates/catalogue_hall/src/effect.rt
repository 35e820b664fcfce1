//! What calls change in what their caller holds.
ghost use Rattle.std.specs.Prelude.{◌≡◌, ◌<◌, ◌++◌, [], ◌∷◌, IfOk, vec_len, vec_capacity, position};
ghost use Rattle.catalogue_state.specs.State.{change_first, drop_first};
ghost use Rattle.catalogue_hall.specs.History.{is_named};
ghost use Rattle.catalogue_hall.specs.Told.{effect_of, with_snap, held_when_done, held_with_snap, held_with_gift, held_by_reply};

use crate::Named;
use catalogue::{Ask, Gift, Reply, Snap};
use column_types::{NoMemory, Shared, Text};
use std::alloc::Global;

/// What a call changes in what its caller holds, where it is not refused.
#[derive(Drop)]
pub(crate) enum Effect {
    Nothing,
    /// All graphs go.
    DropsAll,
    /// A graph comes under this name.
    Adds(Text),
    /// The graph of this name gets another snapshot.
    Moves(Text),
    /// The graph of this name goes.
    Drops(Text),
}

/// What this call changes.
pub(crate) fn effect_of(alloc: Global, ask: &Ask) -> Result<Effect, NoMemory>
    ensures { IfOk result (λ effect. effect ≡ effect_of ask.now) }
{
    match ask {
        Ask::OpenSession
        | Ask::Peek { .. }
        | Ask::Publish { .. }
        | Ask::Unpublish { .. }
        | Ask::Append { .. }
        | Ask::Columns
        | Ask::Lines => Ok(Effect::Nothing),
        Ask::CloseSession => Ok(Effect::DropsAll),
        Ask::Place { name, .. } | Ask::Derive { name, .. } | Ask::Get { name, .. } => {
            Ok(Effect::Adds(Text::from_str(alloc, name.as_str())?))
        }
        Ask::Checkout { name, .. } => Ok(Effect::Moves(Text::from_str(alloc, name.as_str())?)),
        Ask::Release { name } => Ok(Effect::Drops(Text::from_str(alloc, name.as_str())?)),
    }
}

/// Puts an item behind, where there is room.
fn put<T: Drop>(items: &mut Vec<T>, item: T)
    requires { vec_len items.old < vec_capacity items.old }
    ensures { items.new.items ≡ items.old.items ++ item ∷ [] }
{
    let done = items.push(item).is_ok();
    prove!(done);
}

fn place_of(graphs: &[Named], name: &Text) -> Option<usize>
    ensures { result ≡ position (is_named name.now) graphs.now }
{
    graphs
        .iter()
        .position(|graph| graph.name.as_str() == name.as_str())
}

/// Takes the graph of that name out.
fn drop_named(graphs: &mut Vec<Named>, name: &Text)
    ensures { graphs.new.items ≡ drop_first (is_named name.now) graphs.old.items }
{
    if let Some(place) = place_of(graphs, name) {
        graphs.remove(place);
    }
}

/// Puts another snapshot under that name.
fn move_named(graphs: &mut Vec<Named>, name: &Text, snap: Shared<Snap>)
    ensures { graphs.new.items ≡ change_first (is_named name.now) (with_snap snap) graphs.old.items }
{
    if let Some(place) = place_of(graphs, name) {
        graphs[place].snap = snap;
    }
}

/// What is held where the call is done.
fn apply_done(graphs: &mut Vec<Named>, effect: &Effect)
    ensures { graphs.new.items ≡ held_when_done graphs.old.items effect.now }
{
    match effect {
        Effect::DropsAll => graphs.clear(),
        Effect::Drops(name) => drop_named(graphs, name),
        Effect::Nothing | Effect::Adds(_) | Effect::Moves(_) => {}
    }
}

/// What is held where a snapshot came.
fn apply_snap(graphs: &mut Vec<Named>, effect: Effect, snap: Shared<Snap>)
    requires { vec_len graphs.old < vec_capacity graphs.old }
    ensures { graphs.new.items ≡ held_with_snap graphs.old.items effect snap }
{
    match effect {
        Effect::Adds(name) => put(graphs, Named { name, snap }),
        Effect::Moves(name) => move_named(graphs, &name, snap),
        Effect::Nothing | Effect::DropsAll | Effect::Drops(_) => {}
    }
}

/// What is held where the id of a snapshot was told.
fn apply_gift(graphs: &mut Vec<Named>, effect: Effect, gift: Gift)
    requires { vec_len graphs.old < vec_capacity graphs.old }
    ensures { graphs.new.items ≡ held_with_gift graphs.old.items effect gift }
{
    match gift {
        Gift::Snap(snap) => apply_snap(graphs, effect, snap),
        Gift::Nothing | Gift::Source(_) => {}
    }
}

/// Brings up to date what a session holds, after a call of its own. There is room for one graph more.
pub(crate) fn apply_reply(graphs: &mut Vec<Named>, effect: Effect, reply: &Reply, gift: Gift)
    requires { vec_len graphs.old < vec_capacity graphs.old }
    ensures { graphs.new.items ≡ held_by_reply graphs.old.items effect reply.now gift }
{
    match reply {
        Reply::Done => apply_done(graphs, &effect),
        Reply::Sid(_) => apply_gift(graphs, effect, gift),
        Reply::Front(_) | Reply::Columns(_) | Reply::Lines(_) | Reply::Refused(_) => {}
    }
}
