//! An actor's commands, one after another, on a catalogue that one thread has to itself.
ghost use Rattle.std.specs.Prelude.{◌≡◌, ◌+◌, ◌*◌, ◌<◌, ◌≤◌, ◌∷◌, [], length, IfOk, OnOk, OnErr};
ghost use Rattle.catalogue_hall.specs.History.{held_by};
ghost use Rattle.session_run.specs.Turns.{at_place, at_work, CallEnds, CallStops, LocalEnds};
ghost use Rattle.session_run.specs.Ran.{Ran, Stopped, IsAtWork, OnlyOwn};

use crate::actor::{did_locally, record_at};
use crate::copies::{copy_ask, copy_command, copy_reply};
use crate::next::is_local;
use crate::place::{Place, place_after};
use crate::{Actor, Did, Record, next_ask};
use catalogue::{Ask, Reply};
use catalogue_hall::Alone;
use column_types::{List, NoMemory, Text};
use journal_text::push_ask;
use script_read::Command;
use std::alloc::Global;
use std::thread::Threads;

/// Makes a core call and keeps its record. None where the call found no memory.
fn call_alone<R: Threads + Sync>(
    alone: &mut Alone,
    rt: &R,
    alloc: Global,
    actor: &mut Actor,
    place: &mut Place,
    ask: Ask,
) -> Result<Option<Reply>, NoMemory>
    requires calls { length alone.old.book < 33554432 }
    requires held { actor.old.held ≡ held_by alone.old actor.old.who }
    requires index { place.old.index < 4294967295 }
    ensures who { actor.new.who ≡ actor.old.who }
    ensures ends { IfOk result (λ reply. CallEnds (at_place alone.old place.old actor.old) actor.old.who ask reply (at_place alone.new place.new actor.new)) }
    ensures stopped { OnErr result (CallStops (at_place alone.old place.old actor.old) actor.old.who ask (at_place alone.new place.new actor.new)) }
    ensures own { OnlyOwn actor.old.who 1 alone.old alone.new }
{
    let kept = copy_ask(&ask)?;
    let room = actor.records.with_room(1)?;
    match alone.ask(rt, alloc, actor.who, &mut actor.held, ask) {
        Ok(told) => {
            let reply = copy_reply(&told.reply);
            actor.own.told(&kept, &told.reply);
            room.push_reserved(Record {
                number: Some(told.number),
                after: 0,
                index: 0,
                who: actor.who,
                did: Did::Core(kept, told.reply),
            });
            *place = Place {
                after: told.number,
                index: 0,
            };
            Ok(Some(reply?))
        }
        Err(NoMemory) => {
            let mut head = Text::new(alloc);
            push_ask(&mut head, &kept)?;
            room.push_reserved(record_at(*place, actor.who, Did::Starved(head)));
            place.index += 1;
            Ok(None)
        }
    }
}

/// Does a local command and keeps its record.
fn do_alone<R: Threads + Sync>(
    alone: &Alone,
    rt: &R,
    alloc: Global,
    actor: &mut Actor,
    place: &mut Place,
    command: &Command,
    workers: u32,
) -> Result<(), NoMemory>
    requires index { place.old.index < 4294967295 }
    ensures who { actor.new.who ≡ actor.old.who }
    ensures ends { OnOk result (LocalEnds (at_place alone.now place.old actor.old) actor.old.who command.now (at_place alone.now place.new actor.new)) }
    ensures stopped { OnErr result (at_place alone.now place.new actor.new ≡ at_place alone.now place.old actor.old) }
{
    let copy = copy_command(command)?;
    let room = actor.records.with_room(1)?;
    let reply = actor
        .own
        .local(rt, alloc, alone.sources(), &actor.held, command, workers);
    room.push_reserved(record_at(*place, actor.who, did_locally(copy, reply)));
    place.index += 1;
    Ok(())
}

/// Does one command: all its core calls in order, or itself where it is local. After a call that found no memory the rest of
/// its calls is not made.
fn command_alone<R: Threads + Sync>(
    alone: &mut Alone,
    rt: &R,
    alloc: Global,
    actor: &mut Actor,
    place: &mut Place,
    command: &Command,
    workers: u32,
) -> Result<(), NoMemory>
    requires work { IsAtWork actor.old.who (at_place alone.old place.old actor.old) }
    requires calls { length alone.old.book + 257 ≤ 33554432 }
    requires records { length actor.old.records + 257 < 4294967295 }
    ensures who { actor.new.who ≡ actor.old.who }
    ensures ran { OnOk result (Ran actor.old.who (command.now ∷ []) (at_place alone.old place.old actor.old) (at_place alone.new place.new actor.new)) }
    ensures stopped { OnErr result (Stopped actor.old.who (command.now ∷ []) (at_place alone.old place.old actor.old) (at_place alone.new place.new actor.new)) }
    ensures own { OnlyOwn actor.old.who 257 alone.old alone.new }
{
    if is_local(&command.form) {
        do_alone(alone, rt, alloc, actor, place, command, workers)?;
        return Ok(());
    }
    let mut replies = List::new(alloc);
    while let Some(ask) = next_ask(command, &actor.own, replies.as_slice())? {
        match call_alone(alone, rt, alloc, actor, place, ask)? {
            Some(reply) => replies.push(reply)?,
            None => return Ok(()),
        }
    }
    Ok(())
}

/// Does an actor's commands in order, on a catalogue that this thread has to itself, and appends their records. A call that finds no
/// memory gets a record that says so. `NoMemory` comes where there is no room for the records themselves: then some of the commands
/// are done, every call that was made has its record, and what is held is up to date. Nobody else makes a call.
pub fn run_alone<R: Threads + Sync>(
    alone: &mut Alone,
    rt: &R,
    alloc: Global,
    actor: &mut Actor,
    commands: &[Command],
    workers: u32,
) -> Result<(), NoMemory>
    requires work { IsAtWork actor.old.who (at_work alone.old actor.old) }
    requires calls { length alone.old.book + 257 * length commands.now ≤ 33554432 }
    requires records { length actor.old.records + 257 * length commands.now ≤ 16842752 }
    ensures who { actor.new.who ≡ actor.old.who }
    ensures ran { OnOk result (Ran actor.old.who commands.now (at_work alone.old actor.old) (at_work alone.new actor.new)) }
    ensures stopped { OnErr result (Stopped actor.old.who commands.now (at_work alone.old actor.old) (at_work alone.new actor.new)) }
    ensures own { OnlyOwn actor.old.who (257 * length commands.now) alone.old alone.new }
{
    let mut place = place_after(actor.records.as_slice());
    for command in commands {
        command_alone(alone, rt, alloc, actor, &mut place, command, workers)?;
    }
    Ok(())
}
