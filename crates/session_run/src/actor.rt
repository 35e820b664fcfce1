//! An actor, and the records of what it does.
ghost use Rattle.std.specs.Prelude.{◌≡◌, ◌+◌, ◌<◌, [], Result};
ghost use Rattle.session_run.specs.Own.{fresh_own};
ghost use Rattle.session_run.specs.Turns.{record_at, did_locally};

use crate::place::Place;
use crate::{Did, LocalReply, Own, Record};
use catalogue_hall::Held;
use column_types::{List, NoMemory};
use script_read::Command;
use std::alloc::Global;

/// An actor: its number, what it holds of the catalogue, its own part, and the records of all that it did.
#[derive(Drop)]
pub struct Actor {
    pub who: u32,
    pub held: Held,
    pub own: Own,
    pub records: List<Record>,
}

impl Actor {
    /// The actor of this number, before it did anything.
    pub fn new(alloc: Global, who: u32) -> Actor
        ensures who { result.who ≡ who }
        ensures held { result.held ≡ [] }
        ensures own { result.own ≡ fresh_own }
        ensures records { result.records ≡ [] }
    {
        Actor {
            who,
            held: Held::new(alloc),
            own: Own::new(alloc),
            records: List::new(alloc),
        }
    }
}

/// A record that is no core record, at the place of the next.
pub(crate) fn record_at(place: Place, who: u32, did: Did) -> Record
    requires { place.index < 4294967295 }
    ensures { result ≡ record_at place who did }
{
    Record {
        number: None,
        after: place.after,
        index: place.index + 1,
        who,
        did,
    }
}

/// What became of a local command: its reply, or that it found no memory. It takes no memory.
pub(crate) fn did_locally(command: Command, reply: Result<LocalReply, NoMemory>) -> Did
    ensures { result ≡ did_locally command reply }
{
    match reply {
        Ok(reply) => Did::Local(command, reply),
        Err(NoMemory) => Did::Starved(command.line),
    }
}
