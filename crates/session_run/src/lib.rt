//! What an actor does: its commands, call by call, and the records of them.
//!
//! A command is a list of *core calls*, which the shared catalogue serves, or it is *local*: then only what the actor holds and
//! shared values that never change are looked at. [`next_ask`] tells the next core call of a command from the replies so far,
//! [`Own`] answers local commands, and [`run_alone`] does an actor's commands one after another on a catalogue that one
//! thread has to itself, and keeps a [`Record`] of each call.
//!
//! An actor's own part is its list of *open changes*: `change` adds one, written as a row, `discard` forgets them, and `build` and
//! `snapshot` make a graph of them by one core call. The list is empty again once that call made one, or the session is closed.
//!
//! The records of an actor *agree* with the history of the catalogue's calls (`actor_records`): its core records are its
//! entries of the history, each with its number there, and each local record has the reply that comes of what the actor
//! held after the core record before it. From this the journal of all actors is made.
#![tactic(auto)]

mod actor;
mod alone;
mod copies;
mod laws;
mod next;
mod own;
mod place;
mod reading;
mod record;
mod told;

pub use actor::Actor;
pub use alone::run_alone;
pub use laws::a_counted_row_is_one_change;
pub use next::next_ask;
pub use own::Own;
pub use record::{Did, LocalReply, Record};
