//! What actors did, when that agrees with a history, and the one order of it, the journal.
//!
//! Actors call a shared state and do things of their own. A [`Record`] is one such call with its reply, and each actor has
//! its records in the order in which it made them. Specs go over *rules* ([`Ruled`], `Rules` of specs/Rules): what the shared
//! state replies, what an actor holds of it, and which call an actor makes next. They are not fixed here, so a new command
//! changes nothing in this crate.
//!
//! The records of an actor agree with a history (specs/Agreement) where its core records are exactly its entries, each
//! with its place as its number, and each other record has the reply that is due after the actor's records before it, over
//! what the actor held after its last core record. [`walk_records`] makes one list of the records of all actors, and
//! [`the_walk_is_a_journal`] says what that list is: a proper journal (specs/Journal) with the replies of one thread.
//!
//! Read specs/ in the order of `Lib.antt`. Proofs above keep agreement call by call with the lemmas of proofs/Agreement and
//! proofs/Actors.
#![tactic(auto)]

mod laws;
mod record;
mod walk;

pub use laws::{Ruled, phases_are_apart, the_walk_is_a_journal};
pub use record::{Did, Record};
pub use walk::walk_records;
