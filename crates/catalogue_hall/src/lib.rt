//! The catalogue with the history of its calls, and what a session holds.
//!
//! * [`Alone`] is a catalogue on one thread, seen as its history: the state before any call, and the calls with their replies, in
//!   order. [`Alone::ask`] makes one call: the reply is the one that `step` of the catalogue gives after the calls so far, and the
//!   call goes into the history, which stays legal.
//! * [`Held`] is what a session holds, seen as the list of its graphs, each with its name and its snapshot. A caller keeps it
//!   beside the catalogue, and each call brings it up to date: it is what the session holds after the history, `held_by` of
//!   specs/History. So a snapshot is read without a call.
//!
//! A graph that a call derives is built before the call's turn, from the snapshot that its caller holds, and comes with the call. A
//! catalogue that many threads share will stand here beside `Alone`.
#![tactic(auto)]

mod alone;
mod building;
mod effect;
mod held;

pub use alone::{Alone, Told};
pub use held::{Held, Named};
