//! Desks, and halls in which threads call one desk.
//!
//! A [`Desk`] stands for a plain state. Each call that it serves is one step: `step` says which reply comes of a note and
//! which state is left. An [`Entry`] of a book is a call with its reply, and a *history* is a list of entries. `replay` of
//! specs/Replay leads a state through a history, and a history is legal (`IsLegal`) where each entry has the reply that the
//! step gives at its place: one order of calls, with the replies of one thread in that order.
//!
//! A [`OneThread`] is a desk with its book for one thread: each call is one step and one entry, and the book is legal from the state
//! before any call.
//!
//! A [`Hall`] is a ticket lock round one desk with its history, a [`Booked`]. A [`Pass`] is a client handle. Its calls take the next
//! ticket, wait until it is served, and serve the call in the critical section. All calls of a hall stand in one legal history: each
//! pass knows the front of it that it has seen, with all calls under its own number. A call becomes part of the history at the step
//! that serves the next ticket and so gives the desk back with one more entry. Handles that never met know of no order in time.
//!
//! Nothing is claimed of progress, fairness or time: a call may wait.
#![tactic(auto)]

mod booked;
mod desk;
mod entry;
mod hall;
mod laws;
mod lock;
mod one_thread;
mod rule;
mod view;

pub use booked::Booked;
pub use desk::Desk;
pub use entry::{Entry, Served};
pub use hall::{Answer, Hall, Pass};
pub use laws::{
    histories_are_joined, the_own_part_ends_with_the_last_own_entry, what_each_step_keeps_stays,
};
pub use one_thread::OneThread;
