//! Values written out of order, each place once.
//!
//! A map from old places to new ones is made while the old places are walked through, so its entries come in any order. A
//! [`ScatterBuf`] takes them as they come: it has `n` places, and each is written once by `put`. When all are written, `finish`
//! makes it a [`Filled`], whose slice has the values in the order of their places. Nothing is copied.
//!
//! A [`ScatterBuf`] is seen as a list with the value or none for each place, and a [`Filled`] as the list of the values. That a
//! place is written once, and that all are written before `finish`, are conditions, and `is_set` and `full` tell them.
//! [`three_out_of_order`] is a caller.
//!
//! The places are raw memory, and a bit for each tells whether it is written. The module `places` has all pointers, in four
//! functions that are proved by hand. Values are `Copy`, so those that are left when a buffer is dropped are forgotten.
#![tactic(auto)]

mod example;
mod filled;
mod marks;
mod places;
mod scatter;

pub use example::three_out_of_order;
pub use filled::Filled;
pub use scatter::ScatterBuf;
