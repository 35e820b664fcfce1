//! A whole script: its phases one after another, and in each phase the blocks of its actors.
//!
//! Between its blocks each actor has a [`Member`]: what it holds of the catalogue, its own part, and its records. [`run_script`] runs
//! a script on one thread, block after block, and puts the records of all actors into the order of the journal. What it gives is a run
//! of the script (specs/Run, `IsRunOf`), in which the calls of each block stand in one piece, in the order of the script.
//!
//! Specs/Members and proofs/Phases say what phases leave, on one thread or on many.
#![tactic(auto)]

mod laws;
mod member;
mod run;

pub use laws::{calls_are_cut_as_blocks, one_actor_makes_each_call};
pub use member::Member;
pub use run::run_script;
