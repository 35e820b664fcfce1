//! The program over any outside: words, a script, its run, the journal, the error lines.
//!
//! [`top`] does all that the program does. It is proved for every source, library and sink that keep the clauses of
//! `pgx_io`; the program crate hands in the real ones. [`once`] and [`check`] are the commands of these names.
#![tactic(auto)]

mod commands;
mod counts;
mod lines;
mod printing;
mod program;
mod stop;
mod words;

pub use commands::{Done, check, once};
pub use printing::journal;
pub use program::{Status, top};
pub use stop::Stop;
pub use words::Action;
