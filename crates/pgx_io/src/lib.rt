//! The outside of the program: a source of bytes, a library of files, a sink for bytes, and a gate.
//!
//! A source, a library and a sink are traits. Each is seen as what it holds, where it tells that, and how often it has
//! failed (`SourceSeen`, `LibrarySeen` and `SinkSeen` of specs/Seen). Code over the traits is proved for every object that
//! keeps the traits' clauses. There are three sorts of objects.
//!
//! * In memory with calls that fail on demand ([`MemSource`], [`MemLibrary`], [`MemSink`]), for tests of what happens when
//!   the outside fails. They tell all, and fail exactly at the listed calls.
//! * In memory without failing calls ([`SureSource`], [`SureLibrary`]). They tell all, and never fail.
//! * The real ones ([`StdinSource`], [`StdoutSink`], [`DirLibrary`], [`OpenGate`]). No contract can say what the system's own
//!   streams and files hold, so over those they tell nothing, and only their counts of faults are known.
//!
//! [`read_all`] reads a source to its end, and [`write_all`] writes a whole text.
#![tactic(auto)]

mod dir;
mod gate;
mod library;
mod mem_library;
mod mem_sink;
mod mem_source;
mod sink;
mod source;
mod streams;

pub use dir::{DirLibrary, FILE_LIMIT};
pub use gate::{Gate, OpenGate};
pub use library::{GetFault, Library};
pub use mem_library::{MemLibrary, SureLibrary};
pub use mem_sink::MemSink;
pub use mem_source::{MemSource, SureSource};
pub use sink::{Sink, write_all};
pub use source::{Failed, LIMIT, ReadAllFault, Source, read_all};
pub use streams::{StdinSource, StdoutSink};
