//! The sources of a script, from its lines or from the files of a library, to graphs that a catalogue takes.
//!
//! [`open_sources`] reads the sources in their order, up to the first that is at fault, and gives each its name and its snapshot.
//! [`check_sources`] reads them in the same way and keeps none. What sources open to over the files of a library is `opened` of
//! specs/Opening, and specs/Laws says the same in words that go through nothing in order.
//!
//! All files of a configuration are looked up before the first record is read, and the bytes of each file are let go as soon as
//! its records are in the graph. A graph becomes a snapshot by moving its columns: no key is hashed twice.
#![tactic(auto)]

mod fault;
mod files;
mod laws;
mod open;

pub use fault::SourceFault;
pub use laws::{files_are_there_before_records_are_read, sources_open_one_by_one};
pub use open::{check_sources, open_sources};
