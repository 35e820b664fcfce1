//! Scripts: their text is read into sources, actors and phases of commands, or the first line with a fault is named.
//!
//! Lines end with a line feed, and count from 1; a last piece without one is a line if it is not empty. One carriage return
//! at a line's end and then the spaces at its start are dropped. Empty lines and lines that begin with `#` are passed over
//! everywhere, also where they are not UTF-8. Words are separated by exactly one space.
//!
//! | section | lines allowed |
//! |---|---|
//! | start, after a source | `source S inline`, `source S config FILE`, `phase` |
//! | in an inline source | `v KEY`, after all of these `e KEY SOURCE DESTINATION`, `end` |
//! | after `phase` | `phase`, `actor A` |
//! | after `actor` or a command | `phase`, `actor A`, `open`, `close`, `columns`, `lines`, `discard`, `load G from S`, `clone G from H`, `transpose G from H`, `undirect G from H`, `simplify G from H`, `sortdeg G from H`, `build G from H`, `snapshot G`, `change G ROW`, `publish G as L keep K threshold T`, `unpublish L`, `get G from L`, `checkout G at SID`, `checkout G at latest`, `release G`, `show S`, `rows G` |
//!
//! S, A, G, H and L are names: 1 to 64 bytes, an ASCII letter or `_` and then letters, digits and `_`. KEY, SOURCE and
//! DESTINATION are LONGs in decimal with an optional `-`, without a leading zero and other than `-0`. K, T and SID are decimal
//! numbers without sign and without a leading zero: K from 1 to 64, T and SID from 1 to 9,223,372,036,854,775,807. FILE is a
//! file name: 1 to 255 bytes of ASCII letters, digits, `_`, `.`, `-` and `/`. ROW is the rest of the line behind the one space,
//! with all its spaces, and is not empty.
//!
//! The first line with a fault decides, and of its faults the first in the order of [`LineWhy`]. A script has at most 64
//! sources, whose names differ, 128 actors over all its phases and 65,536 commands over all its blocks. An actor stands once in
//! a phase at most, and keeps the number of its first mention. A phase may have no actor, and a block no command.
//!
//! The commands that `later.rt` lists belong to the language and are not built yet: they are refused as `Later` where a command
//! may stand. A `source` line with a form that is not built yet, `source S config FILE changes FILE`, is refused as `Form`.
//!
//! Contracts see a script as the record of its sources, actors and phases, and a [`Form`] or [`SourceForm`] as its variant
//! with the texts and lists.
//! `specs/Grammar.antt` has the grammar as a table, `specs/Meaning.antt` what an accepted script spells and what a fault
//! names, and `specs/Phases.antt` what whoever runs a script may rely on.
//!
//! A command is a variant of [`Form`]; a row of the table `commands` in `specs/Commands.antt`, which is cut into parts of at
//! most six rows by what stands behind the first word; a word or an arm in the two functions of `command.rt` for its part of the
//! table; and a line each in `spelled` and `HasParts` of `specs/Meaning.antt`. Its word leaves the two lists of commands that
//! come later. A command without numbers has no lemma of its own.
#![tactic(auto)]

mod args;
mod command;
mod fault;
mod later;
mod laws;
mod lines;
mod read;
mod reading;
mod script;
mod words;

pub use fault::{LineWhy, ScriptFault};
pub use laws::{keys_read_back, rests_read_back};
pub use read::read_script;
pub use script::{Block, Command, Form, Script, SourceForm, SourceText};
