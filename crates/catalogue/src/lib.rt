//! The catalogue: sources, published graphs and sessions, changed by one call at a time.
//!
//! What it stands for, and what each call does, is told by the crate `catalogue_state` below: a state of plain lists, and `step`. Its
//! types are exported from here, too.
//!
//! * [`Catalogue`] serves calls as a [`turn_hall::Desk`]: [`Catalogue::serve`](turn_hall::Desk::serve) gives exactly the step's
//!   reply and state, and hands out a [`Gift`]: the source that was asked about, or the snapshot that came. What a call derives was
//!   built before it and comes with it, so a turn makes no column and no row.
//! * [`Catalogue::registry`] lends the columns in use: under each number how many snapshots have it, and what it holds. A snapshot
//!   that comes raises the counts of the columns that it keeps and lists its new ones; one that goes lowers its counts, and a
//!   column that nobody has any more is dropped. Giving graphs up takes no memory. [`Ask::Columns`] lists the numbers in use, `reach`.
//!
//! What the catalogue keeps between calls is `IsKept` of specs/Kept: limits, names, and that the columns of a snapshot have numbers of
//! their own.
//!
//! Today no call feeds a source, so no changes are to be seen: a graph that is placed has its source's opening graph.
#![tactic(auto)]

mod arrivals;
mod catalogue;
mod columns;
mod desk;
mod lines;
mod publishing;
mod response;
mod sessions;
mod sources;

pub use catalogue::Catalogue;
pub use catalogue_state::{
    Ask, Call, Gift, Held, Hold, How, Line, LineInfo, Made, Refusal, Reply, Session, Snap, Source,
    SourceData, Target,
};
