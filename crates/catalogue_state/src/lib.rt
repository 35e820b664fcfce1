//! The catalogue as data: its state, the calls and their replies, and what each call does.
//!
//! What a catalogue stands for is `State` of specs/State, a record of plain lists: the sources, the published graphs, the open
//! sessions with the graphs that they hold, and the next snapshot id and column number. The structs of this crate are seen as they
//! are, so they are the data that the definitions speak of.
//!
//! * An [`Ask`] is a call as data, a [`Reply`] its answer. `step` of specs/Step says, case by case, which reply comes of which
//!   call, and which state is left; a [`Refusal`] leaves the state.
//! * A [`Snap`] is a snapshot with its id and the number of the column in each of its slots. A graph that is placed has all new
//!   numbers. One that is derived, by a change of the whole graph or by a list of changes, has the numbers of its base in the slots
//!   that it keeps, and new ones in the others: specs/Derived.
//! * A session publishes a graph as a *line*, and others hold *pins* of its snapshots: a pin knows its line by name alone, and stays
//!   as it is until its session moves it or gives it up.
//! * A [`Call`] is an ask with what its caller built for it beforehand, [`Made`]: the graph that is derived, or why there is none. So
//!   no column and no row is made while others wait. `CanServe` of specs/Ready says what has to be brought, and `MayAsk` what a caller
//!   can know of it.
//!
//! The laws of its histories are the functions of laws.rt: what a session holds changes by its own calls alone, an id names one
//! snapshot, what was placed is a prefix of its source's changes, the columns in use are listed, and refusals leave the state.
#![tactic(auto)]

mod ask;
mod call;
mod laws;
mod parts;
mod reply;

pub use ask::{Ask, How, Target};
pub use call::{Call, Gift, Made};
pub use laws::{
    a_front_is_a_prefix, an_id_names_one_snapshot, held_changes_by_its_own_calls,
    refusals_leave_the_state, the_columns_in_use_are_listed,
};
pub use parts::{Held, Hold, Line, Session, Snap, Source, SourceData};
pub use reply::{LineInfo, Refusal, Reply};
