//! Changes as a command writes them.
ghost use Rattle.std.specs.Prelude.{IfOk, Ok};
ghost use Rattle.change_feed.specs.Changes.{changes_of};
ghost use Rattle.session_run.specs.Own.{IsReadAs};

use catalogue::Refusal;
use change_feed::{FeedFault, RowCause, read_changes};
use column_types::{List, NoMemory, Text};
use graph_model::Change;
use graph_schema::Schema;
use std::alloc::Global;

/// The change of a list that has no other. None and several are refused as the first row, for their number.
#[tactic(auto, using(crate::proofs::Rows::one_alone, crate::proofs::Rows::none_or_several))]
fn one_of(mut changes: List<Change>) -> Result<Change, Refusal>
    ensures { IsReadAs (Ok changes) result }
{
    if changes.len() != 1 {
        return Err(Refusal::BadRow(1, RowCause::Count));
    }
    Ok(changes.remove(0))
}

/// The change that a text is as one row, for graphs of a schema, or why it is none.
pub(crate) fn read_row(
    alloc: Global,
    schema: &Schema,
    text: &Text,
) -> Result<Result<Change, Refusal>, NoMemory>
    ensures { IfOk result (IsReadAs (changes_of schema.now text.now)) }
{
    match read_changes(alloc, schema, text.as_str().as_bytes()) {
        Ok(changes) => Ok(one_of(changes)),
        Err(FeedFault::BadRow { row, cause }) => Ok(Err(Refusal::BadRow(row, cause))),
        Err(FeedFault::NoMemory) => Err(NoMemory),
    }
}
