//! Why rows are no changes.
ghost use Rattle.std.specs.Prelude.{◌≡◌};
ghost use Rattle.change_feed.specs.Fault.{place_fault};

use column_types::NoMemory;
use thiserror::Error;

/// Why a row is no change. Of several causes the first in this order is told.
#[derive(Clone, Copy, Debug, PartialEq, Eq)]
pub enum RowCause {
    /// A field is not UTF-8.
    Utf8,
    /// The first field is none of the six words.
    Word,
    /// There is no second field, or no vertex table, or edge table, of that name.
    Table,
    /// The number of fields is not that of the word and the table.
    Count,
    /// The table has no property of that name.
    Prop,
    /// A key is NULL or no LONG, or a value is none of its kind.
    Field,
}

/// Why rows are no changes.
#[derive(Clone, Copy, Debug, PartialEq, Eq, Error)]
pub enum FeedFault {
    /// The row of this number, counted from 1, is the first with a fault, and this is its first cause.
    #[error("refused 14 at row {row}: {cause:?}")]
    BadRow { row: u64, cause: RowCause },
    #[error("out of memory")]
    NoMemory,
}

impl From<NoMemory> for FeedFault {
    ghost use Rattle.change_feed.specs.declared.fault.FeedFault.TheVariants.{NoMemory};

    ghost from_gives = { λ _ e. e ≡ NoMemory };

    fn from(_error: NoMemory) -> FeedFault {
        FeedFault::NoMemory
    }
}

/// Why one row is not taken over: its cause, or memory.
#[derive(Clone, Copy, Debug, PartialEq, Eq)]
pub(crate) enum RowFault {
    Bad(RowCause),
    NoMemory,
}

impl From<NoMemory> for RowFault {
    ghost use Rattle.change_feed.specs.declared.fault.RowFault.TheVariants.{NoMemory};

    ghost from_gives = { λ _ e. e ≡ NoMemory };

    fn from(_error: NoMemory) -> RowFault {
        RowFault::NoMemory
    }
}

/// A row's fault with its place.
pub(crate) fn fault_at(row: u64, fault: RowFault) -> FeedFault
    ensures { result ≡ place_fault row fault }
{
    match fault {
        RowFault::Bad(cause) => FeedFault::BadRow { row, cause },
        RowFault::NoMemory => FeedFault::NoMemory,
    }
}
