//! Why table files are no graph.
ghost use Rattle.std.specs.Prelude.{◌≡◌};
ghost use Rattle.table_loader.specs.Fault.{place_fault};

use column_types::NoMemory;
use graph_model::{ApplyFault, Why};
use thiserror::Error;

/// Why table files are no graph.
#[derive(Clone, Copy, Debug, PartialEq, Eq, Error)]
pub enum LoadFault {
    /// The record of this number, counted from 1, of the file at this place, counted from 0, is the first with a fault.
    #[error("refused {number} at record {row} of file {file}")]
    Bad { file: u32, row: u64, number: u32 },
    #[error("out of memory")]
    NoMemory,
}

impl From<NoMemory> for LoadFault {
    ghost use Rattle.table_loader.specs.declared.fault.LoadFault.TheVariants.{NoMemory};

    ghost from_gives = { λ _ e. e ≡ NoMemory };

    fn from(_error: NoMemory) -> LoadFault {
        LoadFault::NoMemory
    }
}

/// Why one record is not taken over: the number of its fault, or memory.
#[derive(Clone, Copy, Debug, PartialEq, Eq)]
pub(crate) enum RecordFault {
    Bad(u32),
    NoMemory,
}

impl From<NoMemory> for RecordFault {
    ghost use Rattle.table_loader.specs.declared.fault.RecordFault.TheVariants.{NoMemory};

    ghost from_gives = { λ _ e. e ≡ NoMemory };

    fn from(_error: NoMemory) -> RecordFault {
        RecordFault::NoMemory
    }
}

impl From<ApplyFault> for RecordFault {
    ghost use Rattle.table_loader.specs.Put.{put_fault};

    ghost from_gives = { λ fault e. e ≡ put_fault fault };

    fn from(fault: ApplyFault) -> RecordFault {
        match fault {
            ApplyFault::Misfit(Why::KeyTaken) => RecordFault::Bad(11),
            ApplyFault::Misfit(Why::EndMissing) => RecordFault::Bad(12),
            ApplyFault::Misfit(_) => RecordFault::Bad(13),
            ApplyFault::NoMemory => RecordFault::NoMemory,
        }
    }
}

/// A record's fault with its place.
pub(crate) fn fault_at(file: u32, row: u64, fault: RecordFault) -> LoadFault
    ensures { result ≡ place_fault file row fault }
{
    match fault {
        RecordFault::Bad(number) => LoadFault::Bad { file, row, number },
        RecordFault::NoMemory => LoadFault::NoMemory,
    }
}
