//! Why a command stops.
ghost use Rattle.std.specs.Prelude.{◌≡◌};

use column_types::{NoMemory, Text};
use graph_config::ConfigFault;
use script_read::LineWhy;
use source_open::SourceFault;
use thiserror::Error;

/// Why a command did not write its whole text. Its cause is told by `StopCause`, and what was written by `StopWrites`.
#[derive(Debug, Drop, PartialEq, Eq, Error)]
pub enum Stop {
    /// The script has more than 16,777,216 bytes.
    #[error("the script is longer than 16,777,216 bytes")]
    TooLong,
    /// The first line of the script that is at fault, counted from 1, and its first fault.
    #[error("a line of the script has a fault")]
    BadLine { line: u64, why: LineWhy },
    /// A configuration's file or a table's file is missing.
    #[error("no file {}", name.as_str())]
    NoFile { name: Text },
    /// The file of this name holds no configuration. The fault has a number; it never tells that memory ran out.
    #[error("{}: {fault}", file.as_str())]
    BadConfig { file: Text, fault: ConfigFault },
    /// The first record at fault, counted from 1 in its file, and the number of its first fault. The lines of an inline
    /// source S are the records of the files `S.V` and `S.E`.
    #[error("{}: refused {number} at record {row}", file.as_str())]
    BadTable { file: Text, row: u64, number: u32 },
    /// The source or the library failed, and its count of faults rose in this call.
    #[error("the script or a file could not be read")]
    ReadFault,
    /// The sink failed, and its count of faults rose in this call.
    #[error("the text could not be written")]
    WriteFault,
    #[error("out of memory")]
    NoMemory,
}

impl From<NoMemory> for Stop {
    ghost use Rattle.pgx_shell.specs.declared.stop.Stop.TheVariants.{NoMemory};

    ghost from_gives = { λ _ e. e ≡ NoMemory };

    fn from(_error: NoMemory) -> Stop {
        Stop::NoMemory
    }
}

impl From<SourceFault> for Stop {
    ghost use Rattle.pgx_shell.specs.Sources.{source_stop};

    ghost from_gives = { λ fault e. e ≡ source_stop fault };

    fn from(fault: SourceFault) -> Stop {
        match fault {
            SourceFault::NoFile { name } => Stop::NoFile { name },
            SourceFault::BadConfig { file, fault } => Stop::BadConfig { file, fault },
            SourceFault::BadTable { file, row, number } => Stop::BadTable { file, row, number },
            SourceFault::ReadFault => Stop::ReadFault,
            SourceFault::NoMemory => Stop::NoMemory,
        }
    }
}
