//! Why a source does not open.
ghost use Rattle.std.specs.Prelude.{◌≡◌};

use column_types::{NoMemory, Text};
use graph_config::ConfigFault;
use thiserror::Error;

/// Why a source does not open. The cause of each is told by `OpenCause`.
#[derive(Debug, Drop, PartialEq, Eq, Error)]
pub enum SourceFault {
    /// A configuration's file or a table's file is missing.
    #[error("no file {}", name.as_str())]
    NoFile { name: Text },
    /// The file of this name holds no configuration. The fault has a number; it never tells that memory ran out.
    #[error("{}: {fault}", file.as_str())]
    BadConfig { file: Text, fault: ConfigFault },
    /// The first record at fault, counted from 1 in its file, and the number of its first fault. The lines of an inline
    /// source S are the records of the files `S.V` and `S.E`.
    #[error("{}: refused {number} at record {row}", file.as_str())]
    BadTable { file: Text, row: u64, number: u32 },
    /// The library failed, and its count of faults rose in this call.
    #[error("a file could not be read")]
    ReadFault,
    #[error("out of memory")]
    NoMemory,
}

impl From<NoMemory> for SourceFault {
    ghost use Rattle.source_open.specs.declared.fault.SourceFault.TheVariants.{NoMemory};

    ghost from_gives = { λ _ e. e ≡ NoMemory };

    fn from(_error: NoMemory) -> SourceFault {
        SourceFault::NoMemory
    }
}
