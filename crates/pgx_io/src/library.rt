//! A library of files by name.
ghost use Rattle.std.specs.Prelude.{◌≡◌};
ghost use Rattle.pgx_io.specs.Files.{Finds, KeepsFiles, GetsWithCause};

use column_types::{List, NoMemory};
use std::alloc::Global;
use thiserror::Error;

/// Why a look-up gave no answer.
#[derive(Clone, Copy, Debug, PartialEq, Eq, Error)]
pub enum GetFault {
    /// The library failed, and its count of faults rose in this call.
    #[error("the library failed")]
    Failed,
    #[error("out of memory")]
    NoMemory,
}

impl From<NoMemory> for GetFault {
    ghost use Rattle.pgx_io.specs.declared.library.GetFault.TheVariants.{NoMemory};

    ghost from_gives = { λ _ e. e ≡ NoMemory };

    fn from(_error: NoMemory) -> GetFault {
        GetFault::NoMemory
    }
}

/// Files by name.
pub trait Library {
    ghost use Rattle.pgx_io.specs.Seen.{LibrarySeen};

    /// The map from names to the bytes of files, where the library tells it, and how often it has failed.
    ghost seen: { Self → LibrarySeen };

    /// The bytes of a file, or none exactly where no file has the name. No call changes the map, and one that failed was
    /// counted.
    fn get(&mut self, alloc: Global, name: &str) -> Result<Option<List<u8>>, GetFault>
        ensures found { Finds (seen self.old).files name.now result }
        ensures same { KeepsFiles (seen self.old).files (seen self.new).files }
        ensures cause { GetsWithCause (seen self.old).faults (seen self.new).faults result };
}
