//! Why a text is no query.
ghost use Rattle.std.specs.Prelude.{◌≡◌};

use column_types::NoMemory;
use std::alloc::{AllocError, AllocFailed};
use thiserror::Error;

/// Why a text is no query.
#[derive(Clone, Copy, Debug, PartialEq, Eq, Error)]
pub enum PgqlFault {
    /// The refusal of this number, at this byte, counted from 0.
    #[error("refused {number} at byte {place}")]
    At { number: u32, place: u32 },
    #[error("out of memory")]
    NoMemory,
}

impl From<NoMemory> for PgqlFault {
    ghost use Rattle.pgql_ast.specs.declared.fault.PgqlFault.TheVariants.{NoMemory};

    ghost from_gives = { λ _ e. e ≡ NoMemory };

    fn from(_error: NoMemory) -> PgqlFault {
        PgqlFault::NoMemory
    }
}

impl From<AllocError> for PgqlFault {
    ghost use Rattle.pgql_ast.specs.declared.fault.PgqlFault.TheVariants.{NoMemory};

    ghost from_gives = { λ _ e. e ≡ NoMemory };

    fn from(_error: AllocError) -> PgqlFault {
        PgqlFault::NoMemory
    }
}

impl<T: Drop> From<AllocFailed<T>> for PgqlFault {
    ghost use Rattle.pgql_ast.specs.declared.fault.PgqlFault.TheVariants.{NoMemory};

    ghost from_gives = { λ _ e. e ≡ NoMemory };

    fn from(_error: AllocFailed<T>) -> PgqlFault {
        PgqlFault::NoMemory
    }
}
