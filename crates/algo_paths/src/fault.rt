//! Why there is no answer.
ghost use Rattle.std.specs.Prelude.{◌≡◌};

use column_types::{NoMemory, Text};
use thiserror::Error;

/// Why there are no least weights.
#[derive(Debug, Drop, PartialEq, Eq, Error)]
pub enum PathFault {
    /// No vertex has the key that was asked for.
    #[error("no vertex has the key {key}")]
    NoVertex { key: i64 },
    /// No edge table has a property of the name that was asked for with whole numbers.
    #[error("no edge table has whole numbers in {}", name.as_str())]
    NoProp { name: Text },
    /// The weight of the edge of this key, the first one of such, is NULL or negative.
    #[error("the edge {edge} has no weight")]
    BadWeight { edge: i64 },
    #[error("out of memory")]
    NoMemory,
}

impl From<NoMemory> for PathFault {
    ghost use Rattle.algo_paths.specs.declared.fault.PathFault.TheVariants.{NoMemory};

    ghost from_gives = { λ _ e. e ≡ NoMemory };

    fn from(_error: NoMemory) -> PathFault {
        PathFault::NoMemory
    }
}
