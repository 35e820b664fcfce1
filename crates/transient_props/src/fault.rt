//! Why a call on transient properties was refused.
ghost use Rattle.std.specs.Prelude.{◌≡◌};

use column_types::{NoMemory, Text};
use thiserror::Error;

/// Why a transient property was not added.
#[derive(Debug, Drop, PartialEq, Eq, Error)]
pub enum TransientFault {
    /// A vertex property or a transient property has the name already.
    #[error("the property name {} is taken", name.as_str())]
    PropTaken { name: Text },
    #[error("out of memory")]
    NoMemory,
}

impl From<NoMemory> for TransientFault {
    ghost use Rattle.transient_props.specs.declared.fault.TransientFault.TheVariants.{NoMemory};

    ghost from_gives = { λ _ e. e ≡ NoMemory };

    fn from(_error: NoMemory) -> TransientFault {
        TransientFault::NoMemory
    }
}

/// No transient property has the name.
#[derive(Clone, Copy, Debug, PartialEq, Eq, Error)]
#[error("no transient property has the name")]
pub struct NoProp;
