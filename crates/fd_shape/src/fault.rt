// Why a load shape's file isn't read.
use std::alloc::{AllocError, AllocFailed};
use thiserror::Error;

/// Why a load shape's file isn't read.
#[derive(Clone, Copy, Debug, PartialEq, Eq, Error)]
pub enum ShapeFault {
    /// The first field of a record is no number, and that of each record before it is one.
    #[error("record {number} begins with no number")]
    BadValue {
        /// The number of the record, from 1.
        number: u64,
    },
    /// Memory was refused.
    #[error("no memory")]
    NoMemory,
}

impl From<AllocError> for ShapeFault {
    ghost use Rattle.std.specs.Prelude.{◌≡◌};
    ghost use Rattle.fd_shape.specs.declared.fault.ShapeFault.TheVariants.{NoMemory};

    ghost from_gives = { λ _ e. e ≡ NoMemory };

    fn from(_: AllocError) -> Self {
        ShapeFault::NoMemory
    }
}

impl<T: Drop> From<AllocFailed<T>> for ShapeFault {
    ghost use Rattle.std.specs.Prelude.{◌≡◌};
    ghost use Rattle.fd_shape.specs.declared.fault.ShapeFault.TheVariants.{NoMemory};

    ghost from_gives = { λ _ e. e ≡ NoMemory };

    fn from(_: AllocFailed<T>) -> Self {
        ShapeFault::NoMemory
    }
}
