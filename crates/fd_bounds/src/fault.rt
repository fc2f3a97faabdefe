// Why there are no bounds.
ghost use Rattle.std.specs.Prelude.{◌≡◌};
ghost use Rattle.fd_bounds.specs.declared.fault.BoundFault.TheVariants.{NoMemory};

use std::alloc::{AllocError, AllocFailed};

/// Why there are no bounds.
#[derive(Clone, Copy, Debug, PartialEq, Eq, Drop)]
pub enum BoundFault {
    /// No pass stands. The passes end at this unknown, counted from 0.
    Unbounded(usize),
    /// Memory was refused. There may be bounds.
    NoMemory,
}

impl From<AllocError> for BoundFault {
    ghost from_gives = { λ _ e. e ≡ NoMemory };

    fn from(_e: AllocError) -> BoundFault {
        BoundFault::NoMemory
    }
}

impl<T: Drop> From<AllocFailed<T>> for BoundFault {
    ghost from_gives = { λ _ e. e ≡ NoMemory };

    fn from(_e: AllocFailed<T>) -> BoundFault {
        BoundFault::NoMemory
    }
}
