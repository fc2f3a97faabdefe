// Why there are no factors.
ghost use Rattle.std.specs.Prelude.{◌≡◌};
ghost use Rattle.fd_triangles.specs.declared.fault.FactorFault.TheVariants.{NoMemory};
ghost use Rattle.fd_triangles.specs.declared.fault.Stop.TheVariants.{NoMemory as NoMoreMemory};

use std::alloc::{AllocError, AllocFailed};

/// Why there are no factors: the first unknown in the order at which the elimination ends, counted from 0.
#[derive(Clone, Copy, Debug, PartialEq, Eq, Drop)]
pub enum FactorFault {
    /// The unknown's pivot is below 2^8 in size.
    Pivot(usize),
    /// A multiple of the unknown's row, or an entry that is left where it is taken off, is past 2^62 in size.
    Range(usize),
    /// Memory was refused. There may be factors.
    NoMemory,
}

impl From<AllocError> for FactorFault {
    ghost from_gives = { λ _ e. e ≡ NoMemory };

    fn from(_e: AllocError) -> FactorFault {
        FactorFault::NoMemory
    }
}

impl<T: Drop> From<AllocFailed<T>> for FactorFault {
    ghost from_gives = { λ _ e. e ≡ NoMemory };

    fn from(_e: AllocFailed<T>) -> FactorFault {
        FactorFault::NoMemory
    }
}

/// Why a row can't be cleared.
#[derive(Clone, Copy, Debug, PartialEq, Eq, Drop)]
pub enum Stop {
    /// A number is past 2^62 in size.
    Range,
    /// Memory was refused.
    NoMemory,
}

impl From<AllocError> for Stop {
    ghost from_gives = { λ _ e. e ≡ NoMoreMemory };

    fn from(_e: AllocError) -> Stop {
        Stop::NoMemory
    }
}

impl<T: Drop> From<AllocFailed<T>> for Stop {
    ghost from_gives = { λ _ e. e ≡ NoMoreMemory };

    fn from(_e: AllocFailed<T>) -> Stop {
        Stop::NoMemory
    }
}
