// Why there is no order.
use std::alloc::{AllocError, AllocFailed};

/// Why a circuit has no ladder.
#[derive(Clone, Copy, Debug, PartialEq, Eq)]
pub enum LadderFault {
    /// The circuit isn't radial: the element of this number, in order of definition, is the first that offends.
    NotRadial(u32),
    /// Want of memory.
    NoMemory,
}

impl From<AllocError> for LadderFault {
    ghost use Rattle.std.specs.Prelude.{◌≡◌};
    ghost use Rattle.fd_ladder.specs.declared.fault.LadderFault.TheVariants.{NoMemory};

    ghost from_gives = { λ _ e. e ≡ NoMemory };

    fn from(_: AllocError) -> Self {
        LadderFault::NoMemory
    }
}

impl<T: Drop> From<AllocFailed<T>> for LadderFault {
    ghost use Rattle.std.specs.Prelude.{◌≡◌};
    ghost use Rattle.fd_ladder.specs.declared.fault.LadderFault.TheVariants.{NoMemory};

    ghost from_gives = { λ _ e. e ≡ NoMemory };

    fn from(_: AllocFailed<T>) -> Self {
        LadderFault::NoMemory
    }
}
