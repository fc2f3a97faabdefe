// Why there is no circuit of a short circuit.
use std::alloc::{AllocError, AllocFailed};

/// Why there is no circuit of a short circuit.
#[derive(Drop)]
pub enum CircuitFault {
    /// The scripted circuit has no node of this number at the bus: the first that is to be joined to ground.
    NoNode { number: u8 },
    /// With the line there are more nodes and branch phases than may be.
    TooMany,
    /// Want of memory.
    NoMemory,
}

impl From<AllocError> for CircuitFault {
    ghost use Rattle.std.specs.Prelude.{◌≡◌};
    ghost use Rattle.fd_fault.specs.declared.fault.CircuitFault.TheVariants.{NoMemory};

    ghost from_gives = { λ _ e. e ≡ NoMemory };

    fn from(_: AllocError) -> Self {
        CircuitFault::NoMemory
    }
}

impl<T: Drop> From<AllocFailed<T>> for CircuitFault {
    ghost use Rattle.std.specs.Prelude.{◌≡◌};
    ghost use Rattle.fd_fault.specs.declared.fault.CircuitFault.TheVariants.{NoMemory};

    ghost from_gives = { λ _ e. e ≡ NoMemory };

    fn from(_: AllocFailed<T>) -> Self {
        CircuitFault::NoMemory
    }
}
