// Why a circuit isn't ready to be solved.
use dss_circuit::Blame;
use std::alloc::{AllocError, AllocFailed};

/// The answer of the tests of Solve.
#[derive(Drop)]
pub enum ReadyFault {
    /// The first element that is to blame, and why.
    Blame(Blame),
    /// Want of memory.
    NoMemory,
}

impl From<AllocError> for ReadyFault {
    ghost use Rattle.std.specs.Prelude.{◌≡◌};
    ghost use Rattle.dss_ready.specs.declared.fault.ReadyFault.TheVariants.{NoMemory};

    ghost from_gives = { λ _ e. e ≡ NoMemory };

    fn from(_: AllocError) -> Self {
        ReadyFault::NoMemory
    }
}

impl<T: Drop> From<AllocFailed<T>> for ReadyFault {
    ghost use Rattle.std.specs.Prelude.{◌≡◌};
    ghost use Rattle.dss_ready.specs.declared.fault.ReadyFault.TheVariants.{NoMemory};

    ghost from_gives = { λ _ e. e ≡ NoMemory };

    fn from(_: AllocFailed<T>) -> Self {
        ReadyFault::NoMemory
    }
}
