// Why there is no network.
use dss_layout::Blame;
use std::alloc::{AllocError, AllocFailed};

/// Why a circuit has no network.
#[derive(Drop)]
pub enum BuildFault {
    /// A coefficient, or a sum of them at one place, is past 2^54 in units of 2^-40, or a load is past its limit.
    Range(Blame),
    /// Want of memory.
    NoMemory,
}

impl From<AllocError> for BuildFault {
    ghost use Rattle.std.specs.Prelude.{◌≡◌};
    ghost use Rattle.fd_devices.specs.declared.fault.BuildFault.TheVariants.{NoMemory};

    ghost from_gives = { λ _ e. e ≡ NoMemory };

    fn from(_: AllocError) -> Self {
        BuildFault::NoMemory
    }
}

impl<T: Drop> From<AllocFailed<T>> for BuildFault {
    ghost use Rattle.std.specs.Prelude.{◌≡◌};
    ghost use Rattle.fd_devices.specs.declared.fault.BuildFault.TheVariants.{NoMemory};

    ghost from_gives = { λ _ e. e ≡ NoMemory };

    fn from(_: AllocFailed<T>) -> Self {
        BuildFault::NoMemory
    }
}
