// The limits on a circuit's unknowns.
use std::alloc::{AllocError, AllocFailed};

/// The most nodes and branch phases, counted together.
pub const MOST_COMPLEX: usize = 480;

/// The most phases of loads with a part of constant current.
pub const MOST_MAGNITUDES: usize = 96;

/// Why there is no layout.
#[derive(Clone, Copy, Debug, PartialEq, Eq)]
pub enum LayoutFault {
    /// The element at this place in order is the first with which a limit is passed.
    TooMany(usize),
    /// Want of memory.
    NoMemory,
}

impl From<AllocError> for LayoutFault {
    ghost use Rattle.std.specs.Prelude.{◌≡◌};
    ghost use Rattle.dss_layout.specs.declared.limits.LayoutFault.TheVariants.{NoMemory};

    ghost from_gives = { λ _ e. e ≡ NoMemory };

    fn from(_: AllocError) -> Self {
        LayoutFault::NoMemory
    }
}

impl<T: Drop> From<AllocFailed<T>> for LayoutFault {
    ghost use Rattle.std.specs.Prelude.{◌≡◌};
    ghost use Rattle.dss_layout.specs.declared.limits.LayoutFault.TheVariants.{NoMemory};

    ghost from_gives = { λ _ e. e ≡ NoMemory };

    fn from(_: AllocFailed<T>) -> Self {
        LayoutFault::NoMemory
    }
}
