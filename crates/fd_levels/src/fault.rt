// Why there is no order.
ghost use Rattle.std.specs.Prelude.{◌≡◌};
ghost use Rattle.fd_levels.specs.declared.fault.OrderFault.TheVariants.{NoMemory};

use std::alloc::{AllocError, AllocFailed};

/// Why the unknowns of a circuit have no order.
#[derive(Clone, Copy, Debug, PartialEq, Eq)]
pub enum OrderFault {
    /// The circuit isn't radial: the element of this number, in order of definition, is the first that offends.
    NotRadial(u32),
    /// Not each unknown and each equation has one pair, as where a node isn't fed, or the buses of an element have fewer
    /// nodes than its phases need.
    Unpaired,
    /// Want of memory.
    NoMemory,
}

impl From<AllocError> for OrderFault {
    ghost from_gives = { λ _ e. e ≡ NoMemory };

    fn from(_: AllocError) -> Self {
        OrderFault::NoMemory
    }
}

impl<T: Drop> From<AllocFailed<T>> for OrderFault {
    ghost from_gives = { λ _ e. e ≡ NoMemory };

    fn from(_: AllocFailed<T>) -> Self {
        OrderFault::NoMemory
    }
}
