// Where elements are out of range.
use std::alloc::AllocError;

/// Why elements have no rows: the one at a place in order of definition is out of range, or want of memory.
#[derive(Clone, Copy, PartialEq, Eq, Debug)]
pub enum PlaceFault {
    OutOfRange(usize),
    NoMemory,
}

/// The element at this place in order of definition is out of range.
#[derive(Clone, Copy, PartialEq, Eq, Debug)]
pub struct OutOfRange(pub usize);

impl From<AllocError> for PlaceFault {
    ghost use Rattle.std.specs.Prelude.{◌≡◌};
    ghost use Rattle.fd_network.specs.declared.fault.PlaceFault.TheVariants.{NoMemory};

    ghost from_gives = { λ _ e. e ≡ NoMemory };

    fn from(_: AllocError) -> Self {
        PlaceFault::NoMemory
    }
}
