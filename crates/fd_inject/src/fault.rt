ghost use Rattle.std.specs.Prelude.{◌≡◌};
ghost use Rattle.fd_inject.specs.declared.fault.SolveFault.TheVariants.{NoMemory};

use fd_inverse::Stop;
use std::alloc::{AllocError, AllocFailed};

/// Why a network has no point. Places and columns count from 0, and so do steps, the start being step 0.
#[derive(Clone, Copy, Debug, PartialEq, Eq)]
pub enum SolveFault {
    /// The start matrix or the rounded Jacobian has no inverse: the first column at which its elimination ends, and why.
    NoInverse {
        column: u32,
        cause: Stop,
    },
    /// The first place at which the iterate of this number has a part past 2^40 in size, or its residual one past 2^58.
    OutOfRange {
        place: u32,
        step: u32,
    },
    /// After all the steps that are allowed an unknown still moves: the first such place, the number of steps, and by how much the
    /// last of them changed it, in whole micro-units.
    NotConverged {
        place: u32,
        steps: u32,
        update: i128,
    },
    /// Memory was refused. The network may have a point.
    NoMemory,
}

impl From<AllocError> for SolveFault {
    ghost from_gives = { λ _ e. e ≡ NoMemory };

    fn from(_e: AllocError) -> SolveFault {
        SolveFault::NoMemory
    }
}

impl<T: Drop> From<AllocFailed<T>> for SolveFault {
    ghost from_gives = { λ _ e. e ≡ NoMemory };

    fn from(_e: AllocFailed<T>) -> SolveFault {
        SolveFault::NoMemory
    }
}
