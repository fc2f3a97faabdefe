// Why a certificate is refused.
use fd_settle::Rule;
use std::alloc::{AllocError, AllocFailed};

/// Why a reader gives no block.
#[derive(Debug, Drop)]
pub enum CertFileFault {
    /// The rule that is broken, at a line counted from 1.
    Refused { line: u64, rule: Rule },
    /// Memory was refused.
    NoMemory,
}

impl From<AllocError> for CertFileFault {
    ghost use Rattle.std.specs.Prelude.{◌≡◌};
    ghost use Rattle.fd_certfile.specs.declared.fault.CertFileFault.TheVariants.{NoMemory};

    ghost from_gives = { λ _ e. e ≡ NoMemory };

    fn from(_error: AllocError) -> CertFileFault {
        CertFileFault::NoMemory
    }
}

impl<T: Drop> From<AllocFailed<T>> for CertFileFault {
    ghost use Rattle.std.specs.Prelude.{◌≡◌};
    ghost use Rattle.fd_certfile.specs.declared.fault.CertFileFault.TheVariants.{NoMemory};

    ghost from_gives = { λ _ e. e ≡ NoMemory };

    fn from(_error: AllocFailed<T>) -> CertFileFault {
        CertFileFault::NoMemory
    }
}

/// Why no block was read.
#[derive(Debug, Drop)]
pub(crate) enum Stop {
    NoMemory,
    /// The grammar refuses the line behind so many, or misses one there.
    Refused { behind: u128 },
}

impl From<AllocError> for Stop {
    ghost use Rattle.std.specs.Prelude.{◌≡◌};
    ghost use Rattle.fd_certfile.specs.declared.fault.Stop.TheVariants.{NoMemory};

    ghost from_gives = { λ _ e. e ≡ NoMemory };

    fn from(_error: AllocError) -> Stop {
        Stop::NoMemory
    }
}

impl<T: Drop> From<AllocFailed<T>> for Stop {
    ghost use Rattle.std.specs.Prelude.{◌≡◌};
    ghost use Rattle.fd_certfile.specs.declared.fault.Stop.TheVariants.{NoMemory};

    ghost from_gives = { λ _ e. e ≡ NoMemory };

    fn from(_error: AllocFailed<T>) -> Stop {
        Stop::NoMemory
    }
}
