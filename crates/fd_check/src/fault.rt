// Why the check of a Solve ends.
use dss_commands::Blame;
use fd_certfile::CertFileFault;
use fd_daily::{BuildFault, Rule};
use std::alloc::AllocError;

/// Why a certificate isn't accepted.
#[derive(Drop)]
pub enum CheckFault {
    /// The rule that is broken, at a line counted from 1.
    Refused { line: u64, rule: Rule },
    /// The network of the block that is due is out of range.
    Range(Blame),
    /// Memory was refused.
    NoMemory,
}

impl From<AllocError> for CheckFault {
    ghost use Rattle.std.specs.Prelude.{◌≡◌};
    ghost use Rattle.fd_check.specs.declared.fault.CheckFault.TheVariants.{NoMemory};

    ghost from_gives = { λ _ e. e ≡ NoMemory };

    fn from(_error: AllocError) -> CheckFault {
        CheckFault::NoMemory
    }
}

impl From<BuildFault> for CheckFault {
    ghost use Rattle.std.specs.Prelude.{◌≡◌};
    ghost use Rattle.fd_check.specs.Faults.{by_network};

    ghost from_gives = { λ f e. e ≡ by_network f };

    fn from(fault: BuildFault) -> CheckFault {
        match fault {
            BuildFault::Range(blame) => CheckFault::Range(blame),
            BuildFault::NoMemory => CheckFault::NoMemory,
        }
    }
}

impl From<CertFileFault> for CheckFault {
    ghost use Rattle.std.specs.Prelude.{◌≡◌};
    ghost use Rattle.fd_check.specs.Faults.{by_reader};

    ghost from_gives = { λ f e. e ≡ by_reader f };

    fn from(fault: CertFileFault) -> CheckFault {
        match fault {
            CertFileFault::Refused { line, rule } => CheckFault::Refused { line, rule },
            CertFileFault::NoMemory => CheckFault::NoMemory,
        }
    }
}
