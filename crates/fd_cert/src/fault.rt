ghost use Rattle.std.specs.Prelude.{◌≡◌};
ghost use Rattle.fd_cert.specs.declared.fault.CertFault.TheVariants.{NoMemory};

use crate::ball::Certified;
use std::alloc::{AllocError, AllocFailed};

/// Why a point has no certificate. Rows and places count from 0.
#[derive(Debug, Drop)]
pub enum CertFault {
    /// The first row whose mismatch is above 1,000, and its mismatch, in whole microamperes or microvolts.
    Loose {
        row: u32,
        mismatch: u128,
    },
    /// The first unknown whose bound reaches one, with its bound in units of 2^-40; where no bound does, the first unknown whose radius
    /// is above 2^40. The sum is None where it passes 2^120 on the way, where the product of the radius does, and for a radius too wide.
    /// `tried` is what would have been claimed, with radii 0.
    NotCertified {
        place: u32,
        sum: Option<i128>,
        tried: Certified,
    },
    /// Memory was refused. The point may have a certificate.
    NoMemory,
}

impl From<AllocError> for CertFault {
    ghost from_gives = { λ _ e. e ≡ NoMemory };

    fn from(_e: AllocError) -> CertFault {
        CertFault::NoMemory
    }
}

impl<T: Drop> From<AllocFailed<T>> for CertFault {
    ghost from_gives = { λ _ e. e ≡ NoMemory };

    fn from(_e: AllocFailed<T>) -> CertFault {
        CertFault::NoMemory
    }
}
