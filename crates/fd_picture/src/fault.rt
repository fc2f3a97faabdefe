// Why a file isn't drawn.
use std::alloc::{AllocError, AllocFailed};
use thiserror::Error;

/// What is wrong with a line that is no record of a report.
#[derive(Clone, Copy, Debug, PartialEq, Eq, Error)]
pub enum Cause {
    /// It is empty, or a carriage return stands in it.
    #[error("an empty line or a carriage return")]
    NotOneRecord,
    /// Its first field names no record of a report.
    #[error("unknown record")]
    UnknownRecord,
    /// It has more or fewer fields than a record of its name.
    #[error("wrong number of fields")]
    FieldCount,
    /// A field isn't in the form of the format: a name, a number with its decimals, `open` or `closed`.
    #[error("a field out of the format")]
    BadField,
    /// A node's low is above its high.
    #[error("low above high")]
    LowAboveHigh,
    /// A record of a solution stands before any solution.
    #[error("no solution before it")]
    NoSolution,
    /// A record stands behind the fault that ends a report.
    #[error("a record behind the fault")]
    BehindFault,
}

/// Why a file isn't drawn.
#[derive(Clone, Copy, Debug, PartialEq, Eq, Error)]
pub enum ReportFault {
    /// The file is no report: this line, counted from 1, is the first that is no record of one.
    #[error("line {line}: {cause}")]
    Refused { line: u64, cause: Cause },
    /// Memory was refused.
    #[error("no memory")]
    NoMemory,
}

impl From<AllocError> for ReportFault {
    ghost use Rattle.std.specs.Prelude.{◌≡◌};
    ghost use Rattle.fd_picture.specs.declared.fault.ReportFault.TheVariants.{NoMemory};

    ghost from_gives = { λ _ e. e ≡ NoMemory };

    fn from(_: AllocError) -> Self {
        ReportFault::NoMemory
    }
}

impl<T: Drop> From<AllocFailed<T>> for ReportFault {
    ghost use Rattle.std.specs.Prelude.{◌≡◌};
    ghost use Rattle.fd_picture.specs.declared.fault.ReportFault.TheVariants.{NoMemory};

    ghost from_gives = { λ _ e. e ≡ NoMemory };

    fn from(_: AllocFailed<T>) -> Self {
        ReportFault::NoMemory
    }
}

/// Why a line isn't taken.
#[derive(Clone, Copy, Debug, PartialEq, Eq)]
pub(crate) enum Stop {
    Refused(Cause),
    NoMemory,
}

impl From<AllocError> for Stop {
    ghost use Rattle.std.specs.Prelude.{◌≡◌};
    ghost use Rattle.fd_picture.specs.declared.fault.Stop.TheVariants.{NoMemory};

    ghost from_gives = { λ _ e. e ≡ NoMemory };

    fn from(_: AllocError) -> Self {
        Stop::NoMemory
    }
}

impl<T: Drop> From<AllocFailed<T>> for Stop {
    ghost use Rattle.std.specs.Prelude.{◌≡◌};
    ghost use Rattle.fd_picture.specs.declared.fault.Stop.TheVariants.{NoMemory};

    ghost from_gives = { λ _ e. e ≡ NoMemory };

    fn from(_: AllocFailed<T>) -> Self {
        Stop::NoMemory
    }
}
