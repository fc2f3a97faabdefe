// Why a text isn't read.
use std::alloc::{AllocError, AllocFailed};
use std::fmt::{Debug, Display};
use thiserror::Error;

/// Why a line isn't cut into words and pairs.
#[derive(Clone, Copy, Debug, PartialEq, Eq, Error)]
pub enum LineFault {
    /// A group isn't closed in its line.
    #[error("unclosed group")]
    UnclosedGroup,
    /// The line has more than 65,536 bytes.
    #[error("line too long")]
    LineTooLong,
    /// The line isn't UTF-8.
    #[error("not text")]
    NotText,
}

/// Why a text gives no number.
#[derive(Clone, Copy, Debug, PartialEq, Eq, Error)]
pub enum NumberFault {
    /// A text isn't a number.
    #[error("bad number")]
    BadNumber,
    /// A number or the result of an operation is 10^9 or more in size.
    #[error("number too large")]
    NumberTooLarge,
    /// An operator lacks operands, or an expression doesn't leave one result.
    #[error("bad postfix")]
    BadPostfix,
    /// A quotient by 0.
    #[error("divide by zero")]
    DivideByZero,
}

/// Why a call doesn't read a text, with the faults that the text may have.
#[derive(Clone, Copy, Debug, PartialEq, Eq, Error)]
#[error_bound(F: Debug + Display)]
pub enum LexError<F> {
    /// The text is at fault.
    #[error("{0}")]
    Fault(F),
    /// Memory was refused.
    #[error("no memory")]
    NoMemory,
}

/// Why a call doesn't cut a line.
pub type LineError = LexError<LineFault>;

/// Why a call gives no number.
pub type NumberError = LexError<NumberFault>;

impl From<LineFault> for LexError<LineFault> {
    ghost use Rattle.std.specs.Prelude.{◌≡◌};
    ghost use Rattle.dss_lexer.specs.declared.fault.LexError.TheVariants.{Fault};

    ghost from_gives = { λ fault e. e ≡ Fault fault };

    fn from(fault: LineFault) -> Self {
        LexError::Fault(fault)
    }
}

impl From<NumberFault> for LexError<NumberFault> {
    ghost use Rattle.std.specs.Prelude.{◌≡◌};
    ghost use Rattle.dss_lexer.specs.declared.fault.LexError.TheVariants.{Fault};

    ghost from_gives = { λ fault e. e ≡ Fault fault };

    fn from(fault: NumberFault) -> Self {
        LexError::Fault(fault)
    }
}

impl<F: Drop> From<AllocError> for LexError<F> {
    ghost use Rattle.std.specs.Prelude.{◌≡◌};
    ghost use Rattle.dss_lexer.specs.declared.fault.LexError.TheVariants.{NoMemory};

    ghost from_gives = { λ _ e. e ≡ NoMemory };

    fn from(_: AllocError) -> Self {
        LexError::NoMemory
    }
}

impl<F: Drop, T: Drop> From<AllocFailed<T>> for LexError<F> {
    ghost use Rattle.std.specs.Prelude.{◌≡◌};
    ghost use Rattle.dss_lexer.specs.declared.fault.LexError.TheVariants.{NoMemory};

    ghost from_gives = { λ _ e. e ≡ NoMemory };

    fn from(_: AllocFailed<T>) -> Self {
        LexError::NoMemory
    }
}
