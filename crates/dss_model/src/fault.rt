// Why a command is refused.
use dss_lexer::{NumberError, NumberFault};
use std::alloc::{AllocError, AllocFailed};

/// The cause for which a command is refused.
#[derive(Clone, Copy, Debug, PartialEq, Eq)]
pub enum ModelFault {
    /// There is no such class.
    UnknownClass,
    /// The class, or the options, have no such property.
    UnknownProperty,
    /// There is no element of that name.
    UnknownName,
    /// There is an element of that name, or a second control of one device.
    Duplicate,
    /// The value isn't of the property's form.
    BadValue,
    /// The number is outside the property's range.
    OutOfRange,
    /// An array, a matrix or a bus has another number of parts than needed.
    WrongCount,
    /// A value that OpenDSS has and this profile doesn't.
    Unsupported,
    /// There is no circuit yet.
    NoCircuit,
    /// No source feeds the node.
    IsolatedNode,
    /// A line has no impedance.
    NoImpedance,
    /// A limit on the unknowns is passed.
    TooMany,
    /// A coefficient of the equations is too large.
    Range,
    /// The text isn't a number.
    BadNumber,
    /// The number is 10^9 or above in size.
    NumberTooLarge,
    /// The text isn't a postfix expression.
    BadPostfix,
    /// A postfix expression divides by zero.
    DivideByZero,
}

/// Why a call gives no value, or doesn't do a command.
#[derive(Clone, Copy, Debug, PartialEq, Eq)]
pub enum ModelError {
    /// The value or the command is refused.
    Fault(ModelFault),
    /// Want of memory.
    NoMemory,
}

impl From<NumberFault> for ModelFault {
    ghost use Rattle.std.specs.Prelude.{◌≡◌};
    ghost use Rattle.dss_model.specs.Causes.{cause_of};

    ghost from_gives = { λ fault cause. cause ≡ cause_of fault };

    fn from(fault: NumberFault) -> Self {
        match fault {
            NumberFault::BadNumber => ModelFault::BadNumber,
            NumberFault::NumberTooLarge => ModelFault::NumberTooLarge,
            NumberFault::BadPostfix => ModelFault::BadPostfix,
            NumberFault::DivideByZero => ModelFault::DivideByZero,
        }
    }
}

impl From<ModelFault> for ModelError {
    ghost use Rattle.std.specs.Prelude.{◌≡◌};
    ghost use Rattle.dss_model.specs.declared.fault.ModelError.TheVariants.{Fault};

    ghost from_gives = { λ fault e. e ≡ Fault fault };

    fn from(fault: ModelFault) -> Self {
        ModelError::Fault(fault)
    }
}

impl From<NumberFault> for ModelError {
    ghost use Rattle.std.specs.Prelude.{◌≡◌};
    ghost use Rattle.dss_model.specs.declared.fault.ModelError.TheVariants.{Fault};
    ghost use Rattle.dss_model.specs.Causes.{cause_of};

    ghost from_gives = { λ fault e. e ≡ Fault (cause_of fault) };

    fn from(fault: NumberFault) -> Self {
        ModelError::Fault(ModelFault::from(fault))
    }
}

impl From<NumberError> for ModelError {
    ghost use Rattle.std.specs.Prelude.{◌≡◌};
    ghost use Rattle.dss_model.specs.Answers.{error_of};

    ghost from_gives = { λ error e. e ≡ error_of error };

    fn from(error: NumberError) -> Self {
        match error {
            NumberError::Fault(fault) => ModelError::from(fault),
            NumberError::NoMemory => ModelError::NoMemory,
        }
    }
}

impl From<AllocError> for ModelError {
    ghost use Rattle.std.specs.Prelude.{◌≡◌};
    ghost use Rattle.dss_model.specs.declared.fault.ModelError.TheVariants.{NoMemory};

    ghost from_gives = { λ _ e. e ≡ NoMemory };

    fn from(_: AllocError) -> Self {
        ModelError::NoMemory
    }
}

impl<T: Drop> From<AllocFailed<T>> for ModelError {
    ghost use Rattle.std.specs.Prelude.{◌≡◌};
    ghost use Rattle.dss_model.specs.declared.fault.ModelError.TheVariants.{NoMemory};

    ghost from_gives = { λ _ e. e ≡ NoMemory };

    fn from(_: AllocFailed<T>) -> Self {
        ModelError::NoMemory
    }
}
