// Why a script is refused, and why a session gives no command.
use dss_model::{Place, Text};
use std::alloc::{AllocError, AllocFailed};

/// Why a script is refused before its commands are applied.
#[derive(Clone, Copy, Debug, PartialEq, Eq)]
pub enum ScriptCause {
    /// A New or Edit whose element isn't written as `Class.Name`, or a Redirect without a file.
    BadValue,
    /// A group isn't closed in its line.
    UnclosedGroup,
    /// A line has more than 65,536 bytes.
    LineTooLong,
    /// A line isn't UTF-8.
    NotText,
    /// The first word is no command, and no `Class.Name.Prop=`.
    UnknownCommand,
    /// The library holds no file of this name.
    AbsentFile,
    /// A Redirect in a file of depth 8, where MASTER has depth 0.
    TooDeep,
    /// This read brings the bytes of all reads above 1,048,576.
    TooLong,
    /// `~` or More with no New or Edit since the start or the last Clear.
    ContinuesNothing,
}

/// Why a session gives no command. After one of these it gives none any more.
#[derive(Drop)]
pub enum SessionFault {
    /// The script is refused: where, and why. For MASTER itself the line is 0.
    Script { place: Place, cause: ScriptCause },
    /// The file of this name could not be read.
    Read { name: Text },
    /// An earlier call gave a fault.
    Ended,
    /// Memory was refused.
    NoMemory,
}

impl From<AllocError> for SessionFault {
    ghost use Rattle.std.specs.Prelude.{◌≡◌};
    ghost use Rattle.dss_script.specs.declared.fault.SessionFault.TheVariants.{NoMemory};

    ghost from_gives = { λ _ e. e ≡ NoMemory };

    fn from(_: AllocError) -> Self {
        SessionFault::NoMemory
    }
}

impl<T: Drop> From<AllocFailed<T>> for SessionFault {
    ghost use Rattle.std.specs.Prelude.{◌≡◌};
    ghost use Rattle.dss_script.specs.declared.fault.SessionFault.TheVariants.{NoMemory};

    ghost from_gives = { λ _ e. e ≡ NoMemory };

    fn from(_: AllocFailed<T>) -> Self {
        SessionFault::NoMemory
    }
}
