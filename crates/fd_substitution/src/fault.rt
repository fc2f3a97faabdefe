// Why there is no step.
ghost use Rattle.std.specs.Prelude.{◌≡◌};
ghost use Rattle.fd_substitution.specs.declared.fault.StepFault.TheVariants.{NoMemory};

use std::alloc::AllocError;

/// Why there is no step.
#[derive(Clone, Copy, Debug, PartialEq, Eq, Drop)]
pub enum StepFault {
    /// At the place of this unknown, counted from 0, a number or a sum is past its range for the first time.
    Range(usize),
    /// Memory was refused. There may be a step.
    NoMemory,
}

impl From<AllocError> for StepFault {
    ghost from_gives = { λ _ e. e ≡ NoMemory };

    fn from(_e: AllocError) -> StepFault {
        StepFault::NoMemory
    }
}
