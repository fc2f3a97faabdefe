// Why a settle ends.
use fd_sample::{Blame, BuildFault};
use std::alloc::AllocError;

/// Why a settle ended without being settled.
#[derive(Drop)]
pub enum SettleFault<F> {
    /// The network at the positions that the acts left is out of range.
    Range(Blame),
    /// The solver's own fault.
    Solver(F),
    /// The sample of this control is undecided: the ends of its interval, and the least value between them at which
    /// what it wants changes; in whole microvolts or microamperes, or in 10^-9 kvar. Controls count from 0 in the
    /// script's order.
    Undecided {
        control: u32,
        low: i128,
        high: i128,
        edge: i128,
    },
    /// An entry of the queue is due after as many acts as the options allow.
    ControlLimit {
        acts: u32,
    },
    NoMemory,
}

impl<F> From<AllocError> for SettleFault<F> {
    ghost use Rattle.std.specs.Prelude.{◌≡◌};
    ghost use Rattle.fd_settle.specs.declared.fault.SettleFault.TheVariants.{NoMemory};

    ghost from_gives = { λ _ e. e ≡ NoMemory };

    fn from(_: AllocError) -> Self {
        SettleFault::NoMemory
    }
}

impl<F> From<BuildFault> for SettleFault<F> {
    ghost use Rattle.std.specs.Prelude.{◌≡◌};
    ghost use Rattle.fd_settle.specs.Refused.{refused};

    ghost from_gives = { λ f e. e ≡ refused f };

    fn from(fault: BuildFault) -> Self {
        match fault {
            BuildFault::Range(blame) => SettleFault::Range(blame),
            BuildFault::NoMemory => SettleFault::NoMemory,
        }
    }
}
