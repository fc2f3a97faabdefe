// What stands between two commands.
ghost use Rattle.std.specs.Prelude.{◌≡◌, All};
ghost use Rattle.fd_daily.specs.Underway.{no_positions};
ghost use Rattle.fd_daily.specs.fd_sample.Probes.{positions_in};
ghost use Rattle.fd_daily.specs.fd_xfmr.Leakage.{AreTaps};
ghost use Rattle.fd_solving.specs.Scripts.{first_standing};

use dss_commands::Circuit;
use fd_daily::{BankStates, Compute, Positions, Taps};
use fd_pages::Page;
use std::alloc::Global;
use std::marker::{Model, PhantomData};

/// The circuit, the positions of taps and banks that its last Solve left, none before the first, and how many settles
/// there were so far, which are printed so.
#[derive(Drop)]
pub struct Standing<P: Page> {
    pub(crate) circuit: Circuit,
    pub(crate) at: Positions,
    pub(crate) settled: u32,
    // for the whole run, so that what it keeps serves each Solve
    pub(crate) solver: Compute,
    page: PhantomData<P>,
}

impl<P: Page> Model for Standing<P> {
    ghost use Rattle.std.specs.Prelude.{◌*◌, ◌≤◌, All};
    ghost use Rattle.fd_daily.specs.fd_xfmr.Leakage.{AreTaps};
    ghost use Rattle.fd_daily.specs.fd_sample.Probes.{positions_in};
    ghost use Rattle.fd_solving.specs.Steps.{StandingView};

    ghost Value = { StandingView };

    ghost view = { λ s. record { circuit = s.circuit; at = positions_in s.at; settled = s.settled } };

    ghost invariant = { λ s. All AreTaps s.at.taps × (s.settled ≤ 8761 * s.circuit.solves) };
}

/// No positions of taps or banks: what stands before the first Solve.
pub fn no_positions(alloc: Global) -> Positions
    ensures none { positions_in result ≡ no_positions }
    ensures taps { All AreTaps result.taps }
{
    Positions {
        taps: Taps::new(Vec::new(alloc)),
        closed: BankStates::new(Vec::new(alloc)),
    }
}

impl<P: Page> Standing<P> {
    /// No circuit, no positions, and no settle.
    pub fn new(alloc: Global) -> Standing<P>
        ensures { result ≡ first_standing }
    {
        Standing {
            circuit: Circuit::empty(alloc),
            at: no_positions(alloc),
            settled: 0,
            solver: Compute::new(alloc),
            page: PhantomData,
        }
    }
}
