// What a command comes to.
ghost use Rattle.std.specs.Prelude.{◌≡◌, IfOk};
ghost use Rattle.fd_pages.specs.fd_report.declared.faults.Fault.TheVariants.{Script};

use dss_commands::Place;
use fd_pages::{Cause, Fault};
use std::alloc::AllocError;

/// What a command comes to before the hours of a Solve: a change of the circuit, the end of the run, the voltage bases, or
/// a Solve that passed the tests.
#[derive(Drop)]
pub enum Answer {
    /// Nothing is left to do.
    Done,
    /// The script is refused.
    Refuses(Fault),
    /// The voltage bases of buses are asked for.
    Bases,
    /// The hours of a Solve are left to do.
    Solves,
}

/// The fault of a script that is refused at this place.
pub(crate) fn refused(place: &Place, cause: Cause) -> Result<Fault, AllocError>
    ensures { IfOk result (λ fault. fault ≡ Script place.now cause) }
{
    let place = place.clone()?;
    Ok(Fault::Script { place, cause })
}
