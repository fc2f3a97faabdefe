// The failure with which a run ends, by how a settle ended.
ghost use Rattle.std.specs.Prelude.{◌≡◌, ℕ, IfOk, None, nat_abs};
ghost use Rattle.std.specs.Option.{option_map};
ghost use Rattle.dss_commands.specs.dss_circuit.Circuit.{CircuitView};
ghost use Rattle.fd_pages.specs.dss_layout.Layout.{layout_of, size_of};
ghost use Rattle.fd_daily.specs.fd_inject.Faults.{IsInside};
ghost use Rattle.fd_daily.specs.fd_cert.Claims.{IsInside as IsInsideCert};
ghost use Rattle.fd_daily.specs.fd_settle.Compute.{IsPlaced};
ghost use Rattle.fd_daily.specs.fd_settle.declared.compute.ComputeFault.TheVariants as compute;
ghost use Rattle.fd_solving.specs.Answered.{IsOfCommand};
ghost use Rattle.fd_solving.specs.Endings.{IsWithin, TellsOf, TellsOfPoint, TellsOfSolver, tried_at, tried_in};

use crate::controls::undecided;
use dss_commands::Circuit;
use fd_daily::{CertFault, Certified, ComputeFault, SettleFault, SolveFault};
use fd_pages::{Cause, Fault, Layout, name_at};
use std::alloc::{AllocError, Global};

/// Why an hour's settle didn't end well: the fault with which the run ends; and where the last state has no certificate,
/// what would have been claimed of it, with radii 0.
#[derive(Drop)]
pub(crate) struct Failure {
    pub fault: Fault,
    pub tried: Option<Certified>,
}

impl Failure {
    fn of(fault: Fault) -> Failure
        ensures fault { result.fault ≡ fault }
        ensures tried { result.tried ≡ None }
    {
        Failure { fault, tried: None }
    }
}

// The size of a bound, where there is one.
fn size_of_bound(sum: Option<i128>) -> Option<u128>
    ensures { result ≡ option_map nat_abs sum }
{
    match sum {
        Some(sum) => Some(sum.unsigned_abs()),
        None => None,
    }
}

// The failure of a point that has no certificate.
fn uncertified(alloc: Global, layout: &Layout, fault: CertFault) -> Result<Failure, AllocError>
    requires { IsInsideCert (size_of layout.now) fault }
    ensures tells { (c : CircuitView) (hour : ℕ) → layout.now ≡ layout_of c.elements →
        IfOk result (TellsOfSolver c hour (compute.Cert fault)) }
    ensures tried { IfOk result (λ x. x.tried ≡ tried_in (compute.Cert fault)) }
    ensures of_command { IfOk result (λ x. IsOfCommand x.fault) }
{
    match fault {
        CertFault::Loose { row, mismatch } => {
            let row = name_at(alloc, layout, row)?;
            Ok(Failure::of(Fault::Loose { row, mismatch }))
        }
        CertFault::NotCertified { place, sum, tried } => {
            let unknown = name_at(alloc, layout, place)?;
            let bound = size_of_bound(sum);
            Ok(Failure {
                fault: Fault::NotCertified { unknown, bound },
                tried: Some(tried),
            })
        }
        CertFault::NoMemory => Err(AllocError),
    }
}

// The fault of a procedure that gives no point.
fn unsolved(alloc: Global, layout: &Layout, fault: SolveFault) -> Result<Fault, AllocError>
    requires { IsInside (size_of layout.now) fault }
    ensures tells { (c : CircuitView) (hour : ℕ) → layout.now ≡ layout_of c.elements →
        IfOk result (TellsOfPoint c hour fault) }
    ensures of_command { IfOk result (λ f. IsOfCommand f) }
{
    match fault {
        SolveFault::NoInverse { column, cause } => {
            let unknown = name_at(alloc, layout, column)?;
            Ok(Fault::NoInverse { unknown, cause })
        }
        SolveFault::OutOfRange { place, step } => {
            let unknown = name_at(alloc, layout, place)?;
            Ok(Fault::OutOfRange { unknown, step })
        }
        SolveFault::NotConverged {
            place,
            steps,
            update,
        } => {
            let unknown = name_at(alloc, layout, place)?;
            Ok(Fault::NotConverged {
                unknown,
                steps,
                update,
            })
        }
        SolveFault::NoMemory => Err(AllocError),
    }
}

// The failure of a solve that gives no certified state.
fn uncomputed(alloc: Global, layout: &Layout, fault: ComputeFault) -> Result<Failure, AllocError>
    requires { IsPlaced (size_of layout.now) fault }
    ensures tells { (c : CircuitView) (hour : ℕ) → layout.now ≡ layout_of c.elements →
        IfOk result (TellsOfSolver c hour fault) }
    ensures tried { IfOk result (λ x. x.tried ≡ tried_in fault) }
    ensures of_command { IfOk result (λ x. IsOfCommand x.fault) }
{
    match fault {
        ComputeFault::Solve(fault) => Ok(Failure::of(unsolved(alloc, layout, fault)?)),
        ComputeFault::Cert(fault) => uncertified(alloc, layout, fault),
    }
}

/// The failure with which the run ends where a settle of an hour ends so.
pub(crate) fn failure_of(
    alloc: Global,
    circuit: &Circuit,
    layout: &Layout,
    fault: SettleFault<ComputeFault>,
) -> Result<Failure, AllocError>
    requires layout { layout.now ≡ layout_of circuit.now.elements }
    requires within { IsWithin (size_of layout.now) fault }
    ensures tells { (hour : ℕ) → IfOk result (TellsOf circuit.now hour fault) }
    ensures tried { IfOk result (λ x. x.tried ≡ tried_at fault) }
    ensures of_command { IfOk result (λ x. IsOfCommand x.fault) }
{
    match fault {
        SettleFault::Range(blame) => Ok(Failure::of(Fault::Script {
            place: blame.place,
            cause: Cause::Model(blame.cause),
        })),
        SettleFault::Solver(fault) => uncomputed(alloc, layout, fault),
        SettleFault::Undecided {
            control,
            low,
            high,
            edge,
        } => Ok(Failure::of(undecided(alloc, circuit, control, low, high, edge)?)),
        SettleFault::ControlLimit { acts } => Ok(Failure::of(Fault::ControlLimit { acts })),
        SettleFault::NoMemory => Err(AllocError),
    }
}
