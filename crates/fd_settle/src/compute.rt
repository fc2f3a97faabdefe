// The solver that computes.
ghost use Rattle.std.specs.Prelude.{◌≡◌, ◌⊎◌, ◌<◌, ◌^◌, [], IfErr, IfOk, OnErr};
ghost use Rattle.fd_cert.specs.fd_enclosure.Sound.{IsSound};
ghost use Rattle.fd_cert.specs.Claims.{claim_in};
ghost use Rattle.fd_inject.specs.Procedure.{IsLimits};
ghost use Rattle.fd_settle.specs.Calls.{answer_in};
ghost use Rattle.fd_settle.specs.Compute.{ComputeGives};
ghost use Rattle.fd_inject.specs.declared.fault.SolveFault.TheVariants.{NoMemory};
ghost use Rattle.fd_settle.specs.declared.compute.ComputeFault.TheVariants.{Solve};
ghost use Rattle.fd_settle.specs.KeptStates.{IsKeptState, IsKeptStateAt, IsStored, bytes_of};

use crate::kept_states::KeptStates;
use crate::round::shared;
use crate::solver::Solver;
use fd_cert::{CertFault, Certified, certificate_law, certify};
use fd_inject::{Kept, Limits, NetworkRows, SolveFault, solve_kept};
use std::alloc::Global;
use std::marker::Model;
use std::rc::Rc;

/// Why no certified state was computed.
#[derive(Drop)]
pub enum ComputeFault {
    /// The procedure gives no point.
    Solve(SolveFault),
    /// The point has no certificate.
    Cert(CertFault),
}

/// The solver that reaches a point by the procedure and certifies it. From call to call it keeps certified states with
/// their networks and limits, and the last start matrices with their inverses; no answer shows them. A state that is
/// kept spares the procedure and the certificate, a start matrix an elimination.
#[derive(Drop)]
pub struct Compute {
    pairs: Kept,
    states: KeptStates,
}

impl Model for Compute {
    ghost use Rattle.fd_settle.specs.KeptStates.{ComputeView};

    ghost Value = { ComputeView };

    ghost view = { λ c. record { pairs = c.pairs; states = c.states } };
}

impl Compute {
    /// The solver that keeps nothing yet.
    pub fn new(alloc: Global) -> Compute
        ensures pairs { result.pairs ≡ [] }
        ensures states { result.states ≡ [] }
    {
        Compute {
            pairs: Kept::empty(alloc),
            states: KeptStates::empty(alloc),
        }
    }
}

/// The certified state of a network: the point that the procedure reaches, with its certificate. Where one is kept for
/// this network and these limits it is that one, and nothing that is kept changes. Else it is computed and put behind
/// the others with its network and its limits; where these together count more than 2^26 bytes the oldest go. One that
/// counts more alone isn't kept, nor one for which memory is refused: then all stay.
///
/// # Errors
/// `Solve` where the procedure gives no point, `Cert` where its point has no certificate. The states that are kept stay
/// then as they were.
pub fn compute_kept(
    alloc: Global,
    net: &NetworkRows,
    limits: &Limits,
    pairs: &mut Kept,
    states: &mut KeptStates,
) -> Result<Rc<Certified>, ComputeFault>
    requires limits { IsLimits limits.now }
    ensures gives { ComputeGives limits.now net.now (answer_in result) }
    ensures sound { IfOk result (λ m. IsSound net.now (claim_in m.value)) }
    ensures found { IsKeptState limits.now net.now states.old → states.new ≡ states.old }
    ensures spared { IsKeptState limits.now net.now states.old → pairs.new ≡ pairs.old }
    ensures stored { IfOk result (λ m. (states.new ≡ states.old)
        ⊎ IsStored limits.now net.now (claim_in m.value) states.old states.new) }
    ensures too_large { 2 ^ 26 < bytes_of net.now → states.new ≡ states.old }
    ensures as_before { OnErr result (states.new ≡ states.old) }
{
    match states.find(net, limits) {
        Some(place) => found_at(net, limits, states, place),
        None => compute_anew(alloc, net, limits, pairs, states),
    }
}

// The state that is kept at this place.
fn found_at(
    net: &NetworkRows,
    limits: &Limits,
    states: &KeptStates,
    place: usize,
) -> Result<Rc<Certified>, ComputeFault>
    requires { IsKeptStateAt limits.now net.now states.now place }
    ensures gives { ComputeGives limits.now net.now (answer_in result) }
    ensures sound { IfOk result (λ m. IsSound net.now (claim_in m.value)) }
{
    match states.at(net, limits, place) {
        Ok(certified) => Ok(certified),
        Err(_) => Err(ComputeFault::Solve(SolveFault::NoMemory)),
    }
}

// The same where none is kept.
fn compute_anew(
    alloc: Global,
    net: &NetworkRows,
    limits: &Limits,
    pairs: &mut Kept,
    states: &mut KeptStates,
) -> Result<Rc<Certified>, ComputeFault>
    requires limits { IsLimits limits.now }
    ensures gives { ComputeGives limits.now net.now (answer_in result) }
    ensures sound { IfOk result (λ m. IsSound net.now (claim_in m.value)) }
    ensures stored { IfOk result (λ m. (states.new ≡ states.old)
        ⊎ IsStored limits.now net.now (claim_in m.value) states.old states.new) }
    ensures too_large { 2 ^ 26 < bytes_of net.now → states.new ≡ states.old }
    ensures as_before { OnErr result (states.new ≡ states.old) }
{
    match computed(alloc, net, limits, pairs) {
        Ok(certified) => {
            let _ = states.store(alloc, net, limits, &certified);
            Ok(certified)
        }
        Err(fault) => Err(fault),
    }
}

// The point of the procedure, certified.
fn computed(
    alloc: Global,
    net: &NetworkRows,
    limits: &Limits,
    kept: &mut Kept,
) -> Result<Rc<Certified>, ComputeFault>
    requires limits { IsLimits limits.now }
    ensures gives { ComputeGives limits.now net.now (answer_in result) }
    ensures sound { IfOk result (λ m. IsSound net.now (claim_in m.value)) }
{
    // read for what a network is
    let _size = net.size();
    certificate_law();
    match solve_kept(alloc, net, limits, kept) {
        Err(fault) => Err(ComputeFault::Solve(fault)),
        Ok(point) => match certify(alloc, net, point) {
            Ok(certified) => owned(alloc, certified),
            Err(fault) => Err(ComputeFault::Cert(fault)),
        },
    }
}

// A certified state that can be kept beside being given.
fn owned(alloc: Global, certified: Certified) -> Result<Rc<Certified>, ComputeFault>
    ensures ok { IfOk result (λ m. m.value ≡ certified) }
    ensures memory { IfErr result (λ f. f ≡ Solve NoMemory) }
{
    match shared(alloc, certified) {
        Ok(certified) => Ok(certified),
        Err(_) => Err(ComputeFault::Solve(SolveFault::NoMemory)),
    }
}

impl Solver for Compute {
    type Fault = ComputeFault;

    ghost gives = { λ v limits net answer w. ComputeGives limits net answer };

    fn solve(
        &mut self,
        alloc: Global,
        net: &NetworkRows,
        limits: &Limits,
    ) -> Result<Rc<Certified>, ComputeFault> {
        compute_kept(alloc, net, limits, &mut self.pairs, &mut self.states)
    }
}
