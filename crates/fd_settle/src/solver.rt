// What finds certified states.
ghost use Rattle.std.specs.Prelude.{IfOk, Result};
ghost use Rattle.fd_inject.specs.fd_pattern.Views.{NetworkView};
ghost use Rattle.fd_cert.specs.fd_enclosure.Sound.{Claim, IsSound};
ghost use Rattle.fd_cert.specs.Claims.{claim_in};
ghost use Rattle.fd_inject.specs.declared.limits.Limits.{Limits};
ghost use Rattle.fd_inject.specs.Procedure.{IsLimits};
ghost use Rattle.fd_settle.specs.Calls.{answer_in};

use fd_cert::Certified;
use fd_inject::{Limits, NetworkRows};
use std::alloc::Global;
use std::rc::Rc;

/// Finds certified states of networks.
pub trait Solver {
    type Fault: Drop;

    /// Whether, from the solver before, a call on this network with these limits may answer so and leave the solver
    /// after.
    ghost gives: { Self → Limits → NetworkView → Result Claim Self.Fault → Self → Type 0 };

    /// A certified state of the network, which is sound whatever the solver is.
    fn solve(
        &mut self,
        alloc: Global,
        net: &NetworkRows,
        limits: &Limits,
    ) -> Result<Rc<Certified>, Self::Fault>
        requires limits { IsLimits limits.now }
        ensures gives { gives self.old limits.now net.now (answer_in result) self.new }
        ensures sound { IfOk result (λ m. IsSound net.now (claim_in m.value)) };
}
