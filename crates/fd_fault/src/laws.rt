// What is so of the circuit of a short circuit.
ghost use Rattle.fd_fault.specs.FaultLaws.{PassedLaw};

/// A law: where the scripted circuit passed the tests of Solve, the nodes are there and the unknowns are within the limits,
/// the circuit of the short circuit has passed them. Does nothing.
#[tactic(auto, using(crate::proofs::Passed::fault_passed))]
pub fn passed_law()
    ensures { PassedLaw }
{}
