// The walk over the elements ends.
ghost use Rattle.fd_bases.specs.WalkLaws.{SettledLaw};

/// A law: after as many passes over the elements as there are elements, a further pass reaches no bus. Does nothing.
#[tactic(auto, using(crate::proofs::Settled::settled))]
pub fn settled_law()
    ensures { SettledLaw }
{}
