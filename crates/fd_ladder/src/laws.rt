// The walk over the Lines and Transformers ends.
ghost use Rattle.fd_ladder.specs.RadialLaws.{RadialLaw};

/// A law: after as many passes over the Lines and Transformers as there are of them, a further pass takes none. Does
/// nothing.
#[tactic(auto, using(crate::proofs::Settled::settled))]
pub fn radial_law()
    ensures { RadialLaw }
{}
