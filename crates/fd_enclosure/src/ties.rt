// Ties of the numbers of a certificate.
ghost use Rattle.fd_enclosure.specs.Ties.{BallLaw, TieLaw};

/// A law: at a point of a network the mismatch of a row is at most the size of its residual, and 4 n + 4 micro-units more where n
/// contributions and load currents stand in the row. Does nothing.
#[tactic(auto, using(crate::proofs::OwnResiduals::tied))]
pub fn tie_law()
    ensures { TieLaw }
{}

/// A law: both parts of a complex unknown have one radius and one box. Does nothing.
#[tactic(auto, using(crate::proofs::OwnResiduals::one_ball))]
pub fn ball_law()
    ensures { BallLaw }
{}
