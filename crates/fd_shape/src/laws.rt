// The text of numbers reads as these numbers.
ghost use Rattle.fd_shape.specs.TextLaws.{TextLaw};

/// A law: the text of numbers below 10^9 in size, read as a script's array, is these numbers. Does nothing.
#[tactic(auto, using(crate::proofs::ReadsBack::text_reads))]
pub fn text_law()
    ensures { TextLaw }
{}
