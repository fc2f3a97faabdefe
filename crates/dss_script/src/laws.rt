// What a script says, as a list of events.
ghost use Rattle.dss_script.specs.SaidLaws.{SaidLaw};

/// A law: as a list of events and an end a script says what it says as a chain. Does nothing.
#[tactic(auto, using(crate::proofs::SaidSame::said_same))]
pub fn said_law()
    ensures { SaidLaw }
{}
