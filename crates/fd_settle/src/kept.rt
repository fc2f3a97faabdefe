// What the rounds of a settle keep of the machine, and when a claim is sound there.
ghost use Rattle.fd_settle.specs.Kept.{KeptLaw, SoundAtLaw};
ghost use Rattle.fd_settle.specs.KeptRounds.{KeptRoundsLaw};

use fd_sample::{away_law, network_law, own_law, queue_law, tap_law};

/// A law: a round of a circuit that passed the tests of Solve leaves as many positions as its elements have, with taps in
/// their range, and a queue of its controls, whatever was claimed of the round. Does nothing.
pub fn kept_law()
    ensures { KeptLaw }
{
    queue_law();
    own_law();
    tap_law();
}

/// A law: where the states of a settle are computed, each round is made at positions of the circuit, the numbers of its
/// acts are modest, and what the settle leaves can start another. Does nothing.
#[tactic(auto, using(crate::proofs::KeptRounds::rounds_are_kept))]
pub fn kept_rounds_law()
    ensures { KeptRoundsLaw }
{
    queue_law();
    own_law();
    tap_law();
    away_law();
    kept_law();
}

/// A law: a claim that is sound on the network of a circuit's definition is sound of the circuit that passed the tests of
/// Solve, at positions at which no element is to blame for being out of range: the rows are a network's, and have the
/// circuit's equations. Does nothing.
pub fn sound_at_law()
    ensures { SoundAtLaw }
{
    network_law();
}
