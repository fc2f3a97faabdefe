// What it says of a certificate that it is accepted.
ghost use Rattle.fd_check.specs.Laws.{AcceptedLaw};

use fd_certfile::{block_law, rule_law, sound_law};

/// A law: where a certificate is accepted, its blocks are those of the rounds of all Solves. What each block claims is
/// sound in the network of its round, and its acts are those that the queue machine makes of the samples of its ball. Does
/// nothing.
#[tactic(auto, using(crate::proofs::Accepted::accepted_so))]
pub fn accepted_law()
    ensures { AcceptedLaw }
{
    rule_law();
    block_law();
    sound_law();
}
