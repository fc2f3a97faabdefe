// Laws of numbers: functions without code, whose contracts are the laws.
ghost use Rattle.fd_lines.specs.Laws.{NumberLaw};

/// A number is read from its decimal, and from no other text.
#[tactic(auto, using(crate::proofs::Numbers::number_law))]
pub fn number_law()
    ensures { NumberLaw }
{}
