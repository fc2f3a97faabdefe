// Laws of the rules: functions without code, whose contracts are the laws.
ghost use Rattle.fd_certfile.specs.Blocks.{Block};
ghost use Rattle.fd_certfile.specs.Judging.{SoundLaw};
ghost use Rattle.fd_certfile.specs.RuleExamples.{VerdictCases, RuleCases};
ghost use Rattle.fd_certfile.specs.RuleLaws.{RuleLaw, AnswersLaw};
ghost use Rattle.fd_certfile.specs.SolvingLaws.{GivenLaw, SolvingLaw};
ghost use Rattle.fd_certfile.specs.Verdict.{Due};

/// The rule that is named is the first that a block breaks, at the least place; none is named exactly where all hold.
#[tactic(auto, using(crate::proofs::RuleOrder::rule_law))]
pub fn rule_law()
    ensures { RuleLaw }
{}

/// Where the rules hold of a block on a network, what it claims there is sound, whoever made it.
pub fn sound_law()
    ensures { SoundLaw }
{}

/// Bytes have exactly one answer, and which one; for every script with states of type `S` and faults of type `F`.
pub fn answers_law<S, F>()
    ensures { (due : S → Due F) (after : S → Block → S) → AnswersLaw due after }
{}

/// A block that a reader gives as a solver begins its lines, the reader stands behind it, and the rules on what it claims
/// hold.
#[tactic(auto, using(crate::proofs::SolvingLaws::given_law))]
pub fn given_law()
    ensures { GivenLaw }
{}

/// What a reader gives as a solver is what a certificate of its lines comes to, where a block is due: behind a block that
/// is given, what its acts and the rest come to; else the refusal. For every script with states of type `S` and faults of
/// type `F`.
pub fn solving_law<S, F>()
    ensures { (due : S → Due F) (after : S → Block → S) → SolvingLaw due after }
{}

/// Small cases of verdicts: what is missing, left or broken, and at which line.
#[tactic(auto, using(crate::proofs::Laws::verdict_cases))]
pub fn verdict_cases()
    ensures { VerdictCases }
{}

/// Small cases of the rules: each one, at its limits, and their order.
#[tactic(auto, using(crate::proofs::Laws::rule_cases))]
pub fn rule_cases()
    ensures { RuleCases }
{}
