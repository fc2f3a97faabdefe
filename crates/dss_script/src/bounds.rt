// How many commands a session gives.
ghost use Rattle.dss_script.specs.Bounds.{CommandsAreFew};

/// A law: whatever the library answers, a session gives at most 1,048,576 commands in all, fewer than 95,326 of
/// them a New of a class with four letters or more, and fewer than 2^18 a Solve. Does nothing.
#[tactic(auto, using(crate::proofs::Few::commands_are_few))]
pub fn commands_are_few()
    ensures { CommandsAreFew }
{}
