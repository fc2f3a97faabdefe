// What every circuit is that commands make.
ghost use Rattle.dss_commands.specs.Laws.{LimitsLaw};

/// A law: what holds of every circuit (its elements are well formed and in range, and its options are) stays so by each
/// command that is accepted. Does nothing.
pub fn limits_law()
    ensures { LimitsLaw }
{}
