// What it means to have passed the tests.
ghost use Rattle.dss_ready.specs.Passed.{PassedLaw};

/// A circuit that passed the tests of Solve keeps the limits on its unknowns, and each of its elements is fit to be solved: its buses have the
/// nodes that it needs, all among the unknowns and fed, its frequency is that of the options, and its values fit one another and those of the
/// elements that it names.
pub fn passed_law()
    ensures { PassedLaw }
{}
