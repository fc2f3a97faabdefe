// The laws of runs.
ghost use Rattle.fd_daily.specs.Laws.{NextHourLaw, RunLaw};

use fd_settle::{Sampled, history_law, whole_law};

/// A law: any states in the balls give the acts of their rounds, over the hours of a run, also for its first rounds
/// alone. Does nothing.
pub fn run_law<C, Y, X, S: Sampled<C, Y, X>>()
    ensures { RunLaw S.holds S.of_ball S.of_state }
{
    history_law::<C, Y, X, S>();
    whole_law::<C, Y, X, S>();
}

/// A law: a run whose settles so far all ended well goes on with the settle of the next hour, from what they left. Does
/// nothing.
pub fn next_hour_law<C, X>()
    ensures { NextHourLaw C X }
{}
