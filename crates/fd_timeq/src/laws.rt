// The laws of a Solve in controlmode time.
ghost use Rattle.fd_daily.specs.fd_queue.Controls.{Positions};
ghost use Rattle.fd_daily.specs.fd_settle.Sampling.{Sampling};
ghost use Rattle.fd_timeq.specs.Laws.{LastsLaw, PendingLaw, TimeRunLaw};

use fd_daily::kept_law;

/// What the balls and states of an hour are sampled to, and which states a ball holds. (A clause can't range over
/// relations, so a law that speaks of any relation takes it from a bound.)
pub trait Held<C, Y, X> {
    ghost holds: { C → Positions → Y → X → Type 0 };

    ghost of_ball: { C → Positions → Y → Sampling };

    ghost of_state: { C → Positions → X → Sampling };
}

/// A law: in controlmode time a run is the fold of the settles of its hours by the clock, each of which begins with the
/// machine that the hour before left, at its own time and with no act counted. Does nothing.
pub fn time_run_law<C, X>()
    ensures { TimeRunLaw C X }
{}

/// A law: whatever states are chosen in the balls, one for each round of each hour, the same entries wait at the end.
/// Does nothing.
pub fn pending_law<C, Y, X, S: Held<C, Y, X>>()
    ensures { PendingLaw S.holds S.of_ball S.of_state }
{}

/// A law: an entry that isn't due at an hour, and whose control goes on wanting its way in the hour's rounds, stands in
/// the queue at the hour's end with its time and its number. Does nothing.
pub fn lasts_law()
    ensures { LastsLaw }
{
    kept_law();
}
