// The laws of settles.
ghost use Rattle.fd_sample.specs.fd_queue.Controls.{Positions};
ghost use Rattle.fd_settle.specs.Computed.{ComputationLaw};
ghost use Rattle.fd_settle.specs.Laws.{AgreeLaw, EndLaw, HistoryLaw, WholeLaw};
ghost use Rattle.fd_settle.specs.Sampling.{Sampling};

use fd_sample::count_law;

/// What a circuit's balls and states are sampled to, and which states a ball holds. (A clause can't range over
/// relations, so a law that speaks of any relation takes it from a bound.)
pub trait Sampled<C, Y, X> {
    ghost holds: { C → Positions → Y → X → Type 0 };

    ghost of_ball: { C → Positions → Y → Sampling };

    ghost of_state: { C → Positions → X → Sampling };
}

/// A law: two lists whose decisions agree, solve by solve, give one settle. Does nothing.
pub fn agree_law<X, Y>()
    ensures { AgreeLaw X Y }
{}

/// A law: any states in the balls give the acts of their rounds. Does nothing.
pub fn history_law<C, Y, X, S: Sampled<C, Y, X>>()
    ensures { (c : C) → HistoryLaw (S.holds c) (S.of_ball c) (S.of_state c) }
{}

/// A law: a state for each solve gives the end too. Does nothing.
pub fn whole_law<C, Y, X, S: Sampled<C, Y, X>>()
    ensures { (c : C) → WholeLaw (S.holds c) (S.of_ball c) (S.of_state c) }
{}

/// A law: where a settle ends well, no entry of the queue that it leaves is due at its time. Does nothing.
pub fn end_law<X>()
    ensures { EndLaw X }
{}

/// A law: a settle whose states are computed has exactly one computation: its rounds, its ending, and what it leaves.
/// Does nothing.
pub fn computation_law()
    ensures { ComputationLaw }
{
    count_law();
}
