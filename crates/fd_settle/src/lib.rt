// Settles: a circuit is solved and certified, its controls are sampled and act, and again, until no control waits to
// act.
//
// It promises that the acts of each round are those of the queue machine over the samples of the rounds' balls, and
// that a settle ends exactly as that machine ends; each certified state is sound in the network of its round. So
// whatever states are chosen in the balls, the acts are these (`history_law`): a decided sample is that of every state
// of its ball.
//
// - `round`: a round, and an act
// - `clock`: the time, and the last opening times of the banks
// - `solver`: what finds certified states
// - `compute`: the solver that computes them; `kept_states`: those that it computed before
// - `controls`: the controls at work; `state`: one of them, `sampling`, `reacting` and `acting`: what all of them do in a round
// - `progress`: what a sampling comes to
// - `journal`: what is kept of rounds: all of them, or their acts alone
// - `settling`: the settle
// - `fault`: why it ends
// - `kept`: what rounds keep of the machine, and when a claim is sound
// - `laws`: the acts follow from the decisions alone, nothing is due where a settle ends well, and where states are
//   computed a settle has exactly one computation
#![tactic(auto)]

mod acting;
mod clock;
mod compute;
mod controls;
mod fault;
mod journal;
mod kept;
mod kept_states;
mod laws;
mod progress;
mod reacting;
mod round;
mod sampling;
mod settling;
mod solver;
mod state;

pub use clock::Clock;
pub use compute::{Compute, ComputeFault, compute_kept};
pub use controls::Controls;
pub use fault::SettleFault;
pub use journal::{ActJournal, Journal};
pub use kept::{kept_law, kept_rounds_law, sound_at_law};
pub use kept_states::{KeptState, KeptStates};
pub use laws::{Sampled, agree_law, computation_law, end_law, history_law, whole_law};
pub use round::{Act, Round, shared};
pub use settling::settle;
pub use solver::Solver;

// Handed on from the crates below.
pub use fd_cert::{
    Ball, Broken, CertFault, Certified, Rule, ball_law, boxed, certificate_law, certify,
    enclosure_law, linear_law, tie_law,
};
pub use fd_inject::{Dense, Limits, NetworkRows, Point, Rows, SolveFault};
pub use fd_sample::{
    CapProbe, CapState, Entry, Measured, Network, Probe, Queue, ReadyFault, RegProbe, RegState,
    Timing, Verdict, bank_verdict, network_law, passed_law, probes, ready, regulator_verdict,
};
