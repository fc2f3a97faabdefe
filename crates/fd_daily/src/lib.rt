// The hours of a Solve: a settle at each hour, with the powers of that hour.
//
// A snapshot is one settle at hour 0. A day is a settle at each of its hours in order, up to the first that doesn't end
// well. Positions and the banks' opening times are kept from hour to hour; where the time goes on with the hours, so are
// the queue and the latest moves, so that no entry is lost, and else each hour starts without. So whatever states are
// chosen in the balls of the rounds, the acts of all hours are these (`run_law`).
//
// - `day`: where a Solve stands between its hours
// - `underway`: the start of a Solve, and the network of each hour behind the first
// - `running`: the settle of the next hour
// - `laws`: the acts of all hours follow from the decisions alone, and a run goes on hour by hour
#![tactic(auto)]

mod day;
mod laws;
mod running;
mod underway;

pub use day::Day;
pub use laws::{next_hour_law, run_law};
pub use running::daily_run;
pub use underway::Underway;

// Handed on from the crates below.
pub use fd_settings::{BankStates, BuildFault, Positions, Taps, hours_law, modest_law, next_law};
pub use fd_settle::{
    Act, ActJournal, CertFault, Certified, Compute, ComputeFault, Journal, ReadyFault, Round, Rule,
    SettleFault, SolveFault, ball_law, certificate_law, enclosure_law, kept_law, kept_rounds_law,
    linear_law, network_law, passed_law, ready, sound_at_law, tie_law,
};
