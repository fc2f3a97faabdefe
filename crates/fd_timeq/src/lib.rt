// The hours of a Solve in controlmode time: the queue lives over the hours of a Solve.
//
// It has no machine and no loop of its own: one machine with a rule serves each controlmode, and these are its calls
// where the controlmode is time, in the words of the clock. An hour takes over the whole machine that the hour before
// left; only the time is then the hour's, and acts are counted anew. So an entry waits over the hours for its time
// (`lasts_law`), and what waits at the end doesn't hang on which states are chosen (`pending_law`).
//
// - `day`: the start of a Solve, the settle of its next hour, and the entries that wait
// - `laws`: the hours of a run, the entries that wait
#![tactic(auto)]

mod day;
mod laws;

pub use day::{TimeDay, time_run};
pub use laws::{Held, lasts_law, pending_law, time_run_law};
