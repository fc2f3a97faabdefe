// The slopes of a load phase's rows at a centre, and the radii by which they may be off in a box around it.
//
// `load_slope` gives the rounded slopes at the centre and a radius for each, in three cases: where a box keeps the voltage within the
// load's limits, where it keeps it outside of both, and where it straddles one. `change_law` says what they are for: at every state in the
// box the change of each row of a part load differs from what its slopes say by at most the radii, with four units of 2^-40 more in each,
// times what moved. It takes no memory.
//
// Modules: `radii`, their shape; `around`, a centre and a box; `rounding`, quotients and products rounded up; `power`
// and `current`, the radii of constant power and of constant current; `slope`, both by the model; `laws`, the law.
#![tactic(auto)]

mod around;
mod current;
mod laws;
mod power;
mod radii;
mod rounding;
mod slope;

pub use laws::change_law;
pub use radii::{Radii, RadiusRow};
pub use slope::{Slope, load_slope};

// Handed on from the crates below.
pub use fd_load::{Interval, LoadAt, Micro, NodeAt, Wide};
