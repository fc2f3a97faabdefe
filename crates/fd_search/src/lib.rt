// The state of a network, sought by steps with sparse factors in a given order of pairs.
//
// The factors are derived rows, as `factors` of `fd_triangles` gives them. `start` is what those of a network's start
// matrix make of its constants; `come_to_rest` takes steps with them until one moves no voltage and no magnitude far;
// `fall` takes steps, with the factors of the Jacobian there, as long as the sum of all mismatches falls. Each answers
// exactly what the definitions say of the sequence of states (`first_state`, `ComeToRest`, `FallFor`), or the first fault
// (`HasNoStart`, `HaveNoRest`, `HasNoFall`), and nothing else but want of memory. Residuals, weights, the test of a step
// and the faults are those of the procedure of `fd_inject`; the moves are those of `fd_substitution`. No inverse is made.
// No certificate rests on how a state was found.
//
// Modules: `updates`, what a step changes; `steps`, the start and one step; `resting`, steps until none moves far;
// `totals` of mismatches; `falling`, steps as long as these fall.
#![tactic(auto)]

mod falling;
mod resting;
mod steps;
mod totals;
mod updates;

pub use falling::fall;
pub use resting::come_to_rest;
pub use steps::{start, step};

// Handed on from the crates below.
pub use fd_inject::{Limits, NetworkRows, SolveFault};
pub use fd_substitution::{Pair, Row};
