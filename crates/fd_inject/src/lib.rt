// The procedure that finds a state of a network.
//
// `solve` gives the point of a network, or names the first fault: a matrix without an inverse, an iterate or a residual out of range,
// or unknowns that still move after the steps that are allowed. The procedure is a definition, a fold over numbered steps, and `solve`
// answers what it says, and nothing else but want of memory. `solve_kept` answers the same, and doesn't invert a start matrix again
// that is kept from a call before. No certificate rests on how a point was found.
//
// Modules: `limits`, how long and how far to iterate; `fault`, why there is no point; `ranges`, lists past a limit and matrices with
// their inverse; `updates`, what an inverse gives for a residual; `steps`, one step and the end test; `procedure`, the start, the
// steps in order and the second inverse; `kept`, start matrices with their inverses, `solve` and `solve_kept`.
#![tactic(auto)]

mod fault;
mod kept;
mod limits;
mod procedure;
mod ranges;
mod steps;
mod updates;

pub use fault::SolveFault;
pub use kept::{Kept, KeptPair, solve, solve_kept};
pub use limits::Limits;
pub use procedure::set_magnitudes;
pub use ranges::test_range;
pub use steps::first_moving;
pub use updates::add;

// Handed on from the crates below.
pub use fd_equations::{Dense, Network as NetworkRows, NetworkCopy, Point, Rows, SparseRows};
pub use fd_inverse::{Held, Stop, TapPair};
