// Heights and bounds of derived rows, so that the checker accepts them (`fd_derived`).
//
// `bound_rows` takes rows in the order of an elimination, each of which names earlier rows alone and leaves, behind its
// pivot, entries at the unknowns of later rows, and makes passes over them. Factors of equations are such rows
// (`in_order_law`). A pass goes from bounds, each raised by a part in 2^20 and by one, to heights from the first row to
// the last, and from these to new bounds from the last to the first. Where no new bound is above the raised one,
// heights and new bounds stand: all that was weighed with raised bounds holds with the new ones. Of a pass there is one
// definition, by functions of rows and unknowns (`specs/Passes`).
//
// A pass costs the entries of the rows, the radii and the defects; these are made once, before the first pass.
//
// Coefficients, radii, multiples and what rows leave are in units of 2^-40, bounds and right sides in one unit of the
// caller's, heights in 2^-40 of that, defects in 2^-80.
//
// Modules: `fault`, why there are no bounds; `defects` of rows; `heights`, from bounds to heights; `widths`, from
// heights to bounds; `rising`, bounds raised and compared; `passes`, one after another; `laws`.
#![tactic(auto)]

mod defects;
mod fault;
mod heights;
mod laws;
mod passes;
mod rising;
mod widths;

pub use fault::BoundFault;
pub use laws::in_order_law;
pub use passes::{Bounds, bound_rows};

// Handed on from the crates below.
pub use fd_substitution::{
    Claim, Entry, Equation, FactorFault, Pair, Refusal, Row, StepFault, check, factors, step,
};
