// The current that a load phase draws, and the slopes of its rows, rounded to whole numbers of 2^-40.
//
// It promises that each part of the current is the quotient of its numerator by the denominator of its model, in either
// arithmetic: so it is nearest in `Fix`, and encloses the exact current of the system's part load in `Interval`. The
// rounded slopes are those of `specs/Slopes.antt`, number for number, at most of the stated sizes, and at most two units of 2^-40
// away from the exact slopes, which are those of `specs/ExactSlopes.antt`.
//
// The part loads of a phase that draws shares of its power in several models are those of `specs/Zip.antt`, each power
// rounded once.
//
// Modules: `power` has the numerators and denominators, `currents` the current and the row of the magnitude, `rounding`
// the quotients to the nearest, `slopes` the slopes, `limits` the limit on a load, `zip` the part loads of such a
// phase, `laws` says that the current and that row are the system's, and how near the slopes are.
#![tactic(auto)]

mod currents;
mod laws;
mod limits;
mod power;
mod rounding;
mod slopes;
mod zip;

pub use currents::{current, magnitude_row};
pub use laws::{current_law, magnitude_law, slope_law};
pub use limits::is_load_past;
pub use power::{clamped_magnitude, clamped_square, nominal_times_magnitude, square};
pub use slopes::{SlopeRow, Slopes, admittance, rounded_slopes};
pub use zip::{PartShares, ZipPhase, zip_parts};

// Handed on from the crates below.
pub use fd_system::{
    Coef, Constant, Fix, Interval, LoadAt, LoadModel, LoadPhase, Micro, NodeAt, Term, Wide,
    add_constant, add_term, ceil_at, is_small, near_over_coef, near_units,
};
