// A step with factors: how the unknowns move for right sides, by substitution in two triangles.
//
// `step` takes the rows that `factors` (`fd_triangles`) gives, in an order of pairs, and right sides. It answers
// exactly what the definitions say (`AreMoves`), or the first unknown at which a number or a sum is past its range
// (`HasEnded`), and nothing else but want of memory. All sums are exact; a number of a place, of an unknown and the
// whole move are rounded once each, to the nearest, ties away from zero. Of the rows nothing is asked but that the
// places and unknowns that they name exist and that no pivot is 0 (`CanStep`), which factors of equations meet.
//
// Entries are in units of 2^-40. Right sides and moves are in one unit of the caller's, numbers in 2^-20 of it.
//
// Modules: `fault`, why there is no step; `sums`, sums within a range; `numbers`, the number of one place and that of
// one unknown; `lowering`, those of all places; `raising`, those of all unknowns; `moving`, the step.
#![tactic(auto)]

mod fault;
mod lowering;
mod moving;
mod numbers;
mod raising;
mod sums;

pub use fault::StepFault;
pub use moving::step;

// Handed on from the crates below.
pub use fd_triangles::{
    Claim, Entry, Equation, FactorFault, Pair, Refusal, Row, add_defects, allowances, check,
    coefficient_sizes, factors, left_sizes, number_at, plus_product, plus_weighted, sizes_added,
};
