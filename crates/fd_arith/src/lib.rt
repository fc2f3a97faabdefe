// Fixed-point arithmetic: numbers of units on a grid, and intervals of them that hold the exact result.
//
// Every operator of `Interval` has the exact ends that its contract names, or is ALL exactly where one of them
// passes 2^120 in size, and it holds the exact result on all fractions that its operands hold. `Fix` and `Wide` are
// exact, or OUT exactly where an operand is OUT or the result passes 2^120. `Enclose` is what both arithmetics share,
// so that code over it is written and proved once. No call here takes memory.
//
// Modules: `grid` (the units), `limit` (2^120), `interval` and `multiply` (intervals), `fix` (numbers to the nearest),
// `divide` (quotients, areas, squares and roots), `division` and `quotient` (whole quotients, in units of 2^-40 too),
// `rounding` (quotients of numbers that fit 128 bits, beside the one to the nearest, which `fd_exact` has), `bounded`
// (whole numbers), `enclose` and `cx` (what both arithmetics share), `terms` (the words of contributions, terminals and
// loads), `short_circuit` (the limit of a source's impedance).
#![tactic(auto)]

mod bounded;
mod cx;
mod divide;
mod division;
mod enclose;
mod fix;
mod grid;
mod interval;
mod limit;
mod multiply;
mod quotient;
mod rounding;
mod short_circuit;
mod terms;

pub use bounded::Wide;
pub use cx::Cx;
pub use enclose::Enclose;
pub use fix::Fix;
pub use grid::{Coef, Grid, Micro, Square, grid_law};
pub use interval::Interval;
pub use quotient::{ceil_at, floor_at, isqrt, near_at};
pub use rounding::{floor_of_product, near_over_coef, near_over_word, near_units};
pub use short_circuit::is_source_above_limit;
pub use terms::{Conn, Ends, LoadModel, NodeAt, NodesAt, TapPair, Term, TermFault};

// Handed on from the crates below.
pub use fd_exact::{FEMTO_PER_ONE, ROOT_THREE, near_quotient};
pub use fd_items::Items;
