// The rows of a network: its constants, contributions and part loads as the solver and the certificate ask for them. No
// circuit is known here, and no name; what a network is says `fd_pattern`.
//
// A `Network` promises, at a point of whole micro-units: the residual of each row in intervals, which holds the exact one and is
// never ALL (`residual`); the rounded residual, the start matrix and the rounded Jacobian of a step (`rounded_residual`,
// `sparse_start`, `sparse_jacobian`); the weight of each unknown (`weights`); what the unknown at a place is (`kind`), and how many
// summands of the Jacobian stand at a place (`count`). Part loads of constant impedance stand in the contributions; those of constant
// power and of constant current are added to the rows and the matrices.
//
// `Rows` keeps the contributions and the part loads with their sums at each place of row and column where something stands; a `Matrix` is
// the start matrix or the Jacobian at such places. A walk over the cells of a row is the walk over all its columns (`walk_law`,
// `count_law`).
//
// Modules: `cells` and `load_cells` (what contributions and part loads add at the places of a pattern), `exchange`
// (contributions in place of others), `sparse` and `matrix` over them, `laws` of walks, `constants` (their sums by row),
// `rows` (the linear rows in intervals), `terminals` (the voltage of a part load, and its places in a row),
// `load_intervals`, `load_rows` and `load_slopes` (what part loads add to the intervals and to the rounded residual, and
// their slopes), `weights`, `network` over them, `copy` (what a network consists of, kept to be compared), and `point` (a state with
// its inverse).
#![tactic(auto)]

mod cells;
mod constants;
mod copy;
mod exchange;
mod laws;
mod load_cells;
mod load_intervals;
mod load_rows;
mod load_slopes;
mod matrix;
mod network;
mod point;
mod rows;
mod sparse;
mod terminals;
mod weights;

pub use cells::Cell;
pub use copy::NetworkCopy;
pub use laws::{count_law, walk_law};
pub use matrix::Matrix;
pub use network::Network;
pub use point::Point;
pub use sparse::Rows;
pub use terminals::{Voltage, voltage_of};

// Handed on from the crates below.
pub use fd_mat::{Dense, SparseRows, near_quotient};
pub use fd_pattern::{Layout, LoadAt, Pattern, PlaceKind};
