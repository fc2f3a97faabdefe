// The network as a system of real rows, with no circuit in it: constants, contributions at places of row and column,
// and part loads, which with what they draw are a stamp. It says what complex equations mean in real rows
// (`Equations`), what a part load draws (`Loads`), what a stamp and the residual of a row are (`System`), when a state
// meets mismatches (`Meets`) and what the interval residual is (`Residual`); and what several elements share: the
// nodes, branches and nominal voltages of their phases (`Terminals`), and series impedances (`Series`).
//
// Modules: `constants` and `loads` hold the types, `terminals` the nodes and nominal voltages of phases, `stamps` the
// stamp of an element or a circuit, and makes contributions of complex numbers, `series` those of series impedances,
// `range` tests their size, `rows` has the intervals of rows, `laws` says what contributions add up to.
#![tactic(auto)]

mod constants;
mod laws;
mod loads;
mod range;
mod rows;
mod series;
mod stamps;
mod terminals;

pub use constants::Constant;
pub use laws::{complex_law, load_law, residual_law};
pub use loads::{LoadAt, LoadPhase};
pub use range::{all_within, is_small, is_within};
pub use rows::{add_constant, add_term, greater_size};
pub use series::{add_drop, thirds};
pub use stamps::{Stamp, add_complex, add_imaginary, add_one, add_real, add_shunt};
pub use terminals::{NodePair, PhasePairs, node, phase_pair, phase_pairs, phase_volts};

// Handed on from the crates below.
pub use fd_arith::{
    Coef, Conn, Cx, Enclose, Ends, FEMTO_PER_ONE, Fix, Interval, Items, LoadModel, Micro, NodeAt,
    NodesAt, TapPair, Term, TermFault, Wide, ceil_at, floor_of_product, is_source_above_limit,
    near_over_coef, near_quotient, near_units,
};
