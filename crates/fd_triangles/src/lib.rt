// Factors of equations in a given order, by non-zeros: which multiples of earlier rows each row loses, and what is
// left.
//
// `factors` eliminates unknowns in an order of pairs, each with its own equation, and searches for no pivot. Of the
// elimination there is one definition, a function of places and unknowns that knows no lists (`row_after`): `factors`
// answers the rows that it says, as derived rows (`fd_derived`) whose equation is taken once, or the first unknown at
// which a pivot is too small or a number too large, and nothing else but want of memory.
//
// A row costs its own entries and those of the rows that it loses: each column keeps a list of the rows that had an
// entry there once, and the entries of a row stand in rising places, so that each is found by halving.
//
// Coefficients, multiples and what is left are in units of 2^-40.
//
// Modules: `pair`, an order; `fault`, why there are no factors; `numbers`, one number that loses another; `columns`,
// the rows that have entries in a column; `row`, one row by its entries; `changes`, what a row gains and loses;
// `clearing`, one row cleared by another; `loading`, the rows before the first unknown; `elimination`, all of them.
#![tactic(auto)]

mod changes;
mod clearing;
mod columns;
mod elimination;
mod fault;
mod loading;
mod numbers;
mod pair;
mod row;

pub use elimination::factors;
pub use fault::FactorFault;
pub use pair::Pair;

// Handed on from the crates below.
pub use fd_derived::{
    Claim, Entry, Equation, Refusal, Row, add_defects, allowances, check, coefficient_sizes,
    left_sizes, number_at, plus_product, plus_weighted, sizes_added,
};
pub use fd_mat::near_quotient;
