//! The texts of numbers with a fixed count of decimals: whole numbers of units, of which a power of ten is one.
//!
//! In `specs/`, `Decimals` has what the text of a number is. Each function answers exactly that, and want of memory is
//! its only free answer.
#![tactic(auto)]

mod decimals;

pub use decimals::{fixed_text, micro_text, nano_text, size_text};
