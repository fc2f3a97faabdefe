//! The values of properties of an OpenDSS script: what the value of a pair stands for, or why it is refused.
//!
//! Each form of value is one function: a number in a range, a whole number, a number among few, a rounded tap, time or
//! ratio, a word of a table, the name of an element, a bus with node numbers, an array and a square matrix. Each is
//! exactly the definition of its name in `specs/`, refusals and their order among them: first the texts of all cells
//! from left to right, then the form, then the ranges, then the count, then what the profile doesn't support, and last
//! whether a named element is there. Want of memory is the only free answer.
//!
//! Numbers are whole 10^-9 of their unit, taps are whole 10^-5, times are whole milliseconds.
//!
//! - `choices`: the values that are words of a table
//! - `numbers`: numbers in a range, whole, rounded or among few
//! - `forms`: words, choices and names
//! - `bus`: a bus with its node numbers
//! - `arrays`: arrays of numbers, buses and words
//! - `matrices`: square matrices, written whole or as a lower triangle
#![tactic(auto)]

mod arrays;
mod bus;
mod choices;
mod forms;
mod matrices;
mod numbers;

pub use arrays::{bank_state, numbers_within, shares, two_buses, two_numbers_within, two_taps};
pub use bus::bus_value;
pub use choices::{
    connection, control_mode, lead_lag, length_unit, quantity, solve_mode, step_size, truth,
    two_connections,
};
pub use forms::{found_line_name, found_name, line_name, name};
pub use matrices::matrix_within;
pub use numbers::{
    angle, half_of, milliseconds, number_value, number_within, phase, power_factor, ratio,
    supported_of, tap, whole_of, whole_within,
};

// Handed on from the crates below.
pub use dss_model::{
    CapControl, Capacitor, Class, DataForm, Element, ElementName, Line, LineConstants, Linecode,
    Load, LoadKind, Loadshape, Mode, ModelError, ModelFault, Numbers, ONE, Options, Pair,
    ReactiveRule, RegControl, SourceForm, Text, Transformer, Units, Vsource, Winding, find_named,
};
