//! What a circuit is made of: elements of nine classes with their names, options, commands, and the faults for which a
//! command is refused.
//!
//! Each class of elements is one struct with public fields. `specs/` has its defaults and the range of each of its values.
//! Nothing here reads a script: what a pair sets stands with the crates that read values, which are above.
//!
//! Numbers of scripts are whole 10^-9 of their unit, taps are whole 10^-5, times are whole milliseconds.
//!
//! - `fault`: the causes for which a value or a command is refused, and the error of a call: such a cause or no memory
//! - `words`: the values that are words
//! - `lists`: numbers of a script, and small list types over `Vec`
//! - `names`: words by name, classes with their words, and names of elements
//! - `bus`: a bus with its node numbers
//! - `command`: places, verbs and commands
//! - a module for each class, and `element` for all of them
//! - `line_constants`: impedance and charging, which lines and line codes have alike
//! - `options`: the settings of a circuit
//! - `copies`: values that may be absent, copied
#![tactic(auto)]

mod bus;
mod capacitor;
mod capcontrol;
mod command;
mod copies;
mod element;
mod fault;
mod line;
mod line_constants;
mod linecode;
mod lists;
mod load;
mod loadshape;
mod names;
mod options;
mod regcontrol;
mod transformer;
mod vsource;
mod words;

pub use bus::Bus;
pub use capacitor::Capacitor;
pub use capcontrol::CapControl;
pub use command::{Blame, Command, Place, Verb};
pub use element::Element;
pub use fault::{ModelError, ModelFault};
pub use line::Line;
pub use line_constants::LineConstants;
pub use linecode::Linecode;
pub use lists::{Nodes, Numbers, ONE};
pub use load::{Load, LoadKind, Shares, ZipShares};
pub use loadshape::Loadshape;
pub use names::{Class, ElementName, class_named, find_named, is_legal_name, name_law};
pub use options::Options;
pub use regcontrol::RegControl;
pub use transformer::{Transformer, Winding};
pub use vsource::Vsource;
pub use words::{
    BankState, Connection, ControlMode, ControlQuantity, DataForm, LeadLag, Mode, ReactiveRule,
    SourceForm, StepSize, Units,
};

// Handed on from the crates below.
pub use dss_lexer::{
    LineError, LineFault, NumberError, NumberFault, Pair, PairList, Row, Text, cells,
    characters_of, matrix, number, postfix,
};
pub use fd_arith::{
    Conn, Ends, FEMTO_PER_ONE, Interval, Items, LoadModel, Micro, NodeAt, NodesAt, ROOT_THREE,
    TapPair, Term, TermFault, is_source_above_limit, isqrt, near_quotient,
};
