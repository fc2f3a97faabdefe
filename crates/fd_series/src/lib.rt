//! The branches and shunts of scripted Lines and sources, as rungs of a ladder.
//!
//! It promises that they are exactly those of the elements' data by their values in the script (`specs/Scripted.antt`).
#![tactic(auto)]

mod scripted;

pub use scripted::{add_charges, scripted_line, scripted_source};

// Handed on from the crates below.
pub use fd_elements::conn_of;
pub use fd_rungs::{
    Branch, CapData, Capacitor, Ends, Ladder, NodeAt, NodesAt, Numbers, Rung, Shunt, Swept,
    TapPair, add_bank_shunts, sweeps, transformer_rung,
};
