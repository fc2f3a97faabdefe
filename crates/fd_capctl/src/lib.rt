//! The control of a capacitor bank: what it wants at its quantity, when it is queued, and how it switches.
//!
//! In `specs/`:
//!
//! - `Bank`: the verdict at a quantity, of a closed and of an open bank, and the edge at which it changes
//! - `BankLaws`: their laws, each of which is the contract of a function of `laws`
//! - `CapState`: what contracts see of a control's state, and how the queue machine shows it
//!
//! `CapState::react` does the sampling rules of the queue machine for one control, and `CapState::act` switches a bank.
//! No call takes memory.
#![tactic(auto)]

mod laws;
mod state;

pub use laws::{away_law, bank_decided_law, bank_edge_law, bank_law};
pub use state::CapState;
