// The settings of a circuit: the positions of its taps and banks at the start of a Solve, and the powers of its loads at an hour.
//
// It promises that the positions of a script are exactly its taps and states (`script_positions`), as many as its elements have and in
// range, and its powers as many (`snapshot_law`).
// A later Solve starts with exactly the taps and states that the script set since the Solve before, and else with those of before
// (`next_positions`); they too are as many as the elements have, and in range (`next_law`).
// The powers of loads at an hour of a day follow their shapes exactly (`powers_at`, and `DailyLoads` for the hours of a Solve); those of hour 0 are the snapshot's (`hours_law`),
// and none is past 10^17 in size (`modest_law`).
//
// Modules: `snapshot` has the positions that the script gives, `positions` those with which a later Solve starts, `hours` the powers at
// an hour of a day, `modest` their sizes.
#![tactic(auto)]

mod hours;
mod modest;
mod positions;
mod snapshot;

pub use hours::{DailyLoad, DailyLoads, hours_law, powers_at};
pub use modest::modest_law;
pub use positions::{next_law, next_positions};
pub use snapshot::{script_positions, snapshot_law};

// Handed on from the crates below.
pub use fd_devices::{
    BankStates, BuildFault, Circuit, Constant, Element, Layout, LoadAt, LoadPhase, LoadPower,
    LoadPowers, Mode, NodePair, Options, PlaceKind, Positions, Powers, Taps,
};
