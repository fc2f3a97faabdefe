// The devices of a scripted circuit: its elements with the data of their equations, at their nodes and branches.
//
// It promises that a device adds to the rows exactly the constants, contributions and part loads that `specs/Devices.antt` states, by
// the element's values in the script, and that all devices' system has the rows of their complex equations at every state
// (`device_law`). Range is the answer exactly where a contribution of the device is past 2^54 units of 2^-40 or a part load past its limit.
// What an element adds is also written without memory into a stamp with room for it (`stamp_into`), by what is kept
// of it (`kept_of`); it is then at most 60 contributions of a transformer and 24 of a bank.
//
// Modules: `data` has the data of transformers and capacitor banks, `devices` is the law, `phase_loads` has the part
// loads of a load's phases, `stamps` what each element adds, `writers` the same written without memory, `kept` what is
// kept of an element for that, `reached` the places that a transformer or a bank can reach, `settings` the positions of
// taps and banks and the powers of loads with which a circuit is taken, `fault` why there is no network.
#![tactic(auto)]

mod data;
mod devices;
mod fault;
mod kept;
mod phase_loads;
mod reached;
mod settings;
mod stamps;
mod writers;

pub use data::xfmr_data;
pub use devices::{device_law, reach_law};
pub use fault::BuildFault;
pub use kept::{Kept, kept_of, most_constants, most_loads, most_terms, stamp_into};
pub use settings::{BankStates, LoadPowers, Positions, Powers, SettingSlices, Taps};

// Handed on from the crates below.
pub use dss_circuit::{Circuit, find_element};
pub use dss_layout::{
    BankState, Capacitor, Class, Element, ElementName, Load, Loadshape, Mode, Options, TapPair,
    Text, Transformer, Winding,
};
pub use fd_elements::{LoadPower, load_power};
pub use fd_pattern::{Layout, PlaceKind};
pub use fd_xfmr::{
    Constant, LoadAt, LoadPhase, NodePair, PhaseAt, Stamp, XfmrData, phase_at, phase_volts,
};
