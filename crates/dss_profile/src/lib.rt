//! The script profile: one table of the classes and options that a script sets.
//!
//! For each class the table has its properties with their names, and for each property its form, its range, its
//! rounding and its refusals. A property sets one field of the class's struct, and `set_pair` is proved to do exactly
//! what the table's line says.
//!
//! - a module for each class, and `element` for all of them
//! - `line_constants`: impedance and charging, which lines and line codes have alike
//! - `options`: the settings of a circuit
#![tactic(auto)]

mod capacitor;
mod capcontrol;
mod element;
mod line;
mod line_constants;
mod linecode;
mod load;
mod loadshape;
mod options;
mod regcontrol;
mod transformer;
mod vsource;

pub use capacitor::{CapacitorProperty, capacitor_property};
pub use capcontrol::{CapControlProperty, capcontrol_property};
pub use element::{referred_element, set_pair};
pub use line::{LineProperty, line_property};
pub use line_constants::DataProperty;
pub use linecode::{LinecodeProperty, linecode_property};
pub use load::{LoadProperty, load_property};
pub use loadshape::{LoadshapeProperty, loadshape_property};
pub use options::{OptionName, option_named, with_options};
pub use regcontrol::{RegControlProperty, regcontrol_property};
pub use transformer::{BothProperty, TransformerProperty, WindingProperty, transformer_property};
pub use vsource::{VsourceProperty, vsource_property};
