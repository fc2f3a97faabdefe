// Where the unknowns of a network stand, what a network is, and at which places of row and column something stands. No circuit is known
// here, and no name.
//
// A `Layout` says what the unknown at a place is. The conditions of a network (specs/Conditions) are what its contributions, constants and
// part loads have to meet, on the view of it (specs/Views) that the rows, the certificate and the devices share. `places_of` and the calls
// beside it name the places of contributions and part loads; a `Pattern` holds such places in order, each once, and finds them.
//
// Modules: `layout`, `places` and `pattern`.
#![tactic(auto)]

mod layout;
mod pattern;
mod places;

pub use layout::{Layout, PlaceKind};
pub use pattern::Pattern;
pub use places::{add_cross, add_load_places, add_node_places, add_term_places, places_of};

// Handed on from the crates below.
pub use fd_load::{
    Constant, Fix, Interval, LoadAt, LoadPhase, Micro, NodeAt, SlopeRow, Slopes, Term,
    add_constant, add_term, admittance, current, is_small, magnitude_row, near_over_coef,
    near_units, rounded_slopes,
};
