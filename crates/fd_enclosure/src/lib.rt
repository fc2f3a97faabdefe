// What a certificate is: the trust box of a state, the radii of slopes in it, the bound and the radii of the unknowns, and when a claim
// is sound. All of it is definitions in whole numbers, for a network without its circuit, and laws. It has no code of its own: the calls
// of `laws` and `ties` do nothing.
//
// A sound claim encloses: every state in the box, of any denominator, that meets the claim's mismatches is within the radii of its centre
// (`enclosure_law`). The certificate of a point is sound (`certificate_law`). Between the centre and a state in the box each row changes as
// the Jacobian at the centre says, up to the radii of the slopes (`change_law`). Where each part load is of constant impedance the rows are
// linear, and the radii hold for every state that meets the mismatches, also outside the box (`linear_law`). A mismatch is tied to its row's
// residual (`tie_law`), and both parts of a complex unknown have one radius and one box (`ball_law`).
//
// Modules: `laws`, what certificates say, and `ties`, what holds their numbers.
#![tactic(auto)]

mod laws;
mod ties;

pub use laws::{certificate_law, change_law, enclosure_law, linear_law};
pub use ties::{ball_law, tie_law};

// Handed on from the crates below.
pub use fd_equations::{
    Cell, Dense, Matrix, Network as NetworkRows, Pattern, PlaceKind, Point, voltage_of,
};
pub use fd_slope::{Interval, LoadAt, Micro, NodeAt, Radii, RadiusRow, Wide, load_slope};
