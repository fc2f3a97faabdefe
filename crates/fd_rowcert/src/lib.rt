// Certificates by derived rows of a state of a network.
//
// `state_equations` makes the equations of a state in the box of a part of its weights, as the checker of rows takes
// them (`fd_derived`): coefficients are the entries of its Jacobian, radii those of slopes in the box, right sides
// twice the mismatches; or it names the first row that is too wide for them. `recheck_rows` tests what anyone claims
// of a state by derived rows, and answers the first rule that it breaks, or a certified state, which is sound.
// `first_box` finds heights and bounds of rows in the order of an elimination (`fd_bounds`), in the first of three
// boxes in which they stand.
//
// A row has a list of its entries that aren't 0, in rising places; all work is in proportion to those of the Jacobian
// and of the rows.
//
// Coefficients and radii are in units of 2^-40, bounds and right sides in 2^-20 of a whole microampere or microvolt.
//
// Modules: `entries` of a row of a matrix; `equations`, all rows of one, with radii of another; `state`, those of a
// state in a box; `bounding`, heights and bounds of rows in boxes; `broken`, the rules of claims; `ranges` of a
// claim's numbers; `rechecking`, the rules on a claim.
#![tactic(auto)]

mod bounding;
mod broken;
mod entries;
mod equations;
mod ranges;
mod rechecking;
mod state;

pub use bounding::{Boxed, first_box};
pub use broken::BrokenRow;
pub use entries::row_entries;
pub use equations::{equations_of, set_radii};
pub use rechecking::recheck_rows;
pub use state::{InBox, set_box, state_equations};
