// The certificate of a point of a network.
//
// `certify` takes a state with an inverse and answers the certificate that the definitions give: the mismatch of each
// row, the box, and a radius for each unknown; or it names the first row that is loose, or the first unknown at which
// there is none, and nothing else but want of memory. `recheck` takes what anyone claims and answers the first rule that
// it breaks, none exactly where the claim is sound; `boxed` makes a certified state of such a claim. `widen` gives a
// certified state other mismatches, and the radii that they give; a state in its box that meets them agrees with it
// (`agreement_law`). That a certificate is sound, and what it says of other states, are laws on the definitions.
//
// Modules: `ball`, what is certified; `fault`, why there is no certificate; `mismatches` of rows, and the first loose
// one; `boxes`, the half-widths; `radii`, by how much slopes may be off, by non-zeros; `flat`, lists of short entries,
// whose sums need no tests; `sums` of columns; `totals` of products, up to 2^120; `parted`, numbers in two parts, whose
// sums need none either; `bounds`, how far the inverse times
// the Jacobian is from the unit matrix; `reach`, the radii of unknowns; `rounding`, quotients rounded up;
// `certificate` over them; `rule`, the rules of certificates; `range`, the size and the range of a claim's numbers;
// `rechecking`, the rules on a claim; and `widening`, other mismatches of a certified state.
#![tactic(auto)]

mod ball;
mod bounds;
mod boxes;
mod certificate;
mod fault;
mod flat;
mod mismatches;
mod parted;
mod radii;
mod range;
mod reach;
mod rechecking;
mod rounding;
mod rule;
mod sums;
mod totals;
mod widening;

pub use ball::{Ball, Certified, DerivedRows, Support};
pub use boxes::half_widths;
pub use certificate::{certify, radii_at};
pub use fault::CertFault;
pub use mismatches::{first_loose, first_untrue, mismatches as row_mismatches};
pub use rechecking::{boxed, recheck};
pub use rule::{Broken, Rule};
pub use widening::{Widened, agreement_law, widen, widening_law};

// Handed on from the crates below.
pub use fd_enclosure::{
    Cell, Matrix, NetworkRows, PlaceKind, ball_law, certificate_law, enclosure_law, linear_law,
    tie_law,
};
