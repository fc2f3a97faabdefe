// A checker of derived rows, by non-zeros: whether rows that anyone claims are a proof that whatever meets the equations
// is within the bounds (`fd_factors`).
//
// `check` answers none exactly where a claim is accepted (`IsAccepted`), and else the first rule that is broken, with
// its row or its unknown, and nothing else but want of memory. Where a claim is accepted, each state of any denominator
// in the box that meets the mismatches is within the bounds (`accepted_law`).
//
// A row costs its own entries, those of its equations and those of the rows that it names: its defect is made in sums of
// which the touched places are noted, and these alone are weighed and set back to 0. All sums are exact. What a row adds
// is bounded by the sizes of its entries, whatever the order, so the range is a property of the row; sums of naturals
// that pass 128 bits are kept at the greatest number of 128 bits, which is above each number that they are compared with.
//
// Coefficients, radii, multiples and what rows leave are in units of 2^-40, bounds and right sides in one unit of the
// caller's (2^-20 of a whole microvolt or microampere, say), heights in 2^-40 of that.
//
// Modules: `entries`, equations and claims; `refusal`, the rules; `totals` of sizes; `sums` at places of which few are
// touched; `defects` of rows; `places` of entries; `lists`, what is made once for all rows; `above`, one row; `bounded`,
// one unknown; `checking`, all of them; `laws`.
#![tactic(auto)]

mod above;
mod bounded;
mod checking;
mod defects;
mod entries;
mod laws;
mod lists;
mod places;
mod refusal;
mod sums;
mod totals;

pub use above::sizes_added;
pub use checking::check;
pub use defects::add_defects;
pub use entries::{Claim, Entry, Equation, Row};
pub use laws::accepted_law;
pub use lists::{allowances, coefficient_sizes, left_sizes};
pub use refusal::Refusal;
pub use totals::{number_at, plus_product, plus_weighted};
