// One unknown: whether its row bounds it.
ghost use Rattle.std.specs.Prelude.{◌≡◌, ◌<◌, ◌≤◌, ◌^◌, length};
ghost use Rattle.fd_derived.specs.Refusals.{stands_over as row_stands_over, unknown_refusal as first_of_unknown};
ghost use Rattle.fd_derived.specs.Rows.{entries_of, number_at, number_of_rows};

use crate::entries::{Claim, Entry};
use crate::refusal::Refusal;
use crate::totals::plus_weighted;

// The greatest bound, 2^60: its product with a pivot is a number of 123 bits.
const BOUND_LIMIT: u128 = 0x1000_0000_0000_0000;

// Whether a row's first entry is at an unknown and stands above the others, each times its bound, and a height more.
fn stands_over(left: &[Entry], unknown: usize, height: u128, bounds: &[u128]) -> bool
    requires unknown { unknown < length bounds.now }
    requires range { number_at bounds.now unknown ≤ 2 ^ 60 }
    ensures { result ≡ row_stands_over (entries_of left.now) unknown height (number_at bounds.now) }
{
    match left.split_first() {
        Some((pivot, rest)) => {
            let bound = pivot.units.unsigned_abs() as u128 * bounds[unknown];
            pivot.place == unknown && plus_weighted(height, rest, bounds) < bound
        }
        None => false,
    }
}

// The rule that an unknown's bound breaks first, if it breaks any.
pub fn unknown_refusal(claim: &Claim, unknown: usize) -> Option<Refusal>
    requires heights { length claim.now.heights.items ≡ number_of_rows claim.now }
    requires bounding { unknown < length claim.now.bounding.items }
    requires bounds { unknown < length claim.now.bounds.items }
    ensures { result ≡ first_of_unknown claim.now unknown }
{
    if claim.bounds[unknown] > BOUND_LIMIT {
        return Some(Refusal::BoundRange(unknown));
    }
    let row = claim.bounding[unknown];
    if row < claim.rows.len()
        && stands_over(
            &claim.rows[row].left,
            unknown,
            claim.heights[row],
            &claim.bounds,
        )
    {
        None
    } else {
        Some(Refusal::Bound(unknown))
    }
}
