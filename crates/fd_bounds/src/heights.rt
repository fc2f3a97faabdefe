// From bounds of unknowns to heights of rows, from the first row to the last.
ghost use Rattle.std.specs.Prelude.{◌≡◌, ℕ, ◌+◌, ◌*◌, ◌<◌, ◌^◌, length, MatchResult};
ghost use Rattle.fd_substitution.specs.fd_derived.fd_factors.fd_exact.Sums.{sum_n};
ghost use Rattle.fd_substitution.specs.fd_derived.Rows.{number_at, radius, right_side_at};
ghost use Rattle.fd_substitution.specs.fd_derived.Sums.{AreTotals, capped};
ghost use Rattle.fd_bounds.specs.Defects.{AreDefects};
ghost use Rattle.fd_bounds.specs.Passes.{AreHeights, IsEnd, heights_end, load};
ghost use Rattle.fd_bounds.specs.Rows.{AreInOrder};

use crate::defects::{Defects, plus_defects};
use crate::fault::BoundFault;
use crate::widths::unknown_of;
use fd_substitution::{Equation, Row, allowances, plus_weighted};
use std::alloc::Global;

// One in units of 2^-40.
const ONE: u128 = 0x100_0000_0000;

// The sums of a pass are below 2^127.
pub const SUM_LIMIT: u128 = 0x8000_0000_0000_0000_0000_0000_0000_0000;

// What a row's height has to stand above, in units of 2^-80 of those of bounds.
fn load_of(
    equations: &[Equation],
    rows: &[Row],
    defects: &[Defects],
    allowed: &[u128],
    bounds: &[u128],
    heights: &[u128],
    row: usize,
) -> u128
    requires row { row < length rows.now }
    requires order { AreInOrder equations.now rows.now }
    requires defects { AreDefects equations.now rows.now (length rows.now) defects.now }
    requires allowed { AreTotals
        (λ l. sum_n (λ j. radius equations.now l j * number_at bounds.now j) (length equations.now) + 2 ^ 40 * right_side_at equations.now l)
        (length equations.now) allowed.now }
    ensures { result ≡ capped (load equations.now rows.now (number_at bounds.now) (number_at heights.now) row) }
{
    let derived = &rows[row];
    let own = plus_weighted(0, &derived.equations, allowed);
    let slack = plus_defects(own, &defects[row].sizes, bounds);
    plus_weighted(slack, &derived.others, heights)
}

// The heights of the rows over bounds of the unknowns.
pub fn heights_over(
    alloc: Global,
    equations: &[Equation],
    rows: &[Row],
    defects: &[Defects],
    bounds: &[u128],
) -> Result<Vec<u128>, BoundFault>
    requires order { AreInOrder equations.now rows.now }
    requires defects { AreDefects equations.now rows.now (length rows.now) defects.now }
    requires bounds { length bounds.now ≡ length equations.now }
    ensures { MatchResult result (λ heights. AreHeights equations.now rows.now (number_at bounds.now) heights.items)
        (λ fault. IsEnd fault (heights_end equations.now rows.now (number_at bounds.now))) }
{
    let allowed = allowances(alloc, equations, bounds)?;
    let mut heights = Vec::with_capacity(alloc, rows.len())?;
    for row in 0..rows.len() {
        let load = load_of(equations, rows, defects, &allowed, bounds, &heights, row);
        if load >= SUM_LIMIT {
            return Err(BoundFault::Unbounded(unknown_of(rows, row)));
        }
        heights.push(load / ONE + 1)?;
    }
    Ok(heights)
}
