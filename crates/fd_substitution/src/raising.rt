// The numbers of the unknowns, from the last place on.
ghost use Rattle.std.specs.Prelude.{◌≡◌, ℕ, ℤ, pos, ◌*ℤ◌, ◌<◌, ◌^◌, List, length, MatchResult};
ghost use Rattle.fd_substitution.specs.Sums.{IsMade, raised as raised_by};
ghost use Rattle.fd_substitution.specs.Substitution.{AreLower, AreUpper, CanStep, HasEnded, pivot_at, rest_at};
ghost use Rattle.fd_triangles.specs.fd_derived.fd_factors.fd_exact.States.{part};

use crate::fault::StepFault;
use crate::lowering::zeros;
use crate::numbers::raised;
use fd_triangles::{Pair, Row};
use std::alloc::Global;

// The number of the unknown of a place, where those of the places behind it are these.
fn upper_at(rows: &[Row], order: &[Pair], lower: &[i64], numbers: &[i64], t: usize) -> Option<i64>
    requires ready { CanStep rows.now order.now }
    requires lower { length lower.now ≡ length order.now }
    requires long { length numbers.now ≡ length order.now }
    requires place { t < length order.now }
    ensures { IsMade (pos (2 ^ 40) *ℤ part lower.now t) (rest_at rows.now t) (part numbers.now)
        (raised_by (part lower.now t) (rest_at rows.now t) (part numbers.now) (pivot_at rows.now t)) result }
{
    raised(lower[t], &rows[t].left, numbers)
}

// The numbers of all unknowns, where those of the places are these.
pub fn upper(
    alloc: Global,
    rows: &[Row],
    order: &[Pair],
    lower: &[i64],
) -> Result<Vec<i64>, StepFault>
    requires ready { CanStep rows.now order.now }
    requires lower { length lower.now ≡ length order.now }
    ensures { (right : List ℤ) → AreLower rows.now order.now right lower.now
        → MatchResult result (λ numbers. AreUpper rows.now order.now right numbers.items)
        (HasEnded rows.now order.now right) }
{
    let mut numbers = zeros(alloc, order.len())?;
    for behind in 0..order.len() {
        let t = order.len() - 1 - behind;
        let unknown = order[t].unknown;
        match upper_at(rows, order, lower, &numbers, t) {
            Some(number) => numbers[unknown] = number,
            None => return Err(StepFault::Range(unknown)),
        }
    }
    Ok(numbers)
}
