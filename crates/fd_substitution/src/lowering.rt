// The numbers of the places, from the first on.
ghost use Rattle.std.specs.Prelude.{◌≡◌, ℕ, ℤ, pos, ◌<◌, ◌≤◌, ◌^◌, nat_abs, length, IfOk, MatchResult};
ghost use Rattle.fd_substitution.specs.Sums.{IsMade};
ghost use Rattle.fd_substitution.specs.Substitution.{AreLower, CanStep, HasEnded, lower_made, others_at};
ghost use Rattle.fd_triangles.specs.fd_derived.fd_factors.fd_exact.States.{part};

use crate::fault::StepFault;
use crate::numbers::lowered;
use fd_triangles::{Pair, Row};
use std::alloc::{AllocError, Global};

// As many zeros.
pub fn zeros(alloc: Global, n: usize) -> Result<Vec<i64>, AllocError>
    ensures long { IfOk result (λ numbers. length numbers.items ≡ n) }
    ensures zero { IfOk result (λ numbers. (j : ℕ) → part numbers.items j ≡ pos 0) }
{
    let numbers = vec![in alloc; 0; n]?;
    Ok(numbers)
}

// The number of a place, where those before it are these.
fn lower_at(rows: &[Row], order: &[Pair], right: &[i128], numbers: &[i64], t: usize) -> Option<i64>
    requires ready { CanStep rows.now order.now }
    requires right { length right.now ≡ length order.now }
    requires small { (l : ℕ) → l < length right.now → nat_abs (part right.now l) ≤ 2 ^ 42 }
    requires long { length numbers.now ≡ length order.now }
    requires place { t < length order.now }
    ensures { IsMade (pos 0) (others_at rows.now t) (part numbers.now)
        (lower_made rows.now order.now right.now (part numbers.now) t) result }
{
    lowered(&rows[t].others, right[order[t].equation], numbers)
}

// The numbers of all places.
pub fn lower(
    alloc: Global,
    rows: &[Row],
    order: &[Pair],
    right: &[i128],
) -> Result<Vec<i64>, StepFault>
    requires ready { CanStep rows.now order.now }
    requires right { length right.now ≡ length order.now }
    requires small { (l : ℕ) → l < length right.now → nat_abs (part right.now l) ≤ 2 ^ 42 }
    ensures { MatchResult result (λ numbers. AreLower rows.now order.now right.now numbers.items)
        (HasEnded rows.now order.now right.now) }
{
    let mut numbers = zeros(alloc, order.len())?;
    for t in 0..order.len() {
        match lower_at(rows, order, right, &numbers, t) {
            Some(number) => numbers[t] = number,
            None => return Err(StepFault::Range(order[t].unknown)),
        }
    }
    Ok(numbers)
}
