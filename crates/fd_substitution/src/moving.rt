// The step that factors make of right sides.
ghost use Rattle.std.specs.Prelude.{◌≡◌, ℕ, ◌<◌, ◌≤◌, ◌^◌, nat_abs, length, MatchResult};
ghost use Rattle.fd_substitution.specs.Substitution.{AreMoves, CanStep, HasEnded};
ghost use Rattle.fd_triangles.specs.fd_derived.fd_factors.fd_exact.Rounding.{near_div};
ghost use Rattle.fd_triangles.specs.fd_derived.fd_factors.fd_exact.States.{part};

use crate::fault::StepFault;
use crate::lowering::lower;
use crate::raising::upper;
use fd_triangles::{Pair, Row, near_quotient};
use std::alloc::Global;

// One in units of 2^-20.
const FINE: u128 = 0x10_0000;

// A number of units of 2^-20 in whole ones, to the nearest.
fn whole(number: i64) -> i64
    ensures { result ≡ near_div number (2 ^ 20) }
{
    near_quotient(number as i128, FINE) as i64
}

// Each number of units of 2^-20 in whole ones.
fn make_whole(numbers: &mut [i64])
    ensures { (j : ℕ) → part numbers.new j ≡ near_div (part numbers.old j) (2 ^ 20) }
{
    for place in 0..numbers.len() {
        numbers[place] = whole(numbers[place]);
    }
}

/// How each unknown moves, in their order: what factors make of right sides, to the nearest whole unit of these, ties
/// away from zero. Of a residual it is what the unknown loses. The factors are rows in an order of pairs, as `factors`
/// gives them; there are as many right sides as places, in the order of the equations, of at most 2^42 in size.
///
/// In units of 2^-20 each place from the first on has the right side of its equation, less the multiples of the
/// numbers of other places that its row names: 0 where that place isn't done. Each unknown, from that of the last
/// place on, has what the other entries that its row leaves, times the numbers of their unknowns, leave of the number
/// of its place, over the pivot. A sum is exact, and what is made of it is the nearest such number. A step costs the
/// entries of the rows, and holds two numbers for each place.
///
/// # Errors
/// `Range` with the unknown of the first place, the numbers of places before those of unknowns, whose number is past
/// 2^62 in size, or of which a sum on the way is past 2^120, in the order of the entries, in units of 2^-60.
/// `NoMemory` where memory is refused.
pub fn step(
    alloc: Global,
    rows: &[Row],
    order: &[Pair],
    right: &[i128],
) -> Result<Vec<i64>, StepFault>
    requires ready { CanStep rows.now order.now }
    requires right { length right.now ≡ length order.now }
    requires small { (l : ℕ) → l < length right.now → nat_abs (part right.now l) ≤ 2 ^ 42 }
    ensures { MatchResult result (λ moves. AreMoves rows.now order.now right.now moves.items)
        (HasEnded rows.now order.now right.now) }
{
    let lower = lower(alloc, rows, order, right)?;
    let mut moves = upper(alloc, rows, order, &lower)?;
    make_whole(&mut moves);
    Ok(moves)
}
