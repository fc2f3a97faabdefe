// What a step with factors changes for right sides.
ghost use Rattle.std.specs.Prelude.{◌≡◌, ℕ, ◌<◌, ◌≤◌, ◌^◌, neg_ℤ, List, ℤ, nat_abs, length, OnOk, MatchResult};
ghost use Rattle.fd_inject.specs.Ranges.{SizesWithin};
ghost use Rattle.fd_inject.specs.Updates.{moved};
ghost use Rattle.fd_inject.specs.fd_equations.fd_exact.States.{part};
ghost use Rattle.fd_substitution.specs.Substitution.{AreMoves, CanStep};
ghost use Rattle.fd_search.specs.Moves.{CanMove, HasNoMoves, changes};

use fd_inject::{SolveFault, test_range};
use fd_substitution::{Pair, Row, StepFault, step};
use std::alloc::Global;

// The greatest size of a right side, 2^42.
const RIGHT_LIMIT: u128 = 0x400_0000_0000;

// Writes moves over numbers, their signs turned.
fn turn(numbers: &mut [i128], moves: &[i64])
    requires { length moves.now ≡ length numbers.old }
    ensures turned { (k : ℕ) → k < length numbers.old → part numbers.new k ≡ neg_ℤ (part moves.now k) }
    ensures small { (k : ℕ) → k < length numbers.old → nat_abs (part numbers.new k) ≤ 2 ^ 86 }
{
    for (k, number) in numbers.iter_mut().enumerate() {
        *number = -(moves[k] as i128);
    }
}

// How unknowns move for right sides of at most 2^42 in size, behind so many steps.
fn moves(
    alloc: Global,
    rows: &[Row],
    order: &[Pair],
    right: &[i128],
    number: u32,
) -> Result<Vec<i64>, SolveFault>
    requires ready { CanStep rows.now order.now }
    requires long { length right.now ≡ length order.now }
    requires few { length order.now ≤ 2 ^ 11 }
    requires small { SizesWithin (2 ^ 42) right.now }
    ensures { MatchResult result (λ moves. AreMoves rows.now order.now right.now moves.items)
        (HasNoMoves rows.now order.now right.now number) }
{
    match step(alloc, rows, order, right) {
        Ok(moves) => Ok(moves),
        Err(StepFault::Range(unknown)) => Err(SolveFault::OutOfRange {
            place: unknown as u32,
            step: number,
        }),
        Err(StepFault::NoMemory) => Err(SolveFault::NoMemory),
    }
}

/// Writes over right sides how much each unknown changes for them, in whole micro-units, behind so many steps.
pub fn update(
    alloc: Global,
    rows: &[Row],
    order: &[Pair],
    right: &mut [i128],
    number: u32,
) -> Result<(), SolveFault>
    requires ready { CanStep rows.now order.now }
    requires long { length right.old ≡ length order.now }
    requires few { length order.now ≤ 2 ^ 11 }
    ensures moves { MatchResult result (λ _. CanMove rows.now order.now right.old) (HasNoMoves rows.now order.now right.old number) }
    ensures changes { OnOk result (right.new ≡ changes rows.now order.now right.old) }
    ensures small { OnOk result (SizesWithin (2 ^ 86) right.new) }
{
    test_range(right, RIGHT_LIMIT, number)?;
    let moves = moves(alloc, rows, order, right, number)?;
    turn(right, &moves);
    Ok(())
}

/// Takes an update off the state that it led to, part by part.
pub fn take_back(x: &mut [i128], update: &[i128])
    requires long { length update.now ≡ length x.old }
    requires parts { SizesWithin (2 ^ 40) x.old }
    requires update { SizesWithin (2 ^ 86) update.now }
    ensures { (y : List ℤ) → length y ≡ length x.old → x.old ≡ moved y update.now → x.new ≡ y }
{
    for (k, part) in x.iter_mut().enumerate() {
        *part -= update[k];
    }
}
