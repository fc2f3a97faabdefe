// One step, and the start.
ghost use Rattle.std.specs.Prelude.{◌≡◌, ◌+◌, ◌<◌, ◌≤◌, ◌^◌, length, IfOk, OnOk, MatchResult};
ghost use Rattle.fd_inject.specs.Ranges.{SizesWithin};
ghost use Rattle.fd_inject.specs.fd_equations.fd_pattern.Conditions.{IsPoint};
ghost use Rattle.fd_substitution.specs.Substitution.{CanStep};
ghost use Rattle.fd_inject.specs.fd_equations.Rounded.{rounded_residual_of};
ghost use Rattle.fd_search.specs.Moves.{CanMove, HasNoMoves};
ghost use Rattle.fd_search.specs.Stages.{IsStepped};
ghost use Rattle.fd_search.specs.States.{HasNoStart, HasNoStep, HasStart, first_state, update_at};

use crate::updates;
use fd_inject::{NetworkRows, SolveFault, add, set_magnitudes, test_range};
use fd_substitution::{Pair, Row};
use std::alloc::Global;

// The greatest size of a part of a state, 2^40.
const PART_LIMIT: u128 = 0x100_0000_0000;

/// The start: what a step makes of the constants and a state of zeros, with each magnitude at its load's nominal voltage.
/// It is in whole microvolts and microamperes, by place.
///
/// # Errors
/// `OutOfRange` at step 0: the first row whose constants are past 2^42 in size; the unknown of the first place of the order
/// with a number past 2^62 or a sum past 2^120; the first place at which the start is past 2^40. `NoMemory` where memory is
/// refused.
pub fn start(
    alloc: Global,
    net: &NetworkRows,
    rows: &[Row],
    order: &[Pair],
) -> Result<Vec<i128>, SolveFault>
    requires ready { CanStep rows.now order.now }
    requires long { length order.now ≡ net.now.size }
    ensures start { MatchResult result (λ _. HasStart net.now order.now rows.now) (HasNoStart net.now order.now rows.now) }
    ensures state { IfOk result (λ x. x.items ≡ first_state net.now order.now rows.now) }
    ensures point { IfOk result (λ x. IsPoint net.now x.items) }
{
    // read for its bound alone
    let _size = net.size();
    let mut x = net.constants(alloc)?;
    updates::update(alloc, rows, order, &mut x, 0)?;
    set_magnitudes(&mut x, net.loads());
    test_range(&x, PART_LIMIT, 0)?;
    Ok(x)
}

// How much a step from a state behind so many others changes each unknown.
fn update_there(
    alloc: Global,
    net: &NetworkRows,
    rows: &[Row],
    order: &[Pair],
    x: &[i128],
    number: u32,
) -> Result<Vec<i128>, SolveFault>
    requires ready { CanStep rows.now order.now }
    requires long { length order.now ≡ net.now.size }
    requires point { IsPoint net.now x.now }
    ensures update { MatchResult result (λ _. CanMove rows.now order.now (rounded_residual_of net.now x.now))
        (HasNoMoves rows.now order.now (rounded_residual_of net.now x.now) number) }
    ensures is { IfOk result (λ update. update.items ≡ update_at net.now order.now rows.now x.now) }
    ensures small { IfOk result (λ update. SizesWithin (2 ^ 86) update.items) }
{
    // read for its bound alone
    let _size = net.size();
    let mut change = net.rounded_residual(alloc, x)?;
    updates::update(alloc, rows, order, &mut change, number)?;
    Ok(change)
}

/// Takes a step from a state behind so many others, and gives how much it changed each unknown.
///
/// # Errors
/// `OutOfRange`, with the number of steps that are done, as of `fall`. `NoMemory` where memory is refused.
pub fn step(
    alloc: Global,
    net: &NetworkRows,
    rows: &[Row],
    order: &[Pair],
    x: &mut [i128],
    number: u32,
) -> Result<Vec<i128>, SolveFault>
    requires ready { CanStep rows.now order.now }
    requires long { length order.now ≡ net.now.size }
    requires point { IsPoint net.now x.old }
    requires number { number ≤ 1016 }
    ensures step { MatchResult result (λ update. IsStepped net.now order.now rows.now x.old x.new update.items)
        (HasNoStep net.now order.now rows.now x.old number) }
    ensures point { OnOk result (IsPoint net.now x.new) }
    ensures long { IfOk result (λ update. length update.items ≡ net.now.size) }
    ensures small { IfOk result (λ update. SizesWithin (2 ^ 86) update.items) }
{
    // read for its bound alone
    let _size = net.size();
    let update = update_there(alloc, net, rows, order, x, number)?;
    add(x, &update);
    test_range(x, PART_LIMIT, number + 1)?;
    Ok(update)
}
