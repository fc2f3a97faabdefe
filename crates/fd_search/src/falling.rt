// Steps as long as the sum of all mismatches falls.
ghost use Rattle.std.specs.Prelude.{◌≡◌, ◌+◌, ◌<◌, ◌≤◌, ℕ, length, IfOk, OnOk, MatchResult};
ghost use Rattle.fd_cert.specs.fd_enclosure.Sound.{mismatches_of};
ghost use Rattle.fd_inject.specs.fd_equations.fd_pattern.Conditions.{IsPoint};
ghost use Rattle.fd_substitution.specs.Substitution.{CanStep};
ghost use Rattle.fd_search.specs.Stages.{IsTried};
ghost use Rattle.fd_search.specs.States.{FallFor, HasNoFall, HasNoStep, state_after};

use crate::steps::step;
use crate::totals::falls;
use crate::updates::take_back;
use fd_cert::row_mismatches;
use fd_inject::{NetworkRows, SolveFault};
use fd_substitution::{Pair, Row};
use std::alloc::Global;

// The greatest number of steps.
const MOST_STEPS: u32 = 16;

// Takes a step from a state with these mismatches behind so many others, and keeps it where their sum falls.
fn try_step(
    alloc: Global,
    net: &NetworkRows,
    rows: &[Row],
    order: &[Pair],
    x: &mut [i128],
    mismatches: &mut Vec<u128>,
    number: u32,
) -> Result<bool, SolveFault>
    requires ready { CanStep rows.now order.now }
    requires long { length order.now ≡ net.now.size }
    requires point { IsPoint net.now x.old }
    requires mismatches { mismatches.old.items ≡ mismatches_of net.now x.old }
    requires number { number ≤ 1016 }
    ensures tried { MatchResult result (IsTried net.now order.now rows.now x.old x.new mismatches.old.items mismatches.new.items)
        (HasNoStep net.now order.now rows.now x.old number) }
    ensures point { OnOk result (IsPoint net.now x.new) }
{
    let update = step(alloc, net, rows, order, x, number)?;
    let new = row_mismatches(alloc, net, x)?;
    if falls(mismatches, &new) {
        *mismatches = new;
        Ok(true)
    } else {
        take_back(x, &update);
        Ok(false)
    }
}

/// Takes steps from a state behind so many others as long as the sum of all mismatches falls, at most 16, and gives the
/// mismatches of the last state with which it fell, which `x` is then. States are in whole microvolts and microamperes.
///
/// # Errors
/// `OutOfRange`, with the number of steps that are done: the first place at which a residual is past 2^42 in size; the
/// unknown of the first place of the order with a number past 2^62 or a sum past 2^120; the first place at which a state is
/// past 2^40. `NoMemory` where memory is refused.
pub fn fall(
    alloc: Global,
    net: &NetworkRows,
    rows: &[Row],
    order: &[Pair],
    x: &mut [i128],
    number: u32,
) -> Result<Vec<u128>, SolveFault>
    requires ready { CanStep rows.now order.now }
    requires long { length order.now ≡ net.now.size }
    requires point { IsPoint net.now x.old }
    requires number { number ≤ 1000 }
    ensures fall { MatchResult result (λ _. (more : ℕ) × FallFor net.now order.now rows.now x.old more
        × (x.new ≡ state_after net.now order.now rows.now x.old more)) (HasNoFall net.now order.now rows.now x.old number) }
    ensures mismatches { IfOk result (λ m. m.items ≡ mismatches_of net.now x.new) }
    ensures point { OnOk result (IsPoint net.now x.new) }
{
    let mut mismatches = row_mismatches(alloc, net, x)?;
    for more in 0..MOST_STEPS {
        let kept = try_step(alloc, net, rows, order, x, &mut mismatches, number + more)?;
        if !kept {
            return Ok(mismatches);
        }
    }
    Ok(mismatches)
}
