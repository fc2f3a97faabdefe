// One step of the procedure, and the end test.
ghost use Rattle.std.specs.Prelude.{◌≡◌, ◌+◌, ◌*◌, ◌<◌, ◌≤◌, ◌^◌, nat_abs, length, IfOk, IfSome, OnOk, MatchResult, Ok, Err, false};
ghost use Rattle.fd_equations.specs.fd_exact.States.{part};
ghost use Rattle.fd_equations.specs.fd_mat.Rows.{EntriesWithin};
ghost use Rattle.fd_equations.specs.fd_pattern.Conditions.{IsPoint};
ghost use Rattle.fd_inject.specs.Faults.{UnlessMemory};
ghost use Rattle.fd_inject.specs.Procedure.{IsLimits, first_moving, is_far, is_moving, next_iterate, stepped};
ghost use Rattle.fd_inject.specs.Ranges.{SizesWithin};
ghost use Rattle.fd_equations.specs.Rounded.{rounded_residual_of};
ghost use Rattle.fd_inject.specs.Updates.{update_for};

use crate::fault::SolveFault;
use crate::limits::Limits;
use crate::ranges::test_range;
use crate::updates::{add, update_for};
use fd_equations::{Dense, Network, PlaceKind};
use std::alloc::{AllocError, Global};

// The greatest size of a part of an iterate, 2^40.
pub const PART_LIMIT: u128 = 0x100_0000_0000;

// Takes the iterate of this number a step on, and gives its update.
pub fn step(
    alloc: Global,
    net: &Network,
    inverse: &Dense,
    x: &mut [i128],
    number: u32,
) -> Result<Vec<i128>, SolveFault>
    requires size { length inverse.now ≡ net.now.size }
    requires entries { EntriesWithin inverse.now (2 ^ 56) }
    requires point { IsPoint net.now x.old }
    requires number { number ≤ 1001 }
    ensures step { MatchResult result (λ update. stepped net.now inverse.now number x.old ≡ Ok (x.new, update.items))
        (λ f. UnlessMemory f (stepped net.now inverse.now number x.old ≡ Err f)) }
    ensures point { OnOk result (IsPoint net.now x.new) }
    ensures long { IfOk result (λ update. length update.items ≡ net.now.size) }
    ensures small { IfOk result (λ update. SizesWithin (2 ^ 86) update.items) }
{
    // read for its bound alone
    let _size = net.size();
    let update = update_there(alloc, net, inverse, x, number)?;
    add(x, &update);
    test_range(x, PART_LIMIT, number + 1)?;
    Ok(update)
}

// The update at the iterate of this number.
fn update_there(
    alloc: Global,
    net: &Network,
    inverse: &Dense,
    x: &[i128],
    number: u32,
) -> Result<Vec<i128>, SolveFault>
    requires size { length inverse.now ≡ net.now.size }
    requires entries { EntriesWithin inverse.now (2 ^ 56) }
    requires point { IsPoint net.now x.now }
    ensures update { MatchResult result
        (λ u. update_for inverse.now number (rounded_residual_of net.now x.now) ≡ Ok u.items)
        (λ f. UnlessMemory f (update_for inverse.now number (rounded_residual_of net.now x.now) ≡ Err f)) }
    ensures long { IfOk result (λ u. length u.items ≡ net.now.size) }
    ensures small { IfOk result (λ u. SizesWithin (2 ^ 86) u.items) }
{
    // read for its bound alone
    let _size = net.size();
    let residual = net.rounded_residual(alloc, x)?;
    let update = update_for(alloc, inverse, &residual, number)?;
    Ok(update)
}

// Whether an update of an unknown of this kind is more than the tolerance times its weight. The end test doesn't look at branches.
fn is_moving(kind: PlaceKind, tolerance: i128, weight: i128, update: i128) -> bool
    requires tolerance { nat_abs tolerance ≤ 10 ^ 8 }
    requires weight { nat_abs weight ≤ 2 ^ 66 }
    requires update { nat_abs update ≤ 2 ^ 86 }
    ensures { result ≡ is_moving kind tolerance weight update }
{
    match kind {
        PlaceKind::Branch => false,
        PlaceKind::Node | PlaceKind::Magnitude => is_far(tolerance, weight, update),
    }
}

// Whether an update is more than the tolerance times the weight.
fn is_far(tolerance: i128, weight: i128, update: i128) -> bool
    requires tolerance { nat_abs tolerance ≤ 10 ^ 8 }
    requires weight { nat_abs weight ≤ 2 ^ 66 }
    requires update { nat_abs update ≤ 2 ^ 86 }
    ensures { result ≡ is_far tolerance weight update }
{
    tolerance.unsigned_abs() * weight.unsigned_abs() < update.unsigned_abs() * 1_000_000_000
}

/// The first place of a node or a magnitude at which the update that led to the iterate x was more than the tolerance times the weight at
/// x, if there is one. State and update are in whole micro-units.
///
/// # Errors
/// `AllocError` where the memory for the weights is refused.
pub fn first_moving(
    alloc: Global,
    net: &Network,
    limits: &Limits,
    x: &[i128],
    update: &[i128],
) -> Result<Option<u32>, AllocError>
    requires limits { IsLimits limits.now }
    requires point { IsPoint net.now x.now }
    requires long { length update.now ≡ net.now.size }
    requires small { SizesWithin (2 ^ 86) update.now }
    ensures first { IfOk result (λ place. place ≡ first_moving net.now limits.now x.now update.now) }
    ensures inside { IfOk result (λ place. IfSome place (λ p. p < net.now.size)) }
{
    let weights = net.weights(alloc, x)?;
    for place in 0..net.size() {
        let at = place as usize;
        if is_moving(net.kind(place), limits.tolerance, weights[at], update[at]) {
            return Ok(Some(place));
        }
    }
    Ok(None)
}

// Takes the iterate of this number a step on, and tells whether the iteration ends with the next one.
pub fn iterate(
    alloc: Global,
    net: &Network,
    limits: &Limits,
    inverse: &Dense,
    x: &mut [i128],
    number: u32,
) -> Result<bool, SolveFault>
    requires limits { IsLimits limits.now }
    requires size { length inverse.now ≡ net.now.size }
    requires entries { EntriesWithin inverse.now (2 ^ 56) }
    requires point { IsPoint net.now x.old }
    requires number { number < limits.now.max_iterations }
    ensures next { MatchResult result (λ last. next_iterate net.now limits.now inverse.now number x.old
        ≡ Ok (record { number = number + 1; x = x.new; is_last = last }))
        (λ f. UnlessMemory f (next_iterate net.now limits.now inverse.now number x.old ≡ Err f)) }
    ensures point { OnOk result (IsPoint net.now x.new) }
{
    let update = step(alloc, net, inverse, x, number)?;
    let moving = first_moving(alloc, net, limits, x, &update)?;
    let steps = number + 1;
    match moving {
        None => Ok(true),
        Some(place) => {
            if steps < limits.max_iterations {
                Ok(false)
            } else {
                Err(SolveFault::NotConverged {
                    place,
                    steps,
                    update: update[place as usize],
                })
            }
        }
    }
}
