// Whether each unknown and each equation has one pair.
ghost use Rattle.std.specs.Prelude.{◌≡◌, map, set, true, slice_get, IfOk};
ghost use Rattle.fd_levels.specs.Order.{are_once, is_paired};
ghost use Rattle.fd_levels.specs.Once.{is_free};

use fd_triangles::Pair;
use std::alloc::{AllocError, Global};

// A place is taken; whether it is within the table and was free.
fn take(taken: &mut [bool], place: usize) -> bool
    ensures free { result ≡ is_free (slice_get taken.old place) }
    ensures taken { taken.new ≡ set taken.old place true }
{
    if place >= taken.len() {
        return false;
    }
    let free = !taken[place];
    taken[place] = true;
    free
}

fn are_unknowns_once(alloc: Global, size: usize, pairs: &[Pair]) -> Result<bool, AllocError>
    ensures { IfOk result (λ once. once ≡ are_once size (map (λ p. p.unknown) pairs.now)) }
{
    let mut taken = Vec::from_elem(alloc, false, size)?;
    for pair in pairs {
        if !take(&mut taken, pair.unknown) {
            return Ok(false);
        }
    }
    Ok(true)
}

fn are_equations_once(alloc: Global, size: usize, pairs: &[Pair]) -> Result<bool, AllocError>
    ensures { IfOk result (λ once. once ≡ are_once size (map (λ p. p.equation) pairs.now)) }
{
    let mut taken = Vec::from_elem(alloc, false, size)?;
    for pair in pairs {
        if !take(&mut taken, pair.equation) {
            return Ok(false);
        }
    }
    Ok(true)
}

/// Whether there are so many pairs, and each unknown and each equation below that size has one.
pub fn is_paired(alloc: Global, size: usize, pairs: &[Pair]) -> Result<bool, AllocError>
    ensures { IfOk result (λ paired. paired ≡ is_paired size pairs.now) }
{
    if pairs.len() != size {
        return Ok(false);
    }
    Ok(are_unknowns_once(alloc, size, pairs)? && are_equations_once(alloc, size, pairs)?)
}
