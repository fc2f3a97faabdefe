// The start, the steps in order, and the point.
ghost use Rattle.std.specs.Prelude.{◌≡◌, ◌+◌, ◌<◌, ◌≤◌, ◌^◌, length, set, IfOk, IfErr, MatchResult, Ok, Err};
ghost use Rattle.std.specs.List.{fold};
ghost use Rattle.fd_equations.specs.fd_mat.Rows.{EntriesWithin};
ghost use Rattle.fd_equations.specs.fd_pattern.Conditions.{IsPoint};
ghost use Rattle.fd_equations.specs.Rounded.{jacobian_of, start_matrix_of};
ghost use Rattle.fd_inject.specs.Faults.{IsInside, UnlessMemory};
ghost use Rattle.fd_inject.specs.Procedure.{IsLimits, last_from, last_of, polished, solution_of, start_of, with_nominal};
ghost use Rattle.fd_inject.specs.Ranges.{inverse_at};

use crate::fault::SolveFault;
use crate::limits::Limits;
use crate::ranges::{inverse, test_range};
use crate::steps::{PART_LIMIT, iterate, step};
use crate::updates::update_for;
use fd_equations::{Dense, LoadAt, Network, Point};
use std::alloc::Global;

// An iterate and its number.
#[derive(Drop)]
struct Reached {
    number: u32,
    x: Vec<i128>,
}

// The inverse of the rounded Jacobian at a point.
fn inverse_there(alloc: Global, net: &Network, x: &[i128]) -> Result<Dense, SolveFault>
    requires { IsPoint net.now x.now }
    ensures inverse { MatchResult result (λ c. inverse_at (jacobian_of net.now x.now) ≡ Ok c)
        (λ f. UnlessMemory f (inverse_at (jacobian_of net.now x.now) ≡ Err f)) }
    ensures size { IfOk result (λ c. length c ≡ net.now.size) }
    ensures small { IfOk result (λ c. EntriesWithin c (2 ^ 56)) }
{
    let matrix = net.sparse_jacobian(alloc, x)?;
    inverse(alloc, &matrix)
}

/// Sets the magnitude of each load to the load's nominal voltage, in whole microvolts.
pub fn set_magnitudes(x: &mut [i128], loads: &[LoadAt])
    ensures { x.new ≡ fold with_nominal x.old loads.now }
{
    for load in loads {
        set_magnitude(x, load);
    }
}

// Sets the magnitude of a load to its nominal voltage.
fn set_magnitude(x: &mut [i128], load: &LoadAt)
    ensures { x.new ≡ with_nominal x.old load.now }
{
    match load.magnitude {
        Some(place) => put(x, place as usize, load.load.vn),
        None => {}
    }
}

// Writes a number at a place, if it is inside.
fn put(x: &mut [i128], place: usize, value: i128)
    ensures { x.new ≡ set x.old place value }
{
    if place < x.len() {
        x[place] = value;
    }
}

// The start.
fn start(alloc: Global, net: &Network, inverse: &Dense) -> Result<Vec<i128>, SolveFault>
    requires size { length inverse.now ≡ net.now.size }
    requires entries { EntriesWithin inverse.now (2 ^ 56) }
    ensures start { MatchResult result (λ x. start_of net.now inverse.now ≡ Ok x.items) (λ f. UnlessMemory f (start_of net.now inverse.now ≡ Err f)) }
    ensures point { IfOk result (λ x. IsPoint net.now x.items) }
{
    // read for its bound alone
    let _size = net.size();
    let constants = net.constants(alloc)?;
    let mut x = update_for(alloc, inverse, &constants, 0)?;
    set_magnitudes(&mut x, net.loads());
    test_range(&x, PART_LIMIT, 0)?;
    Ok(x)
}

// Takes steps until the iteration ends, and gives the number of the last iterate.
fn iterate_from(
    alloc: Global,
    net: &Network,
    limits: &Limits,
    inverse: &Dense,
    x: &mut [i128],
) -> Result<u32, SolveFault>
    requires limits { IsLimits limits.now }
    requires size { length inverse.now ≡ net.now.size }
    requires entries { EntriesWithin inverse.now (2 ^ 56) }
    requires point { IsPoint net.now x.old }
    ensures last { MatchResult result (λ number. last_from net.now limits.now inverse.now x.old ≡ Ok (number, x.new))
        (λ f. UnlessMemory f (last_from net.now limits.now inverse.now x.old ≡ Err f)) }
    ensures few { IfOk result (λ number. number ≤ 1000) }
    ensures point { IfOk result (λ _. IsPoint net.now x.new) }
{
    for number in 0..limits.max_iterations {
        let is_last = iterate(alloc, net, limits, inverse, x, number)?;
        if is_last {
            return Ok(number + 1);
        }
    }
    Ok(limits.max_iterations)
}

// The last iterate of the steps with the inverse of the start matrix.
fn last_iterate(
    alloc: Global,
    net: &Network,
    limits: &Limits,
    first: &Dense,
) -> Result<Reached, SolveFault>
    requires limits { IsLimits limits.now }
    requires inverse { inverse_at (start_matrix_of net.now) ≡ Ok first.now }
    requires size { length first.now ≡ net.now.size }
    requires entries { EntriesWithin first.now (2 ^ 56) }
    ensures last { MatchResult result (λ r. last_of net.now limits.now ≡ Ok (r.number, r.x.items)) (λ f. UnlessMemory f (last_of net.now limits.now ≡ Err f)) }
    ensures few { IfOk result (λ r. r.number ≤ 1000) }
    ensures point { IfOk result (λ r. IsPoint net.now r.x.items) }
{
    let mut x = start(alloc, net, first)?;
    let number = iterate_from(alloc, net, limits, first, &mut x)?;
    Ok(Reached { number, x })
}

// Takes two steps more from the iterate of this number.
fn polish(
    alloc: Global,
    net: &Network,
    inverse: &Dense,
    x: &mut [i128],
    number: u32,
) -> Result<(), SolveFault>
    requires size { length inverse.now ≡ net.now.size }
    requires entries { EntriesWithin inverse.now (2 ^ 56) }
    requires point { IsPoint net.now x.old }
    requires number { number ≤ 1000 }
    ensures polish { MatchResult result (λ _. polished net.now number x.old inverse.now ≡ Ok (x.new, inverse.now))
        (λ f. UnlessMemory f (polished net.now number x.old inverse.now ≡ Err f)) }
    ensures point { IfOk result (λ _. IsPoint net.now x.new) }
{
    step(alloc, net, inverse, x, number)?;
    step(alloc, net, inverse, x, number + 1)?;
    Ok(())
}

// The point that is reached with the inverse of the start matrix.
pub fn solve_from(
    alloc: Global,
    net: &Network,
    limits: &Limits,
    first: &Dense,
) -> Result<Point, SolveFault>
    requires limits { IsLimits limits.now }
    requires inverse { inverse_at (start_matrix_of net.now) ≡ Ok first.now }
    requires size { length first.now ≡ net.now.size }
    requires entries { EntriesWithin first.now (2 ^ 56) }
    ensures point { IfOk result (λ p. solution_of net.now limits.now ≡ Ok (p.x.items, p.inverse)) }
    ensures fault { IfErr result (λ f. UnlessMemory f (solution_of net.now limits.now ≡ Err f)) }
    ensures within { IfErr result (λ f. IsInside net.now.size f) }
    ensures parts { IfOk result (λ p. IsPoint net.now p.x.items) }
    ensures size { IfOk result (λ p. length p.inverse ≡ net.now.size) }
    ensures entries { IfOk result (λ p. EntriesWithin p.inverse (2 ^ 56)) }
{
    let last = last_iterate(alloc, net, limits, first)?;
    let number = last.number;
    let mut x = last.x;
    let inverse = inverse_there(alloc, net, &x)?;
    polish(alloc, net, &inverse, &mut x, number)?;
    Ok(Point { x, inverse })
}
