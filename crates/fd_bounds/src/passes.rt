// One pass after another.
ghost use Rattle.std.specs.Prelude.{◌≡◌, ◌<◌, None, length, IfOk, MatchResult};
ghost use Rattle.fd_substitution.specs.fd_derived.Rows.{number_at};
ghost use Rattle.fd_bounds.specs.Defects.{AreDefects};
ghost use Rattle.fd_bounds.specs.Passes.{IsEnd, IsPass, pass_end};
ghost use Rattle.fd_bounds.specs.Results.{AreBounding, AreFirst, AreOfFirst, HasEnded, HasNoPass, MakesClaim};
ghost use Rattle.fd_bounds.specs.Rows.{AreInOrder};

use crate::defects::{Defects, defects_of, row_past};
use crate::fault::BoundFault;
use crate::heights::heights_over;
use crate::rising::{first_risen, raised};
use crate::widths::{unknown_of, widths};
use fd_substitution::{Equation, Row};
use std::alloc::{AllocError, Global};

/// What bounds the unknowns of derived rows: a height for each row; for each unknown the row that bounds it, and its
/// bound. Bounds are in the unit of the equations' right sides, heights in 2^-40 of it.
#[derive(Debug, Drop)]
pub struct Bounds {
    pub heights: Vec<u128>,
    pub bounding: Vec<usize>,
    pub bounds: Vec<u128>,
}

// The heights of a pass, and its new bounds.
#[derive(Drop)]
pub struct Pass {
    pub heights: Vec<u128>,
    pub bounds: Vec<u128>,
}

// One pass over these bounds.
fn one_pass(
    alloc: Global,
    equations: &[Equation],
    rows: &[Row],
    defects: &[Defects],
    over: &[u128],
) -> Result<Pass, BoundFault>
    requires order { AreInOrder equations.now rows.now }
    requires defects { AreDefects equations.now rows.now (length rows.now) defects.now }
    requires over { length over.now ≡ length equations.now }
    ensures { MatchResult result (λ pass. IsPass equations.now rows.now (number_at over.now) pass.heights.items pass.bounds.items)
        (λ fault. IsEnd fault (pass_end equations.now rows.now (number_at over.now))) }
{
    let heights = match heights_over(alloc, equations, rows, defects, over) {
        Ok(heights) => heights,
        Err(fault) => return Err(fault),
    };
    match widths(alloc, equations, rows, &heights) {
        Ok(bounds) => Ok(Pass { heights, bounds }),
        Err(fault) => Err(fault),
    }
}

// The most passes that are made.
const PASSES: usize = 64;

// The first pass that stands.
fn first_pass(
    alloc: Global,
    equations: &[Equation],
    rows: &[Row],
    defects: &[Defects],
) -> Result<Pass, BoundFault>
    requires order { AreInOrder equations.now rows.now }
    requires defects { AreDefects equations.now rows.now (length rows.now) defects.now }
    ensures { MatchResult result (λ pass. AreOfFirst equations.now rows.now pass.heights.items pass.bounds.items)
        (HasNoPass equations.now rows.now) }
{
    let mut bounds = vec![in alloc; 0u128; equations.len()]?;
    let mut unknown = 0;
    for turn in 0..PASSES {
        let over = raised(alloc, &bounds)?;
        let pass = match one_pass(alloc, equations, rows, defects, &over) {
            Ok(pass) => pass,
            Err(fault) => return Err(fault),
        };
        match first_risen(&pass.bounds, &over) {
            Some(risen) => unknown = risen,
            None => return Ok(pass),
        }
        bounds = pass.bounds;
    }
    Err(BoundFault::Unbounded(unknown))
}

// For each unknown the row that has its pivot.
fn bounding_rows(
    alloc: Global,
    equations: &[Equation],
    rows: &[Row],
) -> Result<Vec<usize>, AllocError>
    requires { AreInOrder equations.now rows.now }
    ensures { IfOk result (λ list. AreBounding equations.now rows.now list.items) }
{
    let mut list = vec![in alloc; 0; equations.len()]?;
    for row in 0..rows.len() {
        list[unknown_of(rows, row)] = row;
    }
    Ok(list)
}

/// Heights and bounds of rows in the order of an elimination, those of the first of at most 64 passes that stands: with
/// the rows they are a claim that the checker accepts.
///
/// There are as many rows as equations and unknowns. A pass is over the bounds of the one before, at first 0, each raised
/// by a part in 2^20, rounded down, and by one: it takes heights from them, from the first row to the last, and new bounds
/// from the heights, from the last row to the first, each number the least that stands above its sum. It stands where
/// no new bound is above the raised one.
///
/// # Errors
/// `Unbounded` with the unknown of the first row of which the sizes of all that makes its defects add up to more than
/// 2^120; else with the unknown of the row at which a sum of a pass is 2^127 or more, or its bound past 2^60; else with
/// the first unknown whose bound is above the raised one in the 64th pass. `NoMemory` where memory is refused.
pub fn bound_rows(alloc: Global, equations: &[Equation], rows: &[Row]) -> Result<Bounds, BoundFault>
    requires { AreInOrder equations.now rows.now }
    ensures exact { MatchResult result (AreFirst equations.now rows.now) (HasEnded equations.now rows.now) }
    ensures accepted { IfOk result (MakesClaim equations.now rows.now) }
{
    if let Some(row) = row_past(alloc, equations, rows)? {
        return Err(BoundFault::Unbounded(unknown_of(rows, row)));
    }
    let defects = defects_of(alloc, equations, rows)?;
    let bounding = bounding_rows(alloc, equations, rows)?;
    match first_pass(alloc, equations, rows, &defects) {
        Ok(pass) => Ok(Bounds {
            heights: pass.heights,
            bounding,
            bounds: pass.bounds,
        }),
        Err(fault) => Err(fault),
    }
}
