// A claim of three unknowns, whose rows are an elimination, and one that is refused by each rule. The equations are
// 4 x + y, 8 x + 6 y + z, which may be off by |y|, and x + 8 y + 7 z, each at most 10.

use crate::checks::same;
use fd_bounds::{Claim, Entry, Equation, Refusal, Row, check};
use std::alloc::{AllocError, Global};

const ONE: i64 = 0x100_0000_0000;

// 11, 53 and 125 in units of 2^-40, the heights of the three rows.
const HEIGHTS: [u128; 3] = [0xb00_0000_0000, 0x3500_0000_0000, 0x7d00_0000_0000];

const BOUNDS: [u128; 3] = [8, 20, 26];

const BOUNDING: [usize; 3] = [0, 1, 2];

fn at(place: usize, number: i64) -> Entry {
    Entry {
        place,
        units: number.wrapping_mul(ONE),
    }
}

fn equation(
    alloc: Global,
    coefficients: &[Entry],
    radii: &[Entry],
) -> Result<Equation, AllocError> {
    Ok(Equation {
        coefficients: Vec::from_slice(alloc, coefficients)?,
        radii: Vec::from_slice(alloc, radii)?,
        right_side: 10,
    })
}

fn row(
    alloc: Global,
    equations: &[Entry],
    others: &[Entry],
    left: &[Entry],
) -> Result<Row, AllocError> {
    Ok(Row {
        equations: Vec::from_slice(alloc, equations)?,
        others: Vec::from_slice(alloc, others)?,
        left: Vec::from_slice(alloc, left)?,
    })
}

fn three_equations(alloc: Global) -> Result<Vec<Equation>, AllocError> {
    let mut equations = Vec::with_capacity(alloc, 3)?;
    equations.push(equation(alloc, &[at(0, 4), at(1, 1)], &[])?)?;
    equations.push(equation(alloc, &[at(0, 8), at(1, 6), at(2, 1)], &[at(1, 1)])?)?;
    equations.push(equation(alloc, &[at(0, 1), at(1, 8), at(2, 7)], &[])?)?;
    Ok(equations)
}

// What the checker says of the elimination, where the second row is made of these equations, with these heights and bounds.
fn found(
    alloc: Global,
    second: &[Entry],
    heights: &[u128],
    bounding: &[usize],
    bounds: &[u128],
) -> Result<Option<Refusal>, AllocError> {
    let equations = three_equations(alloc)?;
    let mut rows = Vec::with_capacity(alloc, 3)?;
    rows.push(row(alloc, &[at(0, 1)], &[], &[at(0, 4), at(1, 1)])?)?;
    rows.push(row(alloc, second, &[at(0, 2)], &[at(1, 4), at(2, 1)])?)?;
    rows.push(row(alloc, &[at(2, 1)], &[at(1, 2)], &[at(2, 5)])?)?;
    let claim = Claim {
        rows,
        heights: Vec::from_slice(alloc, heights)?,
        bounding: Vec::from_slice(alloc, bounding)?,
        bounds: Vec::from_slice(alloc, bounds)?,
    };
    check(alloc, &equations, &claim)
}

// What the checker says of one unknown, with one row that leaves it as it is.
fn found_of_one(alloc: Global, bound: u128) -> Result<Option<Refusal>, AllocError> {
    let mut equations = Vec::with_capacity(alloc, 1)?;
    equations.push(equation(alloc, &[at(0, 1)], &[])?)?;
    let mut rows = Vec::with_capacity(alloc, 1)?;
    rows.push(row(alloc, &[at(0, 1)], &[], &[at(0, 1)])?)?;
    let claim = Claim {
        rows,
        heights: Vec::from_slice(alloc, &[0xb00_0000_0000])?,
        bounding: Vec::from_slice(alloc, &[0])?,
        bounds: Vec::from_slice(alloc, &[bound])?,
    };
    check(alloc, &equations, &claim)
}

#[test]
fn an_elimination_is_accepted(rt: HostRuntime) {
    let alloc = rt.alloc();
    let whole = found(alloc, &[at(1, 1)], &HEIGHTS, &BOUNDING, &BOUNDS);
    same(&rt, whole.ok(), Some(None));
    same(&rt, found_of_one(alloc, 12).ok(), Some(None));
}

#[test]
fn rows_are_refused(rt: HostRuntime) {
    let alloc = rt.alloc();
    let sized = found(alloc, &[at(1, 1)], &HEIGHTS[..2], &BOUNDING, &BOUNDS);
    same(&rt, sized.ok(), Some(Some(Refusal::Size)));
    let past = found(alloc, &[at(3, 1)], &HEIGHTS, &BOUNDING, &BOUNDS);
    same(&rt, past.ok(), Some(Some(Refusal::Place(1))));
    let twice = found(alloc, &[at(1, 1), at(1, 0)], &HEIGHTS, &BOUNDING, &BOUNDS);
    same(&rt, twice.ok(), Some(Some(Refusal::Place(1))));
    let high = [HEIGHTS[0], 0x80_0000_0000_0000_0000_0001, HEIGHTS[2]];
    let ranged = found(alloc, &[at(1, 1)], &high, &BOUNDING, &BOUNDS);
    same(&rt, ranged.ok(), Some(Some(Refusal::Range(1))));
    let low = [HEIGHTS[0], HEIGHTS[1], 0x7c00_0000_0000];
    let reached = found(alloc, &[at(1, 1)], &low, &BOUNDING, &BOUNDS);
    same(&rt, reached.ok(), Some(Some(Refusal::Height(2))));
}

#[test]
fn unknowns_are_refused(rt: HostRuntime) {
    let alloc = rt.alloc();
    let narrow = found(alloc, &[at(1, 1)], &HEIGHTS, &BOUNDING, &[8, 19, 26]);
    same(&rt, narrow.ok(), Some(Some(Refusal::Bound(1))));
    let elsewhere = found(alloc, &[at(1, 1)], &HEIGHTS, &[0, 1, 1], &BOUNDS);
    same(&rt, elsewhere.ok(), Some(Some(Refusal::Bound(2))));
    let none = found(alloc, &[at(1, 1)], &HEIGHTS, &[0, 1, 3], &BOUNDS);
    same(&rt, none.ok(), Some(Some(Refusal::Bound(2))));
    let past = found_of_one(alloc, 0x1000_0000_0000_0001);
    same(&rt, past.ok(), Some(Some(Refusal::BoundRange(0))));
}
