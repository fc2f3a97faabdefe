// Steps with rows of two places. The first eliminates the second unknown by the first equation, the second the first unknown
// by the second equation. The moves are those of the exact model.
ghost use Rattle.std.specs.Prelude.{◌≡◌, ℤ, ◌<◌, ◌≤◌, ◌^◌, [], nat_abs, IfOk};
ghost use Rattle.fd_base_tests.specs.Crossed.{crossed};
ghost use Rattle.fd_bounds.specs.fd_substitution.Substitution.{CanStep};
ghost use Rattle.fd_bounds.specs.fd_triangles.Steps.{parts_of};

use crate::checks::same;
use fd_bounds::{Entry, Pair, Row, StepFault, step};
use std::alloc::{AllocError, Global};

const ONE: i64 = 0x100_0000_0000;

// The greatest right side, 2^42: as the number of a place it is 2^62.
const MOST: i128 = 0x400_0000_0000;

// 2^62.
const LARGE: i64 = 0x4000_0000_0000_0000;

fn at(place: usize, units: i64) -> Entry
    ensures { result ≡ record { place = place; units = units } }
{
    Entry { place, units }
}

fn row(alloc: Global, others: &[Entry], left: &[Entry]) -> Result<Row, AllocError>
    ensures { IfOk result (λ row. parts_of row ≡ record { equations = []; others = others.now; left = left.now }) }
{
    Ok(Row {
        equations: Vec::new(alloc),
        others: Vec::from_slice(alloc, others)?,
        left: Vec::from_slice(alloc, left)?,
    })
}

// The first row leaves its pivot and an entry beside it. The second loses a multiple of the first, and leaves its pivot.
fn two_rows(
    alloc: Global,
    first: i64,
    second: i64,
    beside: i64,
    multiple: i64,
) -> Result<Vec<Row>, AllocError>
    requires first { 0 < nat_abs first }
    requires second { 0 < nat_abs second }
    ensures { IfOk result (λ rows. CanStep rows.items crossed) }
{
    let left = [at(1, first), at(0, beside)];
    let mut rows = Vec::new(alloc);
    rows.push(row(alloc, &[], &left)?)?;
    rows.push(row(alloc, &[at(0, multiple)], &[at(0, second)])?)?;
    Ok(rows)
}

// How the first unknown moves, and how the second does.
fn found(
    alloc: Global,
    first: i64,
    second: i64,
    beside: i64,
    multiple: i64,
    right: (i128, i128),
) -> Result<(Option<i64>, Option<i64>), StepFault>
    requires first { 0 < nat_abs first }
    requires second { 0 < nat_abs second }
    requires small { nat_abs right.0 ≤ 2 ^ 42 }
    requires also_small { nat_abs right.1 ≤ 2 ^ 42 }
{
    let order = [
        Pair {
            unknown: 1,
            equation: 0,
        },
        Pair {
            unknown: 0,
            equation: 1,
        },
    ];
    let rows = two_rows(alloc, first, second, beside, multiple)?;
    let sides = [right.0, right.1];
    let moves = step(alloc, &rows, &order, &sides)?;
    Ok((moves.first().copied(), moves.get(1).copied()))
}

#[test]
fn unknowns_move(rt: HostRuntime) {
    let alloc = rt.alloc();
    let moved = found(
        alloc,
        ONE,
        -20 * ONE,
        3 * ONE,
        7 * ONE,
        (5_000_003, -4_000_001),
    );
    same(&rt, moved, Ok((Some(1_950_001), Some(-850_000))));
    let halves = found(alloc, -2 * ONE, 2 * ONE, 0, 0, (1, -3));
    same(&rt, halves, Ok((Some(-2), Some(-1))));
}

#[test]
fn numbers_of_places_are_past_their_range(rt: HostRuntime) {
    let alloc = rt.alloc();
    let number = found(alloc, ONE, ONE, 0, 2 * ONE, (MOST, 0));
    same(&rt, number, Err(StepFault::Range(0)));
    let sum = found(alloc, ONE, ONE, 0, LARGE, (MOST, 0));
    same(&rt, sum, Err(StepFault::Range(0)));
}

#[test]
fn numbers_of_unknowns_are_past_their_range(rt: HostRuntime) {
    let alloc = rt.alloc();
    let number = found(alloc, 0x100, ONE, 0, 0, (MOST, 0));
    same(&rt, number, Err(StepFault::Range(1)));
    let sum = found(alloc, 0x4_0000_0000_0000, ONE, LARGE, 0, (1, MOST));
    same(&rt, sum, Err(StepFault::Range(1)));
}
