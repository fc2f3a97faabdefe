// Worked values, and the same elimination written plainly on a list of rows.

use crate::checks::{holds, same};
use fd_inverse::{Dense, InverseFault, SparseRows, Stop, invert, invert_rows};
use std::alloc::{AllocError, Global};
use std::process::Abort;

const ONE: i128 = 0x100_0000_0000;

const ENTRY_LIMIT: u128 = 0x4000_0000_0000_0000;

const INVERSE_LIMIT: u128 = 0x100_0000_0000_0000;

// n / d to the nearest, ties away from zero.
fn nearest(n: i128, d: i128) -> i128 {
    let by = d.unsigned_abs();
    let doubled = n.unsigned_abs().wrapping_mul(2).wrapping_add(by);
    let size = doubled.checked_div(by.wrapping_mul(2)).unwrap_or(0);
    let size = i128::try_from(size).unwrap_or(0);
    if (n < 0) == (d < 0) {
        size
    } else {
        size.wrapping_neg()
    }
}

fn at(row: &[i128], place: usize) -> i128 {
    row.get(place).copied().unwrap_or(0)
}

fn beside_unit(alloc: Global, n: usize, cells: &[i128]) -> Result<Vec<Vec<i128>>, AllocError> {
    let mut rows = Vec::new(alloc);
    for i in 0..n {
        let mut row = Vec::new(alloc);
        for k in 0..n {
            row.push(at(cells, i.wrapping_mul(n).wrapping_add(k)))?;
        }
        for k in 0..n {
            row.push(if k == i { ONE } else { 0 })?;
        }
        rows.push(row)?;
    }
    Ok(rows)
}

// The row of the greatest entry in a column that is not used, the lowest at ties, and its size.
fn pivot_of(rows: &[Vec<i128>], used: &[usize], column: usize) -> (usize, u128) {
    let mut best = (0, 0);
    for (i, row) in rows.iter().enumerate() {
        let size = at(row, column).unsigned_abs();
        if !used.contains(&i) && size > best.1 {
            best = (i, size);
        }
    }
    best
}

// Clears a row's entry in a column. False: a number passed the limit.
fn clear(row: &mut [i128], pivot: &[i128], column: usize) -> bool {
    let factor = nearest(at(row, column).wrapping_mul(ONE), at(pivot, column));
    let mut within = factor.unsigned_abs() <= ENTRY_LIMIT;
    for (k, entry) in row.iter_mut().enumerate() {
        let loss = nearest(factor.wrapping_mul(at(pivot, k)), ONE);
        *entry = if k == column {
            0
        } else {
            entry.wrapping_sub(loss)
        };
        within = within && entry.unsigned_abs() <= ENTRY_LIMIT;
    }
    within
}

// The inverse of the rows that lie one after another, row by row.
fn plain(alloc: Global, n: u32, cells: &[i128]) -> Result<Vec<i128>, InverseFault> {
    let mut rows = beside_unit(alloc, n as usize, cells)?;
    let mut used = Vec::new(alloc);
    for column in 0..n {
        let (best, size) = pivot_of(&rows, &used, column as usize);
        let pivot = match rows.get(best) {
            Some(row) if size >= 256 => row.clone()?,
            _ => return Err(no_inverse(column, Stop::Pivot)),
        };
        for (i, row) in rows.iter_mut().enumerate() {
            if i != best && !clear(row, &pivot, column as usize) {
                return Err(no_inverse(column, Stop::Range));
            }
        }
        used.push(best)?;
    }
    divided(alloc, n, &rows, &used)
}

fn no_inverse(column: u32, cause: Stop) -> InverseFault {
    InverseFault::NoInverse { column, cause }
}

// Each column's pivot row, its right half over the pivot.
fn divided(
    alloc: Global,
    n: u32,
    rows: &[Vec<i128>],
    pivots: &[usize],
) -> Result<Vec<i128>, InverseFault> {
    let mut inverse = Vec::new(alloc);
    for (column, place) in (0..n).zip(pivots) {
        match rows.get(*place) {
            Some(row) => add_divided(&mut inverse, row, column, n)?,
            None => return Err(no_inverse(column, Stop::Pivot)),
        }
    }
    Ok(inverse)
}

fn add_divided(
    inverse: &mut Vec<i128>,
    row: &[i128],
    column: u32,
    n: u32,
) -> Result<(), InverseFault> {
    let pivot = at(row, column as usize);
    for k in 0..n as usize {
        let right = at(row, k.wrapping_add(n as usize));
        let entry = nearest(right.wrapping_mul(ONE), pivot);
        if entry.unsigned_abs() > INVERSE_LIMIT {
            return Err(no_inverse(column, Stop::Range));
        }
        inverse.push(entry)?;
    }
    Ok(())
}

// The entries of the inverse of these rows, row by row.
fn inverse_cells(
    rt: &impl Abort,
    alloc: Global,
    n: u32,
    cells: &[i128],
) -> Result<Vec<i128>, InverseFault> {
    let mut a = Dense::zero(alloc, n)?;
    for row in 0..n {
        for col in 0..n {
            holds(rt, row < a.size() && col < a.size());
            let place = (row as usize).wrapping_mul(n as usize);
            let entry = at(cells, place.wrapping_add(col as usize));
            a.set(row, col, i64::try_from(entry).unwrap_or(0));
        }
    }
    holds(rt, a.first_column_past(ENTRY_LIMIT).is_none());
    let c = invert(alloc, a)?;
    Ok(all_cells(alloc, &c)?)
}

// The same by the rows' entries that aren't 0.
fn sparse_inverse_cells(
    rt: &impl Abort,
    alloc: Global,
    n: u32,
    cells: &[i128],
) -> Result<Vec<i128>, InverseFault> {
    let mut a = SparseRows::zero(alloc, n);
    for row in 0..n {
        for col in 0..n {
            holds(rt, row < a.size() && col < a.size());
            let place = (row as usize).wrapping_mul(n as usize);
            a.set(row, col, at(cells, place.wrapping_add(col as usize)))?;
        }
    }
    holds(rt, a.first_column_past(ENTRY_LIMIT).is_none());
    let c = invert_rows(alloc, &a)?;
    Ok(all_cells(alloc, &c)?)
}

// The entries of a matrix, row by row.
fn all_cells(alloc: Global, a: &Dense) -> Result<Vec<i128>, AllocError> {
    let mut cells = Vec::new(alloc);
    for row in 0..a.size() {
        for entry in a.row(row) {
            cells.push(i128::from(*entry))?;
        }
    }
    Ok(cells)
}

// Asserts the inverse of these rows by both calls, or why there is none.
fn check(
    rt: &impl Abort,
    alloc: Global,
    n: u32,
    cells: &[i128],
    due: Result<&[i128], InverseFault>,
) {
    for inverse in &[
        inverse_cells(rt, alloc, n, cells),
        sparse_inverse_cells(rt, alloc, n, cells),
    ] {
        let found = match inverse {
            Ok(cells) => Ok(cells.as_slice()),
            Err(fault) => Err(*fault),
        };
        same(rt, found, due);
    }
}

#[test]
fn inverts_the_worked_matrices(rt: HostRuntime) {
    let alloc = rt.alloc();
    check(&rt, alloc, 1, &[3 * ONE], Ok(&[366_503_875_925]));
    check(&rt, alloc, 1, &[255], Err(no_inverse(0, Stop::Pivot)));
    check(&rt, alloc, 1, &[0x100_0000], Ok(&[0x100_0000_0000_0000]));
    check(&rt, alloc, 1, &[0xff_ffff], Err(no_inverse(0, Stop::Range)));
    check(&rt, alloc, 2, &TRIANGLE, Ok(&INVERSE_OF_TRIANGLE));
}

#[rattlefmt::skip]
const TRIANGLE: [i128; 4] = [
    ONE, 0,
    ONE / 2, ONE,
];

#[rattlefmt::skip]
const INVERSE_OF_TRIANGLE: [i128; 4] = [
    ONE, 0,
    -ONE / 2, ONE,
];

// Its inverse was computed apart from this program, in exact whole numbers.
#[rattlefmt::skip]
const FULL: [i128; 9] = [
    3 * ONE + 1, ONE - 7, 2 * ONE + 5,
    ONE + 3, -4 * ONE, ONE + 11,
    2 * ONE - 13, ONE, 5 * ONE + 17,
];

#[rattlefmt::skip]
const INVERSE_OF_FULL: [i128; 9] = [
    481_036_337_151, 68_719_476_735, -206_158_430_207,
    68_719_476_736, -251_971_414_699, 22_906_492_246,
    -206_158_430_206, 22_906_492_246, 297_784_399_188,
];

// Three entries of the first column have the same size.
#[rattlefmt::skip]
const TIES: [i128; 16] = [
    -8 * ONE, 3 * ONE, ONE, 2 * ONE,
    8 * ONE, ONE, 0, 5 * ONE + 1,
    8 * ONE, -2 * ONE, 7 * ONE, ONE,
    0, 8 * ONE, 8 * ONE, -8 * ONE,
];

// The third row is the sum of the others.
#[rattlefmt::skip]
const DEPENDENT: [i128; 9] = [
    2 * ONE, ONE, 0,
    ONE, 3 * ONE, ONE,
    3 * ONE, 4 * ONE, ONE,
];

// The first row would lose the second 2^52 times.
#[rattlefmt::skip]
const LARGE_FACTOR: [i128; 9] = [
    ONE, 0x2000_0000_0000_0000, 0,
    0, 512, 0,
    0, 0, ONE,
];

// The second row loses 3/4 of 2^62 of the first: a product past 2^101.
#[rattlefmt::skip]
const LONG_PRODUCT: [i128; 4] = [
    ONE, 0x3000_0000_0000_0000,
    ONE, 0,
];

// An entry of the inverse is 2^57.
#[rattlefmt::skip]
const LARGE_INVERSE: [i128; 9] = [
    ONE, 0, 0,
    0, ONE, 0,
    0, 0, 0x80_0000,
];

const MATRICES: [(u32, &[i128]); 6] = [
    (3, &FULL),
    (4, &TIES),
    (3, &DEPENDENT),
    (3, &LARGE_FACTOR),
    (3, &LARGE_INVERSE),
    (2, &LONG_PRODUCT),
];

#[test]
fn agrees_with_the_plain_elimination(rt: HostRuntime) {
    let alloc = rt.alloc();
    for (n, cells) in &MATRICES {
        let inverse = inverse_cells(&rt, alloc, *n, cells);
        same(&rt, inverse, plain(alloc, *n, cells));
        let by_rows = sparse_inverse_cells(&rt, alloc, *n, cells);
        same(&rt, by_rows, plain(alloc, *n, cells));
    }
    check(&rt, alloc, 3, &FULL, Ok(&INVERSE_OF_FULL));
    check(&rt, alloc, 3, &DEPENDENT, Err(no_inverse(2, Stop::Pivot)));
    check(
        &rt,
        alloc,
        3,
        &LARGE_FACTOR,
        Err(no_inverse(1, Stop::Range)),
    );
    check(
        &rt,
        alloc,
        3,
        &LARGE_INVERSE,
        Err(no_inverse(2, Stop::Range)),
    );
}
