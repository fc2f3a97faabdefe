// How far the inverse times the Jacobian may be from the unit matrix, anywhere in the box.
//
// A bound is a double sum over columns and rows. What the radii add to it is summed by rows first: the radii of a row
// by weight are made once for all rows of the inverse, and a row of the inverse meets each of these once. No summand is
// negative, so no part of the sum passes 2^120 unless the whole does, and the order of summing changes neither the
// bound nor where there is none.
//
// Where the Jacobian's entries are short, two rows of the inverse meet them at once, and an entry is read once for both.
ghost use Rattle.std.specs.Prelude.{◌≡◌, ℕ, ◌+◌, ◌*◌, ◌<◌, ◌≤◌, ◌^◌, ℤ, pos, ◌≤ℤ◌, ◌-ℤ◌, nat_abs, set, IfOk, IfSome, length, Some, []};
ghost use Rattle.fd_enclosure.specs.fd_exact.States.{entry, part};
ghost use Rattle.fd_enclosure.specs.fd_exact.Sums.{list_n};
ghost use Rattle.fd_enclosure.specs.fd_arith.Limits.{within};
ghost use Rattle.fd_enclosure.specs.fd_arith.Wide.{wide_quotient};
ghost use Rattle.fd_enclosure.specs.fd_equations.Rounded.{list_of};
ghost use Rattle.fd_enclosure.specs.Bounds.{bound_at};
ghost use Rattle.fd_enclosure.specs.Sound.{number_at};
ghost use Rattle.fd_enclosure.specs.fd_mat.Rows.{EntriesWithin};
ghost use Rattle.fd_cert.specs.Slopes.{AreSlopes, HasRadii, HasSlopes};
ghost use Rattle.fd_cert.specs.Entries.{IsFlatOf};
ghost use Rattle.fd_cert.specs.Columns.{AreColumns, AreUnits, HasEntries, HasWeights, IsMade, IsRowOfInverse, column_sum};
ghost use Rattle.fd_cert.specs.Parts.{AreHigh, AreLow, AreParts, high_sum};
ghost use Rattle.fd_cert.specs.Totals.{AreShortWeights, AreWeighted, IsTotal, IsUpTo, short_total, sizes_total, weighted_total};

use crate::flat::{Entry, add_entries_of_two};
use crate::parted::{High, Parted, high_total};
use crate::sums::{Walk, clear};
use crate::totals::{
    PAST, plus_entry, plus_low, plus_product, plus_short, short_size, short_weight, up_to_limit,
};
use fd_enclosure::{Cell, Dense, Matrix, Wide};
use std::alloc::{AllocError, Global};

// One in units of 2^-80, and the units of a weight over which a bound is taken.
const ONE: i128 = 0x1_0000_0000_0000_0000_0000;

const BOUND_UNITS: i128 = 0x100_0000_0000;

// 2^60, and how often it may stand in a total, 2^60 times.
const UNIT: u128 = 0x1000_0000_0000_0000;

// The weights in 64 bits, if all are short.
pub fn short_weights(alloc: Global, weights: &[i128]) -> Result<Option<Vec<u64>>, AllocError>
    ensures { IfOk result (λ o. IfSome o (λ shorts. AreShortWeights weights.now shorts.items)) }
{
    let mut shorts = Vec::with_capacity(alloc, weights.len())?;
    for weight in weights {
        let Some(short) = short_weight(*weight) else {
            return Ok(None);
        };
        shorts.push(short)?;
    }
    Ok(Some(shorts))
}

// Takes a row of the unit matrix off the sums of its columns.
fn take_unit(sums: &mut [i128], row: usize)
    requires row { row < length sums.old }
    requires units { AreUnits sums.old }
    ensures { sums.new ≡ set sums.old row (part sums.old row -ℤ pos (2 ^ 80)) }
{
    sums[row] -= ONE;
}

// The sizes of numbers, each times its weight, added up; none where that passes 2^120.
fn sizes_by_weight(numbers: &[i128], weights: &[i128]) -> Option<u128>
    requires weights { length weights.now ≡ length numbers.now }
    ensures { IsTotal (weighted_total (length numbers.now) weights.now numbers.now) result }
{
    let mut total = 0;
    for col in 0..numbers.len() {
        let weight = weights[col].unsigned_abs();
        match plus_product(total, weight, numbers[col].unsigned_abs()) {
            Some(next) => total = next,
            None => return None,
        }
    }
    Some(total)
}

// The total with the sizes of the entries of a row of the inverse more, each times a number.
//
// Never inlined: beside the other loops of a row LLVM would keep its places in memory.
#[inline(never)]
fn plus_sizes(total: u128, factors: &[i64], numbers: &[u128]) -> Option<u128>
    requires total { total ≤ 2 ^ 120 }
    requires factors { IsRowOfInverse (length numbers.now) factors.now }
    ensures { IsTotal (total + sizes_total (length numbers.now) factors.now numbers.now) result }
{
    let mut sum = total;
    for row in 0..numbers.len() {
        match plus_entry(sum, factors[row], numbers[row]) {
            Some(next) => sum = next,
            None => return None,
        }
    }
    Some(sum)
}

// The sizes of numbers, each times its weight, and the sizes of the entries of a row of the inverse, each times a
// radius, added up in one walk, where the weights are short and the radii are given in two parts. None where a number
// has more than 64 bits, or where the second sum is far past 2^120.
//
// Never inlined, for the same reason.
#[inline(never)]
fn short_row_total(
    numbers: &[i128],
    shorts: &[u64],
    factors: &[i64],
    lows: &[u64],
    highs: &[High],
) -> Option<u128>
    requires few { length numbers.now ≤ 2 ^ 11 }
    requires shorts { length shorts.now ≡ length numbers.now }
    requires small { (j : ℕ) → j < length numbers.now → number_at shorts.now j ≤ 2 ^ 40 }
    requires lows { length lows.now ≡ length numbers.now }
    requires low { AreLow (length numbers.now) lows.now }
    requires highs { AreHigh (length numbers.now) highs.now }
    requires factors { IsRowOfInverse (length numbers.now) factors.now }
    ensures { IfSome result (λ t. t ≡ short_total (length numbers.now) shorts.now numbers.now
        + (sizes_total (length numbers.now) factors.now lows.now
        + 2 ^ 60 * high_sum (λ l. nat_abs (part factors.now l)) highs.now)) }
{
    let mut total = 0;
    let mut sizes = 0;
    for place in 0..numbers.len() {
        let Some(size) = short_size(numbers[place]) else {
            return None;
        };
        total = plus_short(total, shorts[place], size);
        sizes = plus_low(sizes, factors[place], lows[place]);
    }
    let high = high_total(factors, highs);
    if high > UNIT {
        return None;
    }
    Some(total + (sizes + UNIT * high))
}

// The entries of a row, each size times the weight of its column, added up; a number above 2^120 where that passes it.
fn row_by_weight(cells: &[Cell], weights: &[i128]) -> u128
    requires { AreColumns (length weights.now) cells.now }
    ensures { IsUpTo (list_n (λ c. nat_abs c.units * nat_abs (part weights.now c.col)) cells.now) result }
{
    let mut total = 0;
    for cell in cells {
        let weight = weights[cell.col as usize].unsigned_abs();
        match plus_product(total, cell.units.unsigned_abs(), weight) {
            Some(next) => total = next,
            None => return PAST,
        }
    }
    total
}

// For each row of a matrix of radii its radii, each times the weight of its column, added up; a number above 2^120
// where that passes it.
pub fn rows_by_weight(
    alloc: Global,
    radii: &Matrix,
    weights: &[i128],
) -> Result<Vec<u128>, AllocError>
    requires radii { IsMade radii.now }
    requires weights { length weights.now ≡ radii.now.size }
    ensures { IfOk result (λ rows. (R : ℕ → ℕ → ℕ) (w : ℕ → ℕ) → HasRadii radii.now R
        → HasWeights radii.now.size weights.now w → AreWeighted radii.now.size R w rows.items) }
{
    let mut rows = Vec::with_capacity(alloc, radii.size() as usize)?;
    for row in 0..radii.size() {
        rows.push(row_by_weight(radii.row(row), weights))?;
    }
    Ok(rows)
}

// The Jacobian at a point in units of 2^-40, for each of its rows the radii of its slopes by weight, and the weight of
// each unknown, also in 64 bits where all are short; and the parts of the radii by weight, if each is at most 2^70.
#[derive(Drop)]
pub struct Slopes<'a, 'b> {
    pub jacobian: Walk<'a>,
    pub radii: Vec<u128>,
    pub parts: Option<Parted>,
    pub weights: &'b [i128],
    pub shorts: Option<Vec<u64>>,
}

// The bound of a row with these factors, a row of the inverse. The sums are as long as a row, and written anew.
fn bound(slopes: &Slopes, row: u32, factors: &[i64], sums: &mut [i128]) -> Option<i128>
    requires slopes { AreSlopes slopes.now.jacobian.matrix.now slopes.now.radii.items slopes.now.weights.now }
    requires shorts { IfSome slopes.now.shorts (λ s. AreShortWeights slopes.now.weights.now s.items) }
    requires parts { IfSome slopes.now.parts (λ p. AreParts slopes.now.radii.items p.lows.items p.highs.items) }
    requires jacobian { IfSome slopes.now.jacobian.entries (λ es. IsFlatOf slopes.now.jacobian.matrix.now es.items) }
    requires row { row < slopes.now.jacobian.matrix.now.size }
    requires factors { IsRowOfInverse slopes.now.jacobian.matrix.now.size factors.now }
    requires sums { length sums.old ≡ slopes.now.jacobian.matrix.now.size }
    ensures sums { length sums.new ≡ length sums.old }
    ensures bound { (J : ℕ → ℕ → ℤ) (R : ℕ → ℕ → ℕ) (w : ℕ → ℕ) →
        HasSlopes slopes.now.jacobian.matrix.now slopes.now.radii.items slopes.now.weights.now J R w →
        result ≡ bound_at slopes.now.jacobian.matrix.now.size (λ _. part factors.now) J R w row }
{
    clear(sums);
    if slopes.jacobian.sums(sums, factors).is_some() {
        return None;
    }
    bound_of_sums(slopes, row, factors, sums)
}

// The bound of a row with these factors from the sums of the Jacobian's columns, each row times its factor.
fn bound_of_sums(slopes: &Slopes, row: u32, factors: &[i64], sums: &mut [i128]) -> Option<i128>
    requires slopes { AreSlopes slopes.now.jacobian.matrix.now slopes.now.radii.items slopes.now.weights.now }
    requires shorts { IfSome slopes.now.shorts (λ s. AreShortWeights slopes.now.weights.now s.items) }
    requires parts { IfSome slopes.now.parts (λ p. AreParts slopes.now.radii.items p.lows.items p.highs.items) }
    requires row { row < slopes.now.jacobian.matrix.now.size }
    requires factors { IsRowOfInverse slopes.now.jacobian.matrix.now.size factors.now }
    requires long { length sums.old ≡ slopes.now.jacobian.matrix.now.size }
    requires units { AreUnits sums.old }
    requires sums { (J : ℕ → ℕ → ℤ) → HasEntries slopes.now.jacobian.matrix.now J → (j : ℕ) →
        j < slopes.now.jacobian.matrix.now.size →
        column_sum (part factors.now) J j slopes.now.jacobian.matrix.now.size ≡ Some (part sums.old j) }
    ensures long { length sums.new ≡ length sums.old }
    ensures bound { (J : ℕ → ℕ → ℤ) (R : ℕ → ℕ → ℕ) (w : ℕ → ℕ) →
        HasSlopes slopes.now.jacobian.matrix.now slopes.now.radii.items slopes.now.weights.now J R w →
        result ≡ bound_at slopes.now.jacobian.matrix.now.size (λ _. part factors.now) J R w row }
{
    take_unit(sums, row as usize);
    let total = row_total(slopes, factors, sums);
    over_weight(total, slopes.weights[row as usize])
}

// What is left of a row of the unit matrix and what the radii add, by weight, where the weights are short, the radii
// have parts, and what is left has 64 bits.
fn usual_row_total(slopes: &Slopes, factors: &[i64], left: &[i128]) -> Option<u128>
    requires few { length left.now ≤ 2 ^ 11 }
    requires weights { length slopes.now.weights.now ≡ length left.now }
    requires radii { length slopes.now.radii.items ≡ length left.now }
    requires shorts { IfSome slopes.now.shorts (λ s. AreShortWeights slopes.now.weights.now s.items) }
    requires parts { IfSome slopes.now.parts (λ p. AreParts slopes.now.radii.items p.lows.items p.highs.items) }
    requires factors { IsRowOfInverse (length left.now) factors.now }
    ensures { IfSome result (λ t. t ≡ weighted_total (length left.now) slopes.now.weights.now left.now
        + sizes_total (length left.now) factors.now slopes.now.radii.items) }
{
    let Some(shorts) = &slopes.shorts else {
        return None;
    };
    let Some(radii) = &slopes.parts else {
        return None;
    };
    short_row_total(left, shorts, factors, &radii.lows, &radii.highs)
}

// What is left of a row of the unit matrix and what the radii add, by weight.
fn row_total(slopes: &Slopes, factors: &[i64], left: &[i128]) -> Option<u128>
    requires few { length left.now ≤ 2 ^ 11 }
    requires weights { length slopes.now.weights.now ≡ length left.now }
    requires radii { length slopes.now.radii.items ≡ length left.now }
    requires shorts { IfSome slopes.now.shorts (λ s. AreShortWeights slopes.now.weights.now s.items) }
    requires parts { IfSome slopes.now.parts (λ p. AreParts slopes.now.radii.items p.lows.items p.highs.items) }
    requires factors { IsRowOfInverse (length slopes.now.radii.items) factors.now }
    ensures { IsTotal (weighted_total (length left.now) slopes.now.weights.now left.now
        + sizes_total (length slopes.now.radii.items) factors.now slopes.now.radii.items)
        result }
{
    if let Some(total) = usual_row_total(slopes, factors, left) {
        return up_to_limit(total);
    }
    match sizes_by_weight(left, slopes.weights) {
        Some(total) => plus_sizes(total, factors, &slopes.radii),
        None => None,
    }
}

// A total over a weight, rounded up, in units of 2^-40.
fn over_weight(total: Option<u128>, weight: i128) -> Option<i128>
    requires total { IfSome total (λ t. t ≤ 2 ^ 120) }
    requires least { pos (10 ^ 6) ≤ℤ weight }
    requires most { weight ≤ℤ pos (2 ^ 66) }
    ensures { (k : ℕ) → IsTotal k total → result ≡ wide_quotient (within (pos k)) (nat_abs weight * 2 ^ 40) }
{
    match total {
        Some(total) => Wide::of(total as i128)
            .over_up(weight * BOUND_UNITS)
            .value(),
        None => None,
    }
}

// The bounds of two rows with these factors, both rows of the inverse, where the Jacobian's entries are short. Both
// lists of sums are as long as a row, and written anew.
fn two_bounds(
    slopes: &Slopes,
    entries: &[Entry],
    row: u32,
    first: &[i64],
    second: &[i64],
    sums: &mut [i128],
    others: &mut [i128],
) -> (Option<i128>, Option<i128>)
    requires slopes { AreSlopes slopes.now.jacobian.matrix.now slopes.now.radii.items slopes.now.weights.now }
    requires shorts { IfSome slopes.now.shorts (λ s. AreShortWeights slopes.now.weights.now s.items) }
    requires parts { IfSome slopes.now.parts (λ p. AreParts slopes.now.radii.items p.lows.items p.highs.items) }
    requires entries { IsFlatOf slopes.now.jacobian.matrix.now entries.now }
    requires row { row + 1 < slopes.now.jacobian.matrix.now.size }
    requires first { IsRowOfInverse slopes.now.jacobian.matrix.now.size first.now }
    requires second { IsRowOfInverse slopes.now.jacobian.matrix.now.size second.now }
    requires sums { length sums.old ≡ slopes.now.jacobian.matrix.now.size }
    requires others { length others.old ≡ slopes.now.jacobian.matrix.now.size }
    ensures sums { length sums.new ≡ length sums.old }
    ensures others { length others.new ≡ length others.old }
    ensures first { (J : ℕ → ℕ → ℤ) (R : ℕ → ℕ → ℕ) (w : ℕ → ℕ) →
        HasSlopes slopes.now.jacobian.matrix.now slopes.now.radii.items slopes.now.weights.now J R w →
        result.0 ≡ bound_at slopes.now.jacobian.matrix.now.size (λ _. part first.now) J R w row }
    ensures second { (J : ℕ → ℕ → ℤ) (R : ℕ → ℕ → ℕ) (w : ℕ → ℕ) →
        HasSlopes slopes.now.jacobian.matrix.now slopes.now.radii.items slopes.now.weights.now J R w →
        result.1 ≡ bound_at slopes.now.jacobian.matrix.now.size (λ _. part second.now) J R w (row + 1) }
{
    // read for its bound alone
    let _size = slopes.jacobian.size();
    clear(sums);
    clear(others);
    add_entries_of_two(sums, others, entries, first, second);
    let bound = bound_of_sums(slopes, row, first, sums);
    (bound, bound_of_sums(slopes, row + 1, second, others))
}

// Adds the bounds of the rows by twos where the Jacobian's entries are short. Gives how many rows have theirs.
fn push_by_twos(
    alloc: Global,
    bounds: &mut Vec<Option<i128>>,
    slopes: &Slopes,
    inverse: &Dense,
    sums: &mut [i128],
) -> Result<u32, AllocError>
    requires slopes { AreSlopes slopes.now.jacobian.matrix.now slopes.now.radii.items slopes.now.weights.now }
    requires shorts { IfSome slopes.now.shorts (λ s. AreShortWeights slopes.now.weights.now s.items) }
    requires parts { IfSome slopes.now.parts (λ p. AreParts slopes.now.radii.items p.lows.items p.highs.items) }
    requires jacobian { IfSome slopes.now.jacobian.entries (λ es. IsFlatOf slopes.now.jacobian.matrix.now es.items) }
    requires size { length inverse.now ≡ slopes.now.jacobian.matrix.now.size }
    requires entries { EntriesWithin inverse.now (2 ^ 56) }
    requires sums { length sums.old ≡ slopes.now.jacobian.matrix.now.size }
    requires none { bounds.old.items ≡ [] }
    ensures sums { length sums.new ≡ length sums.old }
    ensures few { IfOk result (λ done. done ≤ slopes.now.jacobian.matrix.now.size) }
    ensures bounds { IfOk result (λ done. (J : ℕ → ℕ → ℤ) (R : ℕ → ℕ → ℕ) (w : ℕ → ℕ)
        → HasSlopes slopes.now.jacobian.matrix.now slopes.now.radii.items slopes.now.weights.now J R w
        → bounds.new.items ≡ list_of done (bound_at slopes.now.jacobian.matrix.now.size (entry inverse.now) J R w)) }
{
    let Some(entries) = &slopes.jacobian.entries else {
        return Ok(0);
    };
    let size = slopes.jacobian.size();
    let mut others = vec![in alloc; 0; size as usize]?;
    for pair in 0..size / 2 {
        let row = 2 * pair;
        let (first, second) = (inverse.row(row), inverse.row(row + 1));
        let (bound, other) = two_bounds(slopes, entries, row, first, second, sums, &mut others);
        bounds.push(bound)?;
        bounds.push(other)?;
    }
    Ok(size / 2 * 2)
}

// The bound of each row.
pub fn bounds(
    alloc: Global,
    slopes: &Slopes,
    inverse: &Dense,
) -> Result<Vec<Option<i128>>, AllocError>
    requires slopes { AreSlopes slopes.now.jacobian.matrix.now slopes.now.radii.items slopes.now.weights.now }
    requires shorts { IfSome slopes.now.shorts (λ s. AreShortWeights slopes.now.weights.now s.items) }
    requires parts { IfSome slopes.now.parts (λ p. AreParts slopes.now.radii.items p.lows.items p.highs.items) }
    requires jacobian { IfSome slopes.now.jacobian.entries (λ es. IsFlatOf slopes.now.jacobian.matrix.now es.items) }
    requires size { length inverse.now ≡ slopes.now.jacobian.matrix.now.size }
    requires entries { EntriesWithin inverse.now (2 ^ 56) }
    ensures { IfOk result (λ bounds. (J : ℕ → ℕ → ℤ) (R : ℕ → ℕ → ℕ) (w : ℕ → ℕ)
        → HasSlopes slopes.now.jacobian.matrix.now slopes.now.radii.items slopes.now.weights.now J R w
        → bounds.items
        ≡ list_of slopes.now.jacobian.matrix.now.size
        (bound_at slopes.now.jacobian.matrix.now.size (entry inverse.now) J R w)) }
{
    let size = slopes.jacobian.size();
    let mut sums = vec![in alloc; 0; size as usize]?;
    let mut bounds = Vec::with_capacity(alloc, size as usize)?;
    let done = push_by_twos(alloc, &mut bounds, slopes, inverse, &mut sums)?;
    for row in done..size {
        bounds.push(bound(slopes, row, inverse.row(row), &mut sums))?;
    }
    Ok(bounds)
}
