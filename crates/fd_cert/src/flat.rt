// Entries of a matrix that are so short that their sums need no tests.
ghost use Rattle.std.specs.Prelude.{◌≡◌, ℕ, ◌<◌, ◌≤◌, ◌^◌, ◌*ℤ◌, ◌++◌, ℤ, pos, nat_abs, map, true, IfOk, IfSome, length};
ghost use Rattle.std.specs.List.{filter};
ghost use Rattle.fd_enclosure.specs.fd_exact.States.{part};
ghost use Rattle.fd_enclosure.specs.fd_exact.Sums.{list_z};
ghost use Rattle.fd_cert.specs.Columns.{IsMade, IsRowOfInverse};
ghost use Rattle.fd_cert.specs.Entries.{AreShort, HasSmallUnits, IsFlatOf, entry_of, entry_term, has_units};

use fd_enclosure::{Cell, Matrix};
use std::alloc::{AllocError, Global};

// The greatest size of a short entry, 2^48, and how many a matrix may have, 2^22.
const SHORT: u128 = 0x1_0000_0000_0000;

const MOST: usize = 0x40_0000;

/// An entry of a matrix, at most 2^48 in size, with its row and its column.
#[derive(Clone, Copy, Drop)]
pub struct Entry {
    row: u32,
    col: u32,
    units: i64,
}

// The entry of a cell of a row, if it is short.
fn short_entry(row: u32, cell: &Cell) -> Option<Entry>
    ensures entry { IfSome result (λ e. e ≡ entry_of row cell.now) }
    ensures small { IfSome result (λ e. nat_abs cell.now.units ≤ 2 ^ 48) }
{
    if cell.units.unsigned_abs() <= SHORT {
        Some(Entry {
            row,
            col: cell.col,
            units: cell.units as i64,
        })
    } else {
        None
    }
}

// Whether a cell has units: one without adds nothing to any sum.
fn has_units(cell: &Cell) -> bool
    ensures { result ≡ has_units cell.now }
{
    cell.units != 0
}

// Adds the entries of a row that have units. Tells whether all are short.
fn push_row(entries: &mut Vec<Entry>, row: u32, cells: &[Cell]) -> Result<bool, AllocError>
    ensures made { IfOk result (λ all. all ≡ true →
        entries.new.items ≡ entries.old.items ++ map (entry_of row) (filter has_units cells.now)) }
    ensures small { IfOk result (λ all. all ≡ true → HasSmallUnits cells.now (length cells.now)) }
{
    for cell in cells {
        if !has_units(cell) {
            continue;
        }
        let Some(entry) = short_entry(row, cell) else {
            return Ok(false);
        };
        entries.push(entry)?;
    }
    Ok(true)
}

// The entries of a matrix that have units, if all are short.
pub fn entries_of(alloc: Global, matrix: &Matrix) -> Result<Option<Vec<Entry>>, AllocError>
    requires { IsMade matrix.now }
    ensures { IfOk result (λ o. IfSome o (λ entries. IsFlatOf matrix.now entries.items)) }
{
    let mut entries = Vec::with_capacity(alloc, matrix.cells().len())?;
    for row in 0..matrix.size() {
        if !push_row(&mut entries, row, matrix.row(row))? {
            return Ok(None);
        }
    }
    if entries.len() > MOST {
        return Ok(None);
    }
    Ok(Some(entries))
}

// A factor times a short entry: one multiplication of 64 bits.
fn times(factor: i64, units: i64) -> i128
    requires factor { nat_abs factor ≤ 2 ^ 56 }
    requires units { nat_abs units ≤ 2 ^ 48 }
    ensures value { result ≡ factor *ℤ units }
    ensures small { nat_abs result ≤ 2 ^ 104 }
{
    factor as i128 * units as i128
}

// Adds to the sum of each column its entries, each times the factor of its row.
pub fn add_entries(sums: &mut [i128], entries: &[Entry], factors: &[i64])
    requires entries { AreShort (length sums.old) entries.now }
    requires factors { IsRowOfInverse (length sums.old) factors.now }
    requires zero { (j : ℕ) → part sums.old j ≡ pos 0 }
    ensures long { length sums.new ≡ length sums.old }
    ensures sums { (j : ℕ) → part sums.new j ≡ list_z (entry_term (part factors.now) j) entries.now }
{
    for entry in entries {
        sums[entry.col as usize] += times(factors[entry.row as usize], entry.units);
    }
}

// The same as `add_entries` for two lists of sums and the factors of each: an entry is read once for both.
//
// Never inlined: beside the other loops of a row LLVM would keep its places in memory.
#[inline(never)]
pub fn add_entries_of_two(
    sums: &mut [i128],
    others: &mut [i128],
    entries: &[Entry],
    first: &[i64],
    second: &[i64],
)
    requires entries { AreShort (length sums.old) entries.now }
    requires long { length others.old ≡ length sums.old }
    requires first { IsRowOfInverse (length sums.old) first.now }
    requires second { IsRowOfInverse (length sums.old) second.now }
    requires zero { (j : ℕ) → part sums.old j ≡ pos 0 }
    requires other_zero { (j : ℕ) → part others.old j ≡ pos 0 }
    ensures long { length sums.new ≡ length sums.old }
    ensures other_long { length others.new ≡ length others.old }
    ensures sums { (j : ℕ) → part sums.new j ≡ list_z (entry_term (part first.now) j) entries.now }
    ensures others { (j : ℕ) → part others.new j ≡ list_z (entry_term (part second.now) j) entries.now }
{
    for entry in entries {
        let (row, col) = (entry.row as usize, entry.col as usize);
        let product = times(first[row], entry.units);
        sums[col] += product;
        let other = times(second[row], entry.units);
        others[col] += other;
    }
}
