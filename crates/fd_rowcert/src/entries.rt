// Rows of a matrix by their entries that aren't 0.
ghost use Rattle.std.specs.Prelude.{◌≡◌, ℕ, ◌<◌, ◌≤◌, ◌^◌, ℤ, nat_abs, map, is_none, IfOk, IfSome};
ghost use Rattle.std.specs.List.{filter};
ghost use Rattle.fd_bounds.specs.fd_derived.Sums.{capped};
ghost use Rattle.fd_cert.specs.Columns.{HasEntries, IsMade};
ghost use Rattle.fd_rowcert.specs.Entries.{AreEntriesOf, entry_in, has_units as cell_has_units, is_wide, size_in};

use fd_bounds::Entry;
use fd_cert::{Cell, Matrix};
use std::alloc::{AllocError, Global};

// The most that the sizes of a row's entries may add up to, 2^62 in units of 2^-40.
const SIZE_LIMIT: u128 = 0x4000_0000_0000_0000;

// The sizes of cells together.
fn size_of(cells: &[Cell]) -> u128
    ensures { result ≡ capped (size_in cells.now) }
{
    let mut size = 0u128;
    for cell in cells {
        size = size.saturating_add(cell.units.unsigned_abs());
    }
    size
}

// Whether a cell has units.
fn has_units(cell: &Cell) -> bool
    ensures { result ≡ cell_has_units cell.now }
{
    cell.units != 0
}

// The entry of a cell.
fn entry(cell: &Cell) -> Entry
    requires { nat_abs cell.now.units ≤ 2 ^ 62 }
    ensures { result ≡ entry_in cell.now }
{
    Entry {
        place: cell.col as usize,
        units: cell.units as i64,
    }
}

// The entries of cells that have units.
fn entries(alloc: Global, cells: &[Cell]) -> Result<Vec<Entry>, AllocError>
    requires { size_in cells.now ≤ 2 ^ 62 }
    ensures { IfOk result (λ row. row.items ≡ map entry_in (filter cell_has_units cells.now)) }
{
    let mut row = Vec::new(alloc);
    for cell in cells {
        if has_units(cell) {
            row.push(entry(cell))?;
        }
    }
    Ok(row)
}

/// The entries of a row of a matrix that aren't 0, in rising columns, in units of 2^-40; none where their sizes add
/// up to more than 2^62.
///
/// # Errors
/// `AllocError` where memory is refused.
pub fn row_entries(
    alloc: Global,
    matrix: &Matrix,
    row: u32,
) -> Result<Option<Vec<Entry>>, AllocError>
    requires made { IsMade matrix.now }
    requires row { row < matrix.now.size }
    ensures wide { IfOk result (λ o. (J : ℕ → ℕ → ℤ) → HasEntries matrix.now J
        → is_none o ≡ is_wide matrix.now.size (J row)) }
    ensures entries { IfOk result (λ o. (J : ℕ → ℕ → ℤ) → HasEntries matrix.now J
        → IfSome o (λ made. AreEntriesOf matrix.now.size (J row) made.items)) }
{
    let cells = matrix.row(row);
    if size_of(cells) > SIZE_LIMIT {
        return Ok(None);
    }
    Ok(Some(entries(alloc, cells)?))
}
