// One row by its entries that aren't 0, in rising places, and the columns that it has entries in.
ghost use Rattle.std.specs.Prelude.{◌≡◌, ◌<◌, ◌≤◌, ◌^◌, nat_abs, length, IfOk, IfErr};
ghost use Rattle.fd_triangles.specs.Columns.{HasNoted, IsNoted};
ghost use Rattle.fd_triangles.specs.Rows.{IsAt, IsGap, IsRising, IsRow, WithNumber, number};

use crate::columns::{Column, note};
use fd_derived::Entry;
use std::alloc::AllocError;

// Where the entry of a place stands among these, or else where it would stand.
pub fn find(row: &[Entry], place: usize) -> Result<usize, usize>
    requires { IsRising row.now }
    ensures found { IfOk result (IsAt row.now place) }
    ensures gap { IfErr result (IsGap row.now place) }
{
    row.binary_search_by_key(&place, |entry| entry.place)
}

// The number at a place, 0 where no entry has it.
pub fn number_at(row: &[Entry], place: usize) -> i64
    requires { IsRising row.now }
    ensures { result ≡ number row.now place }
{
    match find(row, place) {
        Ok(at) => row[at].units,
        Err(_) => 0,
    }
}

// Writes the number at a place. Where no entry had the place the row is noted in the column.
pub fn write(
    row: &mut Vec<Entry>,
    columns: &mut [Column],
    index: usize,
    place: usize,
    units: i64,
) -> Result<(), AllocError>
    requires row { IsRow (length columns.old) row.old.items }
    requires place { place < length columns.old }
    requires small { nat_abs units ≤ 2 ^ 62 }
    ensures row { IfOk result (λ _. IsRow (length columns.old) row.new.items) }
    ensures numbers { IfOk result (λ _. WithNumber row.old.items row.new.items place units) }
    ensures noted { IfOk result (λ _. HasNoted columns.old columns.new row.old.items row.new.items index) }
{
    match find(row, place) {
        Ok(at) if units == 0 => {
            row.remove(at);
        }
        Ok(at) => row[at] = Entry { place, units },
        Err(_) if units == 0 => {}
        Err(at) => {
            row.insert(at, Entry { place, units })?;
            note(columns, place, index)?;
        }
    }
    Ok(())
}
