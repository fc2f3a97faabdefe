// What one row gains and loses.
ghost use Rattle.std.specs.Prelude.{◌≡◌, ℕ, ◌<◌, ◌≤◌, ◌^◌, [], pos, nat_abs, length, IfOk, MatchResult};
ghost use Rattle.fd_derived.specs.fd_factors.Factors.{HasPlaces};
ghost use Rattle.fd_derived.specs.Rows.{entries_of};
ghost use Rattle.fd_derived.specs.Sums.{size_of};
ghost use Rattle.fd_triangles.specs.Columns.{HasNoted};
ghost use Rattle.fd_triangles.specs.Rows.{IsRising, IsRow, WithNumber, number};
ghost use Rattle.fd_triangles.specs.Steps.{HasLost, IfRange, IsLostPast};

use crate::columns::Column;
use crate::fault::Stop;
use crate::numbers::{is_in_range, less};
use crate::row::{find, number_at, write};
use fd_derived::Entry;
use std::alloc::AllocError;

// Takes the entry of a place out, and gives its number, 0 where there is none.
pub fn take_out(row: &mut Vec<Entry>, place: usize) -> i64
    requires { IsRising row.old.items }
    ensures number { result ≡ number row.old.items place }
    ensures numbers { WithNumber row.old.items row.new.items place (pos 0) }
    ensures row { (n : ℕ) → IsRow n row.old.items → IsRow n row.new.items }
{
    match find(row, place) {
        Ok(at) => row.remove(at).units,
        Err(_) => 0,
    }
}

// Takes f times these entries off a row, and notes the columns where it gets an entry.
pub fn subtract(
    row: &mut Vec<Entry>,
    columns: &mut [Column],
    index: usize,
    others: &[Entry],
    f: i64,
) -> Result<(), Stop>
    requires row { IsRow (length columns.old) row.old.items }
    requires others { IsRow (length columns.old) others.now }
    requires small { nat_abs f ≤ 2 ^ 62 }
    ensures row { IfOk result (λ _. IsRow (length columns.old) row.new.items) }
    ensures numbers { MatchResult result (λ _. HasLost row.old.items row.new.items f others.now)
        (λ stop. IfRange stop (IsLostPast row.old.items f others.now)) }
    ensures noted { IfOk result (λ _. HasNoted columns.old columns.new row.old.items row.new.items index) }
{
    for entry in others {
        let left = less(number_at(row, entry.place), f, entry.units);
        if !is_in_range(left) {
            return Err(Stop::Range);
        }
        write(row, columns, index, entry.place, left as i64)?;
    }
    Ok(())
}

// Adds these entries to an empty row, and notes the columns where it gets one.
pub fn load(
    row: &mut Vec<Entry>,
    columns: &mut [Column],
    index: usize,
    coefficients: &[Entry],
) -> Result<(), AllocError>
    requires empty { row.old.items ≡ [] }
    requires placed { HasPlaces (length columns.old) (entries_of coefficients.now) }
    requires small { size_of (entries_of coefficients.now) ≤ 2 ^ 62 }
    ensures row { IfOk result (λ _. IsRow (length columns.old) row.new.items) }
    ensures numbers { IfOk result (λ _. (c : ℕ) → number row.new.items c ≡ number coefficients.now c) }
    ensures noted { IfOk result (λ _. HasNoted columns.old columns.new [] row.new.items index) }
{
    for entry in coefficients {
        let units = number_at(row, entry.place) + entry.units;
        write(row, columns, index, entry.place, units)?;
    }
    Ok(())
}
