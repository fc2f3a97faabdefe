// One row cleared by another.
ghost use Rattle.std.specs.Prelude.{◌≡◌, ℕ, ◌<◌, ◌≤◌, ◌^◌, pos, nat_abs, length, IfOk, MatchResult};
ghost use Rattle.fd_triangles.specs.Columns.{HasNoted};
ghost use Rattle.fd_triangles.specs.Rows.{IsRow, number};
ghost use Rattle.fd_triangles.specs.Steps.{HasLost, IfRange, IsCleared, IsClearedPast, IsLostPast, IsWithMultiple, parts_of};

use crate::changes::{subtract, take_out};
use crate::columns::Column;
use crate::fault::Stop;
use crate::numbers::{is_in_range, multiple};
use fd_derived::{Entry, Row};

// Takes f times these entries off what a derived row leaves, and notes the multiple.
fn lose(
    row: &mut Row,
    columns: &mut [Column],
    index: usize,
    others: &[Entry],
    f: i64,
    t: usize,
) -> Result<(), Stop>
    requires row { IsRow (length columns.old) row.old.left.items }
    requires others { IsRow (length columns.old) others.now }
    requires small { nat_abs f ≤ 2 ^ 62 }
    ensures lost { MatchResult result (λ _. IsWithMultiple (length columns.old) (parts_of row.old) (parts_of row.new) f others.now t)
        (λ stop. IfRange stop (IsLostPast row.old.left.items f others.now)) }
    ensures noted { IfOk result (λ _. HasNoted columns.old columns.new row.old.left.items row.new.left.items index) }
{
    if f == 0 {
        return Ok(());
    }
    row.others.push(Entry { place: t, units: f })?;
    subtract(&mut row.left, columns, index, others, f)?;
    Ok(())
}

// Clears a row's entry at the place of a pivot, beside which these entries stand.
pub fn clear(
    row: &mut Row,
    columns: &mut [Column],
    index: usize,
    pivot: &Entry,
    others: &[Entry],
    t: usize,
) -> Result<(), Stop>
    requires row { IsRow (length columns.old) row.old.left.items }
    requires others { IsRow (length columns.old) others.now }
    requires apart { number others.now pivot.now.place ≡ pos 0 }
    requires pivot { 0 < nat_abs pivot.now.units }
    ensures cleared { MatchResult result (λ _. IsCleared (length columns.old) (parts_of row.old) (parts_of row.new) pivot.now others.now t)
        (λ stop. IfRange stop (IsClearedPast row.old.left.items pivot.now others.now)) }
    ensures noted { IfOk result (λ _. HasNoted columns.old columns.new row.old.left.items row.new.left.items index) }
{
    let units = take_out(&mut row.left, pivot.place);
    let f = multiple(units, pivot.units);
    if !is_in_range(f) {
        return Err(Stop::Range);
    }
    lose(row, columns, index, others, f as i64, t)
}
