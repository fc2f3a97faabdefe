// The rows before the first unknown is eliminated, and the columns of their entries.
ghost use Rattle.std.specs.Prelude.{◌≡◌, ℕ, ◌+◌, ◌<◌, ◌≤◌, ◌^◌, ◌∷◌, [], pos, length, IfOk};
ghost use Rattle.fd_derived.specs.fd_factors.Factors.{HasPlaces};
ghost use Rattle.fd_derived.specs.Rows.{entries_of};
ghost use Rattle.fd_derived.specs.Sums.{size_of};
ghost use Rattle.fd_triangles.specs.Columns.{HasNoted, Holds};
ghost use Rattle.fd_triangles.specs.Factors.{AreLoaded, AreOrdered, no_parts};
ghost use Rattle.fd_triangles.specs.Rows.{IsRow, number};
ghost use Rattle.fd_triangles.specs.Steps.{IsFirst, parts_of};

use crate::changes::load;
use crate::columns::Column;
use crate::pair::Pair;
use fd_derived::{Entry, Equation, Row};
use std::alloc::{AllocError, Global};

// One in units of 2^-40.
const ONE: i64 = 0x100_0000_0000;

// A row that has nothing.
pub fn no_row(alloc: Global) -> Row
    ensures { parts_of result ≡ no_parts }
{
    Row {
        equations: Vec::new(alloc),
        others: Vec::new(alloc),
        left: Vec::new(alloc),
    }
}

// Columns in which no row is noted.
pub fn no_columns(alloc: Global, n: usize) -> Result<Vec<Column>, AllocError>
    ensures long { IfOk result (λ columns. length columns.items ≡ n) }
    ensures none { IfOk result (λ columns. (c i : ℕ) → Holds columns.items c i → ⊥) }
{
    let mut columns = Vec::with_capacity(alloc, n)?;
    for place in 0..n {
        columns.push(Column {
            rows: Vec::new(alloc),
        })?;
    }
    Ok(columns)
}

// The row of an equation, noted in the columns where it has an entry.
fn first_row(
    alloc: Global,
    columns: &mut [Column],
    index: usize,
    equation: usize,
    coefficients: &[Entry],
) -> Result<Row, AllocError>
    requires placed { HasPlaces (length columns.old) (entries_of coefficients.now) }
    requires small { size_of (entries_of coefficients.now) ≤ 2 ^ 62 }
    ensures first { IfOk result (λ row. IsFirst (length columns.old) equation coefficients.now (parts_of row)) }
    ensures noted { IfOk result (λ row. HasNoted columns.old columns.new [] row.left.items index) }
{
    let mut row = no_row(alloc);
    row.equations.push(Entry {
        place: equation,
        units: ONE,
    })?;
    load(&mut row.left, columns, index, coefficients)?;
    Ok(row)
}

// The rows at their places, noted in the columns where they have entries.
pub fn first_rows(
    alloc: Global,
    equations: &[Equation],
    order: &[Pair],
    columns: &mut [Column],
) -> Result<Vec<Row>, AllocError>
    requires ordered { AreOrdered equations.now order.now }
    requires long { length columns.old ≡ length equations.now }
    requires none { (c i : ℕ) → Holds columns.old c i → ⊥ }
    ensures { IfOk result (λ work. AreLoaded equations.now order.now (length order.now) work.items columns.new) }
{
    let mut work = Vec::with_capacity(alloc, order.len())?;
    for place in 0..order.len() {
        let equation = order[place].equation;
        let row = first_row(
            alloc,
            columns,
            place,
            equation,
            &equations[equation].coefficients,
        )?;
        work.push(row)?;
    }
    Ok(work)
}
