// The defect of a row: what its equations and the other rows leave beside what it says is left.
ghost use Rattle.std.specs.Prelude.{◌≡◌, ℕ, ◌<◌, ◌≤◌, ◌^◌, ◌*ℤ◌, pos, negsuc, [], length, IfOk};
ghost use Rattle.fd_factors.specs.Factors.{HasPlaces, weighted_size};
ghost use Rattle.fd_factors.specs.fd_exact.States.{part};
ghost use Rattle.fd_derived.specs.Refusals.{added_sizes};
ghost use Rattle.fd_derived.specs.Rows.{NamesExist, coefficients_at, entries_of, row_at, row_defect};
ghost use Rattle.fd_derived.specs.Sums.{AreInside, AreZero, HasRoom, IsCombined, IsSupported, size_of};

use crate::entries::{Entry, Equation, Row};
use crate::sums::add;
use std::alloc::AllocError;

// One in units of 2^-40, with a minus.
const LESS_ONE: i128 = -0x100_0000_0000;

// A number with a minus.
fn negated(units: i64) -> i128
    ensures { result ≡ negsuc 0 *ℤ units }
{
    -(units as i128)
}

// The coefficients of an equation.
fn coefficients(equations: &[Equation], place: usize) -> &[Entry]
    requires { place < length equations.now }
    ensures { entries_of result.now ≡ coefficients_at equations.now place }
{
    &equations[place].coefficients
}

// What a row leaves.
fn left(rows: &[Row], place: usize) -> &[Entry]
    requires { place < length rows.now }
    ensures { entries_of result.now ≡ (row_at rows.now place).left }
{
    &rows[place].left
}

// Adds to the sums, for each entry, that multiple of the coefficients of its equation.
fn add_equations(
    sums: &mut [i128],
    touched: &mut Vec<usize>,
    row: &[Entry],
    equations: &[Equation],
) -> Result<(), AllocError>
    requires placed { HasPlaces (length equations.now) (entries_of row.now) }
    requires room { HasRoom sums.old (weighted_size (entries_of row.now) (λ l. size_of (coefficients_at equations.now l))) }
    requires supported { IsSupported sums.old touched.old.items }
    requires inside { AreInside touched.old.items (length sums.old) }
    ensures combined { IfOk result (λ _. IsCombined sums.old sums.new (entries_of row.now) (coefficients_at equations.now) (pos 1)) }
    ensures supported { IfOk result (λ _. IsSupported sums.new touched.new.items) }
    ensures inside { IfOk result (λ _. AreInside touched.new.items (length sums.new)) }
{
    for entry in row {
        let terms = coefficients(equations, entry.place);
        add(sums, touched, terms, entry.units as i128)?;
    }
    Ok(())
}

// Takes from the sums, for each entry, that multiple of what the row of its place leaves.
fn take_rows(
    sums: &mut [i128],
    touched: &mut Vec<usize>,
    row: &[Entry],
    rows: &[Row],
) -> Result<(), AllocError>
    requires placed { HasPlaces (length rows.now) (entries_of row.now) }
    requires room { HasRoom sums.old (weighted_size (entries_of row.now) (λ k. size_of (row_at rows.now k).left)) }
    requires supported { IsSupported sums.old touched.old.items }
    requires inside { AreInside touched.old.items (length sums.old) }
    ensures combined { IfOk result (λ _. IsCombined sums.old sums.new (entries_of row.now) (λ k. (row_at rows.now k).left) (negsuc 0)) }
    ensures supported { IfOk result (λ _. IsSupported sums.new touched.new.items) }
    ensures inside { IfOk result (λ _. AreInside touched.new.items (length sums.new)) }
{
    for entry in row {
        let terms = left(rows, entry.place);
        add(sums, touched, terms, negated(entry.units))?;
    }
    Ok(())
}

/// Writes the defects of a row into sums that are 0, one for each unknown, in units of 2^-80, and notes the places that
/// it touches.
///
/// # Errors
/// `AllocError` where memory is refused.
pub fn add_defects(
    sums: &mut [i128],
    touched: &mut Vec<usize>,
    equations: &[Equation],
    rows: &[Row],
    row: usize,
) -> Result<(), AllocError>
    requires row { row < length rows.now }
    requires placed { NamesExist equations.now rows.now row }
    requires range { added_sizes equations.now rows.now row ≤ 2 ^ 120 }
    requires zero { AreZero sums.old }
    requires untouched { touched.old.items ≡ [] }
    ensures long { IfOk result (λ _. length sums.new ≡ length sums.old) }
    ensures defects { IfOk result (λ _. (j : ℕ) → j < length sums.old → part sums.new j ≡ row_defect equations.now rows.now row j) }
    ensures supported { IfOk result (λ _. IsSupported sums.new touched.new.items) }
    ensures inside { IfOk result (λ _. AreInside touched.new.items (length sums.new)) }
{
    let derived = &rows[row];
    add_equations(sums, touched, &derived.equations, equations)?;
    take_rows(sums, touched, &derived.others, rows)?;
    add(sums, touched, &derived.left, LESS_ONE)?;
    Ok(())
}
