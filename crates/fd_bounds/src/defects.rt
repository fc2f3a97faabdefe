// The defects of each row, by their places.
ghost use Rattle.std.specs.Prelude.{◌≡◌, ℕ, ◌*◌, ◌+◌, ◌<◌, ◌≤◌, ◌^◌, [], pos, nat_abs, length, set, IfOk};
ghost use Rattle.fd_substitution.specs.fd_derived.fd_factors.fd_exact.States.{part};
ghost use Rattle.fd_substitution.specs.fd_derived.fd_factors.fd_exact.Sums.{sum_n};
ghost use Rattle.fd_substitution.specs.fd_derived.Refusals.{added_sizes};
ghost use Rattle.fd_substitution.specs.fd_derived.Rows.{NamesExist, number_at as number_in, row_defect};
ghost use Rattle.fd_substitution.specs.fd_derived.Sums.{AreInside, AreZero, IsSupported, capped};
ghost use Rattle.fd_bounds.specs.Defects.{AreDefects, weighed};
ghost use Rattle.fd_bounds.specs.Passes.{row_past as first_row_past};
ghost use Rattle.fd_bounds.specs.Rows.{AreInOrder};

use fd_substitution::{
    Equation, Row, add_defects, coefficient_sizes, left_sizes, number_at, plus_product, sizes_added,
};
use std::alloc::{AllocError, Global};

// The most that the sizes of all that makes a row's defects may add up to, 2^120.
const SIZE_LIMIT: u128 = 0x100_0000_0000_0000_0000_0000_0000_0000;

/// The size of a row's defect at an unknown, in units of 2^-80.
#[derive(Debug, Drop)]
pub struct Defect {
    pub place: usize,
    pub size: u128,
}

/// The defects of a row.
#[derive(Debug, Drop)]
pub struct Defects {
    pub sizes: Vec<Defect>,
}

// The first row of which the sizes of all that makes its defects are past their limit.
pub fn row_past(
    alloc: Global,
    equations: &[Equation],
    rows: &[Row],
) -> Result<Option<usize>, AllocError>
    requires { AreInOrder equations.now rows.now }
    ensures { IfOk result (λ past. past ≡ first_row_past equations.now rows.now) }
{
    let coefficients = coefficient_sizes(alloc, equations)?;
    let left = left_sizes(alloc, rows)?;
    for row in 0..rows.len() {
        if sizes_added(equations, rows, &coefficients, &left, row) > SIZE_LIMIT {
            return Ok(Some(row));
        }
    }
    Ok(None)
}

// Takes the sum of a place out, and notes its size if it isn't 0.
fn take_size(sums: &mut [i128], sizes: &mut Vec<Defect>, place: usize) -> Result<(), AllocError>
    requires { place < length sums.old }
    ensures cleared { IfOk result (λ _. sums.new ≡ set sums.old place (pos 0)) }
    ensures noted { IfOk result (λ _. (r : ℕ → ℕ) → weighed sizes.new.items r ≡ weighed sizes.old.items r + nat_abs (part sums.old place) * r place) }
{
    let size = sums[place].unsigned_abs();
    sums[place] = 0;
    if size != 0 {
        sizes.push(Defect { place, size })?;
    }
    Ok(())
}

// Takes the sums at these places out, and gives their sizes.
fn take_sizes(
    alloc: Global,
    sums: &mut [i128],
    touched: &[usize],
) -> Result<Vec<Defect>, AllocError>
    requires supported { IsSupported sums.old touched.now }
    requires inside { AreInside touched.now (length sums.old) }
    ensures long { IfOk result (λ _. length sums.new ≡ length sums.old) }
    ensures zero { IfOk result (λ _. AreZero sums.new) }
    ensures sizes { IfOk result (λ sizes. (r : ℕ → ℕ) → weighed sizes.items r ≡ sum_n (λ j. nat_abs (part sums.old j) * r j) (length sums.old)) }
{
    let mut sizes = Vec::new(alloc);
    for place in touched {
        take_size(sums, &mut sizes, *place)?;
    }
    Ok(sizes)
}

// The defects of a row. The sums are 0 before and after, and no place is noted.
fn of_row(
    alloc: Global,
    sums: &mut [i128],
    touched: &mut Vec<usize>,
    equations: &[Equation],
    rows: &[Row],
    row: usize,
) -> Result<Vec<Defect>, AllocError>
    requires row { row < length rows.now }
    requires placed { NamesExist equations.now rows.now row }
    requires range { added_sizes equations.now rows.now row ≤ 2 ^ 120 }
    requires zero { AreZero sums.old }
    requires long { length sums.old ≡ length equations.now }
    requires untouched { touched.old.items ≡ [] }
    ensures zero { IfOk result (λ _. AreZero sums.new) }
    ensures long { IfOk result (λ _. length sums.new ≡ length equations.now) }
    ensures untouched { IfOk result (λ _. touched.new.items ≡ []) }
    ensures sizes { IfOk result (λ sizes. (r : ℕ → ℕ) → weighed sizes.items r
        ≡ sum_n (λ j. nat_abs (row_defect equations.now rows.now row j) * r j) (length equations.now)) }
{
    add_defects(sums, touched, equations, rows, row)?;
    let sizes = take_sizes(alloc, sums, touched)?;
    touched.clear();
    Ok(sizes)
}

// The defects of each row.
pub fn defects_of(
    alloc: Global,
    equations: &[Equation],
    rows: &[Row],
) -> Result<Vec<Defects>, AllocError>
    requires order { AreInOrder equations.now rows.now }
    requires range { (t : ℕ) → t < length rows.now → added_sizes equations.now rows.now t ≤ 2 ^ 120 }
    ensures { IfOk result (λ lists. AreDefects equations.now rows.now (length rows.now) lists.items) }
{
    let mut sums = vec![in alloc; 0i128; equations.len()]?;
    let mut touched = Vec::new(alloc);
    let mut lists = Vec::with_capacity(alloc, rows.len())?;
    for row in 0..rows.len() {
        let sizes = of_row(alloc, &mut sums, &mut touched, equations, rows, row)?;
        lists.push(Defects { sizes })?;
    }
    Ok(lists)
}

// The total with the sizes of defects more, each times the bound of its unknown. A place without a bound counts for
// nothing.
pub fn plus_defects(total: u128, defects: &[Defect], bounds: &[u128]) -> u128
    ensures { result ≡ capped (total + weighed defects.now (number_in bounds.now)) }
{
    let mut whole = total;
    for defect in defects {
        whole = plus_product(whole, defect.size, number_at(bounds, defect.place));
    }
    whole
}
