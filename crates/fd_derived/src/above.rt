// One row: whether it is placed and in range, and its height stands above it.
ghost use Rattle.std.specs.Prelude.{◌≡◌, ◌+◌, ◌*◌, ◌<◌, ◌≤◌, ◌^◌, [], None, nat_lt, length, IfOk};
ghost use Rattle.fd_derived.specs.Marks.{AreLists, AreMarks};
ghost use Rattle.fd_derived.specs.Refusals.{added, added_sizes, is_in_range as row_is_in_range, row_refusal as first_of_row};
ghost use Rattle.fd_derived.specs.Rows.{NamesExist, RowIsPlaced, coefficients_at, height_of, load_of, number_of_rows, row_at};
ghost use Rattle.fd_derived.specs.Sums.{AreTotals, AreZero, capped, size_of};

use crate::defects::add_defects;
use crate::entries::{Claim, Equation, Row};
use crate::lists::{Lists, ONE};
use crate::places::Marks;
use crate::refusal::Refusal;
use crate::sums::drain;
use crate::totals::{plus_product, plus_weighted};
use std::alloc::AllocError;

// The greatest height, 2^87: with 40 bits more it is a number of 127 bits.
const HEIGHT_LIMIT: u128 = 0x80_0000_0000_0000_0000_0000;

// The most that the sizes of all that makes a row's defects may add up to, 2^120.
const SIZE_LIMIT: u128 = 0x100_0000_0000_0000_0000_0000_0000_0000;

/// The sizes of all that makes a row's defects, in units of 2^-80, from the sizes of each equation's coefficients and of
/// what each row leaves.
pub fn sizes_added(
    equations: &[Equation],
    rows: &[Row],
    coefficients: &[u128],
    left: &[u128],
    row: usize,
) -> u128
    requires row { row < length rows.now }
    requires placed { NamesExist equations.now rows.now row }
    requires coefficients { AreTotals (λ l. size_of (coefficients_at equations.now l)) (length equations.now) coefficients.now }
    requires left { AreTotals (λ k. size_of (row_at rows.now k).left) (length rows.now) left.now }
    ensures { result ≡ capped (added_sizes equations.now rows.now row) }
{
    let derived = &rows[row];
    let size = plus_weighted(0, &derived.equations, coefficients);
    let more = plus_weighted(size, &derived.others, left);
    plus_product(more, ONE, left[row])
}

// Whether a row's height and all that makes its defects are in range.
fn is_in_range(equations: &[Equation], claim: &Claim, lists: &Lists, row: usize) -> bool
    requires row { row < number_of_rows claim.now }
    requires heights { length claim.now.heights.items ≡ number_of_rows claim.now }
    requires placed { RowIsPlaced equations.now claim.now row }
    requires lists { AreLists equations.now claim.now lists.now }
    ensures { result ≡ row_is_in_range equations.now claim.now row }
{
    let size = sizes_added(
        equations,
        &claim.rows,
        &lists.coefficients,
        &lists.left,
        row,
    );
    claim.heights[row] <= HEIGHT_LIMIT && size <= SIZE_LIMIT
}

// Whether a row's height stands above it. The sums are 0 before and after.
fn is_above(
    sums: &mut [i128],
    touched: &mut Vec<usize>,
    equations: &[Equation],
    claim: &Claim,
    lists: &Lists,
    row: usize,
) -> Result<bool, AllocError>
    requires row { row < number_of_rows claim.now }
    requires heights { length claim.now.heights.items ≡ number_of_rows claim.now }
    requires bounds { length claim.now.bounds.items ≡ length equations.now }
    requires placed { RowIsPlaced equations.now claim.now row }
    requires height { height_of claim.now row ≤ 2 ^ 87 }
    requires range { added equations.now claim.now row ≤ 2 ^ 120 }
    requires lists { AreLists equations.now claim.now lists.now }
    requires zero { AreZero sums.old }
    requires long { length sums.old ≡ length equations.now }
    requires untouched { touched.old.items ≡ [] }
    ensures above { IfOk result (λ above. above ≡ nat_lt (load_of equations.now claim.now row) (2 ^ 40 * height_of claim.now row)) }
    ensures zero { IfOk result (λ _. AreZero sums.new) }
    ensures long { IfOk result (λ _. length sums.new ≡ length sums.old) }
    ensures untouched { IfOk result (λ _. touched.new.items ≡ []) }
{
    let derived = &claim.rows[row];
    let own = plus_weighted(0, &derived.equations, &lists.allowances);
    add_defects(sums, touched, equations, &claim.rows, row)?;
    let slack = drain(sums, touched, &claim.bounds, own);
    touched.clear();
    let load = plus_weighted(slack, &derived.others, &claim.heights);
    Ok(load < ONE * claim.heights[row])
}

// The rule that a row breaks first, if it breaks any. Where it breaks none, the sums are 0 again.
pub fn row_refusal(
    sums: &mut [i128],
    touched: &mut Vec<usize>,
    marks: &mut Marks,
    equations: &[Equation],
    claim: &Claim,
    lists: &Lists,
    row: usize,
) -> Result<Option<Refusal>, AllocError>
    requires row { row < number_of_rows claim.now }
    requires heights { length claim.now.heights.items ≡ number_of_rows claim.now }
    requires bounds { length claim.now.bounds.items ≡ length equations.now }
    requires marks { AreMarks (length equations.now) (number_of_rows claim.now) (row + 1) marks.old }
    requires lists { AreLists equations.now claim.now lists.now }
    requires zero { AreZero sums.old }
    requires long { length sums.old ≡ length equations.now }
    requires untouched { touched.old.items ≡ [] }
    ensures refusal { IfOk result (λ refusal. refusal ≡ first_of_row equations.now claim.now row) }
    ensures marks { IfOk result (λ _. AreMarks (length equations.now) (number_of_rows claim.now) (row + 2) marks.new) }
    ensures zero { IfOk result (λ refusal. refusal ≡ None → AreZero sums.new) }
    ensures long { IfOk result (λ _. length sums.new ≡ length sums.old) }
    ensures untouched { IfOk result (λ refusal. refusal ≡ None → touched.new.items ≡ []) }
{
    if !marks.is_placed(&claim.rows[row], row + 1) {
        return Ok(Some(Refusal::Place(row)));
    }
    if !is_in_range(equations, claim, lists, row) {
        return Ok(Some(Refusal::Range(row)));
    }
    if !is_above(sums, touched, equations, claim, lists, row)? {
        return Ok(Some(Refusal::Height(row)));
    }
    Ok(None)
}
