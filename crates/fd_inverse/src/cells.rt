// The first cells: a matrix beside the unit matrix.
ghost use Rattle.std.specs.Prelude.{◌≡◌, ℕ, pos, ◌+◌, ◌*◌, ◌<◌, ◌≤◌, ◌^◌, ◌==◌, nat_abs, nat_lt, if◌then◌else◌, length, IfOk};
ghost use Rattle.fd_arith.specs.fd_exact.States.{part, entry, cell};
ghost use Rattle.fd_mat.specs.Rows.{EntriesWithin};
ghost use Rattle.fd_mat.specs.Sparse.{IsRising, held, value_at};
ghost use Rattle.fd_inverse.specs.Numbers.{IsSmall};
ghost use Rattle.fd_inverse.specs.Elimination.{beside_unit};
ghost use Rattle.fd_inverse.specs.Running.{beside_unit_row, Grown};

use fd_mat::{Dense, Held, SparseRows};
use std::alloc::{AllocError, Global};

// One in units of 2^-40.
const ONE: i64 = 0x100_0000_0000;

// Adds a row of the matrix beside the unit matrix.
fn push_start_row(cells: &mut Vec<i64>, entries: &[i64], row: usize) -> Result<(), AllocError>
    requires small { IsSmall entries.now }
    ensures grown { IfOk result (λ _. Grown cells.old.items cells.new.items (beside_unit_row entries.now row) (2 * length entries.now)) }
{
    for entry in entries {
        cells.push(*entry)?;
    }
    for place in 0..entries.len() {
        cells.push(if place == row { ONE } else { 0 })?;
    }
    Ok(())
}

// The first cells of a matrix.
pub fn start_cells(alloc: Global, a: &Dense) -> Result<Vec<i64>, AllocError>
    requires entries { EntriesWithin a.now (2 ^ 62) }
    requires few { length a.now < 2 ^ 31 }
    ensures long { IfOk result (λ v. length v.items ≡ length a.now * (2 * length a.now)) }
    ensures cells { IfOk result (λ v. (row place : ℕ) → row < length a.now → place < 2 * length a.now
        → cell v.items (2 * length a.now) row place ≡ (beside_unit (entry a.now) (length a.now)).at row place) }
    ensures small { IfOk result (λ v. IsSmall v.items) }
{
    let n = a.size() as usize;
    let mut cells = Vec::with_capacity(alloc, n * (2 * n))?;
    for row in 0..n {
        push_start_row(&mut cells, a.row(row as u32), row)?;
    }
    Ok(cells)
}

// The first cells of a matrix by its entries that aren't 0.
pub fn sparse_start_cells(alloc: Global, a: &SparseRows) -> Result<Vec<i64>, AllocError>
    requires entries { EntriesWithin a.now (2 ^ 62) }
    ensures long { IfOk result (λ v. length v.items ≡ length a.now * (2 * length a.now)) }
    ensures cells { IfOk result (λ v. (row place : ℕ) → row < length a.now → place < 2 * length a.now
        → cell v.items (2 * length a.now) row place ≡ (beside_unit (entry a.now) (length a.now)).at row place) }
    ensures small { IfOk result (λ v. IsSmall v.items) }
{
    let n = a.size() as usize;
    let Some(room) = n.checked_mul(2 * n) else {
        return Err(AllocError);
    };
    let mut cells = vec![in alloc; 0; room]?;
    write_held(&mut cells, a.held(), n);
    write_unit(&mut cells, n);
    Ok(cells)
}

// Writes the entries that aren't 0 into the left half.
fn write_held(cells: &mut [i64], entries: &[Held], n: usize)
    requires shape { length cells.old ≡ n * (2 * n) }
    requires zero { (k : ℕ) → part cells.old k ≡ pos 0 }
    requires rising { IsRising entries.now }
    requires inside { (k : ℕ) → k < length entries.now → (held entries.now k).place < n * n }
    requires small { (k : ℕ) → k < length entries.now → nat_abs (held entries.now k).value ≤ 2 ^ 62 }
    ensures { (row place : ℕ) → row < n → place < 2 * n → cell cells.new (2 * n) row place
        ≡ (if nat_lt place n then value_at entries.now (row * n + place) else pos 0) }
{
    for entry in entries {
        cells[entry.place / n * (2 * n) + entry.place % n] = entry.value as i64;
    }
}

// Writes the unit matrix into the right half.
fn write_unit(cells: &mut [i64], n: usize)
    requires shape { length cells.old ≡ n * (2 * n) }
    ensures { (row place : ℕ) → row < n → place < 2 * n → cell cells.new (2 * n) row place
        ≡ (if place == n + row then pos (2 ^ 40) else cell cells.old (2 * n) row place) }
{
    for row in 0..n {
        cells[row * (2 * n) + n + row] = ONE;
    }
}
