// A matrix by rows of non-zeros.
ghost use Rattle.std.specs.Prelude.{◌≡◌, ℕ, ◌<◌, ◌≤◌, ◌^◌, pos, IfOk, OnOk, length, All};
ghost use Rattle.fd_mat.specs.fd_exact.States.{table};
ghost use Rattle.fd_mat.specs.Rows.{EntriesWithin};
ghost use Rattle.fd_equations.specs.Amounts.{Amount, AreCells, IsNothingElsewhere, IsRowOf};
ghost use Rattle.fd_equations.specs.Matrices.{ArePut, IsMatrix, matrix_with};
ghost use Rattle.fd_pattern.specs.Patterns.{IsInside, IsRising, pattern_of};

use crate::cells::{Cell, row_in};
use fd_mat::SparseRows;
use fd_pattern::Pattern;
use std::alloc::{AllocError, Global};
use std::marker::Model;

/// A matrix at the places of a network's rows: in each row only the columns in which something stands are kept.
#[derive(Drop)]
pub struct Matrix<'a> {
    pattern: &'a Pattern,
    cells: Vec<Cell>,
}

impl<'a> Model for Matrix<'a> {
    ghost use Rattle.fd_equations.specs.Matrices.{MatrixView, matrix_with};

    ghost Value = { MatrixView };

    ghost view = { λ m. matrix_with m.pattern.now m.cells.items };
}

impl<'a> Matrix<'a> {
    /// The matrix with these cells at the places of a pattern.
    pub fn new(pattern: &'a Pattern, cells: Vec<Cell>) -> Matrix<'a>
        ensures { result ≡ matrix_with pattern.now cells.items }
    {
        Matrix { pattern, cells }
    }

    /// How many rows it has, and how many columns.
    pub fn size(&self) -> u32
        ensures size { result ≡ self.now.size }
        ensures small { result ≤ 2 ^ 11 }
    {
        self.pattern.size()
    }

    /// The places at which something can stand.
    pub fn pattern(&self) -> &'a Pattern
        ensures { result.now ≡ pattern_of self.now.size self.now.places }
    {
        self.pattern
    }

    /// The cells in the order of the places.
    pub fn cells(&self) -> &[Cell]
        ensures { result.now ≡ self.now.cells }
    {
        self.cells.as_slice()
    }

    /// The cells of a row in rising columns: the columns in which something stands, each with its entry in units of 2^-40, the number of
    /// contributions and the number of slopes of part loads in it.
    pub fn row(&self, row: u32) -> &[Cell]
        requires long { length self.now.cells ≡ length self.now.places }
        requires row { row < self.now.size }
        ensures { (at : ℕ × ℕ → Amount) → AreCells self.now.places self.now.cells at
            → IsNothingElsewhere self.now.places at → IsRowOf self.now.size at row result.now }
    {
        row_in(self.pattern, &self.cells, row)
    }

    /// The matrix by its entries that aren't 0, in units of 2^-40.
    ///
    /// # Errors
    /// `AllocError` where the memory for the entries is refused.
    pub fn to_rows(&self, alloc: Global) -> Result<SparseRows, AllocError>
        requires long { length self.now.cells ≡ length self.now.places }
        ensures entries { IfOk result (λ m. (at : ℕ × ℕ → Amount) → IsMatrix self.now.size self.now at
            → m ≡ table self.now.size self.now.size (λ row col. (at (row, col)).units)) }
        ensures small { IfOk result (λ m. (at : ℕ × ℕ → Amount) → IsMatrix self.now.size self.now at → EntriesWithin m (2 ^ 100)) }
    {
        let mut rows = SparseRows::zero(alloc, self.pattern.size());
        put(self.pattern.places(), &self.cells, &mut rows)?;
        Ok(rows)
    }
}

// Writes the cells at these places into rows in which nothing stands.
fn put(places: &[(u32, u32)], cells: &[Cell], rows: &mut SparseRows) -> Result<(), AllocError>
    requires long { length cells.now ≡ length places.now }
    requires zero { rows.old ≡ table (length rows.old) (length rows.old) (λ _ _. pos 0) }
    requires inside { All (IsInside (length rows.old)) places.now }
    requires rising { IsRising places.now }
    ensures { OnOk result (ArePut (length rows.old) places.now cells.now rows.new) }
{
    for k in 0..places.len() {
        let (row, col) = places[k];
        rows.set(row, col, cells[k].units)?;
    }
    Ok(())
}
