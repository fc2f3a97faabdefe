// Rows by non-zeros.
ghost use Rattle.std.specs.Prelude.{◌≡◌, ℕ, ◌+◌, ◌*◌, ◌<◌, ◌≤◌, ◌^◌, ◌↔◌, [], ℤ, ◌*ℤ◌, nat_abs, map, IfOk, IsTrue, length, vec_capacity, All};
ghost use Rattle.std.specs.List.{Contains};
ghost use Rattle.fd_mat.specs.fd_exact.Rounding.{near_div};
ghost use Rattle.fd_mat.specs.fd_exact.States.{part as part_of};
ghost use Rattle.fd_mat.specs.fd_exact.Sums.{list_z};
ghost use Rattle.fd_pattern.specs.fd_system.Contributions.{AreSmall};
ghost use Rattle.fd_equations.specs.Amounts.{AreCells, IsRowOf, cell_at, of_both, of_rows, without_slopes as without_slopes_of};
ghost use Rattle.fd_pattern.specs.Coefficients.{count_at, linear_entry};
ghost use Rattle.fd_pattern.specs.Conditions.{AreKnown, AreLinear, IsPart};
ghost use Rattle.fd_equations.specs.Holding.{CanHold};
ghost use Rattle.fd_equations.specs.Matrices.{IsMatrix};
ghost use Rattle.fd_equations.specs.PartLoads.{slope_counts, slopes_there, start_slopes};
ghost use Rattle.fd_pattern.specs.Patterns.{IsInside};
ghost use Rattle.fd_equations.specs.Rounded.{products_added};
ghost use Rattle.fd_pattern.specs.Terminals.{IsConnected};

use crate::cells::{Cell, add_terms, are_small, blank, cell_in, clear, row_in};
use crate::exchange::{exchange_terms, stand_alike};
use crate::load_cells::{add_slopes, add_start_slopes, count_slopes};
use crate::matrix::Matrix;
use fd_pattern::{LoadAt, Pattern, Term, is_small, near_over_coef, places_of};
use std::alloc::{AllocError, Global};
use std::marker::Model;
use std::mem;

/// The contributions and the part loads of a network with their sums by row and column: in each row only the columns in which something
/// stands are kept. A contribution counts to the nearest 2^-40.
#[derive(Drop)]
pub struct Rows {
    pattern: Pattern,
    terms: Vec<Term>,
    loads: Vec<LoadAt>,
    cells: Vec<Cell>,
}

impl Model for Rows {
    ghost use Rattle.std.specs.Prelude.{vec_capacity};
    ghost use Rattle.fd_equations.specs.Amounts.{RowsView, rows_with};
    ghost use Rattle.fd_equations.specs.Holding.{AreRows};

    ghost Value = { RowsView };

    ghost view = { λ r. rows_with r.pattern r.terms.items r.loads.items (vec_capacity r.terms) (vec_capacity r.loads) };

    ghost invariant = { λ r. AreRows r.pattern r.terms.items r.loads.items r.cells.items };
}

impl Rows {
    /// The rows of these contributions and part loads, with `size` rows and columns.
    ///
    /// # Errors
    /// `AllocError` where the memory for the places or the sums is refused.
    pub fn of(
        alloc: Global,
        size: u32,
        mut terms: Vec<Term>,
        mut loads: Vec<LoadAt>,
    ) -> Result<Rows, AllocError>
        requires small { size ≤ 2 ^ 11 }
        requires linear { AreLinear size terms.items }
        requires loads { All (IsConnected size) loads.items }
        requires few { length loads.items < 2 ^ 21 }
        ensures size { IfOk result (λ r. r.size ≡ size) }
        ensures terms { IfOk result (λ r. r.terms ≡ terms.items) }
        ensures loads { IfOk result (λ r. r.loads ≡ loads.items) }
    {
        let places = places_of(alloc, &terms, &loads)?;
        let mut rows = Rows::reaching(alloc, size, places, 0, 0)?;
        rows.replace(&mut terms, &mut loads);
        Ok(rows)
    }

    /// Rows in which nothing stands yet, with `size` rows and columns: they can hold contributions and part loads at these places, given
    /// in any order and any number of times, and have room for so many of each.
    ///
    /// # Errors
    /// `AllocError` where the memory is refused.
    pub fn reaching(
        alloc: Global,
        size: u32,
        places: Vec<(u32, u32)>,
        term_room: usize,
        load_room: usize,
    ) -> Result<Rows, AllocError>
        requires small { size ≤ 2 ^ 11 }
        requires inside { All (IsInside size) places.items }
        ensures size { IfOk result (λ r. r.size ≡ size) }
        ensures no_terms { IfOk result (λ r. r.terms ≡ []) }
        ensures no_loads { IfOk result (λ r. r.loads ≡ []) }
        ensures places { IfOk result (λ r. All (Contains r.places) places.items) }
        ensures term_room { IfOk result (λ r. term_room ≤ r.term_room) }
        ensures load_room { IfOk result (λ r. load_room ≤ r.load_room) }
    {
        let pattern = Pattern::of(alloc, size, places)?;
        let cells = blank(alloc, &pattern)?;
        Ok(Rows {
            pattern,
            terms: Vec::with_capacity(alloc, term_room)?,
            loads: Vec::with_capacity(alloc, load_room)?,
            cells,
        })
    }

    /// Puts contributions and part loads in place of those that stand there, and gives these back. Where there are as many, and the
    /// part loads stand where they stood, the sums change by the contributions that differ; else they are made anew. Takes no memory.
    pub fn replace(&mut self, terms: &mut Vec<Term>, loads: &mut Vec<LoadAt>)
        requires held { CanHold self.old terms.old.items loads.old.items }
        ensures size { self.new.size ≡ self.old.size }
        ensures places { self.new.places ≡ self.old.places }
        ensures terms { self.new.terms ≡ terms.old.items }
        ensures loads { self.new.loads ≡ loads.old.items }
        ensures term_room { self.new.term_room ≡ vec_capacity terms.old }
        ensures load_room { self.new.load_room ≡ vec_capacity loads.old }
        ensures old_terms { terms.new.items ≡ self.old.terms }
        ensures old_loads { loads.new.items ≡ self.old.loads }
        ensures old_term_room { vec_capacity terms.new ≡ self.old.term_room }
        ensures old_load_room { vec_capacity loads.new ≡ self.old.load_room }
        ensures old_held { CanHold self.new terms.new.items loads.new.items }
    {
        mem::swap(&mut self.terms, terms);
        mem::swap(&mut self.loads, loads);
        renew(
            &self.pattern,
            &mut self.cells,
            terms,
            loads,
            &self.terms,
            &self.loads,
        );
    }

    /// How many rows there are, and how many columns.
    pub fn size(&self) -> u32
        ensures size { result ≡ self.now.size }
        ensures small { result ≤ 2 ^ 11 }
    {
        self.pattern.size()
    }

    /// The contributions in order.
    pub fn terms(&self) -> &[Term]
        ensures terms { result.now ≡ self.now.terms }
        ensures linear { AreLinear self.now.size self.now.terms }
    {
        self.terms.as_slice()
    }

    /// The part loads in order.
    pub fn loads(&self) -> &[LoadAt]
        ensures loads { result.now ≡ self.now.loads }
        ensures few { length self.now.loads < 2 ^ 21 }
    {
        self.loads.as_slice()
    }

    /// The sum of the contributions in a row and a column, in units of 2^-40.
    pub fn entry(&self, row: u32, col: u32) -> i128
        ensures { result ≡ linear_entry self.now.terms row col }
    {
        cell_in(&self.pattern, &self.cells, row, col).units
    }

    /// How many contributions and slopes of part loads stand in a row and a column.
    pub fn count(&self, row: u32, col: u32) -> u32
        ensures { result ≡ count_at self.now.terms row col + slope_counts self.now.loads row col }
    {
        let cell = cell_in(&self.pattern, &self.cells, row, col);
        cell.count + cell.slopes
    }

    /// Whether the sum in a row and a column is at most 2^54 units in size.
    pub fn is_within(&self, row: u32, col: u32) -> bool
        ensures { IsTrue result ↔ AreSmall (linear_entry self.now.terms row col) }
    {
        is_small(self.entry(row, col))
    }

    /// Whether each sum is at most 2^54 units in size.
    pub fn are_within(&self) -> bool
        ensures { IsTrue result ↔ ((row col : ℕ) → AreSmall (linear_entry self.now.terms row col)) }
    {
        are_small(&self.cells)
    }

    /// The cells of a row in rising columns: the columns in which something stands, each with the sum of its contributions, their number
    /// and the number of slopes of part loads.
    pub fn row(&self, row: u32) -> &[Cell]
        requires { row < self.now.size }
        ensures { IsRowOf self.now.size (of_rows self.now.terms self.now.loads) row result.now }
    {
        row_in(&self.pattern, &self.cells, row)
    }

    /// Adds to each row the products of its entries with the parts of x, each to the nearest whole number.
    pub fn add_products(&self, rows: &mut [i128], x: &[i128])
        requires rows { length rows.old ≡ self.now.size }
        requires parts { length x.now ≡ self.now.size }
        requires entries { (row col : ℕ) → AreSmall (linear_entry self.now.terms row col) }
        requires room { AreKnown rows.old }
        requires point { All IsPart x.now }
        ensures { rows.new ≡ products_added self.now.size (linear_entry self.now.terms) rows.old x.now }
    {
        for row in 0..self.size() {
            rows[row as usize] += row_product(self.row(row), x);
        }
    }

    /// The matrix of which the first inverse is made: contributions, and part loads with their slopes at the start.
    ///
    /// # Errors
    /// `AllocError` where the memory for the cells is refused.
    pub fn start(&self, alloc: Global) -> Result<Matrix<'_>, AllocError>
        ensures { IfOk result (λ m. IsMatrix self.now.size m (of_both self.now.terms (λ u. start_slopes u.load) self.now.loads)) }
    {
        let mut cells = without_slopes(alloc, &self.cells)?;
        add_start_slopes(&self.pattern, &mut cells, &self.loads);
        Ok(Matrix::new(&self.pattern, cells))
    }

    /// The Jacobian at the point x: contributions, and part loads with their slopes there.
    ///
    /// # Errors
    /// `AllocError` where the memory for the cells is refused.
    pub fn jacobian(&self, alloc: Global, x: &[i128]) -> Result<Matrix<'_>, AllocError>
        requires long { length x.now ≡ self.now.size }
        requires parts { All IsPart x.now }
        ensures { IfOk result (λ m. IsMatrix self.now.size m (of_both self.now.terms (slopes_there x.now) self.now.loads)) }
    {
        let mut cells = without_slopes(alloc, &self.cells)?;
        add_slopes(&self.pattern, &mut cells, &self.loads, x);
        Ok(Matrix::new(&self.pattern, cells))
    }
}

// Makes cells that have the sums of contributions and the numbers of slopes of part loads those of others.
fn renew(
    pattern: &Pattern,
    cells: &mut [Cell],
    old_terms: &[Term],
    old_loads: &[LoadAt],
    terms: &[Term],
    loads: &[LoadAt],
)
    requires small { pattern.now.size ≤ 2 ^ 11 }
    requires old_linear { AreLinear pattern.now.size old_terms.now }
    requires sums { AreCells pattern.now.places cells.old (of_rows old_terms.now old_loads.now) }
    requires linear { AreLinear pattern.now.size terms.now }
    requires loads { All (IsConnected pattern.now.size) loads.now }
    requires few { length loads.now < 2 ^ 21 }
    ensures { AreCells pattern.now.places cells.new (of_rows terms.now loads.now) }
{
    if old_terms.len() == terms.len() && stand_alike(old_loads, loads) {
        exchange_terms(pattern, cells, old_terms, terms);
    } else {
        sum_up(pattern, cells, terms, loads);
    }
}

// Makes the cells of a pattern the sums of these contributions, and the numbers of slopes of these part loads.
fn sum_up(pattern: &Pattern, cells: &mut [Cell], terms: &[Term], loads: &[LoadAt])
    requires long { length cells.old ≡ length pattern.now.places }
    requires small { pattern.now.size ≤ 2 ^ 11 }
    requires linear { AreLinear pattern.now.size terms.now }
    requires loads { All (IsConnected pattern.now.size) loads.now }
    requires few { length loads.now < 2 ^ 21 }
    ensures { AreCells pattern.now.places cells.new (of_rows terms.now loads.now) }
{
    clear(pattern, cells);
    add_terms(pattern, cells, terms);
    count_slopes(pattern, cells, loads);
}

// The cells without the numbers of slopes.
fn without_slopes(alloc: Global, cells: &[Cell]) -> Result<Vec<Cell>, AllocError>
    ensures { IfOk result (λ bare. bare.items ≡ map without_slopes_of cells.now) }
{
    cells.iter().map(|cell| bare(cell)).collect(alloc)
}

fn bare(cell: &Cell) -> Cell
    ensures { result ≡ without_slopes_of cell.now }
{
    Cell { slopes: 0, ..*cell }
}

// The sum of the products of a row's entries with the parts of x, each to the nearest whole number.
fn row_product(cells: &[Cell], x: &[i128]) -> i128
    requires few { length cells.now ≤ 2 ^ 11 }
    requires inside { (k : ℕ) → k < length cells.now → (cell_at cells.now k).col < length x.now }
    requires small { (k : ℕ) → k < length cells.now → AreSmall (cell_at cells.now k).units }
    requires point { All IsPart x.now }
    ensures sum { result ≡ list_z (λ c. near_div (c.units *ℤ part_of x.now c.col) (2 ^ 40)) cells.now }
    ensures small { nat_abs result ≤ 2 ^ 65 }
{
    let mut sum = 0;
    for cell in cells {
        sum += near_over_coef(product(cell.units, x[cell.col as usize]));
    }
    sum
}

// An entry times a part.
fn product(units: i128, part: i128) -> i128
    requires units { nat_abs units ≤ 2 ^ 54 }
    requires part { nat_abs part ≤ 2 ^ 40 }
    ensures value { result ≡ units *ℤ part }
    ensures small { nat_abs result ≤ 2 ^ 94 }
{
    units * part
}
