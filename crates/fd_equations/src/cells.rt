// The sums of contributions at the places of a pattern.
ghost use Rattle.std.specs.Prelude.{◌≡◌, ℕ, ◌+◌, ◌<◌, ◌≤◌, ◌^◌, ◌↔◌, nat_abs, IfOk, IsTrue, length, All};
ghost use Rattle.fd_pattern.specs.fd_system.Contributions.{AreSmall, IsDivided, IsWithin, term_units};
ghost use Rattle.fd_equations.specs.Amounts.{Amount, AreCells, AreGrown, HaveTermRoom, IsNothingElsewhere, IsRowOf, amount, cell_of, more, nothing, of_term, of_terms};
ghost use Rattle.fd_pattern.specs.Conditions.{AreLinear};

use fd_pattern::{Pattern, Term, is_small, near_units};
use std::alloc::{AllocError, Global};

/// What stands in a column of a row: the sum in units of 2^-40, the number of contributions, and the number of slopes of part loads.
#[derive(Clone, Copy)]
pub struct Cell {
    pub col: u32,
    pub count: u32,
    pub slopes: u32,
    pub units: i128,
}

/// A cell with nothing in it for each place of a pattern.
///
/// # Errors
/// `AllocError` where the memory for the cells is refused.
pub fn blank(alloc: Global, pattern: &Pattern) -> Result<Vec<Cell>, AllocError>
    ensures { IfOk result (λ cells. AreCells pattern.now.places cells.items (λ p. nothing)) }
{
    pattern
        .places()
        .iter()
        .map(|place| blank_cell(place))
        .collect(alloc)
}

fn blank_cell(place: &(u32, u32)) -> Cell
    ensures { result ≡ cell_of place.now.1 nothing }
{
    Cell {
        col: place.1,
        count: 0,
        slopes: 0,
        units: 0,
    }
}

/// Takes out what stands in the cells of a pattern.
pub fn clear(pattern: &Pattern, cells: &mut [Cell])
    requires { length cells.old ≡ length pattern.now.places }
    ensures { AreCells pattern.now.places cells.new (λ p. nothing) }
{
    let places = pattern.places();
    for (k, cell) in cells.iter_mut().enumerate() {
        *cell = blank_cell(&places[k]);
    }
}

/// Adds contributions to cells with nothing in them.
pub fn add_terms(pattern: &Pattern, cells: &mut [Cell], terms: &[Term])
    requires linear { AreLinear pattern.now.size terms.now }
    requires cells { AreCells pattern.now.places cells.old (λ p. nothing) }
    ensures { AreCells pattern.now.places cells.new (of_terms terms.now) }
{
    for term in terms {
        add_term(pattern, cells, term);
    }
}

/// Adds a contribution at its place.
pub fn add_term(pattern: &Pattern, cells: &mut [Cell], term: &Term)
    requires long { length cells.old ≡ length pattern.now.places }
    requires divided { IsDivided term.now }
    requires within { IsWithin term.now }
    requires room { HaveTermRoom pattern.now.places cells.old (2 ^ 81) (2 ^ 26) }
    ensures { AreGrown pattern.now.places cells.old cells.new (of_term term.now) }
{
    if let Some(k) = pattern.find(term.row, term.col) {
        cells[k] = with_term(cells[k], units(term));
    }
}

fn with_term(cell: Cell, units: i128) -> Cell
    requires units { nat_abs units ≤ 2 ^ 54 }
    requires sum { nat_abs cell.units ≤ 2 ^ 81 }
    requires count { cell.count ≤ 2 ^ 26 }
    ensures { result ≡ more cell (amount units 1 0) }
{
    Cell {
        col: cell.col,
        count: cell.count + 1,
        slopes: cell.slopes,
        units: cell.units + units,
    }
}

/// A contribution in units of 2^-40, to the nearest.
pub fn units(term: &Term) -> i128
    requires divided { IsDivided term.now }
    requires within { IsWithin term.now }
    ensures units { result ≡ term_units term.now }
    ensures within { AreSmall result }
{
    near_units(term.num, term.den.unsigned_abs())
}

/// What stands at a place: the cell there, or nothing.
pub fn cell_in(pattern: &Pattern, cells: &[Cell], row: u32, col: u32) -> Cell
    requires { length cells.now ≡ length pattern.now.places }
    ensures { (at : ℕ × ℕ → Amount) → AreCells pattern.now.places cells.now at
        → IsNothingElsewhere pattern.now.places at → result ≡ cell_of col (at (row, col)) }
{
    match pattern.find(row, col) {
        Some(k) => cells[k],
        None => Cell {
            col,
            count: 0,
            slopes: 0,
            units: 0,
        },
    }
}

/// The cells of a row in rising columns.
pub fn row_in<'a>(pattern: &Pattern, cells: &'a [Cell], row: u32) -> &'a [Cell]
    requires long { length cells.now ≡ length pattern.now.places }
    requires row { row < pattern.now.size }
    ensures { (at : ℕ × ℕ → Amount) → AreCells pattern.now.places cells.now at
        → IsNothingElsewhere pattern.now.places at → IsRowOf pattern.now.size at row result.now }
{
    let _size = pattern.size();
    let _places = pattern.places();
    let from = pattern.start(row);
    let to = pattern.start(row + 1);
    &cells[from..to]
}

/// Whether each sum is at most 2^54 units in size.
pub fn are_small(cells: &[Cell]) -> bool
    ensures { IsTrue result ↔ All (λ c. AreSmall c.units) cells.now }
{
    cells.iter().all(|cell| is_small(cell.units))
}
