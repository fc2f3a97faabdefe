// Contributions in place of others, so that their sums need not be made anew.
ghost use Rattle.std.specs.Prelude.{◌≡◌, ℕ, true, ◌^◌, ◌≤◌, nat_abs, length};
ghost use Rattle.fd_pattern.specs.fd_system.Contributions.{IsDivided, IsWithin};
ghost use Rattle.fd_equations.specs.Amounts.{AreExchanged, AreGrown, HaveCounts, HaveTermRoom, amount, more, of_term, of_terms};
ghost use Rattle.fd_pattern.specs.Coefficients.{count_at};
ghost use Rattle.fd_pattern.specs.Conditions.{AreLinear};
ghost use Rattle.fd_equations.specs.PartLoads.{slope_counts};

use crate::cells::{Cell, add_term, units};
use fd_pattern::{LoadAt, Pattern, Term};

/// Puts contributions in place of as many others, which the cells have. Where both have the same one nothing is done.
pub fn exchange_terms(pattern: &Pattern, cells: &mut [Cell], old: &[Term], new: &[Term])
    requires long { length cells.old ≡ length pattern.now.places }
    requires as_many { length old.now ≡ length new.now }
    requires old { AreLinear pattern.now.size old.now }
    requires new { AreLinear pattern.now.size new.now }
    requires room { HaveTermRoom pattern.now.places cells.old (2 ^ 78) (2 ^ 24) }
    requires counts { HaveCounts pattern.now.places cells.old (λ p. count_at old.now p.0 p.1) }
    ensures { AreExchanged pattern.now.places cells.old cells.new (of_terms old.now) (of_terms new.now) }
{
    for k in 0..old.len() {
        exchange_term(pattern, cells, &old[k], &new[k]);
    }
}

fn exchange_term(pattern: &Pattern, cells: &mut [Cell], old: &Term, new: &Term)
    requires long { length cells.old ≡ length pattern.now.places }
    requires old_divided { IsDivided old.now }
    requires old_within { IsWithin old.now }
    requires divided { IsDivided new.now }
    requires within { IsWithin new.now }
    requires room { HaveTermRoom pattern.now.places cells.old (2 ^ 80) (2 ^ 25) }
    requires counts { HaveCounts pattern.now.places cells.old (λ p. (of_term old.now p).count) }
    ensures { AreExchanged pattern.now.places cells.old cells.new (of_term old.now) (of_term new.now) }
{
    if !is_same(old, new) {
        take_term(pattern, cells, old);
        add_term(pattern, cells, new);
    }
}

fn is_same(a: &Term, b: &Term) -> bool
    ensures { result ≡ true → a.now ≡ b.now }
{
    a.row == b.row && a.col == b.col && a.num == b.num && a.den == b.den
}

// Takes out a contribution, which the cell at its place has.
fn take_term(pattern: &Pattern, cells: &mut [Cell], term: &Term)
    requires long { length cells.old ≡ length pattern.now.places }
    requires divided { IsDivided term.now }
    requires within { IsWithin term.now }
    requires room { HaveTermRoom pattern.now.places cells.old (2 ^ 80) (2 ^ 25) }
    requires counts { HaveCounts pattern.now.places cells.old (λ p. (of_term term.now p).count) }
    ensures taken { AreGrown pattern.now.places cells.new cells.old (of_term term.now) }
    ensures room { HaveTermRoom pattern.now.places cells.new (2 ^ 81) (2 ^ 26) }
{
    if let Some(k) = pattern.find(term.row, term.col) {
        cells[k] = without_term(cells[k], units(term));
    }
}

fn without_term(cell: Cell, units: i128) -> Cell
    requires units { nat_abs units ≤ 2 ^ 54 }
    requires sum { nat_abs cell.units ≤ 2 ^ 80 }
    requires count { 1 ≤ cell.count }
    ensures { cell ≡ more result (amount units 1 0) }
{
    Cell {
        col: cell.col,
        count: cell.count - 1,
        slopes: cell.slopes,
        units: cell.units - units,
    }
}

/// Whether part loads stand where as many others stand, so that there are as many slopes at each place.
pub fn stand_alike(old: &[LoadAt], new: &[LoadAt]) -> bool
    ensures { result ≡ true → (row col : ℕ) → slope_counts old.now row col ≡ slope_counts new.now row col }
{
    if old.len() != new.len() {
        return false;
    }
    for k in 0..old.len() {
        if !stands_alike(&old[k], &new[k]) {
            return false;
        }
    }
    true
}

fn stands_alike(old: &LoadAt, new: &LoadAt) -> bool
    ensures model { result ≡ true → old.now.load.model ≡ new.now.load.model }
    ensures first { result ≡ true → old.now.first ≡ new.now.first }
    ensures second { result ≡ true → old.now.second ≡ new.now.second }
    ensures magnitude { result ≡ true → old.now.magnitude ≡ new.now.magnitude }
{
    old.load.model == new.load.model
        && old.first == new.first
        && old.second == new.second
        && old.magnitude == new.magnitude
}
