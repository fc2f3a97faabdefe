// The elimination of each unknown in order.
ghost use Rattle.std.specs.Prelude.{◌≡◌, ℕ, ◌+◌, ◌<◌, ◌≤◌, ◌^◌, ◌∷◌, [], pos, nat_abs, nat_le, length, List, IfOk, MatchResult};
ghost use Rattle.std.specs.Bool.{OnTrue};
ghost use Rattle.std.specs.List.{All};
ghost use Rattle.fd_derived.specs.Rows.{coefficient};
ghost use Rattle.fd_derived.specs.declared.entries.Equation.{Equation};
ghost use Rattle.fd_triangles.specs.Columns.{Holds, rows_in};
ghost use Rattle.fd_triangles.specs.Elimination.{HasEnded, IsPast, pair_at, unknown_at};
ghost use Rattle.fd_triangles.specs.Factors.{AreFactors, AreLoaded, AreOrdered, AreRows, Clearing, HasPivot, Running, no_parts};
ghost use Rattle.fd_triangles.specs.Rows.{IsRising, IsRow, number};
ghost use Rattle.fd_triangles.specs.Steps.{IfRange, IsPutFirst, parts_of};
ghost use Rattle.fd_triangles.specs.declared.pair.Pair.{Pair};

use crate::changes::take_out;
use crate::clearing::clear;
use crate::columns::{Column, take_rows};
use crate::fault::{FactorFault, Stop};
use crate::loading::{first_rows, no_columns, no_row};
use crate::pair::Pair;
use fd_derived::{Entry, Equation, Row};
use std::alloc::{AllocError, Global};
use std::mem;

// The least size of a pivot, 2^8.
const LEAST_PIVOT: u64 = 0x100;

// Puts the entry at a place first. False: its number is below 2^8 in size.
fn put_first(row: &mut Vec<Entry>, place: usize) -> Result<bool, AllocError>
    requires { IsRising row.old.items }
    ensures large { IfOk result (λ large. large ≡ nat_le (2 ^ 8) (nat_abs (number row.old.items place))) }
    ensures first { IfOk result (λ large. OnTrue large (IsPutFirst row.old.items row.new.items place)) }
{
    let units = take_out(row, place);
    if units.unsigned_abs() < LEAST_PIVOT {
        return Ok(false);
    }
    row.insert(0, Entry { place, units })?;
    Ok(true)
}

// Clears the rows at these places by the row at t, of which a pivot and the other entries are given.
fn clear_rows(
    work: &mut [Row],
    columns: &mut [Column],
    holding: &[usize],
    pivot: &Entry,
    others: &[Entry],
    t: usize,
) -> Result<(), Stop>
    requires rows { AreRows (length columns.old) work.old }
    requires inside { All (λ i. i < length work.old) holding.now }
    requires others { IsRow (length columns.old) others.now }
    requires apart { number others.now pivot.now.place ≡ pos 0 }
    requires pivot { 0 < nat_abs pivot.now.units }
    requires noted { (c i : ℕ) → Holds columns.old c i → i < length work.old }
    ensures stage { (es : List Equation) (order : List Pair) → HasPivot es order t pivot.now others.now
        → Clearing es order t holding.now 0 work.old columns.old → MatchResult result
        (λ _. Clearing es order t holding.now (length holding.now) work.new columns.new)
        (λ stop. IfRange stop (IsPast es order t)) }
    ensures rows { IfOk result (λ _. AreRows (length columns.new) work.new) }
    ensures columns { IfOk result (λ _. length columns.new ≡ length columns.old) }
    ensures noted { IfOk result (λ _. (c i : ℕ) → Holds columns.new c i → i < length work.new) }
{
    for index in holding {
        match clear(&mut work[*index], columns, *index, pivot, others, t) {
            Ok(()) => {}
            Err(stop) => return Err(stop),
        }
    }
    Ok(())
}

// Eliminates the unknown of the place t by its row, which is then done.
fn eliminate(
    alloc: Global,
    work: &mut [Row],
    columns: &mut [Column],
    done: &mut Vec<Row>,
    unknown: usize,
    t: usize,
) -> Result<(), FactorFault>
    requires rows { AreRows (length columns.old) work.old }
    requires inside { (c i : ℕ) → Holds columns.old c i → i < length work.old }
    requires unknown { unknown < length columns.old }
    requires place { t < length work.old }
    ensures stage { (es : List Equation) (order : List Pair) → unknown ≡ unknown_at es order t
        → Running es order t work.old columns.old done.old.items → MatchResult result
        (λ _. Running es order (t + 1) work.new columns.new done.new.items)
        (HasEnded es order) }
    ensures rows { IfOk result (λ _. AreRows (length columns.new) work.new) }
    ensures columns { IfOk result (λ _. length columns.new ≡ length columns.old) }
    ensures work { IfOk result (λ _. length work.new ≡ length work.old) }
    ensures inside { IfOk result (λ _. (c i : ℕ) → Holds columns.new c i → i < length work.new) }
{
    let mut row = mem::replace(&mut work[t], no_row(alloc));
    if !put_first(&mut row.left, unknown)? {
        return Err(FactorFault::Pivot(unknown));
    }
    let holding = take_rows(alloc, &mut columns[unknown]);
    match clear_rows(work, columns, &holding, &row.left[0], &row.left[1..], t) {
        Ok(()) => done.push(row)?,
        Err(Stop::Range) => return Err(FactorFault::Range(unknown)),
        Err(Stop::NoMemory) => return Err(FactorFault::NoMemory),
    }
    Ok(())
}

// Eliminates each unknown in order.
fn eliminate_all(
    alloc: Global,
    work: &mut [Row],
    columns: &mut [Column],
    done: &mut Vec<Row>,
    order: &[Pair],
) -> Result<(), FactorFault>
    requires rows { AreRows (length columns.old) work.old }
    requires inside { (c i : ℕ) → Holds columns.old c i → i < length work.old }
    requires unknowns { (t : ℕ) → t < length order.now → (pair_at order.now t).unknown < length columns.old }
    requires long { length order.now ≡ length work.old }
    ensures { (es : List Equation) → Running es order.now 0 work.old columns.old done.old.items → MatchResult result
        (λ _. Running es order.now (length order.now) work.new columns.new done.new.items)
        (HasEnded es order.now) }
{
    for t in 0..order.len() {
        match eliminate(alloc, work, columns, done, order[t].unknown, t) {
            Ok(()) => {}
            Err(fault) => return Err(fault),
        }
    }
    Ok(())
}

// The factors, where no row is noted in any column yet.
fn factors_noted(
    alloc: Global,
    equations: &[Equation],
    order: &[Pair],
    columns: &mut [Column],
) -> Result<Vec<Row>, FactorFault>
    requires ordered { AreOrdered equations.now order.now }
    requires long { length columns.old ≡ length equations.now }
    requires none { (c i : ℕ) → Holds columns.old c i → ⊥ }
    ensures { MatchResult result (λ rows. AreFactors equations.now order.now rows.items) (HasEnded equations.now order.now) }
{
    let mut work = first_rows(alloc, equations, order, columns)?;
    let mut done = Vec::with_capacity(alloc, order.len())?;
    match eliminate_all(alloc, &mut work, columns, &mut done, order) {
        Ok(()) => Ok(done),
        Err(fault) => Err(fault),
    }
}

/// The factors of equations in an order of unknowns, each with the equation that eliminates it: a derived row for each
/// place of the order. It takes the equation of its place once, less multiples of the rows at earlier places, and
/// leaves its pivot, at the unknown of its place, and behind it the entries that aren't 0, in rising places.
///
/// There are as many unknowns as equations and as pairs. Of an equation the coefficients count, each place with the
/// sum of its entries; they are in units of 2^-40, as are multiples and what is left, each the nearest such number,
/// ties away from zero. Nothing is asked of the order but that its unknowns and equations exist: where an unknown
/// comes twice, it has no pivot the second time.
///
/// # Errors
/// The first unknown of the order at which the elimination ends: `Pivot` where the pivot is below 2^8 in size, else
/// `Range` where a multiple of its row, or an entry that is left where it is taken off, is past 2^62 in size.
/// `NoMemory` where memory is refused.
pub fn factors(
    alloc: Global,
    equations: &[Equation],
    order: &[Pair],
) -> Result<Vec<Row>, FactorFault>
    requires { AreOrdered equations.now order.now }
    ensures { MatchResult result (λ rows. AreFactors equations.now order.now rows.items) (HasEnded equations.now order.now) }
{
    let mut columns = no_columns(alloc, equations.len())?;
    factors_noted(alloc, equations, order, &mut columns)
}
