// Values that are square matrices, written whole or as a lower triangle.
ghost use Rattle.std.specs.Prelude.{◌≡◌, ◌++◌, ◌==◌, length, IfOk};
ghost use Rattle.std.specs.List.{list_all};
ghost use Rattle.dss_model.specs.Answers.{Gives, Makes};
ghost use Rattle.dss_values.specs.Forms.{is_within};
ghost use Rattle.dss_values.specs.Matrices.{is_square, is_triangle_from, cell, mirrored, first_of, joined, symmetric, whole_matrix, rows_within, matrix_between};

use crate::numbers::is_in_range;
use dss_model::{ModelError, ModelFault, Numbers, Pair, Row, matrix};
use std::alloc::{AllocError, Global};

fn is_row_in_range(row: &Row, low: i128, high: i128) -> bool
    ensures { result ≡ list_all (is_within low high) row.now }
{
    row.as_slice()
        .iter()
        .all(|number| is_in_range(*number, low, high))
}

fn are_rows_in_range(rows: &[Row], low: i128, high: i128) -> bool
    ensures { result ≡ list_all (list_all (is_within low high)) rows.now }
{
    rows.iter().all(|row| is_row_in_range(row, low, high))
}

fn check_rows(rows: &[Row], low: i128, high: i128) -> Result<(), ModelError>
    ensures { Makes rows.now result (rows_within low high rows.now) }
{
    if are_rows_in_range(rows, low, high) {
        Ok(())
    } else {
        Err(ModelError::Fault(ModelFault::OutOfRange))
    }
}

fn has_length(row: &Row, count: usize) -> bool
    ensures { result ≡ (length row.now == count) }
{
    row.as_slice().len() == count
}

// Whether each row has as many cells as there are rows.
fn has_whole_rows(rows: &[Row]) -> bool
    ensures { result ≡ is_square rows.now }
{
    let count = rows.len();
    rows.iter().all(|row| has_length(row, count))
}

// Whether each row has one cell more than the row before.
fn has_rising_rows(rows: &[Row]) -> bool
    ensures { result ≡ is_triangle_from 0 rows.now }
{
    for (i, row) in rows.iter().enumerate() {
        if !has_length(row, i + 1) {
            return false;
        }
    }
    true
}

fn cell_at(rows: &[Row], row: usize, column: usize) -> i128
    ensures { result ≡ cell rows.now row column }
{
    match rows.get(row) {
        Some(row) => row.as_slice().get(column).copied().unwrap_or(0),
        None => 0,
    }
}

#[tactic(auto, unfolding(crate::specs::Matrices::mirrored))]
fn mirrored_cell(rows: &[Row], row: usize, column: usize) -> i128
    ensures { result ≡ mirrored rows.now row column }
{
    cell_at(rows, row.max(column), row.min(column))
}

// Adds one row of the symmetric matrix.
fn push_row(cells: &mut Vec<i128>, rows: &[Row], row: usize) -> Result<(), AllocError>
    ensures { IfOk result (λ _. cells.new.items ≡ cells.old.items ++ first_of (mirrored rows.now row) (length rows.now)) }
{
    for column in 0..rows.len() {
        cells.push(mirrored_cell(rows, row, column))?;
    }
    Ok(())
}

fn symmetric_cells(alloc: Global, rows: &[Row]) -> Result<Vec<i128>, AllocError>
    ensures { IfOk result (λ v. v.items ≡ symmetric rows.now) }
{
    let mut cells = Vec::new(alloc);
    for row in 0..rows.len() {
        push_row(&mut cells, rows, row)?;
    }
    Ok(cells)
}

fn joined_cells(alloc: Global, rows: &[Row]) -> Result<Vec<i128>, AllocError>
    ensures { IfOk result (λ v. v.items ≡ joined rows.now) }
{
    let mut cells = Vec::new(alloc);
    for row in rows {
        cells.extend_from_slice(row.as_slice())?;
    }
    Ok(cells)
}

#[tactic(auto, unfolding(crate::specs::Matrices::whole_matrix))]
fn whole_cells(alloc: Global, rows: &[Row]) -> Result<Vec<i128>, ModelError>
    ensures { Gives (λ v. v.items) result (whole_matrix rows.now) }
{
    if has_whole_rows(rows) {
        Ok(joined_cells(alloc, rows)?)
    } else if has_rising_rows(rows) {
        Ok(symmetric_cells(alloc, rows)?)
    } else {
        Err(ModelError::Fault(ModelFault::WrongCount))
    }
}

/// A square matrix of numbers from `low` to `high`, whole and row by row.
#[tactic(auto, unfolding(crate::specs::Matrices::matrix_between))]
pub fn matrix_within(
    alloc: Global,
    pair: &Pair,
    low: i128,
    high: i128,
) -> Result<Numbers, ModelError>
    ensures { Gives (λ numbers. numbers) result (matrix_between low high pair.now) }
{
    if !pair.grouped {
        return Err(ModelError::Fault(ModelFault::BadValue));
    }
    let rows = matrix(alloc, pair.value.as_str())?;
    check_rows(&rows, low, high)?;
    Ok(Numbers::new(whole_cells(alloc, &rows)?))
}
