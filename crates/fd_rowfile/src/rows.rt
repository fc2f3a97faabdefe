// Rows of a block.
ghost use Rattle.std.specs.Prelude.{◌≡◌, None, Ok, IfErr, IfOk, IfSome, IfNone};
ghost use Rattle.std.specs.Option.{option_and_then, option_map};
ghost use Rattle.fd_lines.specs.WordLines.{lines_of, numbers_in};
ghost use Rattle.fd_rowfile.specs.Blocks.{placed_row, row_of, row_step, rows_at};
ghost use Rattle.fd_rowfile.specs.Held.{AreRows, IsRowOf, IsRowStep, Stops};

use crate::lines::is_place;
use crate::pairs::{Fit, left, list};
use crate::stop::Stop;
use fd_derived::Row;
use fd_lines::{Fields, are_numbers, fields_by, first, next_line};
use std::alloc::{AllocError, Global};

/// A derived row as it is held, with its height.
#[derive(Debug, Drop)]
pub struct HeldRow {
    pub height: i128,
    pub row: Row,
}

// The row that these fields have in a block of so many unknowns, if they have one.
fn row(alloc: Global, below: u128, fields: Fields<'_>) -> Result<Option<HeldRow>, AllocError>
    ensures some { IfOk result (λ o. IfSome o (λ held. IsRowOf (option_and_then (row_of below) (numbers_in (option_map (λ t. t.now) fields.entry))) held)) }
    ensures none { IfOk result (λ o. IfNone o (option_and_then (row_of below) (numbers_in (option_map (λ t. t.now) fields.entry)) ≡ None)) }
{
    let Some((height, lists)) = first(fields) else {
        return Ok(None);
    };
    let Some((equations, more)) = list(alloc, Fit::Below(below), lists)? else {
        return Ok(None);
    };
    let Some((others, last)) = list(alloc, Fit::Anywhere, more)? else {
        return Ok(None);
    };
    let Some((left, behind)) = left(alloc, below, last)? else {
        return Ok(None);
    };
    match behind {
        Some(_) => Ok(None),
        None => Ok(Some(HeldRow {
            height,
            row: Row {
                equations,
                others,
                left,
            },
        })),
    }
}

// The row that these fields have behind its place.
#[tactic(auto, using(crate::proofs::RowSteps::placed_some, crate::proofs::RowSteps::placed_none, crate::proofs::RowSteps::placed_other, crate::proofs::RowSteps::placed_nothing))]
fn placed(
    alloc: Global,
    below: u128,
    place: u128,
    fields: Fields<'_>,
) -> Result<Option<HeldRow>, AllocError>
    ensures some { IfOk result (λ o. IfSome o (λ held. IsRowOf (option_and_then (placed_row below place) (numbers_in (option_map (λ t. t.now) fields.entry))) held)) }
    ensures none { IfOk result (λ o. IfNone o (option_and_then (placed_row below place) (numbers_in (option_map (λ t. t.now) fields.entry)) ≡ None)) }
{
    let Some((number, lists)) = first(fields) else {
        return Ok(None);
    };
    if !is_place(place, number) {
        return Ok(None);
    }
    row(alloc, below, lists)
}

// The row of the next line, and the bytes behind it; none, where no row line comes next.
#[tactic(auto, using(crate::proofs::RowSteps::step_row, crate::proofs::RowSteps::step_no_row, crate::proofs::RowSteps::step_end, crate::proofs::RowSteps::step_refused, crate::proofs::RowSteps::step_other))]
fn next_row<'a>(
    alloc: Global,
    below: u128,
    place: u128,
    bytes: &'a [u8],
) -> Result<Option<(HeldRow, &'a [u8])>, Stop<'a>>
    ensures row { IfOk result (λ o. IfSome o (λ p. IsRowStep (row_step below place (lines_of bytes.now)) p.0 (lines_of p.1.now))) }
    ensures end { IfOk result (λ o. IfNone o (row_step below place (lines_of bytes.now) ≡ Ok None)) }
    ensures refused { IfErr result (λ e. Stops e (row_step below place (lines_of bytes.now))) }
{
    let Some((line, more)) = next_line(bytes) else {
        return Ok(None);
    };
    let Some(fields) = fields_by(&line, b"row") else {
        return Ok(None);
    };
    match placed(alloc, below, place, fields)? {
        Some(held) => Ok(Some((held, more))),
        None => {
            if are_numbers(fields) {
                Err(Stop::Refused(bytes))
            } else {
                Ok(None)
            }
        }
    }
}

/// The rows up to the first line that is no row line, and the bytes from there on.
pub(crate) fn rows(
    alloc: Global,
    below: u128,
    bytes: &[u8],
) -> Result<(Vec<HeldRow>, &[u8]), Stop<'_>>
    ensures read { IfOk result (λ z. AreRows (rows_at below 0 (lines_of bytes.now)) z.0.items (lines_of z.1.now)) }
    ensures refused { IfErr result (λ e. Stops e (rows_at below 0 (lines_of bytes.now))) }
{
    let mut found = Vec::new(alloc);
    let mut rest = bytes;
    while let Some((held, more)) = next_row(alloc, below, found.len() as u128, rest)? {
        found.push(held)?;
        rest = more;
    }
    Ok((found, rest))
}
