// The lines of a block.
ghost use Rattle.std.specs.Prelude.{◌≡◌, ◌<◌, ◌^◌, ◌++◌, OnOk, IfOk, length, map};
ghost use Rattle.std.specs.List.{All, zip};
ghost use Rattle.fd_lines.specs.fd_outside.Emitted.{pieces_of};
ghost use Rattle.fd_lines.specs.Numbered.{numbered_lines};
ghost use Rattle.fd_lines.specs.WordLines.{line_bytes};
ghost use Rattle.fd_rowfile.specs.Blocks.{act_line, bound_line, part_line, row_line};
ghost use Rattle.fd_rowfile.specs.Views.{act, part};
ghost use Rattle.fd_rowfile.specs.Written.{AreLinesOf, IsClaimOf, block_of, made_bound, made_row};

use crate::data::{Act, Part};
use crate::texts::{
    act_record, bound_record, box_record, part_record, row_record, solution_record,
};
use fd_derived::{Claim, Row};
use fd_lines::Record;
use std::alloc::{AllocError, Global};

// Adds the lines of unknowns.
fn push_parts(alloc: Global, records: &mut Vec<Record>, parts: &[Part]) -> Result<(), AllocError>
    ensures { OnOk result (pieces_of records.new.items ≡ pieces_of records.old.items ++ map line_bytes (numbered_lines part_line 0 (map part parts.now))) }
{
    for place in 0..parts.len() {
        records.push(part_record(alloc, place, &parts[place])?)?;
    }
    Ok(())
}

// Adds the lines of rows.
fn push_rows(
    alloc: Global,
    records: &mut Vec<Record>,
    rows: &[Row],
    heights: &[u128],
) -> Result<(), AllocError>
    requires long { length heights.now ≡ length rows.now }
    requires low { All (λ h. h < 2 ^ 127) heights.now }
    ensures { OnOk result (pieces_of records.new.items ≡ pieces_of records.old.items ++ map line_bytes (numbered_lines row_line 0 (map made_row (zip rows.now heights.now)))) }
{
    let mut text = Vec::new(alloc);
    for place in 0..rows.len() {
        records.push(row_record(alloc, &mut text, place, &rows[place], heights[place])?)?;
    }
    Ok(())
}

// Adds the lines of bounds.
fn push_bounds(
    alloc: Global,
    records: &mut Vec<Record>,
    bounding: &[usize],
    bounds: &[u128],
) -> Result<(), AllocError>
    requires long { length bounds.now ≡ length bounding.now }
    requires low { All (λ b. b < 2 ^ 127) bounds.now }
    ensures { OnOk result (pieces_of records.new.items ≡ pieces_of records.old.items ++ map line_bytes (numbered_lines bound_line 0 (map made_bound (zip bounding.now bounds.now)))) }
{
    for place in 0..bounding.len() {
        records.push(bound_record(alloc, place, bounding[place], bounds[place])?)?;
    }
    Ok(())
}

// Adds the lines of acts.
fn push_acts(alloc: Global, records: &mut Vec<Record>, acts: &[Act]) -> Result<(), AllocError>
    ensures { OnOk result (pieces_of records.new.items ≡ pieces_of records.old.items ++ map line_bytes (map act_line (map act acts.now))) }
{
    for made in acts {
        records.push(act_record(alloc, made)?)?;
    }
    Ok(())
}

/// The lines of a block of version 3, one record each: its solution line, its box, its unknowns, the rows with their
/// heights, the bounds, and its acts. `number` is that of the settle in the run, from 1; the hour is 0 in a snapshot;
/// rounds count from 0; parts of the box are weights divided by `divisor`. Rows and bounds have the units of a claim of
/// derived rows. It takes the time and the memory of its bytes.
///
/// # Errors
/// `AllocError` where memory is refused.
pub fn write_block(
    alloc: Global,
    number: u32,
    hour: u32,
    round: u32,
    divisor: u32,
    parts: &[Part],
    claim: &Claim,
    acts: &[Act],
) -> Result<Vec<Record>, AllocError>
    requires { IsClaimOf (length parts.now) claim.now }
    ensures { IfOk result (λ rs. AreLinesOf (pieces_of rs.items) (block_of number hour round divisor parts.now claim.now acts.now)) }
{
    let mut records = Vec::new(alloc);
    records.push(solution_record(alloc, number, hour, round, parts.len())?)?;
    records.push(box_record(alloc, divisor)?)?;
    push_parts(alloc, &mut records, parts)?;
    push_rows(alloc, &mut records, &claim.rows, &claim.heights)?;
    push_bounds(alloc, &mut records, &claim.bounding, &claim.bounds)?;
    push_acts(alloc, &mut records, acts)?;
    Ok(records)
}
