// The lines of a block: its unknowns, the rows of its inverse, and its acts.
ghost use Rattle.std.specs.Prelude.{◌≡◌, ◌+◌, ◌∷◌, ◌++◌, [], IfOk, OnOk, length, map};
ghost use Rattle.std.specs.Option.{option_map};
ghost use Rattle.fd_certfile.specs.Blocks.{acts_at, part_at};
ghost use Rattle.fd_certfile.specs.Lines.{lines_of};
ghost use Rattle.fd_certfile.specs.Readings.{Keeps, act_in, as_they_are, cells_of, kept, parts_at, rows_at};
ghost use Rattle.fd_certfile.specs.Views.{act, part, view};

use crate::cells::Cells;
use crate::fault::Stop;
use crate::line::{Line, read_line};
use crate::row::{is_place, push_row};
use crate::version::Version;
use fd_lines::cut;
use std::alloc::{AllocError, Global};

/// What a certificate claims of an unknown and its row, in whole microvolts or microamperes.
#[derive(Clone, Copy, Debug, Drop)]
pub struct Part {
    pub centre: i128,
    pub radius: i128,
    pub mismatch: i128,
}

/// An act as a certificate claims it: milliseconds, the number of a control, and signed steps.
#[derive(Clone, Copy, Debug, Drop)]
pub(crate) struct ClaimedAct {
    pub time: i128,
    pub control: i128,
    pub steps: i128,
}

fn part_of(place: u128, line: &Line<'_>) -> Option<Part>
    ensures { option_map part result ≡ part_at place (view line.now) }
{
    match line {
        Line::State(number, centre, radius, mismatch) => {
            if is_place(place, *number) {
                Some(Part {
                    centre: *centre,
                    radius: *radius,
                    mismatch: *mismatch,
                })
            } else {
                None
            }
        }
        _ => None,
    }
}

// Adds a part where parts are kept.
fn push_kept(found: &mut Vec<Part>, keep: bool, next: Part) -> Result<(), AllocError>
    ensures { OnOk result (map part found.new.items ≡ map part found.old.items ++ kept keep (part next ∷ [])) }
{
    if keep {
        found.push(next)?;
    }
    Ok(())
}

/// The next so many lines of unknowns, of which the parts are kept or none, and the bytes behind them.
pub(crate) fn parts(
    alloc: Global,
    keep: bool,
    count: u128,
    bytes: &[u8],
) -> Result<(Vec<Part>, &[u8]), Stop>
    ensures { Keeps as_they_are keep (λ x. map part x.0.items) (λ x. lines_of x.1.now) result (lines_of bytes.now) (parts_at count (lines_of bytes.now)) }
{
    let mut found = Vec::new(alloc);
    let mut rest = bytes;
    for place in 0..count {
        match cut(rest, b'\n') {
            Some((text, more)) => {
                match part_of(place, &read_line(text)) {
                    Some(part) => push_kept(&mut found, keep, part)?,
                    None => return Err(Stop::Refused { behind: place }),
                }
                rest = more;
            }
            None => return Err(Stop::Refused { behind: place }),
        }
    }
    Ok((found, rest))
}

// Room for the entries of so many rows of so many, where they are kept.
fn room(alloc: Global, keep: bool, count: u64) -> Result<Cells, AllocError>
    ensures { IfOk result (λ cells. cells ≡ []) }
{
    if !keep {
        return Ok(Cells::new(alloc));
    }
    match usize::try_from(count.saturating_mul(count)) {
        Ok(places) => Cells::with_capacity(alloc, places),
        Err(_) => Err(AllocError),
    }
}

/// The next so many rows of an inverse in a version, of which the entries are kept one after another or none, and the bytes behind
/// them.
pub(crate) fn rows(
    alloc: Global,
    keep: bool,
    version: Version,
    count: u64,
    bytes: &[u8],
) -> Result<(Cells, &[u8]), Stop>
    ensures { Keeps cells_of keep (λ x. x.0) (λ x. lines_of x.1.now) result (lines_of bytes.now) (rows_at version count (lines_of bytes.now)) }
{
    let mut cells = room(alloc, keep, count)?;
    let mut rest = bytes;
    for place in 0..count as u128 {
        match cut(rest, b'\n') {
            Some((text, more)) => {
                if !push_row(&mut cells, keep, version, count, place, &read_line(text))? {
                    return Err(Stop::Refused { behind: place });
                }
                rest = more;
            }
            None => return Err(Stop::Refused { behind: place }),
        }
    }
    Ok((cells, rest))
}

/// The act of a line, if it is one.
pub(crate) fn act_of(line: &Line<'_>) -> Option<ClaimedAct>
    ensures { option_map act result ≡ act_in (view line.now) }
{
    match line {
        Line::Act(time, control, steps) => Some(ClaimedAct {
            time: *time,
            control: *control,
            steps: *steps,
        }),
        _ => None,
    }
}

/// How many acts stand before the first line that isn't one, and the bytes from there on.
pub(crate) fn acts(bytes: &[u8]) -> (u128, &[u8])
    ensures count { length (acts_at (lines_of bytes.now)).0 ≡ result.0 }
    ensures rest { (acts_at (lines_of bytes.now)).1 ≡ lines_of result.1.now }
    ensures lines { length (lines_of bytes.now) ≡ result.0 + length (lines_of result.1.now) }
{
    // read for its length alone, which bounds the number of lines
    let _length = bytes.len();
    let mut count = 0;
    let mut rest = bytes;
    while let Some((text, more)) = cut(rest, b'\n') {
        match act_of(&read_line(text)) {
            Some(_act) => count += 1,
            None => return (count, rest),
        }
        rest = more;
    }
    (count, rest)
}
