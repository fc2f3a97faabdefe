// The texts of lines.
ghost use Rattle.std.specs.Prelude.{◌≡◌, ◌<◌, ◌^◌, ◌++◌, IfOk, OnOk, codes, pos, [], ◌∷◌};
ghost use Rattle.fd_derived.specs.Rows.{derived_row, entries_of};
ghost use Rattle.fd_lines.specs.Texts.{fields_text};
ghost use Rattle.fd_lines.specs.WordLines.{line, line_bytes};
ghost use Rattle.fd_rowfile.specs.Blocks.{act_line, bound_line, list_fields, part_line, row_line};
ghost use Rattle.fd_rowfile.specs.Views.{act, part};
ghost use Rattle.fd_rowfile.specs.Written.{made_bound, made_row};

use crate::data::{Act, Part};
use fd_derived::{Entry, Row};
use fd_lines::{Bytes, Record, line_record, push_count, push_number, push_pair};
use std::alloc::{AllocError, Global};

/// The first line of a block.
pub(crate) fn solution_record(
    alloc: Global,
    number: u32,
    hour: u32,
    round: u32,
    size: usize,
) -> Result<Record, AllocError>
    ensures { IfOk result (λ r. r.bytes ≡ line_bytes (line (codes "solution") (pos number ∷ pos hour ∷ pos round ∷ pos size ∷ []))) }
{
    let numbers = [
        i128::from(number),
        i128::from(hour),
        i128::from(round),
        size as i128,
    ];
    line_record(alloc, b"solution", &numbers, &[])
}

/// The line of a box.
pub(crate) fn box_record(alloc: Global, divisor: u32) -> Result<Record, AllocError>
    ensures { IfOk result (λ r. r.bytes ≡ line_bytes (line (codes "box") (pos divisor ∷ []))) }
{
    line_record(alloc, b"box", &[i128::from(divisor)], &[])
}

/// The line of an unknown.
pub(crate) fn part_record(alloc: Global, place: usize, made: &Part) -> Result<Record, AllocError>
    ensures { IfOk result (λ r. r.bytes ≡ line_bytes (part_line place (part made.now))) }
{
    let numbers = [place as i128, made.centre, made.radius, made.mismatch];
    line_record(alloc, b"x", &numbers, &[])
}

/// The line of an unknown's bound.
pub(crate) fn bound_record(
    alloc: Global,
    place: usize,
    row: usize,
    bound: u128,
) -> Result<Record, AllocError>
    requires { bound < 2 ^ 127 }
    ensures { IfOk result (λ r. r.bytes ≡ line_bytes (bound_line place (made_bound (row, bound)))) }
{
    let numbers = [place as i128, row as i128, bound as i128];
    line_record(alloc, b"bound", &numbers, &[])
}

/// The line of an act.
pub(crate) fn act_record(alloc: Global, made: &Act) -> Result<Record, AllocError>
    ensures { IfOk result (λ r. r.bytes ≡ line_bytes (act_line (act made.now))) }
{
    let numbers = [made.time, made.control, made.steps];
    line_record(alloc, b"act", &numbers, &[])
}

// Adds pairs behind their number.
fn push_list(text: &mut Vec<u8>, pairs: &[Entry]) -> Result<(), AllocError>
    ensures { OnOk result (text.new.items ≡ text.old.items ++ fields_text (list_fields (entries_of pairs.now))) }
{
    push_count(text, pairs.len())?;
    for place in 0..pairs.len() {
        let entry = &pairs[place];
        push_pair(text, entry.place, entry.units)?;
    }
    Ok(())
}

/// The line of a row with its height. It is made in a text whose room serves again, and copied.
#[tactic(auto, using(crate::proofs::RowTexts::row_text))]
pub(crate) fn row_record(
    alloc: Global,
    text: &mut Vec<u8>,
    place: usize,
    row: &Row,
    height: u128,
) -> Result<Record, AllocError>
    requires { height < 2 ^ 127 }
    ensures { IfOk result (λ r. r.bytes ≡ line_bytes (row_line place (made_row (row.now, height)))) }
{
    text.clear();
    text.extend_from_slice(b"row")?;
    push_count(text, place)?;
    push_number(text, height as i128)?;
    push_list(text, &row.equations)?;
    push_list(text, &row.others)?;
    push_list(text, &row.left)?;
    text.push(b'\n')?;
    Ok(Record {
        bytes: Bytes::new(Vec::from_slice(alloc, text.as_slice())?),
    })
}
