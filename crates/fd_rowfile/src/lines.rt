// The lines of a block, each read of the bytes that begin with it.
ghost use Rattle.std.specs.Prelude.{◌≡◌, Ok, Err, IfNone, IfSome};
ghost use Rattle.std.specs.Option.{option_map};
ghost use Rattle.fd_lines.specs.WordLines.{lines_of, view};
ghost use Rattle.fd_rowfile.specs.Blocks.{act_in, bound_at, box_in, first_at, head_in, is_place, part_at};
ghost use Rattle.fd_rowfile.specs.Views.{act, bound, head, part};

use crate::data::{Act, Bound, Head, Part};
use fd_lines::{Line, fields_by, four, next_line, one, three};

/// Whether a number is that of this place.
pub(crate) fn is_place(place: u128, number: i128) -> bool
    ensures { result ≡ is_place place number }
{
    number >= 0 && number as u128 == place
}

fn head_of(line: &Line<'_>) -> Option<Head>
    ensures { option_map head result ≡ head_in (view line.now) }
{
    match fields_by(line, b"solution") {
        Some(fields) => match four(fields) {
            Some((number, hour, round, size)) => Some(Head {
                number,
                hour,
                round,
                size,
            }),
            None => None,
        },
        None => None,
    }
}

/// The numbers of a solution line, and the bytes behind it.
#[tactic(auto, using(crate::proofs::FirstLines::first_read, crate::proofs::FirstLines::first_not, crate::proofs::FirstLines::first_end))]
pub(crate) fn next_head(bytes: &[u8]) -> Option<(Head, &[u8])>
    ensures some { IfSome result (λ p. first_at head_in (lines_of bytes.now) ≡ Ok (head p.0, lines_of p.1.now)) }
    ensures none { IfNone result (first_at head_in (lines_of bytes.now) ≡ Err (lines_of bytes.now)) }
{
    let (line, more) = next_line(bytes)?;
    let head = head_of(&line)?;
    Some((head, more))
}

fn box_of(line: &Line<'_>) -> Option<i128>
    ensures { result ≡ box_in (view line.now) }
{
    match fields_by(line, b"box") {
        Some(fields) => one(fields),
        None => None,
    }
}

/// The divisor of a box line, and the bytes behind it.
#[tactic(auto, using(crate::proofs::FirstLines::first_read, crate::proofs::FirstLines::first_not, crate::proofs::FirstLines::first_end))]
pub(crate) fn next_box(bytes: &[u8]) -> Option<(i128, &[u8])>
    ensures some { IfSome result (λ p. first_at box_in (lines_of bytes.now) ≡ Ok (p.0, lines_of p.1.now)) }
    ensures none { IfNone result (first_at box_in (lines_of bytes.now) ≡ Err (lines_of bytes.now)) }
{
    let (line, more) = next_line(bytes)?;
    let divisor = box_of(&line)?;
    Some((divisor, more))
}

fn part_of(place: u128, line: &Line<'_>) -> Option<Part>
    ensures { option_map part result ≡ part_at place (view line.now) }
{
    let fields = fields_by(line, b"x")?;
    let (number, centre, radius, mismatch) = four(fields)?;
    if !is_place(place, number) {
        return None;
    }
    Some(Part {
        centre,
        radius,
        mismatch,
    })
}

/// The unknown at this place, and the bytes behind its line.
#[tactic(auto, using(crate::proofs::FirstLines::first_read, crate::proofs::FirstLines::first_not, crate::proofs::FirstLines::first_end))]
pub(crate) fn next_part(place: u128, bytes: &[u8]) -> Option<(Part, &[u8])>
    ensures some { IfSome result (λ p. first_at (part_at place) (lines_of bytes.now) ≡ Ok (part p.0, lines_of p.1.now)) }
    ensures none { IfNone result (first_at (part_at place) (lines_of bytes.now) ≡ Err (lines_of bytes.now)) }
{
    let (line, more) = next_line(bytes)?;
    let part = part_of(place, &line)?;
    Some((part, more))
}

fn bound_of(place: u128, line: &Line<'_>) -> Option<Bound>
    ensures { option_map bound result ≡ bound_at place (view line.now) }
{
    let fields = fields_by(line, b"bound")?;
    let (number, row, bound) = three(fields)?;
    if !is_place(place, number) {
        return None;
    }
    Some(Bound { row, bound })
}

/// The bound at this place, and the bytes behind its line.
#[tactic(auto, using(crate::proofs::FirstLines::first_read, crate::proofs::FirstLines::first_not, crate::proofs::FirstLines::first_end))]
pub(crate) fn next_bound(place: u128, bytes: &[u8]) -> Option<(Bound, &[u8])>
    ensures some { IfSome result (λ p. first_at (bound_at place) (lines_of bytes.now) ≡ Ok (bound p.0, lines_of p.1.now)) }
    ensures none { IfNone result (first_at (bound_at place) (lines_of bytes.now) ≡ Err (lines_of bytes.now)) }
{
    let (line, more) = next_line(bytes)?;
    let bound = bound_of(place, &line)?;
    Some((bound, more))
}

fn act_of(line: &Line<'_>) -> Option<Act>
    ensures { option_map act result ≡ act_in (view line.now) }
{
    match fields_by(line, b"act") {
        Some(fields) => match three(fields) {
            Some((time, control, steps)) => Some(Act {
                time,
                control,
                steps,
            }),
            None => None,
        },
        None => None,
    }
}

/// The act of the next line, and the bytes behind it.
#[tactic(auto, using(crate::proofs::FirstLines::first_read, crate::proofs::FirstLines::first_not, crate::proofs::FirstLines::first_end))]
pub(crate) fn next_act(bytes: &[u8]) -> Option<(Act, &[u8])>
    ensures some { IfSome result (λ p. first_at act_in (lines_of bytes.now) ≡ Ok (act p.0, lines_of p.1.now)) }
    ensures none { IfNone result (first_at act_in (lines_of bytes.now) ≡ Err (lines_of bytes.now)) }
{
    let (line, more) = next_line(bytes)?;
    let act = act_of(&line)?;
    Some((act, more))
}
