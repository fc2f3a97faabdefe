// A block that is read ahead.
ghost use Rattle.std.specs.Prelude.{◌≡◌, ◌+◌, ◌∷◌, ◌<◌, ◌^◌};
ghost use Rattle.std.specs.Option.{option_map};
ghost use Rattle.fd_certfile.specs.Ahead.{GivesAhead};
ghost use Rattle.fd_certfile.specs.Blocks.{count_of};
ghost use Rattle.fd_certfile.specs.Lines.{lines_of, solution};
ghost use Rattle.fd_certfile.specs.Readings.{due_in, lines_before, moved};
ghost use Rattle.fd_certfile.specs.Views.{head, view};

use crate::block::{Part, acts, parts, rows};
use crate::cells::Cells;
use crate::fault::Stop;
use crate::line::{Line, read_line};
use crate::row::is_place;
use crate::version::Version;
use fd_lines::cut;
use std::alloc::Global;

/// The numbers of a solution line.
#[derive(Clone, Copy, Debug, Drop)]
pub(crate) struct Head {
    pub number: i128,
    pub hour: i128,
    pub round: i128,
    pub size: i128,
}

/// A block that stands next: its unknowns and the entries of its inverse, kept where its size is due; the bytes from
/// its acts on, and those behind it; and how many lines it has.
#[derive(Debug, Drop)]
pub(crate) struct Ahead<'a> {
    pub head: Head,
    pub parts: Vec<Part>,
    pub cells: Cells,
    pub acts: &'a [u8],
    pub rest: &'a [u8],
    pub lines: u128,
}

// A number of things; none for a negative one.
fn count_of(size: i128) -> u128
    ensures { result ≡ count_of size }
{
    if size < 0 { 0 } else { size as u128 }
}

// The same, with so many lines before.
fn moved(stop: Stop, lines: u128) -> Stop
    requires { lines + lines_before stop < 2 ^ 128 }
    ensures { result ≡ moved lines stop }
{
    match stop {
        Stop::NoMemory => Stop::NoMemory,
        Stop::Refused { behind } => Stop::Refused {
            behind: lines + behind,
        },
    }
}

fn head_of(line: &Line<'_>) -> Option<Head>
    ensures { option_map head result ≡ due_in (view line.now) }
{
    match line {
        Line::Solution(number, hour, round, size) => Some(Head {
            number: *number,
            hour: *hour,
            round: *round,
            size: *size,
        }),
        _ => None,
    }
}

// What follows a solution line.
fn body(
    alloc: Global,
    version: Version,
    due: u32,
    head: Head,
    bytes: &[u8],
) -> Result<Ahead<'_>, Stop>
    ensures { GivesAhead version due result (solution head.number head.hour head.round head.size ∷ lines_of bytes.now) }
{
    // read for its length alone, which bounds the number of lines
    let _length = bytes.len();
    let keep = is_place(u128::from(due), head.size);
    let count = count_of(head.size);
    let (parts, rest) = match parts(alloc, keep, count, bytes) {
        Ok(read) => read,
        Err(stop) => return Err(moved(stop, 1)),
    };
    let (cells, behind) = match rows(alloc, keep, version, count as u64, rest) {
        Ok(read) => read,
        Err(stop) => return Err(moved(stop, 1 + count)),
    };
    let (made, rest) = acts(behind);
    Ok(Ahead {
        head,
        parts,
        cells,
        acts: behind,
        rest,
        lines: 1 + (count + (count + made)),
    })
}

/// The next block in a version, whose numbers are kept where it has the size that is due; or why there is none.
pub(crate) fn read_block(
    alloc: Global,
    version: Version,
    due: u32,
    bytes: &[u8],
) -> Result<Ahead<'_>, Stop>
    ensures { GivesAhead version due result (lines_of bytes.now) }
{
    match cut(bytes, b'\n') {
        Some((text, more)) => match head_of(&read_line(text)) {
            Some(head) => body(alloc, version, due, head, more),
            None => Err(Stop::Refused { behind: 0 }),
        },
        None => Err(Stop::Refused { behind: 0 }),
    }
}
