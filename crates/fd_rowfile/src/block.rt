// A block.
ghost use Rattle.std.specs.Prelude.{◌≡◌, IfErr, IfOk, map};
ghost use Rattle.fd_lines.specs.Numbered.{numbered_at};
ghost use Rattle.fd_lines.specs.WordLines.{lines_of};
ghost use Rattle.fd_rowfile.specs.Blocks.{acts_at, block_at, bound_at, count_of, part_at};
ghost use Rattle.fd_rowfile.specs.Held.{IsBlock, Reads, Stops};
ghost use Rattle.fd_rowfile.specs.Views.{act, bound, part};

use crate::data::{Act, Bound, Head, Part};
use crate::lines::{next_act, next_bound, next_box, next_head, next_part};
use crate::rows::{HeldRow, rows};
use crate::stop::Stop;
use std::alloc::{AllocError, Global};

/// A block of version 3 as it is held: the numbers of its solution line, the divisor of its box, a part and a bound for
/// each unknown, its rows with their heights, and its acts. Of rows the numbers that need more than 64 bits are held as
/// the greatest of their sign.
#[derive(Debug, Drop)]
pub struct HeldBlock {
    pub head: Head,
    pub divisor: i128,
    pub parts: Vec<Part>,
    pub rows: Vec<HeldRow>,
    pub bounds: Vec<Bound>,
    pub acts: Vec<Act>,
}

// A number of things; none for a negative one.
fn count_of(size: i128) -> u128
    ensures { result ≡ count_of size }
{
    if size < 0 { 0 } else { size as u128 }
}

// The next so many unknowns, and the bytes behind them.
fn parts(alloc: Global, count: u128, bytes: &[u8]) -> Result<(Vec<Part>, &[u8]), Stop<'_>>
    ensures { Reads (λ z. (map part z.0.items, lines_of z.1.now)) result (numbered_at part_at count 0 (lines_of bytes.now)) }
{
    let mut found = Vec::new(alloc);
    let mut rest = bytes;
    for place in 0..count {
        match next_part(place, rest) {
            Some((part, more)) => {
                found.push(part)?;
                rest = more;
            }
            None => return Err(Stop::Refused(rest)),
        }
    }
    Ok((found, rest))
}

// The next so many bounds, and the bytes behind them.
fn bounds(alloc: Global, count: u128, bytes: &[u8]) -> Result<(Vec<Bound>, &[u8]), Stop<'_>>
    ensures { Reads (λ z. (map bound z.0.items, lines_of z.1.now)) result (numbered_at bound_at count 0 (lines_of bytes.now)) }
{
    let mut found = Vec::new(alloc);
    let mut rest = bytes;
    for place in 0..count {
        match next_bound(place, rest) {
            Some((bound, more)) => {
                found.push(bound)?;
                rest = more;
            }
            None => return Err(Stop::Refused(rest)),
        }
    }
    Ok((found, rest))
}

// The acts up to the first line that isn't one, and the bytes from there on.
fn acts(alloc: Global, bytes: &[u8]) -> Result<(Vec<Act>, &[u8]), AllocError>
    ensures { IfOk result (λ z. acts_at (lines_of bytes.now) ≡ (map act z.0.items, lines_of z.1.now)) }
{
    let mut found = Vec::new(alloc);
    let mut rest = bytes;
    while let Some((act, more)) = next_act(rest) {
        found.push(act)?;
        rest = more;
    }
    Ok((found, rest))
}

/// The next block of bytes, and the bytes behind it.
///
/// # Errors
/// `Refused` with the bytes from the first line on that the grammar refuses, or misses; `NoMemory` where memory is
/// refused. No room is made for lines or pairs that aren't there.
pub fn read_block(alloc: Global, bytes: &[u8]) -> Result<(HeldBlock, &[u8]), Stop<'_>>
    ensures read { IfOk result (λ z. IsBlock (block_at (lines_of bytes.now)) z.0 (lines_of z.1.now)) }
    ensures refused { IfErr result (λ e. Stops e (block_at (lines_of bytes.now))) }
{
    let Some((head, rest)) = next_head(bytes) else {
        return Err(Stop::Refused(bytes));
    };
    let Some((divisor, rest)) = next_box(rest) else {
        return Err(Stop::Refused(rest));
    };
    let count = count_of(head.size);
    let (parts, rest) = match parts(alloc, count, rest) {
        Ok(read) => read,
        Err(stop) => return Err(stop),
    };
    let (rows, rest) = match rows(alloc, count, rest) {
        Ok(read) => read,
        Err(stop) => return Err(stop),
    };
    let (bounds, rest) = match bounds(alloc, count, rest) {
        Ok(read) => read,
        Err(stop) => return Err(stop),
    };
    let (acts, rest) = acts(alloc, rest)?;
    let block = HeldBlock {
        head,
        divisor,
        parts,
        rows,
        bounds,
        acts,
    };
    Ok((block, rest))
}
