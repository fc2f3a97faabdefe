// The texts of a certificate's lines.
ghost use Rattle.std.specs.Prelude.{◌≡◌, ◌++◌, ◌∷◌, IfOk, OnOk, count_by, flat_map, pos};
ghost use Rattle.std.specs.List.{enumerate_from};
ghost use Rattle.fd_certfile.specs.Blocks.{Sparse, fields_of, is_entry, pair_of};
ghost use Rattle.fd_certfile.specs.Lines.{end, header, line_bytes};
ghost use Rattle.fd_certfile.specs.Lines as line;
ghost use Rattle.fd_certfile.specs.Texts.{fields_text};

use fd_lines::{Bytes, Record, line_record, push_count, push_number, push_pair};
use std::alloc::{AllocError, Global};

// How many of the entries of a row aren't 0.
fn count(row: &[i64]) -> usize
    ensures { result ≡ count_by is_entry row.now }
{
    row.iter().filter(|entry| **entry != 0).count()
}

// Adds an entry behind its place, unless it is 0.
fn push_entry(text: &mut Vec<u8>, place: usize, entry: i64) -> Result<(), AllocError>
    ensures { OnOk result (text.new.items ≡ text.old.items ++ fields_text (pair_of (place, entry))) }
{
    if entry != 0 {
        push_pair(text, place, entry)?;
    }
    Ok(())
}

// Adds the entries of a row that aren't 0, each behind its place.
fn push_entries(text: &mut Vec<u8>, row: &[i64]) -> Result<(), AllocError>
    ensures { OnOk result (text.new.items ≡ text.old.items ++ fields_text (flat_map pair_of (enumerate_from 0 row.now))) }
{
    for place in 0..row.len() {
        push_entry(text, place, row[place])?;
    }
    Ok(())
}

/// The line of the row of an inverse at this place, in version 2. It is made in a text whose room serves again, and copied.
#[tactic(auto, using(crate::proofs::RowTexts::row_fields))]
pub(crate) fn row_record(
    alloc: Global,
    text: &mut Vec<u8>,
    place: i128,
    row: &[i64],
) -> Result<Record, AllocError>
    ensures { IfOk result (λ r. r.bytes ≡ line_bytes (line.row (place ∷ fields_of Sparse row.now))) }
{
    text.clear();
    text.extend_from_slice(b"c")?;
    push_number(text, place)?;
    push_count(text, count(row))?;
    push_entries(text, row)?;
    text.push(b'\n')?;
    Ok(Record {
        bytes: Bytes::new(Vec::from_slice(alloc, text.as_slice())?),
    })
}

/// The first line of a certificate, which names version 2.
///
/// # Errors
/// `AllocError` where memory is refused.
pub fn header_record(alloc: Global) -> Result<Record, AllocError>
    ensures { IfOk result (λ r. r.bytes ≡ line_bytes (header (pos 2))) }
{
    line_record(alloc, b"cert", &[2], &[])
}

/// The line behind the last block of a certificate.
///
/// # Errors
/// `AllocError` where memory is refused.
pub fn end_record(alloc: Global) -> Result<Record, AllocError>
    ensures { IfOk result (λ r. r.bytes ≡ line_bytes end) }
{
    line_record(alloc, b"end", &[], &[])
}
