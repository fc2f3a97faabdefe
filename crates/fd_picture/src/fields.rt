// The records of a report, and their fields.
ghost use Rattle.std.specs.Prelude.{◌≡◌, ◌++◌, ◌∷◌, IfOk, OnOk, true};
ghost use Rattle.csv.specs.Reading.{reader_state, reader_trim, strip_bom, took_first};
ghost use Rattle.csv.specs.Records.{fields_of};
ghost use Rattle.csv.specs.declared.parser.State.TheVariants as st;
ghost use Rattle.csv.specs.declared.reader.Trim.TheVariants as trim;
ghost use Rattle.fd_picture.specs.Fields.{at, spaced};
ghost use Rattle.fd_picture.specs.Readers.{IsPlain, Reads};

use crate::text::push;
use csv::{ByteRecord, Reader, ReaderBuilder};
use std::alloc::{AllocError, Global};

/// A reader of the records of a report.
pub(crate) fn reader_of(alloc: Global, bytes: &[u8]) -> Reader<&[u8]>
    ensures plain { IsPlain result (strip_bom bytes.now) }
    ensures start { reader_state result ≡ st.StartRecord }
{
    ReaderBuilder::new()
        .has_headers(false)
        .flexible(true)
        .from_reader(alloc, bytes)
}

/// The next record, and whether there is one. Over bytes nothing but memory can fail.
#[tactic(auto, unfolding(crate::specs::Readers::Reads))]
pub(crate) fn next_record(
    reader: &mut Reader<&[u8]>,
    row: &mut ByteRecord,
) -> Result<bool, AllocError>
    ensures reads { IfOk result (λ found. Reads reader.old reader.new found (fields_of row.new)) }
    ensures first { OnOk result ((reader_trim reader.old ≡ trim.None) → took_first reader.new ≡ true) }
{
    match reader.read_byte_record(row) {
        Ok(found) => Ok(found),
        Err(_) => Err(AllocError),
    }
}

/// The field at a place, counted from 0, and nothing behind the last.
pub(crate) fn at(row: &ByteRecord, i: usize) -> &[u8]
    ensures { result.now ≡ at (fields_of row.now) i }
{
    match row.get(i) {
        Some(field) => field,
        None => &[],
    }
}

// Adds a field behind a blank.
fn push_field(text: &mut Vec<u8>, field: &[u8]) -> Result<(), AllocError>
    ensures { OnOk result (text.new.items ≡ text.old.items ++ 32 ∷ field.now) }
{
    push(text, b" ")?;
    push(text, field)
}

/// The fields of a record as text, with a blank before each.
pub(crate) fn spaced(alloc: Global, row: &ByteRecord) -> Result<Vec<u8>, AllocError>
    ensures { IfOk result (λ text. text.items ≡ spaced (fields_of row.now)) }
{
    let mut text = Vec::new(alloc);
    for i in 0..row.len() {
        push_field(&mut text, at(row, i))?;
    }
    Ok(text)
}
