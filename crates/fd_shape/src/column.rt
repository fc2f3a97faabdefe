// The first fields of a file's records, as numbers.
ghost use Rattle.std.specs.Prelude.{◌≡◌, ◌<◌, ◌∷◌, [], true, IfOk, IfErr, IfSome, OnOk, Ok, All, unsigned_abs, if◌then◌else◌};
ghost use Rattle.csv.specs.Reading.{default_config, error_kind, records, stops_reader, strip_bom};
ghost use Rattle.csv.specs.Records.{fields_of};
ghost use Rattle.fd_shape.specs.Column.{Fails, column_of, first_number, number_in};
ghost use Rattle.fd_shape.specs.Left.{IsPlain, kept, records_left, room_for};
ghost use Rattle.fd_shape.specs.declared.fault.ShapeFault.TheVariants.{NoMemory};

use crate::ShapeFault;
use crate::blanks::trimmed;
use csv::{ByteRecord, Reader, ReaderBuilder};
use dss_lexer::number;
use std::alloc::{AllocError, Global};
use std::str;

#[tactic(auto, using(crate::proofs::Numbers::number_in_text, crate::proofs::Numbers::number_in_no_text))]
fn number_of_bytes(text: &[u8]) -> Option<i128>
    ensures value { result ≡ number_in text.now }
    ensures size { IfSome result (λ n. unsigned_abs n < 1_000_000_000_000_000_000) }
{
    match str::from_utf8(text) {
        Ok(text) => number(text).ok(),
        Err(_) => None,
    }
}

// The number that the record begins with.
fn number_of_record(row: &ByteRecord) -> Option<i128>
    ensures value { result ≡ first_number (fields_of row.now) }
    ensures size { IfSome result (λ n. unsigned_abs n < 1_000_000_000_000_000_000) }
{
    match row.get(0) {
        Some(field) => number_of_bytes(trimmed(field)),
        None => None,
    }
}

// The most numbers that a load shape has.
const MOST_POINTS: usize = 8760;

// The greatest factor of a load shape, in whole 10^-9.
const MOST: i128 = 1_000_000_000_000;

// How many numbers may stand before one that is kept.
fn room_for(value: i128) -> usize
    ensures { result ≡ room_for value }
{
    if value < 0 || MOST < value {
        MOST_POINTS + 1
    } else {
        MOST_POINTS
    }
}

// Keeps a number where there is room for it.
fn keep(values: &mut Vec<i128>, value: i128) -> Result<(), AllocError>
    ensures { OnOk result (values.new.items ≡ kept values.old.items value) }
{
    if values.len() < room_for(value) {
        values.push(value)?;
    }
    Ok(())
}

// The fault of a reader that stopped, for memory or for the bytes underneath. Those in memory have no faults.
fn stopped(_error: csv::Error) -> ShapeFault
    requires stops { stops_reader (error_kind _error) ≡ true }
    ensures { result ≡ NoMemory }
{
    ShapeFault::NoMemory
}

// A reader of the records of a file in memory.
fn reader_of(alloc: Global, bytes: &[u8]) -> Reader<&[u8]>
    ensures plain { IsPlain result }
    ensures left { records_left result ≡ records default_config (strip_bom bytes.now) }
{
    ReaderBuilder::new()
        .has_headers(false)
        .flexible(true)
        .from_reader(alloc, bytes)
}

// The next record, and whether there is one.
fn next_record(reader: &mut Reader<&[u8]>, row: &mut ByteRecord) -> Result<bool, ShapeFault>
    requires plain { IsPlain reader.old }
    ensures plain { IfOk result (λ found. found ≡ true → IsPlain reader.new) }
    ensures left { IfOk result (λ found. records_left reader.old ≡ (if found then fields_of row.new ∷ records_left reader.new else [])) }
    ensures memory { IfErr result (λ e. e ≡ NoMemory) }
{
    match reader.read_byte_record(row) {
        Ok(found) => Ok(found),
        Err(error) => Err(stopped(error)),
    }
}

/// The numbers of a load shape's file that count, in whole units of 10^-9: the first field of each record, in order. Of
/// a longer file these are the first 8,760, which are the most that a load shape has, and behind them the first that
/// isn't from 0 to 1,000: for that one the shape is refused. No more are kept.
///
/// The records are those that `csv` reads from the bytes: fields parted by commas, with or without quotes, records
/// of any length, no header row; a byte-order mark and empty lines are dropped. Blanks and tabs round the first
/// field are dropped, and the rest is read as `dss_lexer::number` reads a number of a script.
/// Errors: BadValue names the first record whose first field is no number, counted from 1: an empty one, one that
/// isn't UTF-8, and one for which `number` has a fault. NoMemory.
pub fn read_column(alloc: Global, bytes: &[u8]) -> Result<Vec<i128>, ShapeFault>
    ensures column { IfOk result (λ values. column_of bytes.now ≡ Ok values.items) }
    ensures size { IfOk result (λ values. All (λ n. unsigned_abs n < 1_000_000_000_000_000_000) values.items) }
    ensures fault { IfErr result (λ e. Fails e (column_of bytes.now)) }
{
    let mut reader = reader_of(alloc, bytes);
    let mut row = ByteRecord::new(alloc);
    let mut values = Vec::new(alloc);
    for number in 1..u64::MAX {
        if !next_record(&mut reader, &mut row)? {
            return Ok(values);
        }
        match number_of_record(&row) {
            Some(value) => keep(&mut values, value)?,
            None => return Err(ShapeFault::BadValue { number }),
        }
    }
    // No memory holds so many records.
    Err(ShapeFault::NoMemory)
}
