// A certificate brought over to version 2.
ghost use Rattle.std.specs.Prelude.{◌≡◌, ◌+◌, ◌<◌, ◌^◌, ◌++◌, IsSome, List, Option, Some, None, IfOk, IfErr, IfSome, IfNone, OnOk, codes, length, map};
ghost use Rattle.std.specs.List.{slice_split};
ghost use Rattle.std.specs.Option.{option_map};
ghost use Rattle.fd_lines.specs.fd_outside.Emitted.{pieces_of};
ghost use Rattle.fd_settle.specs.fd_cert.declared.rule.Rule.TheVariants.{Grammar};
ghost use Rattle.fd_certfile.specs.Blocks.{Block, Whole};
ghost use Rattle.fd_lines.specs.Cuts.{texts_of};
ghost use Rattle.fd_certfile.specs.Lines.{IsKnown, is_blank, line_bytes, line_of, lines_of, row};
ghost use Rattle.fd_lines.specs.Numbers.{numbers_of, text_eq};
ghost use Rattle.fd_certfile.specs.Readings.{lines_before};
ghost use Rattle.fd_certfile.specs.Texts.{entry_count, entry_text, with_entries};
ghost use Rattle.fd_certfile.specs.Upgrade.{AreKnown, IsOutside, IsRefusal, IsRefusedLine, IsUpgraded, UpgradeLaw, upgraded};
ghost use Rattle.fd_certfile.specs.Verdict.{Due};
ghost use Rattle.fd_certfile.specs.Views.{or_other, view};
ghost use Rattle.fd_certfile.specs.declared.fault.CertFileFault.TheVariants as fault;

use crate::ahead::read_block;
use crate::ending::is_ended;
use crate::fault::{CertFileFault, Stop};
use crate::line::{Line, read_line};
use crate::texts::header_record;
use crate::version::{Version, version_named};
use fd_lines::{Bytes, Fields, Record, cut, parted, push_count, push_field, text_record};
use fd_settle::Rule;
use std::alloc::{AllocError, Global};

// The line that a block is refused at, whose first line has this number.
fn refused_line(stop: Stop, line: u64) -> Result<Option<u64>, AllocError>
    requires { line + lines_before stop < 2 ^ 64 }
    ensures { IfOk result (λ found. IsRefusedLine stop line found) }
{
    match stop {
        Stop::Refused { behind } => Ok(Some(line + behind as u64)),
        Stop::NoMemory => Err(AllocError),
    }
}

// The line that the grammar refuses, or misses, of bytes behind the first line of a certificate; none of a whole one.
// Nothing of a block is kept.
fn outside(alloc: Global, version: Version, bytes: &[u8]) -> Result<Option<u64>, AllocError>
    ensures { IfOk result (λ line. IsOutside version (lines_of bytes.now) line) }
{
    // read for its length alone, which bounds the number of lines
    let _length = bytes.len();
    let mut rest = bytes;
    let mut line = 2;
    while !is_ended(rest) {
        match read_block(alloc, version, 0, rest) {
            Ok(ahead) => {
                line += ahead.lines as u64;
                rest = ahead.rest;
            }
            Err(stop) => return refused_line(stop, line),
        }
    }
    match cut(rest, b'\n') {
        Some((_, more)) => {
            if more.is_empty() {
                Ok(None)
            } else {
                Ok(Some(line + 1))
            }
        }
        None => Ok(Some(line)),
    }
}

// Whether a field spells 0.
fn is_zero_text(field: &[u8]) -> bool
    ensures { result ≡ text_eq field.now (codes "0") }
{
    match field {
        [digit] => *digit == b'0',
        _ => false,
    }
}

// Adds the entry that a field spells behind its place, unless it is 0, and answers how many were added. A number has
// one text, so that of the field is copied.
fn push_entry(text: &mut Vec<u8>, place: usize, entry: &[u8]) -> Result<usize, AllocError>
    ensures count { IfOk result (λ count. count ≡ entry_count entry.now) }
    ensures text { OnOk result (text.new.items ≡ text.old.items ++ entry_text place entry.now) }
{
    if is_zero_text(entry) {
        return Ok(0);
    }
    push_count(text, place)?;
    push_field(text, entry)?;
    Ok(1)
}

// Adds the entries of a row that these fields spell, those that aren't 0 behind their places, and answers how many they
// are.
fn push_entries(text: &mut Vec<u8>, entries: Fields<'_>) -> Result<usize, AllocError>
    requires numbers { IsSome (numbers_of (texts_of (option_map (λ t. t.now) entries))) }
    requires few { length (texts_of (option_map (λ t. t.now) entries)) < 2 ^ 64 }
    ensures { IfOk result (λ count. Some (count, text.new.items) ≡ option_map (with_entries text.old.items) (numbers_of (texts_of (option_map (λ t. t.now) entries.entry)))) }
{
    let mut place = 0;
    let mut count = 0;
    let mut rest = entries;
    while let Some(fields) = rest {
        let (entry, more) = parted(fields);
        count += push_entry(text, place, entry)?;
        place += 1;
        rest = more;
    }
    Ok(count)
}

// The line in version 2 of the row of version 1 that these fields spell.
fn upgraded_row(alloc: Global, fields: &[u8]) -> Result<Record, AllocError>
    requires { IsSome (numbers_of (slice_split is_blank fields.now)) }
    ensures { IfOk result (λ r. Some r.bytes ≡ option_map (λ zs. line_bytes (upgraded Whole (row zs))) (numbers_of (slice_split is_blank fields.now))) }
{
    // read for its length alone, which bounds the number of fields
    let _length = fields.len();
    let (place, entries) = parted(fields);
    let mut pairs = Vec::new(alloc);
    let count = push_entries(&mut pairs, entries)?;
    let mut text = Vec::new(alloc);
    text.extend_from_slice(b"c")?;
    push_field(&mut text, place)?;
    push_count(&mut text, count)?;
    text.extend_from_slice(pairs.as_slice())?;
    text.push(b'\n')?;
    Ok(Record {
        bytes: Bytes::new(text),
    })
}

// The fields of a row of version 1; none where a line stays as it is.
fn row_fields<'a>(version: Version, line: &Line<'a>) -> Fields<'a>
    ensures some { IfSome result (λ fields. (version ≡ Whole) × (view line.now ≡ or_other row (numbers_of (slice_split is_blank fields.now)))) }
    ensures none { IfNone result (upgraded version (view line.now) ≡ view line.now) }
{
    match (version, line) {
        (Version::Whole, Line::Row(fields)) => *fields,
        _ => None,
    }
}

// The line of a text in version 2.
fn upgraded_line(alloc: Global, version: Version, text: &[u8]) -> Result<Record, AllocError>
    requires { IsKnown (line_of text.now) }
    ensures { IfOk result (λ r. r.bytes ≡ line_bytes (upgraded version (line_of text.now))) }
{
    match row_fields(version, &read_line(text)) {
        Some(fields) => upgraded_row(alloc, fields),
        None => text_record(alloc, text),
    }
}

// Adds the lines of bytes in version 2, one record each.
fn push_lines(
    alloc: Global,
    records: &mut Vec<Record>,
    version: Version,
    bytes: &[u8],
) -> Result<(), AllocError>
    requires { AreKnown (lines_of bytes.now) }
    ensures { OnOk result (pieces_of records.new.items ≡ pieces_of records.old.items ++ map line_bytes (map (upgraded version) (lines_of bytes.now))) }
{
    let mut rest = bytes;
    while let Some((text, more)) = cut(rest, b'\n') {
        records.push(upgraded_line(alloc, version, text)?)?;
        rest = more;
    }
    Ok(())
}

fn outside_grammar(line: u64) -> CertFileFault
    ensures { result ≡ fault.Refused line Grammar }
{
    CertFileFault::Refused {
        line,
        rule: Rule::Grammar,
    }
}

/// The lines of a certificate of either version in version 2, one record each: the same blocks, line for line. It is
/// tested by the grammar alone, whatever its sizes and numbers are, in one pass that keeps nothing; then each line is
/// written in turn.
///
/// # Errors
/// `Refused` as grammar at line 1 where the first line names no version, and else at the first line that the grammar of
/// that version refuses, or misses.
pub fn upgrade(alloc: Global, bytes: &[u8]) -> Result<Vec<Record>, CertFileFault>
    ensures text { IfOk result (λ rs. IsUpgraded (lines_of bytes.now) (pieces_of rs.items)) }
    ensures refused { IfErr result (λ f. IsRefusal (lines_of bytes.now) f) }
{
    let Some((text, rest)) = cut(bytes, b'\n') else {
        return Err(outside_grammar(1));
    };
    let Some(version) = version_named(&read_line(text)) else {
        return Err(outside_grammar(1));
    };
    if let Some(line) = outside(alloc, version, rest)? {
        return Err(outside_grammar(line));
    }
    let mut records = Vec::new(alloc);
    records.push(header_record(alloc)?)?;
    push_lines(alloc, &mut records, version, rest)?;
    Ok(records)
}

/// A certificate and its upgrade have as many lines and the same answer, for every script with states of type `S` and
/// faults of type `F`.
pub fn upgrade_law<S, F>()
    ensures { (due : S → Due F) (after : S → Block → S) → UpgradeLaw due after }
{}
