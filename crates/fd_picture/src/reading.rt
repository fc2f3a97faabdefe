// Reading a report.
ghost use Rattle.std.specs.Prelude.{ℕ, ◌-◌, ◌^◌, List};
ghost use Rattle.csv.specs.Reading.{default_config, reader_state, records_from, strip_bom};
ghost use Rattle.csv.specs.declared.parser.State.TheVariants as st;
ghost use Rattle.fd_picture.specs.Lines.{unfit_in};
ghost use Rattle.fd_picture.specs.Readers.{IsPlain};
ghost use Rattle.fd_picture.specs.Reading.{AtLine, Fills, Reads, read_from, report_of};

use crate::drafts::{empty_draft, finished, row_to};
use crate::fault::{Cause, ReportFault, Stop};
use crate::fields::{next_record, reader_of};
use crate::lines::{is_at, unfit_in};
use crate::report::{Draft, Report};
use csv::{ByteRecord, Reader};
use std::alloc::Global;

fn at_line(line: u64, stop: Stop) -> ReportFault
    ensures { AtLine line stop result }
{
    match stop {
        Stop::Refused(cause) => ReportFault::Refused { line, cause },
        Stop::NoMemory => ReportFault::NoMemory,
    }
}

// Reads the records that are left into a draft.
fn read_rows(
    alloc: Global,
    unfit: Option<u64>,
    reader: &mut Reader<&[u8]>,
    row: &mut ByteRecord,
    draft: &mut Draft,
) -> Result<(), ReportFault>
    ensures { (left : List ℕ) → IsPlain reader.old left →
        Fills draft.new result (read_from unfit 1 draft.old
        (records_from default_config (2 ^ 64 - 2) (reader_state reader.old) left)) }
{
    for number in 1..u64::MAX {
        if is_at(unfit, number) {
            return Err(ReportFault::Refused {
                line: number,
                cause: Cause::NotOneRecord,
            });
        }
        if !next_record(reader, row)? {
            return Ok(());
        }
        if let Err(stop) = row_to(alloc, draft, row) {
            return Err(at_line(number, stop));
        }
    }
    // No memory holds so many records.
    Err(ReportFault::NoMemory)
}

// Reads the records of a report into a draft.
fn read_draft(alloc: Global, bytes: &[u8], draft: &mut Draft) -> Result<(), ReportFault>
    ensures { Fills draft.new result (read_from (unfit_in bytes.now) 1 draft.old
        (records_from default_config (2 ^ 64 - 2) st.StartRecord (strip_bom bytes.now))) }
{
    let unfit = unfit_in(bytes)?;
    let mut reader = reader_of(alloc, bytes);
    let mut row = ByteRecord::new(alloc);
    read_rows(alloc, unfit, &mut reader, &mut row, draft)
}

/// The report that bytes are, by one pass of `csv` over them.
///
/// # Errors
/// `Refused` names the first line that is no record of a report, counted from 1, and why. `NoMemory`.
#[tactic(auto, unfolding(crate::specs::Reading::report_of))]
pub fn read_report(alloc: Global, bytes: &[u8]) -> Result<Report, ReportFault>
    ensures { Reads result (report_of bytes.now) }
{
    let mut draft = empty_draft(alloc);
    read_draft(alloc, bytes, &mut draft)?;
    Ok(finished(draft)?)
}
