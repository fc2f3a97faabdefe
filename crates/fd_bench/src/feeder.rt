// The script of a feeder from a number: its lines written, and the files of a library that holds it.
ghost use Rattle.std.specs.Prelude.{◌≡◌, ◌≤◌, IfOk, true};
ghost use Rattle.std.specs.List.{concat};
ghost use Rattle.fd_gen.specs.fd_outside.Causes.{Rose};
ghost use Rattle.fd_gen.specs.fd_outside.Emitted.{pieces_of};
ghost use Rattle.fd_gen.specs.fd_outside.Entries.{entries_of};
ghost use Rattle.fd_solving.specs.fd_outcome.Calls.{doing, report};
ghost use Rattle.fd_solving.specs.fd_outcome.Parts.{Printed};
ghost use Rattle.fd_bench.specs.Bench.{feeder_entries, script_written};

use fd_gen::{Bytes, FileEntry, Record, Sink, generate};
use fd_solving::{WANT_OF_MEMORY, print_end};
use std::alloc::{AllocError, Global};

/// The name under which the script of a feeder is held.
pub(crate) const FEEDER_NAME: &str = "gen.dss";

/// Prints the script of a feeder of so many sections from a number, by one write for each line, and answers the exit
/// status.
pub fn write_script<S: Sink>(alloc: Global, number: u64, sections: u32, out: &mut S) -> u8
    requires { 1 ≤ sections }
    ensures prints { Printed S.taken S.calls out.old out.new true (doing report (script_written number sections)) result }
    ensures write { result ≡ 5 → Rose (S.faults out.old) (S.faults out.new) }
{
    let Ok(lines) = generate(alloc, number, sections) else {
        return WANT_OF_MEMORY;
    };
    print_end(alloc, lines.as_slice(), out)
}

// The bytes of these records, one behind the other.
fn joined(alloc: Global, records: &[Record]) -> Result<Vec<u8>, AllocError>
    ensures { IfOk result (λ v. v.items ≡ concat (pieces_of records.now)) }
{
    let mut text = Vec::new(alloc);
    for record in records {
        text.extend_from_slice(record.bytes.as_slice())?;
    }
    Ok(text)
}

/// The files of a library that holds the script of a feeder, and nothing else.
pub(crate) fn feeder_files(
    alloc: Global,
    number: u64,
    sections: u32,
) -> Result<Vec<FileEntry>, AllocError>
    requires { 1 ≤ sections }
    ensures { IfOk result (λ files. entries_of files.items ≡ feeder_entries number sections) }
{
    let lines = generate(alloc, number, sections)?;
    let text = joined(alloc, lines.as_slice())?;
    let mut files = Vec::new(alloc);
    files.push(FileEntry {
        name: Bytes::new(FEEDER_NAME.as_bytes().to_vec(alloc)?),
        bytes: Bytes::new(text),
    })?;
    Ok(files)
}
