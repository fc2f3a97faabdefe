// The records of a short circuit.
ghost use Rattle.std.specs.Prelude.{◌≡◌, ◌++◌, ◌+◌, ◌*◌, ◌<◌, ◌≤◌, length, IfOk, OnOk};
ghost use Rattle.dss_script.specs.fd_outside.Emitted.{pieces_of};
ghost use Rattle.fd_report.specs.Lines.{IsReady, line_of, lines_of};
ghost use Rattle.fd_report.specs.Shorts.{short_fields, short_records};
ghost use Rattle.fd_report.specs.Solutions.{IsOfSize};

use crate::line::RecordWriter;
use crate::solution::Solution;
use crate::texts::{complex_texts, interval_texts};
use dss_script::{Record, Text};
use itoa::Buffer;
use std::alloc::{AllocError, Global};

// The record of a phase of a fault, whose current is complex unknown k.
fn short_record(
    alloc: Global,
    writer: &mut RecordWriter,
    s: &Solution,
    n: usize,
    k: usize,
    bus: &Text,
    node: u8,
) -> Result<Record, AllocError>
    requires ready { IsReady writer.old }
    requires solution { IsOfSize n s.now }
    requires place { 2 * k + 2 ≤ n }
    ensures ready { OnOk result (IsReady writer.new) }
    ensures record { IfOk result (λ r. r.bytes ≡ line_of (short_fields s.now k bus.now node)) }
{
    let mut number = Buffer::new();
    let texts = complex_texts(alloc, s, n, k)?;
    let interval = interval_texts(alloc, s, n, k)?;
    writer.record(
        alloc,
        &[
            b"short",
            bus.as_str().as_bytes(),
            number.format(u32::from(node)).as_bytes(),
            texts.re.as_slice(),
            texts.im.as_slice(),
            interval.radius.as_slice(),
            interval.low.as_slice(),
            interval.high.as_slice(),
        ],
    )
}

/// The records of the phases of a fault at a bus, as `short,b,1,1000.000000,0.000000,0.000000,1000.000000,1000.000000`:
/// for each of its nodes the current that leaves it into the fault, its radius, and the least and the greatest size
/// within it. The first of these currents is this complex unknown of a solution of size n, and the others follow it.
pub fn short_records(
    alloc: Global,
    s: &Solution,
    n: usize,
    first: usize,
    bus: &Text,
    nodes: &[u8],
) -> Result<Vec<Record>, AllocError>
    requires solution { IsOfSize n s.now }
    requires places { 2 * (first + length nodes.now) ≤ n }
    ensures { IfOk result (λ records. pieces_of records.items ≡ lines_of (short_records s.now first bus.now nodes.now)) }
{
    let mut writer = RecordWriter::new(alloc);
    let mut records = Vec::new(alloc);
    for (k, node) in nodes.iter().enumerate() {
        let record = short_record(alloc, &mut writer, s, n, first + k, bus, *node)?;
        records.push(record)?;
    }
    Ok(records)
}
