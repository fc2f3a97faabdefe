// The records of a solution.
ghost use Rattle.std.specs.Prelude.{◌≡◌, ◌++◌, ◌+◌, ◌*◌, ◌<◌, ◌≤◌, length, IfOk, OnOk};
ghost use Rattle.dss_script.specs.fd_outside.Emitted.{pieces_of};
ghost use Rattle.fd_sample.specs.dss_layout.Layout.{size_of};
ghost use Rattle.fd_report.specs.Lines.{IsReady, line_of, lines_of};
ghost use Rattle.fd_report.specs.Records.{branch_fields, branch_records, magnitude_fields, magnitude_records, node_fields, node_records, report_of, solution_fields};
ghost use Rattle.fd_report.specs.Solutions.{IsOfSize};

use crate::line::RecordWriter;
use crate::names::{element_field, node_field};
use crate::solution::Solution;
use crate::texts::{complex_texts, interval_texts, value_texts};
use dss_script::{Record, size_text};
use fd_sample::{Layout, NodeName, PhaseName};
use itoa::Buffer;
use std::alloc::{AllocError, Global};

fn solution_record(
    alloc: Global,
    writer: &mut RecordWriter,
    number: u32,
    hour: u32,
    round: u32,
) -> Result<Record, AllocError>
    requires { IsReady writer.old }
    ensures ready { OnOk result (IsReady writer.new) }
    ensures record { IfOk result (λ r. r.bytes ≡ line_of (solution_fields number hour round)) }
{
    let number = number.to_string(alloc)?;
    let hour = hour.to_string(alloc)?;
    let round = round.to_string(alloc)?;
    writer.record(
        alloc,
        &[
            b"solution",
            number.as_bytes(),
            hour.as_bytes(),
            round.as_bytes(),
        ],
    )
}

// The record of a node, whose voltage is complex unknown k.
fn node_record(
    alloc: Global,
    writer: &mut RecordWriter,
    s: &Solution,
    n: usize,
    k: usize,
    node: &NodeName,
) -> Result<Record, AllocError>
    requires ready { IsReady writer.old }
    requires solution { IsOfSize n s.now }
    requires place { 2 * k + 2 ≤ n }
    ensures ready { OnOk result (IsReady writer.new) }
    ensures record { IfOk result (λ r. r.bytes ≡ line_of (node_fields s.now k node.now)) }
{
    let name = node_field(alloc, node)?;
    let texts = complex_texts(alloc, s, n, k)?;
    let interval = interval_texts(alloc, s, n, k)?;
    writer.record(
        alloc,
        &[
            b"node",
            name.as_slice(),
            texts.re.as_slice(),
            texts.im.as_slice(),
            interval.radius.as_slice(),
            interval.half_width.as_slice(),
            interval.low.as_slice(),
            interval.high.as_slice(),
            texts.mismatch_re.as_slice(),
            texts.mismatch_im.as_slice(),
        ],
    )
}

// The record of a branch phase, whose current is complex unknown k.
fn branch_record(
    alloc: Global,
    writer: &mut RecordWriter,
    s: &Solution,
    n: usize,
    k: usize,
    phase: &PhaseName,
) -> Result<Record, AllocError>
    requires ready { IsReady writer.old }
    requires solution { IsOfSize n s.now }
    requires place { 2 * k + 2 ≤ n }
    ensures ready { OnOk result (IsReady writer.new) }
    ensures record { IfOk result (λ r. r.bytes ≡ line_of (branch_fields s.now k phase.now)) }
{
    let element = element_field(alloc, &phase.element)?;
    let mut number = Buffer::new();
    let texts = complex_texts(alloc, s, n, k)?;
    let radius = size_text(alloc, s.radii()[2 * k])?;
    writer.record(
        alloc,
        &[
            b"branch",
            element.as_slice(),
            number.format(phase.phase).as_bytes(),
            texts.re.as_slice(),
            texts.im.as_slice(),
            radius.as_slice(),
            texts.mismatch_re.as_slice(),
            texts.mismatch_im.as_slice(),
        ],
    )
}

// The record of a phase of a load of constant current, whose voltage magnitude is at this place.
fn magnitude_record(
    alloc: Global,
    writer: &mut RecordWriter,
    s: &Solution,
    n: usize,
    place: usize,
    phase: &PhaseName,
) -> Result<Record, AllocError>
    requires ready { IsReady writer.old }
    requires solution { IsOfSize n s.now }
    requires place { place < n }
    ensures ready { OnOk result (IsReady writer.new) }
    ensures record { IfOk result (λ r. r.bytes ≡ line_of (magnitude_fields s.now place phase.now)) }
{
    let load = element_field(alloc, &phase.element)?;
    let mut number = Buffer::new();
    let texts = value_texts(alloc, s, n, place)?;
    writer.record(
        alloc,
        &[
            b"magnitude",
            load.as_slice(),
            number.format(phase.phase).as_bytes(),
            texts.value.as_slice(),
            texts.radius.as_slice(),
            texts.half_width.as_slice(),
            texts.mismatch.as_slice(),
        ],
    )
}

// Adds the records of the nodes, which are the first complex unknowns.
fn push_nodes(
    alloc: Global,
    writer: &mut RecordWriter,
    records: &mut Vec<Record>,
    s: &Solution,
    n: usize,
    nodes: &[NodeName],
) -> Result<(), AllocError>
    requires ready { IsReady writer.old }
    requires solution { IsOfSize n s.now }
    requires places { 2 * length nodes.now ≤ n }
    ensures ready { OnOk result (IsReady writer.new) }
    ensures records { OnOk result (pieces_of records.new.items ≡ pieces_of records.old.items ++ lines_of (node_records s.now 0 nodes.now)) }
{
    for (k, node) in nodes.iter().enumerate() {
        let record = node_record(alloc, writer, s, n, k, node)?;
        records.push(record)?;
    }
    Ok(())
}

// Adds the records of branch phases, of which the first is this complex unknown.
fn push_branches(
    alloc: Global,
    writer: &mut RecordWriter,
    records: &mut Vec<Record>,
    s: &Solution,
    n: usize,
    first: usize,
    phases: &[PhaseName],
) -> Result<(), AllocError>
    requires ready { IsReady writer.old }
    requires solution { IsOfSize n s.now }
    requires places { 2 * (first + length phases.now) ≤ n }
    ensures ready { OnOk result (IsReady writer.new) }
    ensures records { OnOk result (pieces_of records.new.items ≡ pieces_of records.old.items ++ lines_of (branch_records s.now first phases.now)) }
{
    for (k, phase) in phases.iter().enumerate() {
        let record = branch_record(alloc, writer, s, n, first + k, phase)?;
        records.push(record)?;
    }
    Ok(())
}

// Adds the records of phases of loads of constant current, of which the first has its magnitude at this place.
fn push_magnitudes(
    alloc: Global,
    writer: &mut RecordWriter,
    records: &mut Vec<Record>,
    s: &Solution,
    n: usize,
    first: usize,
    phases: &[PhaseName],
) -> Result<(), AllocError>
    requires ready { IsReady writer.old }
    requires solution { IsOfSize n s.now }
    requires places { first + length phases.now ≤ n }
    ensures ready { OnOk result (IsReady writer.new) }
    ensures records { OnOk result (pieces_of records.new.items ≡ pieces_of records.old.items ++ lines_of (magnitude_records s.now first phases.now)) }
{
    for (k, phase) in phases.iter().enumerate() {
        let record = magnitude_record(alloc, writer, s, n, first + k, phase)?;
        records.push(record)?;
    }
    Ok(())
}

/// The records of one solution of a network with this layout: the solution's, one for each node, one for each branch
/// phase and one for each magnitude, in order. `number` is that of the settle in the run, from 1; the hour is 0 in a
/// snapshot; rounds count from 0. Both parts of a node and of a branch phase have one radius and one box, so each is
/// written once.
pub fn records(
    alloc: Global,
    writer: &mut RecordWriter,
    layout: &Layout,
    number: u32,
    hour: u32,
    round: u32,
    s: &Solution,
) -> Result<Vec<Record>, AllocError>
    requires ready { IsReady writer.old }
    requires solution { IsOfSize (size_of layout.now) s.now }
    ensures ready { OnOk result (IsReady writer.new) }
    ensures records { IfOk result (λ records. pieces_of records.items ≡ lines_of (report_of layout.now number hour round s.now)) }
{
    let nodes = layout.nodes();
    let branches = layout.branches();
    let magnitudes = layout.magnitudes();
    let complex = nodes.len() + branches.len();
    let n = 2 * complex + magnitudes.len();
    let mut records = Vec::new(alloc);
    records.push(solution_record(alloc, writer, number, hour, round)?)?;
    push_nodes(alloc, writer, &mut records, s, n, nodes)?;
    push_branches(alloc, writer, &mut records, s, n, nodes.len(), branches)?;
    push_magnitudes(alloc, writer, &mut records, s, n, 2 * complex, magnitudes)?;
    Ok(records)
}
