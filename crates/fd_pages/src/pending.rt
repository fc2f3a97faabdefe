// The records of what still waits in the queue.
ghost use Rattle.std.specs.Prelude.{◌≡◌, ◌++◌, IfOk, OnOk, Some, slice_get};
ghost use Rattle.fd_bases.specs.dss_model.declared.element.Element.{Element};
ghost use Rattle.fd_outcome.specs.fd_outside.Emitted.{pieces_of};
ghost use Rattle.fd_outcome.specs.fd_report.Lines.{IsReady, lines_of};
ghost use Rattle.fd_outcome.specs.Events.{waits};
ghost use Rattle.fd_outcome.specs.Pages.{controls_of, pending_rows_by, report_texts};
ghost use Rattle.fd_pages.specs.Places.{AreControlPlaces};

use crate::records::control_places;
use fd_bases::{Circuit, ElementName};
use fd_outcome::{Entry, Record, RecordWriter, pending_record};
use std::alloc::{AllocError, Global};

// Adds the record of an entry of the control of this name.
fn push_pending(
    alloc: Global,
    writer: &mut RecordWriter,
    name: &ElementName,
    entry: &Entry,
    into: &mut Vec<Record>,
) -> Result<(), AllocError>
    requires writer { IsReady writer.old }
    ensures writer { OnOk result (IsReady writer.new) }
    ensures rows { (element : Element) → OnOk result (pieces_of into.new.items ≡ pieces_of into.old.items
        ++ lines_of (pending_rows_by (Some (name.now, element)) entry.now)) }
{
    into.push(pending_record(alloc, writer, entry.time, name, entry.up)?)?;
    Ok(())
}

// Adds the record of an entry, which names one of the controls at these places.
fn add_pending(
    alloc: Global,
    writer: &mut RecordWriter,
    circuit: &Circuit,
    controls: &[usize],
    entry: &Entry,
    into: &mut Vec<Record>,
) -> Result<(), AllocError>
    requires writer { IsReady writer.old }
    requires controls { AreControlPlaces circuit.now.elements controls.now }
    ensures writer { OnOk result (IsReady writer.new) }
    ensures rows { OnOk result (pieces_of into.new.items ≡ pieces_of into.old.items
        ++ lines_of (pending_rows_by (slice_get (controls_of circuit.now.elements) entry.now.control) entry.now)) }
{
    match controls.get(entry.control as usize) {
        None => Ok(()),
        Some(place) => {
            let entries = circuit.elements().as_slice();
            let (name, _) = entries.get_index(*place).unwrap();
            push_pending(alloc, writer, name, entry, into)
        }
    }
}

/// A record for each of these entries, in their order.
pub(crate) fn pending_records(
    alloc: Global,
    circuit: &Circuit,
    entries: &[Entry],
) -> Result<Vec<Record>, AllocError>
    ensures { IfOk result (λ r. pieces_of r.items ≡ report_texts (waits circuit.now entries.now)) }
{
    let mut writer = RecordWriter::new(alloc);
    let mut records = Vec::new(alloc);
    let controls = control_places(alloc, circuit)?;
    for entry in entries {
        add_pending(
            alloc,
            &mut writer,
            circuit,
            controls.as_slice(),
            entry,
            &mut records,
        )?;
    }
    Ok(records)
}
