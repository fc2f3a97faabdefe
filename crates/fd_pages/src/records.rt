// The records of a settle.
ghost use Rattle.std.specs.Prelude.{◌≡◌, ◌+◌, ◌++◌, ◌∷◌, ◌<◌, ◌^◌, [], All, IfOk, OnOk, Option, Some, if◌then◌else◌, drop, length, map, slice_get};
ghost use Rattle.fd_bases.specs.dss_layout.Layout.{layout_of, size_of};
ghost use Rattle.fd_settings.specs.Hours.{hour_powers};
ghost use Rattle.fd_outcome.specs.fd_outside.Emitted.{pieces_of};
ghost use Rattle.fd_outcome.specs.fd_queue.Controls.{Positions as PositionsView, tap_at};
ghost use Rattle.fd_outcome.specs.fd_report.Lines.{IsReady, lines_of};
ghost use Rattle.fd_outcome.specs.fd_report.declared.faults.Fault.{Fault as FaultView};
ghost use Rattle.fd_outcome.specs.fd_report.Solutions.{IsOfSize};
ghost use Rattle.fd_outcome.specs.fd_sample.Circuits.{AreProbes, probes_of};
ghost use Rattle.fd_outcome.specs.fd_sample.Probes.{HasDevice, positions_in};
ghost use Rattle.fd_outcome.specs.fd_sample.Regulators.{changer_of};
ghost use Rattle.fd_outcome.specs.fd_settle.Rounds.{seen};
ghost use Rattle.fd_outcome.specs.fd_settle.Start.{ArePositions};
ghost use Rattle.fd_outcome.specs.fd_cert.declared.ball.Certified.{Certified as CertifiedView};
ghost use Rattle.fd_outcome.specs.fd_network.Built.{IsBuiltOf};
ghost use Rattle.fd_outcome.specs.Settles.{Settle, settled};
ghost use Rattle.fd_outcome.specs.Pages.{act_rows, act_rows_by, bank_rows, controls_of, is_bank, is_control, position_of, report_rows, round_rows, rounds_rows, solution_in, tap_rows, tap_rows_by};
ghost use Rattle.fd_pages.specs.Hours.{IsPrintable, IsSettleAt, round_in, rounds_in, settle_made, end_with, Kept};
ghost use Rattle.fd_pages.specs.Places.{AreControlPlaces, bank_rows_first, tap_rows_of};
ghost use Rattle.fd_pages.specs.Bases.{base_texts};
ghost use Rattle.fd_bases.specs.Bases.{bases_of};

use crate::controls::is_control;
use crate::page::SolvedHour;
use fd_bases::{Circuit, Element, ElementName, Layout, bases};
use fd_outcome::{
    Act, Position, Probe, Record, RecordWriter, RegProbe, Round, Solution, act_record, bank_record,
    base_record, probes_law, records, tap_record,
};
use fd_settings::Positions;
use std::alloc::{AllocError, Global};

// The places of a circuit's controls among its elements, in the script's order.
pub(crate) fn control_places(alloc: Global, circuit: &Circuit) -> Result<Vec<usize>, AllocError>
    ensures { IfOk result (λ places. AreControlPlaces circuit.now.elements places.items) }
{
    let mut places = Vec::new(alloc);
    let entries = circuit.elements().as_slice();
    for place in 0..entries.len() {
        let (_, element) = entries.get_index(place).unwrap();
        add_place(&mut places, place, element)?;
    }
    Ok(places)
}

// Adds the place of an element that is a control.
fn add_place(places: &mut Vec<usize>, place: usize, element: &Element) -> Result<(), AllocError>
    ensures { OnOk result (places.new.items ≡ places.old.items ++ (if is_control element.now then place ∷ [] else [])) }
{
    if is_control(element) {
        places.push(place)?;
    }
    Ok(())
}

// Where the device of a control stands behind an act.
fn position_of(element: &Element, after: u32) -> Position
    ensures { result ≡ position_of element.now after }
{
    match element {
        Element::CapControl(_) => {
            if after == 0 {
                Position::Open
            } else {
                Position::Closed
            }
        }
        _ => Position::Tap(after),
    }
}

// Adds the record of an act of this control.
fn push_act(
    alloc: Global,
    writer: &mut RecordWriter,
    name: &ElementName,
    element: &Element,
    act: &Act,
    into: &mut Vec<Record>,
) -> Result<(), AllocError>
    requires writer { IsReady writer.old }
    ensures writer { OnOk result (IsReady writer.new) }
    ensures rows { OnOk result (pieces_of into.new.items ≡ pieces_of into.old.items ++ lines_of (act_rows_by (Some (name.now, element.now)) (seen act.now))) }
{
    let position = position_of(element, act.after);
    into.push(act_record(alloc, writer, act.time, name, act.steps, position)?)?;
    Ok(())
}

// Adds the record of an act, which names one of the controls at these places.
fn add_act(
    alloc: Global,
    writer: &mut RecordWriter,
    circuit: &Circuit,
    controls: &[usize],
    act: &Act,
    into: &mut Vec<Record>,
) -> Result<(), AllocError>
    requires writer { IsReady writer.old }
    requires controls { AreControlPlaces circuit.now.elements controls.now }
    ensures writer { OnOk result (IsReady writer.new) }
    ensures rows { OnOk result (pieces_of into.new.items ≡ pieces_of into.old.items
        ++ lines_of (act_rows_by (slice_get (controls_of circuit.now.elements) act.now.control) (seen act.now))) }
{
    match controls.get(act.control as usize) {
        None => Ok(()),
        Some(place) => {
            let entries = circuit.elements().as_slice();
            let (name, element) = entries.get_index(*place).unwrap();
            push_act(alloc, writer, name, element, act, into)
        }
    }
}

// Adds the records of a round's acts, which name controls at these places.
fn add_acts(
    alloc: Global,
    writer: &mut RecordWriter,
    circuit: &Circuit,
    controls: &[usize],
    acts: &[Act],
    into: &mut Vec<Record>,
) -> Result<(), AllocError>
    requires writer { IsReady writer.old }
    requires controls { AreControlPlaces circuit.now.elements controls.now }
    ensures writer { OnOk result (IsReady writer.new) }
    ensures rows { OnOk result (pieces_of into.new.items ≡ pieces_of into.old.items ++ lines_of (act_rows (controls_of circuit.now.elements) (map seen acts.now))) }
{
    for act in acts {
        add_act(alloc, writer, circuit, controls, act, into)?;
    }
    Ok(())
}

// Adds the records of a round at this place in its settle, and of its acts.
fn add_round(
    alloc: Global,
    circuit: &Circuit,
    layout: &Layout,
    controls: &[usize],
    number: u32,
    hour: u32,
    place: u32,
    round: &Round,
    into: &mut Vec<Record>,
) -> Result<(), AllocError>
    requires layout { layout.now ≡ layout_of circuit.now.elements }
    requires controls { AreControlPlaces circuit.now.elements controls.now }
    requires numbers { IsOfSize (size_of (layout_of circuit.now.elements)) (solution_in (round_in round.now)) }
    ensures { (s : Settle) → IsSettleAt circuit.now number hour s →
        OnOk result (pieces_of into.new.items ≡ pieces_of into.old.items ++ lines_of (round_rows s place (round_in round.now))) }
{
    let certified = round.certified.as_ref();
    let solution = Solution::new(
        &certified.ball.centre,
        &certified.ball.radius,
        &certified.boxes,
        &certified.mismatch,
    );
    let mut writer = RecordWriter::new(alloc);
    let mut made = records(alloc, &mut writer, layout, number, hour, place, &solution)?;
    into.append(&mut made)?;
    add_acts(
        alloc,
        &mut writer,
        circuit,
        controls,
        round.acts.as_slice(),
        into,
    )
}

// Adds the records of the rounds, which are numbered from 0, and of their acts.
fn add_rounds(
    alloc: Global,
    circuit: &Circuit,
    layout: &Layout,
    number: u32,
    hour: u32,
    rounds: &[Round],
    into: &mut Vec<Record>,
) -> Result<(), AllocError>
    requires layout { layout.now ≡ layout_of circuit.now.elements }
    requires numbers { All (λ r. IsOfSize (size_of (layout_of circuit.now.elements)) (solution_in r)) (rounds_in rounds.now) }
    requires few { length rounds.now < 2 ^ 32 }
    ensures { (s : Settle) → IsSettleAt circuit.now number hour s →
        OnOk result (pieces_of into.new.items ≡ pieces_of into.old.items ++ lines_of (rounds_rows s 0 (rounds_in rounds.now))) }
{
    let controls = control_places(alloc, circuit)?;
    for (place, round) in rounds.iter().enumerate() {
        add_round(
            alloc,
            circuit,
            layout,
            controls.as_slice(),
            number,
            hour,
            place as u32,
            round,
            into,
        )?;
    }
    Ok(())
}

// The tap of a regulator's winding.
fn tap_of(at: &Positions, probe: &RegProbe) -> u32
    requires { probe.now.transformer < length at.now.taps }
    ensures { result ≡ tap_at (positions_in at.now) (changer_of probe.now) }
{
    let pair = at.taps.as_slice()[probe.transformer as usize];
    if probe.is_second {
        pair.second
    } else {
        pair.first
    }
}

// Adds the record of the tap of a control of this name, if it is a regulator's.
fn push_tap(
    alloc: Global,
    writer: &mut RecordWriter,
    name: &ElementName,
    at: &Positions,
    probe: &Probe,
    into: &mut Vec<Record>,
) -> Result<(), AllocError>
    requires writer { IsReady writer.old }
    requires device { HasDevice (positions_in at.now) probe.now }
    ensures writer { OnOk result (IsReady writer.new) }
    ensures rows { OnOk result (pieces_of into.new.items ≡ pieces_of into.old.items ++ lines_of (tap_rows_by (positions_in at.now) name.now probe.now)) }
{
    if let Probe::Regulator(probe) = probe {
        into.push(tap_record(alloc, writer, name, tap_of(at, probe))?)?;
    }
    Ok(())
}

// Adds the record of the tap of the control of this number, if it is a regulator's. The controls stand at these places.
fn add_tap(
    alloc: Global,
    writer: &mut RecordWriter,
    circuit: &Circuit,
    at: &Positions,
    controls: &[usize],
    number: usize,
    probe: &Probe,
    into: &mut Vec<Record>,
) -> Result<(), AllocError>
    requires writer { IsReady writer.old }
    requires controls { AreControlPlaces circuit.now.elements controls.now }
    requires device { HasDevice (positions_in at.now) probe.now }
    ensures writer { OnOk result (IsReady writer.new) }
    ensures rows { OnOk result (pieces_of into.new.items ≡ pieces_of into.old.items ++ lines_of
        (tap_rows_of (positions_in at.now) (slice_get (controls_of circuit.now.elements) number) probe.now)) }
{
    match controls.get(number) {
        None => Ok(()),
        Some(place) => {
            let entries = circuit.elements().as_slice();
            let (name, _) = entries.get_index(*place).unwrap();
            push_tap(alloc, writer, name, at, probe, into)
        }
    }
}

// Adds the record of each regulator's tap.
fn add_taps(
    alloc: Global,
    writer: &mut RecordWriter,
    circuit: &Circuit,
    probes: &[Probe],
    hour: u32,
    at: &Positions,
    into: &mut Vec<Record>,
) -> Result<(), AllocError>
    requires writer { IsReady writer.old }
    requires probes { probes.now ≡ probes_of circuit.now.elements }
    requires fit { AreProbes circuit.now.elements probes.now }
    requires positions { ArePositions circuit.now (hour_powers circuit.now.elements hour) (positions_in at.now) }
    ensures writer { OnOk result (IsReady writer.new) }
    ensures rows { OnOk result (pieces_of into.new.items ≡ pieces_of into.old.items ++ lines_of (tap_rows circuit.now.elements (positions_in at.now))) }
{
    let controls = control_places(alloc, circuit)?;
    for (number, probe) in probes.iter().enumerate() {
        add_tap(
            alloc,
            writer,
            circuit,
            at,
            controls.as_slice(),
            number,
            probe,
            into,
        )?;
    }
    Ok(())
}

fn is_bank(element: &Element) -> bool
    ensures { result ≡ is_bank element.now }
{
    matches!(element, Element::Capacitor(_))
}

// Adds the record of the bank of this name, whose state is the first of these, and gives the states behind it.
fn add_bank<'a>(
    alloc: Global,
    writer: &mut RecordWriter,
    name: &ElementName,
    closed: &'a [bool],
    into: &mut Vec<Record>,
) -> Result<&'a [bool], AllocError>
    requires writer { IsReady writer.old }
    ensures writer { OnOk result (IsReady writer.new) }
    ensures rows { OnOk result (pieces_of into.new.items ≡ pieces_of into.old.items ++ lines_of (bank_rows_first name.now closed.now)) }
    ensures left { IfOk result (λ left. left.now ≡ drop 1 closed.now) }
{
    match closed {
        [] => Ok(closed),
        [is_closed, left @ ..] => {
            into.push(bank_record(alloc, writer, name, *is_closed)?)?;
            Ok(left)
        }
    }
}

// Adds the record of each bank, in the script's order.
fn add_banks(
    alloc: Global,
    writer: &mut RecordWriter,
    circuit: &Circuit,
    at: &Positions,
    into: &mut Vec<Record>,
) -> Result<(), AllocError>
    requires writer { IsReady writer.old }
    ensures writer { OnOk result (IsReady writer.new) }
    ensures rows { OnOk result (pieces_of into.new.items ≡ pieces_of into.old.items ++ lines_of (bank_rows circuit.now.elements (positions_in at.now))) }
{
    let mut closed = at.closed.as_slice();
    for (name, element) in circuit.elements() {
        if is_bank(element) {
            closed = add_bank(alloc, writer, name, closed, into)?;
        }
    }
    Ok(())
}

/// The records of an hour's settle that ended well, at these positions.
pub(crate) fn settled_records(
    alloc: Global,
    made: &SolvedHour<'_>,
    at: &Positions,
) -> Result<Vec<Record>, AllocError>
    requires network { IsBuiltOf made.now.net.now made.now.circuit.now }
    requires printable { IsPrintable made.now.circuit.now made.now.hour made.now.rounds.now (positions_in at.now) }
    requires probes { made.now.probes.now ≡ probes_of made.now.circuit.now.elements }
    ensures { (l : Kept) → made.now.number ≡ l.settled + 1 → IfOk result (λ r. pieces_of r.items
        ≡ lines_of (report_rows (settle_made made.now.circuit.now made.now.hour l made.now.rounds.now settled
        (positions_in at.now)))) }
{
    // read for what the elements are
    let _elements = made.circuit.elements();
    probes_law();
    let layout = made.net.layout();
    let mut into = Vec::new(alloc);
    add_rounds(
        alloc,
        made.circuit,
        layout,
        made.number,
        made.hour,
        made.rounds,
        &mut into,
    )?;
    let mut writer = RecordWriter::new(alloc);
    add_taps(
        alloc,
        &mut writer,
        made.circuit,
        made.probes,
        made.hour,
        at,
        &mut into,
    )?;
    add_banks(alloc, &mut writer, made.circuit, at, &mut into)?;
    Ok(into)
}

/// The records of an hour's settle that ended with a fault, before the fault's: those of its rounds.
pub(crate) fn failed_records(
    alloc: Global,
    made: &SolvedHour<'_>,
) -> Result<Vec<Record>, AllocError>
    requires network { IsBuiltOf made.now.net.now made.now.circuit.now }
    requires numbers { All (λ r. IsOfSize (size_of (layout_of made.now.circuit.now.elements)) (solution_in r)) (rounds_in made.now.rounds.now) }
    requires few { length made.now.rounds.now < 2 ^ 32 }
    ensures { (l : Kept) (f : FaultView) (tried : Option CertifiedView) (left : PositionsView)
        → made.now.number ≡ l.settled + 1 → IfOk result (λ r. pieces_of r.items
        ≡ lines_of (report_rows (settle_made made.now.circuit.now made.now.hour l made.now.rounds.now
        (end_with f tried) left))) }
{
    let layout = made.net.layout();
    let mut into = Vec::new(alloc);
    add_rounds(
        alloc,
        made.circuit,
        layout,
        made.number,
        made.hour,
        made.rounds,
        &mut into,
    )?;
    Ok(into)
}

/// The records of the voltage bases of a circuit's buses.
pub(crate) fn base_records(alloc: Global, circuit: &Circuit) -> Result<Vec<Record>, AllocError>
    ensures { IfOk result (λ r. pieces_of r.items ≡ base_texts (bases_of circuit.now)) }
{
    let bases = bases(alloc, circuit)?;
    let mut writer = RecordWriter::new(alloc);
    let mut into = Vec::new(alloc);
    for base in &bases {
        into.push(base_record(alloc, &mut writer, &base.bus, base.kv)?)?;
    }
    Ok(into)
}
