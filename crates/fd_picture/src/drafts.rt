// What a record makes of a report that is read.
ghost use Rattle.std.specs.Prelude.{◌≡◌, ◌<◌, ◌&&◌, ◌==◌, [], IfOk, OnOk, option_map};
ghost use Rattle.csv.specs.Records.{fields_of};
ghost use Rattle.fd_picture.specs.Drafts.{empty_draft};
ghost use Rattle.fd_picture.specs.Fields.{at as field_at};
ghost use Rattle.fd_picture.specs.Numbers.{before_dot, behind_dot};
ghost use Rattle.fd_picture.specs.Reading.{CountGives, Makes, act_to, bank_to, base_to, bare_node, counted, fault_to, finished, has_act_form, has_branch_form, has_ladder_form, has_magnitude_form, has_node_form, has_pending_form, is_kind, kept_panels, node_in, node_to, other_record, passed_over, position_to, record_to, row_to, solution_to, tap_to, with_node};
ghost use Rattle.fd_picture.specs.declared.fault.Cause.TheVariants as cause;
ghost use Rattle.fd_picture.specs.declared.report.Entry.{Entry};
ghost use Rattle.fd_picture.specs.declared.report.Kind.TheVariants as kind;
ghost use Rattle.fd_picture.specs.declared.report.Node.{Node};
ghost use Rattle.fd_picture.specs.declared.report.Panel.{Panel};

use crate::fault::{Cause, Stop};
use crate::fields::{at, spaced};
use crate::numbers::{
    decimal, is_bank_position, is_name, is_position, is_same, is_signed, is_size, is_steps, is_tap,
    is_text, is_time, whole,
};
use crate::report::{Base, Draft, Entry, Kind, Node, Nodes, Panel, Report};
use csv::ByteRecord;
use fd_outside::Bytes;
use std::alloc::{AllocError, Global};

fn copied(alloc: Global, text: &[u8]) -> Result<Bytes, AllocError>
    ensures { IfOk result (λ bytes. bytes ≡ text.now) }
{
    Ok(Bytes::new(Vec::from_slice(alloc, text)?))
}

// The bytes before the first point, and those behind it.
fn at_dot(name: &[u8]) -> (&[u8], &[u8])
    ensures bus { result.0.now ≡ before_dot name.now }
    ensures node { result.1.now ≡ behind_dot name.now }
{
    for i in 0..name.len() {
        if name[i] == b'.' {
            return (&name[..i], &name[i + 1..]);
        }
    }
    (name, &[])
}

// A node without the form of its other fields.
fn bare_node(alloc: Global, row: &ByteRecord) -> Result<Option<Node>, AllocError>
    ensures { IfOk result (λ node. node ≡ bare_node (fields_of row.now)) }
{
    let (bus, number) = at_dot(at(row, 1));
    match (
        whole(number),
        decimal(6, at(row, 6)),
        decimal(6, at(row, 7)),
    ) {
        (Some(number), Some(low), Some(high)) if is_name(bus) => Ok(Some(Node {
            bus: copied(alloc, bus)?,
            number,
            low,
            high,
        })),
        _ => Ok(None),
    }
}

fn has_node_form(row: &ByteRecord) -> bool
    ensures { result ≡ has_node_form (fields_of row.now) }
{
    is_signed(at(row, 2))
        && is_signed(at(row, 3))
        && is_size(at(row, 4))
        && is_size(at(row, 5))
        && is_size(at(row, 8))
        && is_size(at(row, 9))
}

#[tactic(auto, unfolding(crate::specs::Reading::node_in))]
fn node_in(alloc: Global, row: &ByteRecord) -> Result<Option<Node>, AllocError>
    ensures { IfOk result (λ node. node ≡ node_in (fields_of row.now)) }
{
    if has_node_form(row) {
        bare_node(alloc, row)
    } else {
        Ok(None)
    }
}

#[tactic(auto, unfolding(crate::specs::Reading::has_branch_form))]
fn has_branch_form(row: &ByteRecord) -> bool
    ensures { result ≡ has_branch_form (fields_of row.now) }
{
    is_name(at(row, 1))
        && whole(at(row, 2)).is_some()
        && is_signed(at(row, 3))
        && is_signed(at(row, 4))
        && is_size(at(row, 5))
        && is_size(at(row, 6))
        && is_size(at(row, 7))
}

#[tactic(auto, unfolding(crate::specs::Reading::has_magnitude_form))]
fn has_magnitude_form(row: &ByteRecord) -> bool
    ensures { result ≡ has_magnitude_form (fields_of row.now) }
{
    is_name(at(row, 1))
        && whole(at(row, 2)).is_some()
        && is_signed(at(row, 3))
        && is_size(at(row, 4))
        && is_size(at(row, 5))
        && is_size(at(row, 6))
}

#[tactic(auto, unfolding(crate::specs::Reading::has_ladder_form))]
fn has_ladder_form(row: &ByteRecord) -> bool
    ensures { result ≡ has_ladder_form (fields_of row.now) }
{
    let word = at(row, 1);
    if is_same(word, b"agrees") {
        row.len() == 5 && whole(at(row, 2)).is_some() && is_size(at(row, 3)) && is_size(at(row, 4))
    } else if is_same(word, b"out of range") {
        row.len() == 4 && is_name(at(row, 2)) && whole(at(row, 3)).is_some()
    } else if is_same(word, b"not converged") {
        row.len() == 3 && whole(at(row, 2)).is_some()
    } else {
        (is_same(word, b"apart") || is_same(word, b"wide")) && row.len() == 3 && is_name(at(row, 2))
    }
}

fn has_pending_form(row: &ByteRecord) -> bool
    ensures { result ≡ has_pending_form (fields_of row.now) }
{
    is_time(at(row, 1))
        && is_name(at(row, 2))
        && (is_same(at(row, 3), b"up") || is_same(at(row, 3), b"down"))
}

#[tactic(auto, unfolding(crate::specs::Reading::has_act_form))]
fn has_act_form(row: &ByteRecord) -> bool
    ensures { result ≡ has_act_form (fields_of row.now) }
{
    is_time(at(row, 1)) && is_name(at(row, 2)) && is_steps(at(row, 3)) && is_position(at(row, 4))
}

// Adds the panel that was open to those that are done, unless the next round replaces it: that of the same settle and
// hour.
fn keep_panel(
    done: &mut Vec<Panel>,
    current: Option<Panel>,
    settle: u64,
    hour: u64,
) -> Result<(), AllocError>
    ensures { OnOk result (done.new.items ≡ kept_panels done.old.items current settle hour) }
{
    if let Some(last) = current {
        let is_same = last.settle == settle && last.hour == hour;
        if !is_same {
            done.push(last)?;
        }
    }
    Ok(())
}

fn solution_to(alloc: Global, draft: &mut Draft, row: &ByteRecord) -> Result<(), Stop>
    ensures { Makes draft.new result (solution_to draft.old (fields_of row.now)) }
{
    match (whole(at(row, 1)), whole(at(row, 2)), whole(at(row, 3))) {
        (Some(settle), Some(hour), Some(round)) => {
            let last = draft.current.replace(Panel {
                settle,
                hour,
                round,
                nodes: Nodes::new(Vec::new(alloc)),
            });
            keep_panel(&mut draft.done, last, settle, hour)?;
            Ok(())
        }
        _ => Err(Stop::Refused(Cause::BadField)),
    }
}

// Adds a node to a panel.
fn with_node(panel: &mut Panel, node: Option<Node>) -> Result<(), Stop>
    ensures { Makes panel.new result (with_node panel.old node) }
{
    let Some(node) = node else {
        return Err(Stop::Refused(Cause::BadField));
    };
    if node.high < node.low {
        return Err(Stop::Refused(Cause::LowAboveHigh));
    }
    panel.nodes.push(node)?;
    Ok(())
}

fn node_to(alloc: Global, draft: &mut Draft, row: &ByteRecord) -> Result<(), Stop>
    ensures { Makes draft.new result (node_to draft.old (fields_of row.now)) }
{
    let Some(panel) = &mut draft.current else {
        return Err(Stop::Refused(Cause::NoSolution));
    };
    with_node(panel, node_in(alloc, row)?)
}

fn passed_over(draft: &Draft, form: bool) -> Result<(), Stop>
    ensures { Makes draft.now result (passed_over draft.now form) }
{
    if draft.current.is_none() {
        return Err(Stop::Refused(Cause::NoSolution));
    }
    if form {
        Ok(())
    } else {
        Err(Stop::Refused(Cause::BadField))
    }
}

// The settle and the hour of the panel that is open.
fn place_of(draft: &Draft) -> Option<(u64, u64)>
    ensures { result ≡ option_map (λ panel. (panel.settle, panel.hour)) draft.now.current }
{
    match &draft.current {
        Some(panel) => Some((panel.settle, panel.hour)),
        None => None,
    }
}

// The row of the table of an act.
fn act_entry(alloc: Global, settle: u64, hour: u64, row: &ByteRecord) -> Result<Entry, AllocError>
    ensures { IfOk result (λ entry. entry ≡ record {
      settle = settle;
      hour = hour;
      kind = kind.Act;
      time = field_at (fields_of row.now) 1;
      element = field_at (fields_of row.now) 2;
      steps = field_at (fields_of row.now) 3;
      position = field_at (fields_of row.now) 4;
    }) }
{
    Ok(Entry {
        settle,
        hour,
        kind: Kind::Act,
        time: copied(alloc, at(row, 1))?,
        element: copied(alloc, at(row, 2))?,
        steps: copied(alloc, at(row, 3))?,
        position: copied(alloc, at(row, 4))?,
    })
}

fn act_to(alloc: Global, draft: &mut Draft, row: &ByteRecord) -> Result<(), Stop>
    ensures { Makes draft.new result (act_to draft.old (fields_of row.now)) }
{
    let Some((settle, hour)) = place_of(draft) else {
        return Err(Stop::Refused(Cause::NoSolution));
    };
    if !has_act_form(row) {
        return Err(Stop::Refused(Cause::BadField));
    }
    draft.entries.push(act_entry(alloc, settle, hour, row)?)?;
    Ok(())
}

// The row of the table of a tap or a bank.
fn position_entry(
    alloc: Global,
    settle: u64,
    hour: u64,
    kind: Kind,
    row: &ByteRecord,
) -> Result<Entry, AllocError>
    ensures { IfOk result (λ entry. entry ≡ record {
      settle = settle;
      hour = hour;
      kind = kind;
      time = [];
      element = field_at (fields_of row.now) 1;
      steps = [];
      position = field_at (fields_of row.now) 2;
    }) }
{
    Ok(Entry {
        settle,
        hour,
        kind,
        time: Bytes::new(Vec::new(alloc)),
        element: copied(alloc, at(row, 1))?,
        steps: Bytes::new(Vec::new(alloc)),
        position: copied(alloc, at(row, 2))?,
    })
}

// Adds the row of a tap or a bank, where its fields have their form.
fn position_to(
    alloc: Global,
    draft: &mut Draft,
    kind: Kind,
    form: bool,
    row: &ByteRecord,
) -> Result<(), Stop>
    ensures { Makes draft.new result (position_to draft.old kind form (fields_of row.now)) }
{
    let Some((settle, hour)) = place_of(draft) else {
        return Err(Stop::Refused(Cause::NoSolution));
    };
    if !form {
        return Err(Stop::Refused(Cause::BadField));
    }
    draft
        .entries
        .push(position_entry(alloc, settle, hour, kind, row)?)?;
    Ok(())
}

fn tap_to(alloc: Global, draft: &mut Draft, row: &ByteRecord) -> Result<(), Stop>
    ensures { Makes draft.new result (tap_to draft.old (fields_of row.now)) }
{
    let form = is_name(at(row, 1)) && is_tap(at(row, 2));
    position_to(alloc, draft, Kind::Tap, form, row)
}

fn bank_to(alloc: Global, draft: &mut Draft, row: &ByteRecord) -> Result<(), Stop>
    ensures { Makes draft.new result (bank_to draft.old (fields_of row.now)) }
{
    let form = is_name(at(row, 1)) && is_bank_position(at(row, 2));
    position_to(alloc, draft, Kind::Bank, form, row)
}

fn base_to(alloc: Global, draft: &mut Draft, row: &ByteRecord) -> Result<(), Stop>
    ensures { Makes draft.new result (base_to draft.old (fields_of row.now)) }
{
    let Some(micro_kilovolts) = decimal(6, at(row, 2)) else {
        return Err(Stop::Refused(Cause::BadField));
    };
    if !is_name(at(row, 1)) || micro_kilovolts == 0 {
        return Err(Stop::Refused(Cause::BadField));
    }
    let bus = copied(alloc, at(row, 1))?;
    draft.bases.push(Base {
        bus,
        micro_kilovolts,
    })?;
    Ok(())
}

fn fault_to(alloc: Global, draft: &mut Draft, row: &ByteRecord) -> Result<(), Stop>
    ensures { Makes draft.new result (fault_to draft.old (fields_of row.now)) }
{
    let text = spaced(alloc, row)?;
    if !is_text(&text) {
        return Err(Stop::Refused(Cause::BadField));
    }
    draft.fault = Some(Bytes::new(text));
    Ok(())
}

fn counted(right: bool) -> Result<(), Stop>
    ensures { CountGives result right }
{
    if right {
        Ok(())
    } else {
        Err(Stop::Refused(Cause::FieldCount))
    }
}

fn is_kind(row: &ByteRecord, name: &[u8]) -> bool
    ensures { result ≡ is_kind (fields_of row.now) name.now }
{
    is_same(at(row, 0), name)
}

#[tactic(auto, unfolding(crate::specs::Reading::other_record))]
fn other_record(alloc: Global, draft: &mut Draft, row: &ByteRecord) -> Result<(), Stop>
    ensures { Makes draft.new result (other_record draft.old (fields_of row.now)) }
{
    if is_kind(row, b"act") {
        counted(row.len() == 5)?;
        act_to(alloc, draft, row)
    } else if is_kind(row, b"tap") {
        counted(row.len() == 3)?;
        tap_to(alloc, draft, row)
    } else if is_kind(row, b"bank") {
        counted(row.len() == 3)?;
        bank_to(alloc, draft, row)
    } else if is_kind(row, b"pending") {
        counted(row.len() == 4)?;
        passed_over(draft, has_pending_form(row))
    } else if is_kind(row, b"base") {
        counted(row.len() == 3)?;
        base_to(alloc, draft, row)
    } else if is_kind(row, b"fault") {
        counted(row.len() > 1)?;
        fault_to(alloc, draft, row)
    } else {
        Err(Stop::Refused(Cause::UnknownRecord))
    }
}

#[tactic(auto, unfolding(crate::specs::Reading::record_to))]
fn record_to(alloc: Global, draft: &mut Draft, row: &ByteRecord) -> Result<(), Stop>
    ensures { Makes draft.new result (record_to draft.old (fields_of row.now)) }
{
    if is_kind(row, b"solution") {
        counted(row.len() == 4)?;
        solution_to(alloc, draft, row)
    } else if is_kind(row, b"node") {
        counted(row.len() == 10)?;
        node_to(alloc, draft, row)
    } else if is_kind(row, b"branch") {
        counted(row.len() == 8)?;
        passed_over(draft, has_branch_form(row))
    } else if is_kind(row, b"magnitude") {
        counted(row.len() == 7)?;
        passed_over(draft, has_magnitude_form(row))
    } else if is_kind(row, b"short") {
        counted(row.len() == 8)?;
        passed_over(draft, has_branch_form(row))
    } else if is_kind(row, b"ladder") {
        passed_over(draft, has_ladder_form(row))
    } else {
        other_record(alloc, draft, row)
    }
}

/// Adds a record to those of a draft.
#[tactic(auto, unfolding(crate::specs::Reading::row_to))]
pub(crate) fn row_to(alloc: Global, draft: &mut Draft, row: &ByteRecord) -> Result<(), Stop>
    ensures { Makes draft.new result (row_to draft.old (fields_of row.now)) }
{
    if draft.fault.is_some() {
        return Err(Stop::Refused(Cause::BehindFault));
    }
    record_to(alloc, draft, row)
}

/// A draft of no records.
pub(crate) fn empty_draft(alloc: Global) -> Draft
    ensures { result ≡ empty_draft }
{
    Draft {
        done: Vec::new(alloc),
        current: None,
        entries: Vec::new(alloc),
        bases: Vec::new(alloc),
        fault: None,
    }
}

/// The report of a draft behind its last record.
pub(crate) fn finished(draft: Draft) -> Result<Report, AllocError>
    ensures { IfOk result (λ report. report ≡ finished draft) }
{
    let mut draft = draft;
    if let Some(last) = draft.current.take() {
        draft.done.push(last)?;
    }
    Ok(Report {
        panels: draft.done,
        entries: draft.entries,
        bases: draft.bases,
        fault: draft.fault,
    })
}
