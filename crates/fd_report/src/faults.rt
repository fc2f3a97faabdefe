// The faults in which a command line can end: the record and the exit status of each.
ghost use Rattle.std.specs.Fmt.{decimal};
ghost use Rattle.std.specs.Prelude.{◌≡◌, ◌<◌, ◌∷◌, [], codes, IfOk};
ghost use Rattle.dss_script.specs.dss_model.Names.{bytes};
ghost use Rattle.fd_sample.specs.dss_layout.Layout.{size_of};
ghost use Rattle.fd_report.specs.Lines.{line_of};
ghost use Rattle.fd_report.specs.Names.{name_at};
ghost use Rattle.fd_report.specs.Faults.{bound_text, cause_text, fields, model_text, rule_word, scaled_text, script_text, status, stop_word};

use crate::line::record_of;
use crate::names::{element_field, node_field};
use dss_script::{
    ElementName, ModelFault, Place, Record, ScriptCause, Text, micro_text, nano_text, size_text,
};
use fd_cert::Rule;
use fd_inverse::Stop;
use fd_sample::{Layout, NodeName};
use std::alloc::{AllocError, Global};

/// Why a script is refused.
#[derive(Clone, Copy)]
pub enum Cause {
    /// The reader of the script finds it.
    Script(ScriptCause),
    /// The circuit refuses a command, or a test of Solve finds it.
    Model(ModelFault),
}

/// The units of what a control measures.
#[derive(Clone, Copy)]
pub enum Scale {
    /// Whole microvolts or microamperes.
    Micro,
    /// Whole 10^-9 kvar.
    Nano,
}

/// Why a command line ends before its end. Unknowns and rows go by their printed names.
#[derive(Drop)]
pub enum Fault {
    /// The words are no form of the command line.
    Usage,
    /// The script is refused at this place.
    Script {
        place: Place,
        cause: Cause,
    },
    /// The file of this name could not be read.
    Read {
        name: Text,
    },
    /// A matrix of the procedure has no inverse: its elimination ends at the column of this unknown.
    NoInverse {
        unknown: Text,
        cause: Stop,
    },
    /// The iterate of this step has a part or a residual that is too large, first at this unknown. Steps count from 0.
    OutOfRange {
        unknown: Text,
        step: u32,
    },
    /// After so many steps this unknown still moves by this update, in whole microvolts or microamperes.
    NotConverged {
        unknown: Text,
        steps: u32,
        update: i128,
    },
    /// The mismatch of this row, in whole microvolts or microamperes, is above the greatest of a solution.
    Loose {
        row: Text,
        mismatch: u128,
    },
    /// The state has no certificate: the bound of this unknown reaches one. The bound is in whole 2^-40, and none where
    /// it is past every number.
    NotCertified {
        unknown: Text,
        bound: Option<u128>,
    },
    /// The sample of this control is undecided: what it measures lies between these ends, in units of the scale, and
    /// the edge is the least value between them at which what the control wants changes. The control is printed by
    /// class and name, as `regcontrol.a`.
    Undecided {
        control: ElementName,
        low: i128,
        high: i128,
        edge: i128,
        scale: Scale,
    },
    /// A control is due to act after as many acts as the options allow.
    ControlLimit {
        acts: u32,
    },
    /// The certificate breaks this rule, at a line counted from 1; where there is none, the line is 0.
    Certificate {
        line: u64,
        rule: Rule,
    },
    /// A short circuit is studied at this node, and the circuit has none such.
    NoSuchNode {
        node: NodeName,
    },
    /// A circuit isn't radial: this is the first of its elements that is never taken from the source outwards, or that
    /// is a second source.
    NotRadial {
        element: ElementName,
    },
}

/// The name of the real unknown at this place, which is that of its row, as `b.1 re`.
#[tactic(auto, unfolding(crate::specs::Names::name_at))]
pub fn name_at(alloc: Global, layout: &Layout, place: u32) -> Result<Text, AllocError>
    requires { place < size_of layout.now }
    ensures { IfOk result (λ name. name ≡ name_at layout.now place) }
{
    layout.unknown_name(alloc, place as usize)
}

// ---- words

fn stop_word(cause: Stop) -> &'static [u8]
    ensures { result.now ≡ stop_word cause }
{
    match cause {
        Stop::Pivot => b"pivot",
        Stop::Range => b"range",
    }
}

fn rule_word(rule: Rule) -> &'static [u8]
    ensures { result.now ≡ rule_word rule }
{
    match rule {
        Rule::Absent => b"absent",
        Rule::Grammar => b"grammar",
        Rule::Size => b"size",
        Rule::Range => b"range",
        Rule::Mismatch => b"mismatch",
        Rule::Bound => b"bound",
        Rule::Radius => b"radius",
        Rule::Undecided => b"undecided",
        Rule::Acts => b"acts",
        Rule::ControlLimit => b"control limit",
        Rule::Count => b"count",
    }
}

fn script_text(cause: ScriptCause) -> &'static [u8]
    ensures { result.now ≡ script_text cause }
{
    match cause {
        ScriptCause::BadValue => b"bad value",
        ScriptCause::UnclosedGroup => b"unclosed group",
        ScriptCause::LineTooLong => b"line too long",
        ScriptCause::NotText => b"not text",
        ScriptCause::UnknownCommand => b"unknown command",
        ScriptCause::AbsentFile => b"absent file",
        ScriptCause::TooDeep => b"too deep",
        ScriptCause::TooLong => b"too long",
        ScriptCause::ContinuesNothing => b"continues nothing",
    }
}

fn model_text(cause: ModelFault) -> &'static [u8]
    ensures { result.now ≡ model_text cause }
{
    match cause {
        ModelFault::UnknownClass => b"unknown class",
        ModelFault::UnknownProperty => b"unknown property",
        ModelFault::UnknownName => b"unknown name",
        ModelFault::Duplicate => b"duplicate",
        ModelFault::BadValue => b"bad value",
        ModelFault::OutOfRange => b"value out of range",
        ModelFault::WrongCount => b"wrong count",
        ModelFault::Unsupported => b"unsupported",
        ModelFault::NoCircuit => b"no circuit",
        ModelFault::IsolatedNode => b"isolated node",
        ModelFault::NoImpedance => b"no impedance",
        ModelFault::TooMany => b"too many",
        ModelFault::Range => b"range",
        ModelFault::BadNumber => b"bad number",
        ModelFault::NumberTooLarge => b"number too large",
        ModelFault::BadPostfix => b"bad postfix",
        ModelFault::DivideByZero => b"divide by zero",
    }
}

fn cause_text(cause: Cause) -> &'static [u8]
    ensures { result.now ≡ cause_text cause }
{
    match cause {
        Cause::Script(cause) => script_text(cause),
        Cause::Model(cause) => model_text(cause),
    }
}

// ---- records

fn script_record(alloc: Global, place: &Place, cause: &[u8]) -> Result<Record, AllocError>
    ensures { IfOk result (λ r. r.bytes ≡ line_of (codes "fault" ∷ codes "script" ∷ bytes place.now.file ∷ decimal place.now.line ∷ cause.now ∷ [])) }
{
    let line = place.line.to_string(alloc)?;
    record_of(
        alloc,
        &[
            b"fault",
            b"script",
            place.file.as_str().as_bytes(),
            line.as_bytes(),
            cause,
        ],
    )
}

fn read_record(alloc: Global, name: &Text) -> Result<Record, AllocError>
    ensures { IfOk result (λ r. r.bytes ≡ line_of (fields (Fault.Read name.now))) }
{
    record_of(alloc, &[b"fault", b"read", name.as_str().as_bytes()])
}

fn no_inverse_record(alloc: Global, unknown: &Text, cause: &[u8]) -> Result<Record, AllocError>
    ensures { IfOk result (λ r. r.bytes ≡ line_of (codes "fault" ∷ codes "no inverse" ∷ bytes unknown.now ∷ cause.now ∷ [])) }
{
    record_of(
        alloc,
        &[b"fault", b"no inverse", unknown.as_str().as_bytes(), cause],
    )
}

fn out_of_range_record(alloc: Global, unknown: &Text, step: u32) -> Result<Record, AllocError>
    ensures { IfOk result (λ r. r.bytes ≡ line_of (fields (Fault.OutOfRange unknown.now step))) }
{
    let step = step.to_string(alloc)?;
    record_of(
        alloc,
        &[
            b"fault",
            b"out of range",
            unknown.as_str().as_bytes(),
            step.as_bytes(),
        ],
    )
}

fn not_converged_record(
    alloc: Global,
    unknown: &Text,
    steps: u32,
    update: i128,
) -> Result<Record, AllocError>
    ensures { IfOk result (λ r. r.bytes ≡ line_of (fields (Fault.NotConverged unknown.now steps update))) }
{
    let steps = steps.to_string(alloc)?;
    let size = size_text(alloc, update.unsigned_abs())?;
    record_of(
        alloc,
        &[
            b"fault",
            b"not converged",
            unknown.as_str().as_bytes(),
            steps.as_bytes(),
            size.as_slice(),
        ],
    )
}

fn loose_record(alloc: Global, row: &Text, mismatch: u128) -> Result<Record, AllocError>
    ensures { IfOk result (λ r. r.bytes ≡ line_of (fields (Fault.Loose row.now mismatch))) }
{
    let mismatch = size_text(alloc, mismatch)?;
    record_of(
        alloc,
        &[
            b"fault",
            b"loose",
            row.as_str().as_bytes(),
            mismatch.as_slice(),
        ],
    )
}

// A bound is a whole number, or past every number.
fn bound_text(alloc: Global, bound: Option<u128>) -> Result<Vec<u8>, AllocError>
    ensures { IfOk result (λ v. v.items ≡ bound_text bound) }
{
    match bound {
        Some(bound) => Ok(bound.to_string(alloc)?.into_bytes()),
        None => {
            let mut text = Vec::new(alloc);
            text.extend_from_slice(b"all")?;
            Ok(text)
        }
    }
}

fn not_certified_record(
    alloc: Global,
    unknown: &Text,
    bound: Option<u128>,
) -> Result<Record, AllocError>
    ensures { IfOk result (λ r. r.bytes ≡ line_of (fields (Fault.NotCertified unknown.now bound))) }
{
    let bound = bound_text(alloc, bound)?;
    record_of(
        alloc,
        &[
            b"fault",
            b"not certified",
            unknown.as_str().as_bytes(),
            bound.as_slice(),
        ],
    )
}

fn scaled_text(alloc: Global, scale: Scale, value: i128) -> Result<Vec<u8>, AllocError>
    ensures { IfOk result (λ v. v.items ≡ scaled_text scale value) }
{
    match scale {
        Scale::Micro => micro_text(alloc, value),
        Scale::Nano => nano_text(alloc, value),
    }
}

fn undecided_record(
    alloc: Global,
    control: &ElementName,
    low: i128,
    high: i128,
    edge: i128,
    scale: Scale,
) -> Result<Record, AllocError>
    ensures { IfOk result (λ r. r.bytes ≡ line_of (fields (Fault.Undecided control.now low high edge scale))) }
{
    let control = element_field(alloc, control)?;
    let low = scaled_text(alloc, scale, low)?;
    let high = scaled_text(alloc, scale, high)?;
    let edge = scaled_text(alloc, scale, edge)?;
    record_of(
        alloc,
        &[
            b"fault",
            b"undecided",
            control.as_slice(),
            low.as_slice(),
            high.as_slice(),
            edge.as_slice(),
        ],
    )
}

fn control_limit_record(alloc: Global, acts: u32) -> Result<Record, AllocError>
    ensures { IfOk result (λ r. r.bytes ≡ line_of (fields (Fault.ControlLimit acts))) }
{
    let acts = acts.to_string(alloc)?;
    record_of(alloc, &[b"fault", b"control limit", acts.as_bytes()])
}

fn certificate_record(alloc: Global, line: u64, rule: Rule) -> Result<Record, AllocError>
    ensures { IfOk result (λ r. r.bytes ≡ line_of (fields (Fault.Certificate line rule))) }
{
    let line = line.to_string(alloc)?;
    record_of(
        alloc,
        &[b"fault", b"certificate", line.as_bytes(), rule_word(rule)],
    )
}

fn no_such_node_record(alloc: Global, node: &NodeName) -> Result<Record, AllocError>
    ensures { IfOk result (λ r. r.bytes ≡ line_of (fields (Fault.NoSuchNode node.now))) }
{
    let node = node_field(alloc, node)?;
    record_of(alloc, &[b"fault", b"no such node", node.as_slice()])
}

fn not_radial_record(alloc: Global, element: &ElementName) -> Result<Record, AllocError>
    ensures { IfOk result (λ r. r.bytes ≡ line_of (fields (Fault.NotRadial element.now))) }
{
    let element = element_field(alloc, element)?;
    record_of(alloc, &[b"fault", b"not radial", element.as_slice()])
}

/// The record of a fault: its fields, as csv writes them.
pub fn record(alloc: Global, fault: &Fault) -> Result<Record, AllocError>
    ensures { IfOk result (λ r. r.bytes ≡ line_of (fields fault.now)) }
{
    match fault {
        Fault::Usage => record_of(alloc, &[b"fault", b"usage"]),
        Fault::Script { place, cause } => script_record(alloc, place, cause_text(*cause)),
        Fault::Read { name } => read_record(alloc, name),
        Fault::NoInverse { unknown, cause } => no_inverse_record(alloc, unknown, stop_word(*cause)),
        Fault::OutOfRange { unknown, step } => out_of_range_record(alloc, unknown, *step),
        Fault::NotConverged {
            unknown,
            steps,
            update,
        } => not_converged_record(alloc, unknown, *steps, *update),
        Fault::Loose { row, mismatch } => loose_record(alloc, row, *mismatch),
        Fault::NotCertified { unknown, bound } => not_certified_record(alloc, unknown, *bound),
        Fault::Undecided {
            control,
            low,
            high,
            edge,
            scale,
        } => undecided_record(alloc, control, *low, *high, *edge, *scale),
        Fault::ControlLimit { acts } => control_limit_record(alloc, *acts),
        Fault::Certificate { line, rule } => certificate_record(alloc, *line, *rule),
        Fault::NoSuchNode { node } => no_such_node_record(alloc, node),
        Fault::NotRadial { element } => not_radial_record(alloc, element),
    }
}

/// The exit status of a fault.
pub fn status(fault: &Fault) -> u8
    ensures { result ≡ status fault.now }
{
    match fault {
        Fault::Usage => 2,
        Fault::Script { .. } => 3,
        Fault::Read { .. } => 4,
        Fault::NoInverse { .. } => 6,
        Fault::OutOfRange { .. } => 7,
        Fault::NotConverged { .. } => 8,
        Fault::Loose { .. } => 9,
        Fault::NotCertified { .. } => 10,
        Fault::Undecided { .. } => 11,
        Fault::ControlLimit { .. } => 12,
        Fault::Certificate { .. } => 13,
        Fault::NoSuchNode { .. } => 14,
        Fault::NotRadial { .. } => 15,
    }
}
