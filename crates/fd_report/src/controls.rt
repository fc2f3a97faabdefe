// The records of controls and of what they leave.
ghost use Rattle.std.specs.Prelude.{◌≡◌, IfOk, OnOk};
ghost use Rattle.fd_report.specs.Lines.{IsReady, line_of};
ghost use Rattle.fd_report.specs.Controls.{act_fields, bank_fields, bank_position, pending_fields, position_text, tap_fields, tap_text, time_text, way_text};

use crate::line::RecordWriter;
use crate::names::element_field;
use dss_script::{ElementName, Record, fixed_text};
use std::alloc::{AllocError, Global};

/// Where a control leaves what it moves.
#[derive(Clone, Copy)]
pub enum Position {
    /// A winding's tap, in whole 10^-5.
    Tap(u32),
    /// A bank is open.
    Open,
    /// A bank is closed.
    Closed,
}

// A time in whole milliseconds: seconds with three decimals.
fn time_text(alloc: Global, time: u64) -> Result<Vec<u8>, AllocError>
    ensures { IfOk result (λ v. v.items ≡ time_text time) }
{
    fixed_text(alloc, 3, u128::from(time))
}

// A tap in whole 10^-5: five decimals.
fn tap_text(alloc: Global, tap: u32) -> Result<Vec<u8>, AllocError>
    ensures { IfOk result (λ v. v.items ≡ tap_text tap) }
{
    fixed_text(alloc, 5, u128::from(tap))
}

fn copied(alloc: Global, word: &[u8]) -> Result<Vec<u8>, AllocError>
    ensures { IfOk result (λ v. v.items ≡ word.now) }
{
    let mut text = Vec::new(alloc);
    text.extend_from_slice(word)?;
    Ok(text)
}

// A tap, or how a bank stands.
fn position_text(alloc: Global, position: Position) -> Result<Vec<u8>, AllocError>
    ensures { IfOk result (λ v. v.items ≡ position_text position) }
{
    match position {
        Position::Tap(tap) => tap_text(alloc, tap),
        Position::Open => copied(alloc, b"open"),
        Position::Closed => copied(alloc, b"closed"),
    }
}

fn bank_position(is_closed: bool) -> Position
    ensures { result ≡ bank_position is_closed }
{
    if is_closed {
        Position::Closed
    } else {
        Position::Open
    }
}

/// The record of an act of a control, as `act,15.000,regcontrol.a,6,1.03750`: its time, in whole milliseconds, as
/// seconds; by how many steps it moves, with their sign (a bank closes by 1 and opens by -1); the position behind it.
pub fn act_record(
    alloc: Global,
    writer: &mut RecordWriter,
    time: u64,
    control: &ElementName,
    steps: i32,
    after: Position,
) -> Result<Record, AllocError>
    requires { IsReady writer.old }
    ensures ready { OnOk result (IsReady writer.new) }
    ensures record { IfOk result (λ r. r.bytes ≡ line_of (act_fields time control.now steps after)) }
{
    let time = time_text(alloc, time)?;
    let control = element_field(alloc, control)?;
    let steps = steps.to_string(alloc)?;
    let after = position_text(alloc, after)?;
    writer.record(
        alloc,
        &[
            b"act",
            time.as_slice(),
            control.as_slice(),
            steps.as_bytes(),
            after.as_slice(),
        ],
    )
}

/// The record of the tap of a regulator's winding, in whole 10^-5, as `tap,regcontrol.a,1.03750`.
pub fn tap_record(
    alloc: Global,
    writer: &mut RecordWriter,
    control: &ElementName,
    tap: u32,
) -> Result<Record, AllocError>
    requires { IsReady writer.old }
    ensures ready { OnOk result (IsReady writer.new) }
    ensures record { IfOk result (λ r. r.bytes ≡ line_of (tap_fields control.now tap)) }
{
    let control = element_field(alloc, control)?;
    let tap = tap_text(alloc, tap)?;
    writer.record(alloc, &[b"tap", control.as_slice(), tap.as_slice()])
}

/// The record of whether a bank of capacitors is closed, as `bank,capacitor.k,open`.
pub fn bank_record(
    alloc: Global,
    writer: &mut RecordWriter,
    bank: &ElementName,
    is_closed: bool,
) -> Result<Record, AllocError>
    requires { IsReady writer.old }
    ensures ready { OnOk result (IsReady writer.new) }
    ensures record { IfOk result (λ r. r.bytes ≡ line_of (bank_fields bank.now is_closed)) }
{
    let bank = element_field(alloc, bank)?;
    let position = position_text(alloc, bank_position(is_closed))?;
    writer.record(alloc, &[b"bank", bank.as_slice(), position.as_slice()])
}

/// The record of an entry that waits in the queue, as `pending,4000.000,regcontrol.a,up`: its time, in whole milliseconds,
/// as seconds; its control; and whether that is to go up (more taps, or a closed bank) or down.
pub fn pending_record(
    alloc: Global,
    writer: &mut RecordWriter,
    time: u64,
    control: &ElementName,
    up: bool,
) -> Result<Record, AllocError>
    requires { IsReady writer.old }
    ensures ready { OnOk result (IsReady writer.new) }
    ensures record { IfOk result (λ r. r.bytes ≡ line_of (pending_fields time control.now up)) }
{
    let time = time_text(alloc, time)?;
    let control = element_field(alloc, control)?;
    let way = way_text(alloc, up)?;
    writer.record(
        alloc,
        &[
            b"pending",
            time.as_slice(),
            control.as_slice(),
            way.as_slice(),
        ],
    )
}

// Up or down.
fn way_text(alloc: Global, up: bool) -> Result<Vec<u8>, AllocError>
    ensures { IfOk result (λ v. v.items ≡ way_text up) }
{
    if up {
        copied(alloc, b"up")
    } else {
        copied(alloc, b"down")
    }
}
