// The records of the voltage bases of buses.
ghost use Rattle.std.specs.Prelude.{◌≡◌, ◌+◌, ◌*◌, ◌/◌, ◌<◌, ◌≤◌, ◌^◌, IfOk, OnOk};
ghost use Rattle.fd_inverse.specs.fd_exact.Rounding.{near_div};
ghost use Rattle.fd_report.specs.Bases.{base_fields};
ghost use Rattle.fd_report.specs.Lines.{IsReady, line_of};

use crate::line::RecordWriter;
use dss_script::{Record, Text, micro_text};
use std::alloc::{AllocError, Global};

// A size in units of which a thousand are one, rounded to the nearest, a tie away from zero.
fn near_thousand(size: u128) -> u128
    requires { size ≤ 2 ^ 127 }
    ensures value { result ≡ (2 * size + 1000) / 2000 }
    ensures small { result < 2 ^ 126 }
{
    (size + 500) / 1000
}

// A number of 10^-9 in whole 10^-6, to the nearest, a tie away from zero.
fn near_micro(nano: i128) -> i128
    ensures { result ≡ near_div nano 1000 }
{
    let size = near_thousand(nano.unsigned_abs());
    if nano < 0 {
        -(size as i128)
    } else {
        size as i128
    }
}

/// The record of the voltage base of a bus, in whole 10^-9 kV, as `base,sourcebus,4.160000`: in kV with six decimals,
/// rounded to the nearest.
pub fn base_record(
    alloc: Global,
    writer: &mut RecordWriter,
    bus: &Text,
    kv: i128,
) -> Result<Record, AllocError>
    requires { IsReady writer.old }
    ensures ready { OnOk result (IsReady writer.new) }
    ensures record { IfOk result (λ r. r.bytes ≡ line_of (base_fields bus.now kv)) }
{
    let kv = micro_text(alloc, near_micro(kv))?;
    writer.record(alloc, &[b"base", bus.as_str().as_bytes(), kv.as_slice()])
}
