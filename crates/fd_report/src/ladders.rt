// The record of a ladder sweep.
ghost use Rattle.std.specs.Prelude.{◌≡◌, IfOk};
ghost use Rattle.fd_report.specs.Ladders.{ladder_fields};
ghost use Rattle.fd_report.specs.Lines.{line_of};
ghost use Rattle.fd_report.specs.declared.ladders.Ladder.TheVariants as ladder;

use crate::line::record_of;
use dss_script::{Record, Text, size_text};
use std::alloc::{AllocError, Global};

/// What a ladder sweep comes to beside a certified state: the first of these that is so. Unknowns go by their printed
/// names; sweeps count from 1, and the start is sweep 0.
#[derive(Drop)]
pub enum Ladder {
    /// In this sweep a part of this unknown is too large, or this magnitude.
    OutOfRange {
        unknown: Text,
        sweep: u32,
    },
    /// After so many sweeps a voltage still moves.
    NotConverged {
        sweeps: u32,
    },
    /// The sweep's state has a mismatch above 1,000 in this row; or it lies outside the certified state's box at this
    /// unknown.
    Apart {
        unknown: Text,
    },
    /// With the greater mismatches of both states the bound of this unknown reaches one.
    Wide {
        unknown: Text,
    },
    /// After so many sweeps. Of the parts of voltages, in whole microvolts: the greatest difference between both states,
    /// and the greatest radius that the greater mismatches of both give.
    Agrees {
        sweeps: u32,
        gap: u128,
        radius: u128,
    },
}

fn out_of_range_record(alloc: Global, unknown: &Text, sweep: u32) -> Result<Record, AllocError>
    ensures { IfOk result (λ r. r.bytes ≡ line_of (ladder_fields (ladder.OutOfRange unknown.now sweep))) }
{
    let sweep = sweep.to_string(alloc)?;
    record_of(
        alloc,
        &[
            b"ladder",
            b"out of range",
            unknown.as_str().as_bytes(),
            sweep.as_bytes(),
        ],
    )
}

fn not_converged_record(alloc: Global, sweeps: u32) -> Result<Record, AllocError>
    ensures { IfOk result (λ r. r.bytes ≡ line_of (ladder_fields (ladder.NotConverged sweeps))) }
{
    let sweeps = sweeps.to_string(alloc)?;
    record_of(alloc, &[b"ladder", b"not converged", sweeps.as_bytes()])
}

fn apart_record(alloc: Global, unknown: &Text) -> Result<Record, AllocError>
    ensures { IfOk result (λ r. r.bytes ≡ line_of (ladder_fields (ladder.Apart unknown.now))) }
{
    record_of(alloc, &[b"ladder", b"apart", unknown.as_str().as_bytes()])
}

fn wide_record(alloc: Global, unknown: &Text) -> Result<Record, AllocError>
    ensures { IfOk result (λ r. r.bytes ≡ line_of (ladder_fields (ladder.Wide unknown.now))) }
{
    record_of(alloc, &[b"ladder", b"wide", unknown.as_str().as_bytes()])
}

fn agrees_record(alloc: Global, sweeps: u32, gap: u128, radius: u128) -> Result<Record, AllocError>
    ensures { IfOk result (λ r. r.bytes ≡ line_of (ladder_fields (ladder.Agrees sweeps gap radius))) }
{
    let sweeps = sweeps.to_string(alloc)?;
    let gap = size_text(alloc, gap)?;
    let radius = size_text(alloc, radius)?;
    record_of(
        alloc,
        &[
            b"ladder",
            b"agrees",
            sweeps.as_bytes(),
            gap.as_slice(),
            radius.as_slice(),
        ],
    )
}

/// The record of a ladder sweep, as `ladder,agrees,9,0.000000,0.000000`, `ladder,wide,b.1 re`, `ladder,apart,b.1 re`,
/// `ladder,not converged,150` or `ladder,out of range,b.1 re,3`.
pub fn ladder_record(alloc: Global, ladder: &Ladder) -> Result<Record, AllocError>
    ensures { IfOk result (λ r. r.bytes ≡ line_of (ladder_fields ladder.now)) }
{
    match ladder {
        Ladder::OutOfRange { unknown, sweep } => out_of_range_record(alloc, unknown, *sweep),
        Ladder::NotConverged { sweeps } => not_converged_record(alloc, *sweeps),
        Ladder::Apart { unknown } => apart_record(alloc, unknown),
        Ladder::Wide { unknown } => wide_record(alloc, unknown),
        Ladder::Agrees {
            sweeps,
            gap,
            radius,
        } => agrees_record(alloc, *sweeps, *gap, *radius),
    }
}
