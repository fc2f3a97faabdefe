// A certified state with other mismatches of its rows.
ghost use Rattle.std.specs.Prelude.{◌≡◌, IfOk};
ghost use Rattle.fd_cert.specs.Agreement.{AgreementLaw};
ghost use Rattle.fd_cert.specs.Claims.{claim_in};
ghost use Rattle.fd_cert.specs.Widening.{AreMismatches, IsOfPoint, IsSoundOnceMade, IsWidened, WideningLaw};

use crate::ball::{Ball, Certified, Support};
use crate::certificate::{Judged, Widths, judge};
use fd_enclosure::{Dense, NetworkRows, enclosure_law};
use std::alloc::{AllocError, Global};

/// What a certified state comes to with other mismatches.
#[derive(Debug, Drop)]
pub enum Widened {
    /// The same state and inverse with these mismatches, and the radii that they give.
    Made(Certified),
    /// The first unknown whose bound reaches one; where no bound does, the first whose radius is above 2^40. Unknowns
    /// count from 0.
    Wide { place: u32 },
}

// The same numbers.
fn numbers_of(alloc: Global, numbers: &Vec<i128>) -> Result<Vec<i128>, AllocError>
    ensures { IfOk result (λ copy. copy.items ≡ numbers.now.items) }
{
    Vec::from_slice(alloc, numbers.as_slice())
}

// The same square matrix.
fn copy_of(alloc: Global, square: &Dense) -> Result<Dense, AllocError>
    ensures { IfOk result (λ copy. copy ≡ square.now) }
{
    let size = square.size();
    let mut cells = Vec::with_capacity(alloc, size as usize * size as usize)?;
    for row in 0..size {
        cells.extend_from_slice(square.row(row))?;
    }
    Ok(Dense::from_cells(size, cells))
}

/// A certified state with other mismatches of its rows, in whole microamperes and microvolts, none above 1,000: how far
/// from it another state in its box may be that meets them. The radii come of the same inverse and the same bound, as
/// `certify` computes them of the state's own mismatches; what is made is sound where these are at least those. The list
/// becomes the certified state's.
///
/// # Errors
/// `AllocError` where memory is refused.
pub fn widen(
    alloc: Global,
    net: &NetworkRows,
    certified: &Certified,
    mismatch: Vec<u128>,
) -> Result<Widened, AllocError>
    requires point { IsOfPoint net.now (claim_in certified.now) }
    requires mismatches { AreMismatches net.now mismatch.items }
    ensures widened { IfOk result (IsWidened net.now (claim_in certified.now) mismatch.items) }
    ensures sound { IfOk result (IsSoundOnceMade net.now (claim_in certified.now) mismatch.items) }
{
    // read for what a network is
    let _size = net.size();
    let ball = &certified.ball;
    let inverse = certified.inverse();
    let judged = judge(alloc, net, &ball.centre, inverse, &mismatch)?;
    let Judged { boxes, widths } = judged;
    match widths {
        Widths::Refused { place, .. } => Ok(Widened::Wide { place }),
        Widths::Within(radius) => Ok(Widened::Made(Certified {
            ball: Ball {
                centre: numbers_of(alloc, &ball.centre)?,
                radius,
            },
            mismatch,
            boxes,
            support: Support::Inverse(copy_of(alloc, inverse)?),
        })),
    }
}

/// A law: with mismatches that are at least those of its state a claim is sound, where none of its unknowns is too wide.
/// Does nothing.
pub fn widening_law()
    ensures { WideningLaw }
{}

/// A law: a state in the box of a sound claim whose mismatches are nowhere above the claim's meets them, and is within
/// the claim's radii, however it was found. Does nothing.
pub fn agreement_law()
    ensures { AgreementLaw }
{
    enclosure_law();
}
