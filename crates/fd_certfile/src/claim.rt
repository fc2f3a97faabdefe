// The claim that the numbers of a block are read as, tested on a network.
ghost use Rattle.std.specs.Prelude.{◌≡◌, ◌*◌, IfOk, length, map};
ghost use Rattle.fd_settle.specs.fd_mat.Rows.{square};
ghost use Rattle.fd_settle.specs.fd_enclosure.Sound.{IsSound};
ghost use Rattle.fd_settle.specs.fd_cert.Claims.{claim_in};
ghost use Rattle.fd_settle.specs.fd_cert.Rechecks.{IsBoxed, boxed_claim};
ghost use Rattle.fd_certfile.specs.Claiming.{centre_in, mismatch_in, radius_in};

use crate::block::Part;
use crate::cells::Cells;
use fd_settle::{Ball, Broken, Certified, Dense, NetworkRows, boxed};
use std::alloc::{AllocError, Global};

// What numbers below 0 are read as: a radius that is out of range, and a mismatch above the greatest of a solution.
const RADIUS_BELOW_0: u128 = 0x100_0000_0001;

const MISMATCH_BELOW_0: u128 = 1_001;

fn radius(part: &Part) -> u128
    ensures { result ≡ radius_in part.now }
{
    if part.radius < 0 {
        RADIUS_BELOW_0
    } else {
        part.radius.unsigned_abs()
    }
}

fn mismatch(part: &Part) -> u128
    ensures { result ≡ mismatch_in part.now }
{
    if part.mismatch < 0 {
        MISMATCH_BELOW_0
    } else {
        part.mismatch.unsigned_abs()
    }
}

fn centres(alloc: Global, parts: &[Part]) -> Result<Vec<i128>, AllocError>
    ensures { IfOk result (λ xs. xs.items ≡ map centre_in parts.now) }
{
    parts.iter().map(|part| part.centre).collect(alloc)
}

fn radii(alloc: Global, parts: &[Part]) -> Result<Vec<u128>, AllocError>
    ensures { IfOk result (λ rs. rs.items ≡ map radius_in parts.now) }
{
    parts.iter().map(|part| radius(part)).collect(alloc)
}

fn mismatches(alloc: Global, parts: &[Part]) -> Result<Vec<u128>, AllocError>
    ensures { IfOk result (λ es. es.items ≡ map mismatch_in parts.now) }
{
    parts.iter().map(|part| mismatch(part)).collect(alloc)
}

/// What a block of so many unknowns claims, as a certified state; or the first rule that it breaks.
pub(crate) fn claimed(
    alloc: Global,
    net: &NetworkRows,
    size: u32,
    parts: &[Part],
    cells: Cells,
) -> Result<Result<Certified, Broken>, AllocError>
    requires size { size ≡ net.now.size }
    requires long { length cells ≡ size * size }
    ensures first { IfOk result (λ t.
        IsBoxed net.now (boxed_claim net.now (map centre_in parts.now) (map radius_in parts.now)
        (map mismatch_in parts.now) (square size cells)) t) }
    ensures sound { IfOk result (λ t. IfOk t (λ m. IsSound net.now (claim_in m))) }
{
    let ball = Ball {
        centre: centres(alloc, parts)?,
        radius: radii(alloc, parts)?,
    };
    let mismatch = mismatches(alloc, parts)?;
    boxed_cells(alloc, net, size, ball, mismatch, cells)
}

// As `boxed`, of an inverse whose entries may need more than 64 bits.
fn boxed_cells(
    alloc: Global,
    net: &NetworkRows,
    size: u32,
    ball: Ball,
    mismatch: Vec<u128>,
    cells: Cells,
) -> Result<Result<Certified, Broken>, AllocError>
    requires size { size ≡ net.now.size }
    requires long { length cells ≡ size * size }
    ensures first { IfOk result (λ t.
        IsBoxed net.now (boxed_claim net.now ball.centre.items ball.radius.items mismatch.items (square size cells)) t) }
    ensures sound { IfOk result (λ t. IfOk t (λ m. IsSound net.now (claim_in m))) }
{
    let inverse = Dense::from_cells(size, cells.into_shorts());
    boxed(alloc, net, ball, mismatch, inverse)
}
