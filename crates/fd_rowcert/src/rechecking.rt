// A claim by derived rows is tested again, whoever made it.
ghost use Rattle.std.specs.Prelude.{◌≡◌, ℕ, ◌*◌, ◌<◌, ◌≤◌, ◌^◌, None, IfOk, length};
ghost use Rattle.fd_cert.specs.Claims.{claim_in, proof_in};
ghost use Rattle.fd_cert.specs.fd_enclosure.Boxes.{part_boxes};
ghost use Rattle.fd_cert.specs.fd_enclosure.Sound.{IsShownByRows, IsSound, number_at};
ghost use Rattle.fd_cert.specs.fd_enclosure.fd_pattern.Conditions.{IsPoint};
ghost use Rattle.fd_bounds.specs.fd_derived.Accepted.{IsAccepted};
ghost use Rattle.fd_bounds.specs.fd_derived.Refusals.{first_refusal};
ghost use Rattle.fd_rowcert.specs.Rechecks.{IsFirst, IsFirstOfState, IsRechecked, TellsFirst, first_of_ranges as first_in_range, first_of_rows, rows_claim};

use crate::broken::BrokenRow;
use crate::ranges::{first_far, first_high, first_large, first_narrow, has_size, is_box, refused};
use crate::state::{InBox, state_equations};
use fd_bounds::{Equation, check};
use fd_cert::{Ball, Certified, DerivedRows, NetworkRows, Support, first_untrue, row_mismatches};
use std::alloc::{AllocError, Global};

// The first rule that the numbers of a claim on so many unknowns break.
fn first_of_ranges(
    size: u32,
    centre: &[i128],
    radius: &[u128],
    mismatch: &[u128],
    rows: &DerivedRows,
) -> Option<BrokenRow>
    ensures { result ≡ first_in_range size centre.now radius.now mismatch.now rows.now }
{
    if !has_size(size, centre, radius, mismatch, &rows.claim) {
        return Some(BrokenRow::Size);
    }
    if !is_box(rows.parts) {
        return Some(BrokenRow::Box);
    }
    if let Some(unknown) = first_far(centre, radius) {
        return Some(BrokenRow::Range(unknown));
    }
    if let Some(row) = first_large(&rows.claim) {
        return Some(BrokenRow::RowRange(row));
    }
    if let Some(unknown) = first_high(&rows.claim.bounds) {
        return Some(BrokenRow::BoundRange(unknown));
    }
    None
}

// The first rule that rows with these radii break over equations.
fn rows_broken(
    alloc: Global,
    equations: &[Equation],
    radius: &[u128],
    rows: &DerivedRows,
) -> Result<Option<BrokenRow>, AllocError>
    requires long { length radius.now ≡ length rows.now.claim.bounds.items }
    requires small { (j : ℕ) → j < length rows.now.claim.bounds.items → number_at radius.now j ≤ 2 ^ 40 }
    ensures first { IfOk result (λ o. o ≡ first_of_rows
        (first_refusal equations.now rows.now.claim) rows.now.claim.bounds.items radius.now
        (length rows.now.claim.bounds.items)) }
    ensures accepted { IfOk result (λ o. o ≡ None → IsAccepted equations.now rows.now.claim) }
    ensures wide { IfOk result (λ o. o ≡ None → (j : ℕ) → j < length rows.now.claim.bounds.items
        → number_at rows.now.claim.bounds.items j ≤ 2 ^ 20 * number_at radius.now j) }
{
    if let Some(refusal) = check(alloc, equations, &rows.claim)? {
        return Ok(Some(refused(refusal)));
    }
    match first_narrow(&rows.claim.bounds, radius) {
        Some(unknown) => Ok(Some(BrokenRow::Radius(unknown))),
        None => Ok(None),
    }
}

// The half-widths of a claim's box, where its rows hold at its state; else the first rule that is broken.
fn tested_at_state(
    alloc: Global,
    net: &NetworkRows,
    centre: &[i128],
    radius: &[u128],
    mismatch: &[u128],
    rows: &DerivedRows,
) -> Result<Result<Vec<u128>, BrokenRow>, AllocError>
    requires point { IsPoint net.now centre.now }
    requires parts { 2 ≤ rows.now.parts }
    requires long { length mismatch.now ≡ net.now.size }
    requires tight { (l : ℕ) → l < length mismatch.now → number_at mismatch.now l ≤ 1000 }
    requires radii { length radius.now ≡ net.now.size }
    requires bounds { length rows.now.claim.bounds.items ≡ net.now.size }
    requires small { (j : ℕ) → j < net.now.size → number_at radius.now j ≤ 2 ^ 40 }
    ensures told { IfOk result (λ t. TellsFirst (IsFirstOfState net.now centre.now radius.now mismatch.now rows.now) t
        (λ boxes. boxes.items ≡ part_boxes rows.now.parts net.now centre.now)) }
    ensures shown { IfOk result (λ t. IfOk t (λ _.
        IsShownByRows net.now (rows_claim net.now centre.now radius.now mismatch.now rows.now) (proof_in rows.now))) }
{
    match state_equations(alloc, net, centre, rows.parts, mismatch)? {
        Err(row) => Ok(Err(BrokenRow::Slopes(row))),
        Ok(InBox { equations, boxes }) => match rows_broken(alloc, &equations, radius, rows)? {
            Some(broken) => Ok(Err(broken)),
            None => Ok(Ok(boxes)),
        },
    }
}

// The half-widths of the box of a claim that breaks no rule; else the first that it breaks.
fn tested(
    alloc: Global,
    net: &NetworkRows,
    centre: &[i128],
    radius: &[u128],
    mismatch: &[u128],
    rows: &DerivedRows,
) -> Result<Result<Vec<u128>, BrokenRow>, AllocError>
    ensures told { IfOk result (λ t. TellsFirst (IsFirst net.now centre.now radius.now mismatch.now rows.now) t
        (λ boxes. boxes.items ≡ part_boxes rows.now.parts net.now centre.now)) }
    ensures sound { IfOk result (λ t. IfOk t (λ _.
        IsSound net.now (rows_claim net.now centre.now radius.now mismatch.now rows.now))) }
{
    if let Some(broken) = first_of_ranges(net.size(), centre, radius, mismatch, rows) {
        return Ok(Err(broken));
    }
    let own = row_mismatches(alloc, net, centre)?;
    if let Some(row) = first_untrue(&own, mismatch) {
        return Ok(Err(BrokenRow::Mismatch(row as usize)));
    }
    tested_at_state(alloc, net, centre, radius, mismatch, rows)
}

/// A ball, the mismatches of rows and derived rows as a certified state, with the half-widths of its box, where they
/// break no rule of `BrokenRow`; else the first that they break, whoever claims them. All is computed anew, in whole
/// numbers. A certified state is sound. The lists become the certified state's. Nothing is computed of a claim whose
/// size or whose range is broken.
///
/// # Errors
/// `AllocError` where memory is refused.
pub fn recheck_rows(
    alloc: Global,
    net: &NetworkRows,
    ball: Ball,
    mismatch: Vec<u128>,
    rows: DerivedRows,
) -> Result<Result<Certified, BrokenRow>, AllocError>
    ensures first { IfOk result (λ t. IsRechecked net.now ball.centre.items ball.radius.items mismatch.items rows t) }
    ensures sound { IfOk result (λ t. IfOk t (λ m. IsSound net.now (claim_in m))) }
{
    match tested(alloc, net, &ball.centre, &ball.radius, &mismatch, &rows)? {
        Ok(boxes) => Ok(Ok(Certified {
            ball,
            mismatch,
            boxes,
            support: Support::Rows(rows),
        })),
        Err(broken) => Ok(Err(broken)),
    }
}
