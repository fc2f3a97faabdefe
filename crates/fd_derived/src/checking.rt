// The whole check.
ghost use Rattle.std.specs.Prelude.{◌≡◌, ◌↔◌, ◌≤◌, [], None, length, IfOk};
ghost use Rattle.fd_derived.specs.Accepted.{IsAccepted};
ghost use Rattle.fd_derived.specs.Marks.{AreLists, AreMarks};
ghost use Rattle.fd_derived.specs.Refusals.{first_found, first_refusal, has_size as claim_has_size, row_refusal as first_of_row, unknown_refusal as first_of_unknown};
ghost use Rattle.fd_derived.specs.Rows.{number_of_rows};
ghost use Rattle.fd_derived.specs.Sums.{AreZero};

use crate::above::row_refusal;
use crate::bounded::unknown_refusal;
use crate::entries::{Claim, Equation};
use crate::lists::Lists;
use crate::places::Marks;
use crate::refusal::Refusal;
use std::alloc::{AllocError, Global};

// Whether there is a height for each row, and a bound and a row that bounds for each equation.
fn has_size(equations: &[Equation], claim: &Claim) -> bool
    ensures { result ≡ claim_has_size equations.now claim.now }
{
    claim.heights.len() == claim.rows.len()
        && claim.bounding.len() == equations.len()
        && claim.bounds.len() == equations.len()
}

// The rule that the rows break first, if they break any.
fn rows_refusal(
    sums: &mut [i128],
    touched: &mut Vec<usize>,
    marks: &mut Marks,
    equations: &[Equation],
    claim: &Claim,
    lists: &Lists,
) -> Result<Option<Refusal>, AllocError>
    requires heights { length claim.now.heights.items ≡ number_of_rows claim.now }
    requires bounds { length claim.now.bounds.items ≡ length equations.now }
    requires marks { AreMarks (length equations.now) (number_of_rows claim.now) 1 marks.old }
    requires lists { AreLists equations.now claim.now lists.now }
    requires zero { AreZero sums.old }
    requires long { length sums.old ≡ length equations.now }
    requires untouched { touched.old.items ≡ [] }
    ensures { IfOk result (λ refusal. refusal ≡ first_found (first_of_row equations.now claim.now) (number_of_rows claim.now)) }
{
    for row in 0..claim.rows.len() {
        let refusal = row_refusal(sums, touched, marks, equations, claim, lists, row)?;
        if refusal.is_some() {
            return Ok(refusal);
        }
    }
    Ok(None)
}

// The rule that the bounds break first, if they break any.
fn bounds_refusal(claim: &Claim) -> Option<Refusal>
    requires heights { length claim.now.heights.items ≡ number_of_rows claim.now }
    requires bounding { length claim.now.bounding.items ≡ length claim.now.bounds.items }
    ensures { result ≡ first_found (first_of_unknown claim.now) (length claim.now.bounds.items) }
{
    for unknown in 0..claim.bounds.len() {
        let refusal = unknown_refusal(claim, unknown);
        if refusal.is_some() {
            return refusal;
        }
    }
    None
}

/// The first rule that a claim on equations breaks, whoever made it; none exactly where it is accepted: each height
/// stands above its row, each unknown has a row that bounds it, and no number and no sum is past its size.
///
/// The rules' order is that of `Refusal`. There are as many unknowns as equations. In units of 2^-40 are coefficients,
/// radii, multiples and what rows leave, all below 2^63 in size; bounds and right sides are in one unit of the caller's,
/// and heights in units of 2^-40 of it. The steps are in proportion to the entries of the equations and of the rows, each
/// counted once more for each row that names it.
///
/// # Errors
/// `AllocError` where memory is refused.
pub fn check(
    alloc: Global,
    equations: &[Equation],
    claim: &Claim,
) -> Result<Option<Refusal>, AllocError>
    ensures first { IfOk result (λ refusal. refusal ≡ first_refusal equations.now claim.now) }
    ensures accepted { IfOk result (λ refusal. (refusal ≡ None) ↔ IsAccepted equations.now claim.now) }
{
    if !has_size(equations, claim) {
        return Ok(Some(Refusal::Size));
    }
    let lists = Lists::of(alloc, equations, claim)?;
    let mut marks = Marks::none(alloc, equations.len(), claim.rows.len())?;
    let mut sums = vec![in alloc; 0i128; equations.len()]?;
    let mut touched = Vec::new(alloc);
    let refusal = rows_refusal(
        &mut sums,
        &mut touched,
        &mut marks,
        equations,
        claim,
        &lists,
    )?;
    if refusal.is_some() {
        return Ok(refusal);
    }
    Ok(bounds_refusal(claim))
}
