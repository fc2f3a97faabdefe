// A claim is tested again, whoever made it.
ghost use Rattle.std.specs.Prelude.{◌≡◌, ◌↔◌, None, IfOk, length};
ghost use Rattle.fd_enclosure.specs.fd_pattern.Conditions.{IsPoint};
ghost use Rattle.fd_enclosure.specs.Boxes.{boxes_of};
ghost use Rattle.fd_enclosure.specs.Sound.{IsInverse, IsSound};
ghost use Rattle.fd_cert.specs.Claims.{claim_in};
ghost use Rattle.fd_cert.specs.Rechecks.{IsBoxed, Tells, boxed_claim, first_at_point, first_broken};

use crate::ball::{Ball, Certified, Support};
use crate::certificate::{Judged, Widths, judge};
use crate::mismatches::{first_untrue, mismatches};
use crate::range::{first_out_of_range, has_size};
use crate::reach::first_narrow;
use crate::rule::{Broken, Rule};
use fd_enclosure::{Dense, NetworkRows};
use std::alloc::{AllocError, Global};

// The boxes of a point's claim, where its mismatches, its bound and its radii hold; else the first rule that is broken.
fn tested_at_point(
    alloc: Global,
    net: &NetworkRows,
    centre: &[i128],
    radius: &[u128],
    mismatch: &[u128],
    inverse: &Dense,
) -> Result<Result<Vec<u128>, Broken>, AllocError>
    requires point { IsPoint net.now centre.now }
    requires radii { length radius.now ≡ net.now.size }
    requires mismatches { length mismatch.now ≡ net.now.size }
    requires inverse { IsInverse net.now.size inverse.now }
    ensures { IfOk result (λ t.
        Tells (first_at_point net.now centre.now radius.now mismatch.now inverse.now) t (λ boxes.
        boxes.items ≡ boxes_of net.now centre.now)) }
{
    // read for its bound alone
    let _size = net.size();
    let own = mismatches(alloc, net, centre)?;
    if let Some(place) = first_untrue(&own, mismatch) {
        return Ok(Err(Broken {
            rule: Rule::Mismatch,
            place,
        }));
    }
    let judged = judge(alloc, net, centre, inverse, mismatch)?;
    let Judged { boxes, widths } = judged;
    match widths {
        Widths::Refused { place, .. } => Ok(Err(Broken {
            rule: Rule::Bound,
            place,
        })),
        Widths::Within(least) => match first_narrow(&least, radius) {
            Some(place) => Ok(Err(Broken {
                rule: Rule::Radius,
                place,
            })),
            None => Ok(Ok(boxes)),
        },
    }
}

// The boxes of a claim that breaks no rule; else the first that it breaks.
fn tested(
    alloc: Global,
    net: &NetworkRows,
    centre: &[i128],
    radius: &[u128],
    mismatch: &[u128],
    inverse: &Dense,
) -> Result<Result<Vec<u128>, Broken>, AllocError>
    ensures { IfOk result (λ t.
        Tells (first_broken net.now centre.now radius.now mismatch.now inverse.now) t (λ boxes.
        boxes.items ≡ boxes_of net.now centre.now)) }
{
    // read for its bound alone
    let _size = net.size();
    if !has_size(net, centre, radius, mismatch, inverse) {
        return Ok(Err(Broken {
            rule: Rule::Size,
            place: 0,
        }));
    }
    match first_out_of_range(centre, radius, inverse) {
        Some(place) => Ok(Err(Broken {
            rule: Rule::Range,
            place,
        })),
        None => tested_at_point(alloc, net, centre, radius, mismatch, inverse),
    }
}

/// The first rule that a claim by an inverse breaks on a network; none exactly where the claim is sound, whoever made it.
///
/// In this order: `Size`, where the centre, the radii, the mismatches or the inverse hasn't the network's size; `Range`, at the first
/// unknown whose centre or radius is above 2^40 in size, or whose row of the inverse has an entry above 2^56; `Mismatch`, at the first row
/// whose mismatch is below the state's own or above 1,000; `Bound`, at the unknown that a refusal of a certificate with these mismatches
/// names; and `Radius`, at the first unknown whose radius is below what the mismatches and the bound give. All is computed anew, in whole
/// numbers, and its boxes are those of the centre. The rule is this profile's.
///
/// # Errors
/// `AllocError` where memory is refused.
pub fn recheck(
    alloc: Global,
    net: &NetworkRows,
    ball: &Ball,
    mismatch: &[u128],
    inverse: &Dense,
) -> Result<Option<Broken>, AllocError>
    ensures first { IfOk result (λ b. b ≡ first_broken net.now ball.now.centre.items ball.now.radius.items mismatch.now inverse.now) }
    ensures sound { IfOk result (λ b. (b ≡ None)
        ↔ IsSound net.now (boxed_claim net.now ball.now.centre.items ball.now.radius.items mismatch.now inverse.now)) }
{
    // read for what a network is
    let _size = net.size();
    match tested(alloc, net, &ball.centre, &ball.radius, mismatch, inverse)? {
        Ok(_boxes) => Ok(None),
        Err(broken) => Ok(Some(broken)),
    }
}

/// A ball, the mismatches of rows and an inverse as a certified state, with the boxes of its centre, where they break no rule of
/// `recheck`; else the first that they break. The lists become the certified state's. Nothing is computed of a claim whose size or whose
/// range is broken.
///
/// # Errors
/// `AllocError` where memory is refused.
pub fn boxed(
    alloc: Global,
    net: &NetworkRows,
    ball: Ball,
    mismatch: Vec<u128>,
    inverse: Dense,
) -> Result<Result<Certified, Broken>, AllocError>
    ensures first { IfOk result (λ t. IsBoxed net.now (boxed_claim net.now ball.centre.items ball.radius.items mismatch.items inverse) t) }
    ensures sound { IfOk result (λ t. IfOk t (λ m. IsSound net.now (claim_in m))) }
{
    // read for what a network is
    let _size = net.size();
    match tested(alloc, net, &ball.centre, &ball.radius, &mismatch, &inverse)? {
        Ok(boxes) => Ok(Ok(Certified {
            ball,
            mismatch,
            boxes,
            support: Support::Inverse(inverse),
        })),
        Err(broken) => Ok(Err(broken)),
    }
}
