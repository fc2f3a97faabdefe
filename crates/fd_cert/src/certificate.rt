// The certificate of a point.
ghost use Rattle.std.specs.Prelude.{◌≡◌, ℕ, ◌≤◌, ◌^◌, ℤ, IfErr, IfOk, length, Ok};
ghost use Rattle.fd_enclosure.specs.fd_exact.States.{entry};
ghost use Rattle.fd_enclosure.specs.fd_pattern.Conditions.{IsPoint};
ghost use Rattle.fd_enclosure.specs.fd_equations.Matrices.{IsMatrix, jacobian_amount};
ghost use Rattle.fd_enclosure.specs.fd_equations.Rounded.{jacobian_entry, list_of};
ghost use Rattle.fd_enclosure.specs.fd_equations.Weights.{weight_at};
ghost use Rattle.fd_enclosure.specs.Bounds.{bound_at};
ghost use Rattle.fd_enclosure.specs.Boxes.{boxes_of, part_boxes};
ghost use Rattle.fd_enclosure.specs.Radii.{part_radius, slope_radius};
ghost use Rattle.fd_enclosure.specs.Sound.{by_inverse, certificate_of};
ghost use Rattle.fd_enclosure.specs.fd_mat.Rows.{EntriesWithin};
ghost use Rattle.fd_cert.specs.Claims.{IsInside, Refuses, claim_in};
ghost use Rattle.fd_cert.specs.Columns.{AreWeights, HasNumbers, HasWeights};
ghost use Rattle.fd_cert.specs.Places.{HaveWidths};
ghost use Rattle.fd_cert.specs.Reaches.{AreBounds, AreTight};
ghost use Rattle.fd_cert.specs.Slopes.{HasRadii};
ghost use Rattle.fd_cert.specs.Verdicts.{IsWidths};

use crate::ball::{Ball, Certified, Support};
use crate::bounds::{Slopes, bounds, rows_by_weight, short_weights};
use crate::boxes::half_widths;
use crate::fault::CertFault;
use crate::mismatches::{first_loose, mismatches};
use crate::parted::parts_of;
use crate::radii::{load_radii, with_radii};
use crate::reach::{first_unbounded, first_wide, greatest_bound, greatest_reach, named, radii};
use crate::sums::Walk;
use fd_enclosure::{Dense, Matrix, NetworkRows, Point};
use std::alloc::{AllocError, Global};

// The box of a certificate by an inverse is this part of the weights.
const PARTS_OF_WEIGHT: u32 = 200;

// The radius of each unknown; or the unknown at which there is no certificate, with its bound.
#[derive(Drop)]
pub(crate) enum Widths {
    Within(Vec<u128>),
    Refused { place: u32, sum: Option<i128> },
}

// The half-widths of the box, and the radii.
#[derive(Drop)]
pub(crate) struct Judged {
    pub boxes: Vec<u128>,
    pub widths: Widths,
}

// The bound of each row.
fn bounds_at(
    alloc: Global,
    net: &NetworkRows,
    x: &[i128],
    inverse: &Dense,
    boxes: &[u128],
    weights: &[i128],
) -> Result<Vec<Option<i128>>, AllocError>
    requires point { IsPoint net.now x.now }
    requires size { length inverse.now ≡ net.now.size }
    requires entries { EntriesWithin inverse.now (2 ^ 56) }
    requires boxes { boxes.now ≡ boxes_of net.now x.now }
    requires weights { AreWeights net.now.size weights.now }
    requires values { HasWeights net.now.size weights.now (weight_at net.now x.now) }
    ensures { IfOk result (λ bounds.
        bounds.items ≡ list_of net.now.size (bound_at net.now.size (entry inverse.now) (jacobian_entry net.now x.now)
        (slope_radius net.now x.now) (weight_at net.now x.now))) }
{
    // read for its bound alone
    let _size = net.size();
    let jacobian = net.jacobian(alloc, x)?;
    let radii = radii_at(alloc, net, x, boxes, &jacobian)?;
    let rows = rows_by_weight(alloc, &radii, weights)?;
    let walk = Walk::of(alloc, &jacobian)?;
    let slopes = Slopes {
        jacobian: walk,
        parts: parts_of(alloc, &rows)?,
        radii: rows,
        weights,
        shorts: short_weights(alloc, weights)?,
    };
    bounds(alloc, &slopes, inverse)
}

/// The radii of slopes in a box around the point x, at the places of its Jacobian, in units of 2^-40.
///
/// # Errors
/// `AllocError` where memory is refused.
pub fn radii_at<'a>(
    alloc: Global,
    net: &NetworkRows,
    x: &[i128],
    boxes: &[u128],
    jacobian: &Matrix<'a>,
) -> Result<Matrix<'a>, AllocError>
    requires point { IsPoint net.now x.now }
    requires boxes { HaveWidths (length x.now) boxes.now }
    requires jacobian { IsMatrix net.now.size jacobian.now (jacobian_amount net.now x.now) }
    ensures size { IfOk result (λ m. m.size ≡ net.now.size) }
    ensures radii { IfOk result (λ m. (parts : ℕ) → boxes.now ≡ part_boxes parts net.now x.now
        → HasRadii m (part_radius parts net.now x.now)) }
    ensures long { IfOk result (λ m. length m.cells ≡ length m.places) }
{
    // read for what a network is
    let _size = net.size();
    let pattern = jacobian.pattern();
    let loads = load_radii(alloc, pattern, net.loads(), x, boxes)?;
    let cells = with_radii(alloc, jacobian.cells(), &loads)?;
    Ok(Matrix::new(pattern, cells))
}

// The radii that the bounds of the rows give.
fn verdict(
    alloc: Global,
    inverse: &Dense,
    mismatch: &[u128],
    bounds: &[Option<i128>],
    weights: &[i128],
) -> Result<Widths, AllocError>
    requires few { length mismatch.now ≤ 2 ^ 11 }
    requires size { length inverse.now ≡ length mismatch.now }
    requires entries { EntriesWithin inverse.now (2 ^ 56) }
    requires tight { AreTight mismatch.now }
    requires weights { AreWeights (length mismatch.now) weights.now }
    requires long { length bounds.now ≡ length mismatch.now }
    requires signs { AreBounds bounds.now }
    ensures { IfOk result (λ w. (J : ℕ → ℕ → ℤ) (R : ℕ → ℕ → ℕ) (f e : ℕ → ℕ)
        → bounds.now ≡ list_of (length mismatch.now) (bound_at (length mismatch.now) (entry inverse.now) J R f)
        → HasWeights (length mismatch.now) weights.now f → HasNumbers (length mismatch.now) mismatch.now e
        → IsWidths (length mismatch.now) (entry inverse.now) J R f e w) }
{
    let reach = greatest_reach(inverse, mismatch, weights);
    if let Some(place) = first_unbounded(bounds, reach, weights) {
        let weight = weights[place as usize].unsigned_abs();
        return Ok(Widths::Refused {
            place,
            sum: named(weight, reach, bounds[place as usize]),
        });
    }
    let radii = radii(alloc, weights, reach, greatest_bound(bounds))?;
    match first_wide(&radii) {
        Some(place) => Ok(Widths::Refused { place, sum: None }),
        None => Ok(Widths::Within(radii)),
    }
}

// The box around the point x, and the radii that its mismatches give.
pub(crate) fn judge(
    alloc: Global,
    net: &NetworkRows,
    x: &[i128],
    inverse: &Dense,
    mismatch: &[u128],
) -> Result<Judged, AllocError>
    requires point { IsPoint net.now x.now }
    requires size { length inverse.now ≡ net.now.size }
    requires entries { EntriesWithin inverse.now (2 ^ 56) }
    requires mismatch { length mismatch.now ≡ net.now.size }
    requires tight { AreTight mismatch.now }
    ensures boxes { IfOk result (λ j. j.boxes.items ≡ boxes_of net.now x.now) }
    ensures widths { IfOk result (λ j. (e : ℕ → ℕ) → HasNumbers net.now.size mismatch.now e
        → IsWidths net.now.size (entry inverse.now) (jacobian_entry net.now x.now) (slope_radius net.now x.now)
        (weight_at net.now x.now) e j.widths) }
{
    // read for its bound alone
    let _size = net.size();
    let weights = net.weights(alloc, x)?;
    let boxes = half_widths(alloc, net, &weights, PARTS_OF_WEIGHT)?;
    let bounds = bounds_at(alloc, net, x, inverse, &boxes, &weights)?;
    let widths = verdict(alloc, inverse, mismatch, &bounds, &weights)?;
    Ok(Judged { boxes, widths })
}

/// The certificate of a point.
///
/// For each row its mismatch, the greater size of the ends of its residual in intervals, in whole microamperes or microvolts. For each
/// unknown the half-width of its box, 1/200 of its weight rounded up, in whole microvolts, and 0 at a branch. And for each unknown its
/// radius: at a state in the box that meets the rows within the mismatches no unknown is further from the point. The radii come from the
/// inverse, from how far it is from inverting the Jacobian at the point and anywhere in the box, and from the mismatches; all in whole
/// numbers, rounded up, so that whoever has the certificate can compute it again. The point becomes the certificate's. The rule is this
/// profile's.
///
/// # Errors
/// `Loose` names the first row with a mismatch above 1,000. Else `NotCertified` names the first unknown whose bound reaches one; else the
/// first whose radius is above 2^40. `NoMemory` where memory is refused. Each row and place that is named is one of the network's.
pub fn certify(alloc: Global, net: &NetworkRows, point: Point) -> Result<Certified, CertFault>
    requires point { IsPoint net.now point.x.items }
    requires size { length point.inverse ≡ net.now.size }
    requires entries { EntriesWithin point.inverse (2 ^ 56) }
    ensures certified { IfOk result (λ m. certificate_of net.now point.x.items point.inverse ≡ Ok (claim_in m)) }
    ensures fault { IfErr result (λ f. Refuses net.now point.x.items point.inverse f) }
    ensures within { IfErr result (λ f. IsInside net.now.size f) }
{
    // read for its bound alone
    let _size = net.size();
    let mismatch = mismatches(alloc, net, &point.x)?;
    if let Some(row) = first_loose(&mismatch) {
        return Err(CertFault::Loose {
            row,
            mismatch: mismatch[row as usize],
        });
    }
    let judged = judge(alloc, net, &point.x, &point.inverse, &mismatch)?;
    let Judged { boxes, widths } = judged;
    match widths {
        Widths::Within(radius) => Ok(certified(point, radius, mismatch, boxes)),
        Widths::Refused { place, sum } => {
            let radius = vec![in alloc; 0; mismatch.len()]?;
            Err(CertFault::NotCertified {
                place,
                sum,
                tried: certified(point, radius, mismatch, boxes),
            })
        }
    }
}

fn certified(point: Point, radius: Vec<u128>, mismatch: Vec<u128>, boxes: Vec<u128>) -> Certified
    ensures { claim_in result ≡ record {
      centre = point.x.items;
      radii = radius.items;
      mismatches = mismatch.items;
      boxes = boxes.items;
      support = by_inverse point.inverse;
    } }
{
    Certified {
        ball: Ball {
            centre: point.x,
            radius,
        },
        mismatch,
        boxes,
        support: Support::Inverse(point.inverse),
    }
}
