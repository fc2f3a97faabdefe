// The trust box.
ghost use Rattle.std.specs.Prelude.{◌≡◌, ℕ, ◌<◌, ◌≤◌, ◌^◌, IfOk, nat_abs, length};
ghost use Rattle.fd_enclosure.specs.fd_exact.States.{part};
ghost use Rattle.fd_enclosure.specs.fd_equations.Rounded.{list_of};
ghost use Rattle.fd_enclosure.specs.fd_pattern.Views.{kind_of};
ghost use Rattle.fd_enclosure.specs.Boxes.{part_width_by};

use crate::rounding::ceil_over;
use fd_enclosure::{NetworkRows, PlaceKind};
use std::alloc::{AllocError, Global};

/// The half-width of each unknown in the box of `1 / parts` of these weights, in whole microvolts.
///
/// # Errors
/// `AllocError` where memory is refused.
pub fn half_widths(
    alloc: Global,
    net: &NetworkRows,
    weights: &[i128],
    parts: u32,
) -> Result<Vec<u128>, AllocError>
    requires parts { 0 < parts }
    requires long { length weights.now ≡ net.now.size }
    requires small { (i : ℕ) → i < net.now.size → nat_abs (part weights.now i) ≤ 2 ^ 66 }
    ensures { IfOk result (λ b. b.items ≡ list_of net.now.size (λ i. part_width_by parts (kind_of net.now i) (nat_abs (part weights.now i)))) }
{
    let mut boxes = Vec::with_capacity(alloc, weights.len())?;
    for place in 0..net.size() {
        let weight = weights[place as usize].unsigned_abs();
        boxes.push(half_width(net.kind(place), weight, parts))?;
    }
    Ok(boxes)
}

// The half-width of an unknown of this kind and weight.
fn half_width(kind: PlaceKind, weight: u128, parts: u32) -> u128
    requires weight { weight ≤ 2 ^ 66 }
    requires parts { 0 < parts }
    ensures { result ≡ part_width_by parts kind weight }
{
    match kind {
        PlaceKind::Node | PlaceKind::Magnitude => ceil_over(weight, u128::from(parts)),
        PlaceKind::Branch => 0,
    }
}
