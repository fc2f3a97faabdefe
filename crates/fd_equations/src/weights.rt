// The weights of the unknowns.
ghost use Rattle.std.specs.Prelude.{◌≡◌, ◌+◌, ◌*◌, ◌/◌, ◌<◌, ◌≤◌, ◌^◌, IfOk, length, All, pos};
ghost use Rattle.fd_pattern.specs.Conditions.{IsPart};
ghost use Rattle.fd_equations.specs.Rounded.{list_of};
ghost use Rattle.fd_pattern.specs.Views.{kind_in};
ghost use Rattle.fd_equations.specs.Weights.{size_of_both as both_of, weight_by};
ghost use Rattle.fd_pattern.specs.declared.layout.PlaceKind.TheVariants.{Node};

use fd_pattern::{Layout, PlaceKind};
use std::alloc::{AllocError, Global};

// One volt, and one ampere.
const FLOOR: u128 = 1_000_000;

/// The weight of each unknown at the point x: of branches by the draw.
pub fn weights(
    alloc: Global,
    layout: &Layout,
    draw: u128,
    x: &[i128],
) -> Result<Vec<i128>, AllocError>
    requires layout { 2 * (layout.now.nodes + layout.now.branches) + layout.now.magnitudes ≡ length x.now }
    requires small { length x.now ≤ 2 ^ 11 }
    requires parts { All IsPart x.now }
    requires draw { 16 * draw + 10 ^ 6 ≤ 2 ^ 65 }
    ensures { IfOk result (λ w. w.items ≡ list_of (length x.now) (λ place.
        pos (weight_by (kind_in (2 * layout.now.nodes) (2 * (layout.now.nodes + layout.now.branches)) place) draw
        x.now place))) }
{
    let mut weights = Vec::with_capacity(alloc, x.len())?;
    for place in 0..x.len() {
        weights.push(weight(layout.kind(place as u32), draw, x, place) as i128)?;
    }
    Ok(weights)
}

// The weight of the unknown at a place.
fn weight(kind: PlaceKind, draw: u128, x: &[i128], place: usize) -> u128
    requires inside { kind ≡ Node → 2 * (place / 2) + 1 < length x.now }
    requires place { place < length x.now }
    requires parts { All IsPart x.now }
    requires draw { 16 * draw + 10 ^ 6 ≤ 2 ^ 65 }
    ensures { result ≡ weight_by kind draw x.now place }
{
    match kind {
        PlaceKind::Node => FLOOR.max(size_of_both(x, place)),
        PlaceKind::Branch => 16 * draw + FLOOR,
        PlaceKind::Magnitude => FLOOR.max(x[place].unsigned_abs()),
    }
}

// The sum of the sizes of both parts of the complex unknown to which a place belongs.
fn size_of_both(x: &[i128], place: usize) -> u128
    requires inside { 2 * (place / 2) + 1 < length x.now }
    requires parts { All IsPart x.now }
    ensures { result ≡ both_of x.now place }
{
    let re = place - place % 2;
    x[re].unsigned_abs() + x[re + 1].unsigned_abs()
}
