// What a sweep comes to beside a certified state.
ghost use Rattle.std.specs.Prelude.{◌≡◌, ◌<◌, ◌≤◌, ℤ, List, max, IfOk, IfSome, length};
ghost use Rattle.fd_solving.specs.fd_exact.First.{first_place};
ghost use Rattle.fd_solving.specs.fd_exact.Greatest.{greatest};
ghost use Rattle.fd_solving.specs.fd_cert.Claims.{claim_in};
ghost use Rattle.fd_solving.specs.fd_cert.Widening.{AreMismatches, IsWidened, wide_place};
ghost use Rattle.fd_solving.specs.fd_enclosure.Sound.{mismatches_of, number_at};
ghost use Rattle.fd_solving.specs.fd_equations.Rounded.{list_of};
ghost use Rattle.fd_solving.specs.fd_pattern.Conditions.{IsPoint};
ghost use Rattle.fd_solving.specs.fd_pattern.Views.{kind_of};
ghost use Rattle.fd_solving.specs.fd_report.Names.{name_at};
ghost use Rattle.fd_sweeping.specs.Beside.{apart_at, beside, by_box, by_width, first_outside, greater_mismatches, is_outside_by, ladder_of};
ghost use Rattle.fd_sweeping.specs.Stepping.{IsClaimed, IsLayoutOf, IsPointIfSettled, IsTightOrLoose, IsWideInside};

use fd_solving::{
    Certified, Ladder, Layout, NetworkRows, PlaceKind, Text, Widened, first_loose, name_at,
    row_mismatches, widen,
};
use fd_sweep::Swept;
use std::alloc::{AllocError, Global};

// The greater of both numbers of a row.
fn greater_at(first: &[u128], second: &[u128], row: usize) -> u128
    requires first { row < length first.now }
    requires second { row < length second.now }
    ensures { result ≡ max (number_at first.now row) (number_at second.now row) }
{
    first[row].max(second[row])
}

// The greater of both numbers of each row.
fn greater_of(alloc: Global, first: &[u128], second: &[u128]) -> Result<Vec<u128>, AllocError>
    requires { length second.now ≡ length first.now }
    ensures { IfOk result (λ greater. greater.items
        ≡ list_of (length first.now) (λ l. max (number_at first.now l) (number_at second.now l))) }
{
    let mut greater = Vec::with_capacity(alloc, first.len())?;
    for row in 0..first.len() {
        greater.push(greater_at(first, second, row))?;
    }
    Ok(greater)
}

// How far apart two states are at a place.
fn apart_at(x: &[i128], y: &[i128], place: usize) -> u128
    requires x { place < length x.now }
    requires y { place < length y.now }
    ensures { result ≡ apart_at x.now y.now place }
{
    x[place].abs_diff(y[place])
}

// Whether an unknown of this kind is further from the certified state than the box allows.
fn is_outside(kind: PlaceKind, half: u128, apart: u128) -> bool
    ensures { result ≡ is_outside_by kind half apart }
{
    match kind {
        PlaceKind::Branch => false,
        PlaceKind::Node | PlaceKind::Magnitude => apart > half,
    }
}

// Whether a state lies outside the box around another at a place.
fn is_outside_at(net: &NetworkRows, x: &[i128], centre: &[i128], boxes: &[u128], place: u32) -> bool
    requires inside { place < net.now.size }
    requires x { place < length x.now }
    requires centre { place < length centre.now }
    requires boxes { place < length boxes.now }
    ensures { result ≡ is_outside_by (kind_of net.now place) (number_at boxes.now place) (apart_at x.now centre.now place) }
{
    let apart = apart_at(x, centre, place as usize);
    is_outside(net.kind(place), boxes[place as usize], apart)
}

// The first place at which a state lies outside the box around another.
fn first_outside(net: &NetworkRows, x: &[i128], centre: &[i128], boxes: &[u128]) -> Option<u32>
    requires x { length x.now ≡ net.now.size }
    requires centre { length centre.now ≡ net.now.size }
    requires boxes { length boxes.now ≡ net.now.size }
    ensures first { result ≡ first_place (λ place.
        is_outside_by (kind_of net.now place) (number_at boxes.now place) (apart_at x.now centre.now place)) net.now.size }
    ensures inside { IfSome result (λ place. place < net.now.size) }
{
    for place in 0..net.size() {
        if is_outside_at(net, x, centre, boxes, place) {
            return Some(place);
        }
    }
    None
}

// The greatest difference between two states at the first places.
fn gap(x: &[i128], centre: &[i128], places: usize) -> u128
    requires x { places ≤ length x.now }
    requires centre { places ≤ length centre.now }
    ensures { result ≡ greatest (λ place. apart_at x.now centre.now place) places }
{
    let mut greatest = 0;
    for place in 0..places {
        greatest = greatest.max(apart_at(x, centre, place));
    }
    greatest
}

// The greatest of the first numbers.
fn greatest(numbers: &[u128], places: usize) -> u128
    requires { places ≤ length numbers.now }
    ensures { result ≡ greatest (λ place. number_at numbers.now place) places }
{
    let mut greatest = 0;
    for place in 0..places {
        greatest = greatest.max(numbers[place]);
    }
    greatest
}

// The mismatches of a state; or the first row with one above the greatest of a solution.
fn tight_mismatches(
    alloc: Global,
    net: &NetworkRows,
    x: &[i128],
) -> Result<Result<Vec<u128>, u32>, AllocError>
    requires point { IsPoint net.now x.now }
    ensures { IfOk result (IsTightOrLoose net.now x.now) }
{
    // read for its bound alone
    let _size = net.size();
    let mismatch = row_mismatches(alloc, net, x)?;
    match first_loose(&mismatch) {
        Some(row) => Ok(Err(row)),
        None => Ok(Ok(mismatch)),
    }
}

// The certified state with the greater mismatches of both states.
fn widened(
    alloc: Global,
    net: &NetworkRows,
    certified: &Certified,
    mismatch: &[u128],
) -> Result<Widened, AllocError>
    requires claim { IsClaimed net.now (claim_in certified.now) }
    requires mismatches { AreMismatches net.now mismatch.now }
    ensures widened { (x : List ℤ) → mismatch.now ≡ mismatches_of net.now x
        → IfOk result (IsWidened net.now (claim_in certified.now) (greater_mismatches net.now (claim_in certified.now) x)) }
    ensures inside { IfOk result (IsWideInside net.now.size) }
{
    let greater = greater_of(alloc, &certified.mismatch, mismatch)?;
    widen(alloc, net, certified, greater)
}

// What a state in the box comes to, whose mismatches are those of a solution.
fn by_width(
    alloc: Global,
    layout: &Layout,
    net: &NetworkRows,
    certified: &Certified,
    x: &[i128],
    sweeps: u32,
    mismatch: &[u128],
) -> Result<Ladder, AllocError>
    requires layout { IsLayoutOf layout.now net.now }
    requires claim { IsClaimed net.now (claim_in certified.now) }
    requires point { IsPoint net.now x.now }
    requires mismatches { AreMismatches net.now mismatch.now }
    requires own { mismatch.now ≡ mismatches_of net.now x.now }
    ensures { IfOk result (λ l. l ≡ by_width net.now (claim_in certified.now) x.now layout.now sweeps
        (wide_place net.now (claim_in certified.now) (greater_mismatches net.now (claim_in certified.now) x.now))) }
{
    let parts = 2 * layout.nodes().len();
    match widened(alloc, net, certified, mismatch)? {
        Widened::Wide { place } => Ok(Ladder::Wide {
            unknown: name_at(alloc, layout, place)?,
        }),
        Widened::Made(wider) => Ok(Ladder::Agrees {
            sweeps,
            gap: gap(x, &certified.ball.centre, parts),
            radius: greatest(&wider.ball.radius, parts),
        }),
    }
}

// What a state comes to whose mismatches are those of a solution.
fn by_box(
    alloc: Global,
    layout: &Layout,
    net: &NetworkRows,
    certified: &Certified,
    x: &[i128],
    sweeps: u32,
    mismatch: &[u128],
) -> Result<Ladder, AllocError>
    requires layout { IsLayoutOf layout.now net.now }
    requires claim { IsClaimed net.now (claim_in certified.now) }
    requires point { IsPoint net.now x.now }
    requires mismatches { AreMismatches net.now mismatch.now }
    requires own { mismatch.now ≡ mismatches_of net.now x.now }
    ensures { IfOk result (λ l. l ≡ by_box net.now (claim_in certified.now) x.now layout.now sweeps
        (first_outside net.now (claim_in certified.now) x.now)) }
{
    match first_outside(net, x, &certified.ball.centre, &certified.boxes) {
        Some(place) => Ok(Ladder::Apart {
            unknown: name_at(alloc, layout, place)?,
        }),
        None => by_width(alloc, layout, net, certified, x, sweeps, mismatch),
    }
}

// What a state that was found otherwise comes to beside a certified one.
fn beside(
    alloc: Global,
    layout: &Layout,
    net: &NetworkRows,
    certified: &Certified,
    x: &[i128],
    sweeps: u32,
) -> Result<Ladder, AllocError>
    requires layout { IsLayoutOf layout.now net.now }
    requires claim { IsClaimed net.now (claim_in certified.now) }
    requires point { IsPoint net.now x.now }
    ensures { IfOk result (λ l. l ≡ beside net.now (claim_in certified.now) x.now layout.now sweeps) }
{
    match tight_mismatches(alloc, net, x)? {
        Err(row) => Ok(Ladder::Apart {
            unknown: name_at(alloc, layout, row)?,
        }),
        Ok(mismatch) => by_box(alloc, layout, net, certified, x, sweeps, &mismatch),
    }
}

// The name of the unknown at a place, empty where the layout has none there.
fn unknown_at(alloc: Global, layout: &Layout, place: u32) -> Result<Text, AllocError>
    ensures { IfOk result (λ name. name ≡ name_at layout.now place) }
{
    if place < layout.size() {
        let name = name_at(alloc, layout, place)?;
        return Ok(name);
    }
    Ok(Text::new(String::new(alloc)))
}

/// What a sweep comes to beside a certified state.
#[tactic(auto, unfolding(crate::specs::Beside::ladder_of))]
pub(crate) fn ladder_of(
    alloc: Global,
    layout: &Layout,
    net: &NetworkRows,
    certified: &Certified,
    swept: &Swept,
) -> Result<Ladder, AllocError>
    requires layout { IsLayoutOf layout.now net.now }
    requires claim { IsClaimed net.now (claim_in certified.now) }
    requires swept { IsPointIfSettled net.now swept.now }
    ensures { IfOk result (λ l. l ≡ ladder_of layout.now net.now (claim_in certified.now) swept.now) }
{
    match swept {
        Swept::Settled { x, sweeps } => {
            beside(alloc, layout, net, certified, x.as_slice(), *sweeps)
        }
        Swept::NotConverged { sweeps } => Ok(Ladder::NotConverged { sweeps: *sweeps }),
        Swept::OutOfRange { place, sweep } => Ok(Ladder::OutOfRange {
            unknown: unknown_at(alloc, layout, *place)?,
            sweep: *sweep,
        }),
    }
}
