// What the nodes draw by part loads and shunts.
ghost use Rattle.std.specs.Prelude.{◌≡◌, ◌≤◌, ◌<◌, ◌+◌, ◌^◌, ℕ, ℤ, nat_abs, length, All, Some};
ghost use Rattle.std.specs.List.{fold};
ghost use Rattle.fd_pattern.specs.fd_load.fd_exact.Rounding.{near_div};
ghost use Rattle.fd_pattern.specs.fd_load.Current.{AreVoltages, IsLoadPhase, divisor, in_phase, quadrature};
ghost use Rattle.fd_pattern.specs.Terminals.{magnitude_in};
ghost use Rattle.fd_rungs.specs.Numbers.{SizedBy};
ghost use Rattle.fd_rungs.specs.Branches.{IsShunt};
ghost use Rattle.fd_rungs.specs.Passes.{drawn, drawn_across, drawn_at, load_drawn, more_at, shunt_drawn, terminal_of};

use crate::branch::Shunt;
use crate::numbers::{opposite, times};
use crate::state::{im_across, part, put, re_across};
use fd_pattern::{Fix, LoadAt, Micro, NodeAt, current};
use fd_xfmr::NodePair;

// More is drawn at a place.
fn add_at(draws: &mut [i128], place: usize, z: i128)
    requires draws { SizedBy (2 ^ 120) draws.old }
    requires z { nat_abs z ≤ 2 ^ 78 }
    ensures value { draws.new ≡ more_at place z draws.old }
    ensures size { (n : ℕ) → SizedBy n draws.old → SizedBy (n + 2 ^ 78) draws.new }
{
    let sum = part(draws, place) + z;
    put(draws, place, sum);
}

// A current leaves a node.
fn draw_at(draws: &mut [i128], node: NodeAt, re: i128, im: i128)
    requires draws { SizedBy (2 ^ 119) draws.old }
    requires re { nat_abs re ≤ 2 ^ 78 }
    requires im { nat_abs im ≤ 2 ^ 78 }
    ensures value { draws.new ≡ drawn_at node re im draws.old }
    ensures size { (n : ℕ) → SizedBy n draws.old → SizedBy (n + 2 ^ 79) draws.new }
{
    if let NodeAt::Node(k) = node {
        add_at(draws, 2 * k as usize, re);
        add_at(draws, 2 * k as usize + 1, im);
    }
}

/// A current leaves the first node of a terminal and enters the second.
pub fn draw_across(draws: &mut [i128], pair: &NodePair, re: i128, im: i128)
    requires draws { SizedBy (2 ^ 118) draws.old }
    requires re { nat_abs re ≤ 2 ^ 78 }
    requires im { nat_abs im ≤ 2 ^ 78 }
    ensures value { draws.new ≡ drawn_across pair.now re im draws.old }
    ensures size { (n : ℕ) → SizedBy n draws.old → SizedBy (n + 2 ^ 80) draws.new }
{
    draw_at(draws, pair.first, re, im);
    draw_at(draws, pair.second, opposite(re), opposite(im));
}

// The current of a part load at a terminal voltage p + j q and a magnitude m, each part to the nearest microampere.
fn load_current(load: &LoadAt, p: i128, q: i128, m: i128) -> (i128, i128)
    requires load { IsLoadPhase load.now.load }
    requires voltages { AreVoltages p q m }
    ensures re { result.0 ≡ near_div (in_phase load.now.load p q) (divisor load.now.load p q m) }
    ensures im { result.1 ≡ near_div (quadrature load.now.load p q) (divisor load.now.load p q m) }
    ensures re_small { nat_abs result.0 ≤ 2 ^ 62 }
    ensures im_small { nat_abs result.1 ≤ 2 ^ 62 }
{
    let current = current::<Fix<Micro>>(&load.load, p, q, m);
    (units(current.re), units(current.im))
}

// The units of a number that isn't OUT.
fn units(number: Fix<Micro>) -> i128
    ensures { (z : ℤ) → number ≡ Some z → result ≡ z }
{
    match number.units() {
        Some(units) => units,
        None => 0,
    }
}

/// The terminal of a part load.
pub fn terminal(load: &LoadAt) -> NodePair
    ensures { result ≡ terminal_of load.now }
{
    NodePair {
        first: load.first,
        second: load.second,
    }
}

// The magnitude of a part load, and 0 where it has none.
fn magnitude(load: &LoadAt, x: &[i128]) -> i128
    requires { SizedBy (2 ^ 40) x.now }
    ensures value { result ≡ magnitude_in x.now load.now }
    ensures small { nat_abs result ≤ 2 ^ 40 }
{
    match load.magnitude {
        None => 0,
        Some(place) => part(x, place as usize),
    }
}

// A part load draws its current.
fn draw_load(draws: &mut [i128], load: &LoadAt, x: &[i128])
    requires load { IsLoadPhase load.now.load }
    requires x { SizedBy (2 ^ 40) x.now }
    requires draws { SizedBy (2 ^ 118) draws.old }
    ensures value { draws.new ≡ load_drawn x.now draws.old load.now }
    ensures size { (n : ℕ) → SizedBy n draws.old → SizedBy (n + 2 ^ 80) draws.new }
{
    let pair = terminal(load);
    let (p, q) = (re_across(x, &pair), im_across(x, &pair));
    let (re, im) = load_current(load, p, q, magnitude(load, x));
    draw_across(draws, &pair, re, im);
}

// A shunt draws its current.
fn draw_shunt(draws: &mut [i128], shunt: &Shunt, x: &[i128])
    requires shunt { IsShunt shunt.now }
    requires x { SizedBy (2 ^ 40) x.now }
    requires draws { SizedBy (2 ^ 118) draws.old }
    ensures value { draws.new ≡ shunt_drawn x.now draws.old shunt.now }
    ensures size { (n : ℕ) → SizedBy n draws.old → SizedBy (n + 2 ^ 80) draws.new }
{
    let re = opposite(times(shunt.charge, im_across(x, &shunt.across)));
    let im = times(shunt.charge, re_across(x, &shunt.across));
    draw_across(draws, &shunt.into, re, im);
}

// The part loads draw their currents.
fn draw_loads(draws: &mut [i128], loads: &[LoadAt], x: &[i128])
    requires loads { All (λ u. IsLoadPhase u.load) loads.now }
    requires few { length loads.now < 2 ^ 21 }
    requires x { SizedBy (2 ^ 40) x.now }
    requires draws { SizedBy 0 draws.old }
    ensures value { draws.new ≡ fold (load_drawn x.now) draws.old loads.now }
    ensures size { SizedBy (2 ^ 101) draws.new }
{
    for load in loads {
        draw_load(draws, load, x);
    }
}

// The shunts draw their currents.
fn draw_shunts(draws: &mut [i128], shunts: &[Shunt], x: &[i128])
    requires shunts { All IsShunt shunts.now }
    requires few { length shunts.now < 2 ^ 24 }
    requires x { SizedBy (2 ^ 40) x.now }
    requires draws { SizedBy (2 ^ 101) draws.old }
    ensures value { draws.new ≡ fold (shunt_drawn x.now) draws.old shunts.now }
    ensures size { SizedBy (2 ^ 105) draws.new }
{
    for shunt in shunts {
        draw_shunt(draws, shunt, x);
    }
}

/// The part loads and the shunts draw their currents at the state x, where nothing is drawn yet.
pub fn draw(draws: &mut [i128], loads: &[LoadAt], shunts: &[Shunt], x: &[i128])
    requires loads { All (λ u. IsLoadPhase u.load) loads.now }
    requires few_loads { length loads.now < 2 ^ 21 }
    requires shunts { All IsShunt shunts.now }
    requires few_shunts { length shunts.now < 2 ^ 24 }
    requires x { SizedBy (2 ^ 40) x.now }
    requires draws { SizedBy 0 draws.old }
    ensures value { draws.new ≡ drawn loads.now shunts.now x.now draws.old }
    ensures size { SizedBy (2 ^ 105) draws.new }
{
    draw_loads(draws, loads, x);
    draw_shunts(draws, shunts, x);
}
