// The sweeps: a start, then backward and forward until no node moves.
ghost use Rattle.std.specs.Prelude.{◌≡◌, ◌≤◌, ◌<◌, ◌*◌, ◌+◌, ◌^◌, ℕ, ℤ, nat_abs, length, MatchResult, IfOk, All, Ok, Err, replicate, pos};
ghost use Rattle.fd_pattern.specs.fd_load.Current.{IsLoadPhase};
ghost use Rattle.fd_rungs.specs.Bounds.{IsLadder, IsMade, ladder_in, made_in};
ghost use Rattle.fd_rungs.specs.Numbers.{SizedBy, root_of};
ghost use Rattle.fd_rungs.specs.Passes.{magnitudes, re_across, im_across, load_magnitude, terminal_of};
ghost use Rattle.fd_pattern.specs.fd_system.Loads.{square_of};
ghost use Rattle.fd_rungs.specs.Sweeps.{are_still, is_still, is_still_at, node_weight, raised, started, sweeps_of, swept_once};

use crate::backward::backward;
use crate::branch::{Ladder, Numbers};
use crate::draws::{draw, terminal};
use crate::forward::forward;
use crate::numbers::{root, square};
use crate::state::{im_across, make_part, part, re_across};
use crate::swept::Swept;
use fd_pattern::LoadAt;
use std::alloc::{AllocError, Global};

// One volt.
const FLOOR: u128 = 1_000_000;

const CENTI_MICRO: u128 = 100_000_000;

// The square of the voltage at a part load.
fn square_at(load: &LoadAt, x: &[i128]) -> u128
    requires { SizedBy (2 ^ 40) x.now }
    ensures value { result ≡ square_of (re_across x.now (terminal_of load.now)) (im_across x.now (terminal_of load.now)) }
    ensures most { result ≤ 2 ^ 83 }
{
    let pair = terminal(load);
    square(re_across(x, &pair)) + square(im_across(x, &pair))
}

// The size of the voltage at a part load, rounded down.
fn magnitude_at(load: &LoadAt, x: &[i128]) -> i128
    requires { SizedBy (2 ^ 40) x.now }
    ensures { result ≡ pos (root_of (square_of (re_across x.now (terminal_of load.now)) (im_across x.now (terminal_of load.now)))) }
{
    root(square_at(load, x)) as i128
}

// The magnitude of a part load that has one is taken.
fn make_magnitude(x: &mut [i128], load: &LoadAt) -> Result<(), u32>
    requires { SizedBy (2 ^ 40) x.old }
    ensures made { MatchResult result (λ _. load_magnitude load.now x.old ≡ Ok x.new)
        (λ p. load_magnitude load.now x.old ≡ Err p) }
    ensures small { SizedBy (2 ^ 40) x.new }
    ensures long { length x.new ≡ length x.old }
{
    match load.magnitude {
        None => Ok(()),
        Some(place) => {
            let size = magnitude_at(load, x);
            make_part(x, place, size)
        }
    }
}

// All magnitudes are taken, in order.
fn make_magnitudes(x: &mut [i128], loads: &[LoadAt]) -> Result<(), u32>
    requires { SizedBy (2 ^ 40) x.old }
    ensures made { MatchResult result (λ _. magnitudes loads.now x.old ≡ Ok x.new) (λ p. magnitudes loads.now x.old ≡ Err p) }
    ensures small { SizedBy (2 ^ 40) x.new }
    ensures long { length x.new ≡ length x.old }
{
    for load in loads {
        make_magnitude(x, load)?;
    }
    Ok(())
}

// A forward pass, and then the magnitudes.
fn raise(x: &mut [i128], ladder: &Ladder, loads: &[LoadAt]) -> Result<(), u32>
    requires ladder { IsLadder ladder.now }
    requires x { SizedBy (2 ^ 40) x.old }
    ensures made { MatchResult result (λ _. raised (ladder_in ladder.now) loads.now x.old ≡ Ok x.new)
        (λ p. raised (ladder_in ladder.now) loads.now x.old ≡ Err p) }
    ensures small { SizedBy (2 ^ 40) x.new }
    ensures long { length x.new ≡ length x.old }
{
    forward(x, &ladder.rungs)?;
    make_magnitudes(x, loads)
}

// A sweep, with a list for what the nodes draw that holds nothing yet.
fn sweep_with(
    x: &mut [i128],
    draws: &mut [i128],
    ladder: &Ladder,
    loads: &[LoadAt],
) -> Result<(), u32>
    requires ladder { IsLadder ladder.now }
    requires loads { All (λ u. IsLoadPhase u.load) loads.now }
    requires few { length loads.now < 2 ^ 21 }
    requires x { SizedBy (2 ^ 40) x.old }
    requires draws { draws.old ≡ replicate (length x.old) (pos 0) }
    ensures made { MatchResult result (λ _. swept_once (ladder_in ladder.now) loads.now x.old ≡ Ok x.new)
        (λ p. swept_once (ladder_in ladder.now) loads.now x.old ≡ Err p) }
    ensures small { SizedBy (2 ^ 40) x.new }
    ensures long { length x.new ≡ length x.old }
{
    draw(draws, loads, &ladder.shunts, x);
    backward(x, draws, &ladder.rungs)?;
    raise(x, ladder, loads)
}

// The weight of the parts of a node: the sum of their sizes, and at least one volt.
fn node_weight(y: &[i128], k: usize) -> u128
    requires small { SizedBy (2 ^ 40) y.now }
    requires k_in { k < 2 ^ 32 }
    ensures value { result ≡ node_weight y.now k }
    ensures most { result ≤ 2 ^ 41 }
{
    FLOOR.max(part(y, 2 * k).unsigned_abs() + part(y, 2 * k + 1).unsigned_abs())
}

// Whether a part moved by at most 10^-8 of the weight.
fn is_still(weight: u128, before: i128, after: i128) -> bool
    requires before { nat_abs before ≤ 2 ^ 40 }
    requires after { nat_abs after ≤ 2 ^ 40 }
    ensures { result ≡ is_still weight before after }
{
    (after - before).unsigned_abs() * CENTI_MICRO <= weight
}

// Whether no part of a node moved further.
fn is_still_at(x: &[i128], y: &[i128], k: usize) -> bool
    requires x { SizedBy (2 ^ 40) x.now }
    requires y { SizedBy (2 ^ 40) y.now }
    requires k_in { k < 2 ^ 32 }
    ensures { result ≡ is_still_at x.now y.now k }
{
    let weight = node_weight(y, k);
    is_still(weight, part(x, 2 * k), part(y, 2 * k))
        && is_still(weight, part(x, 2 * k + 1), part(y, 2 * k + 1))
}

// Whether no node moved further.
fn are_still(x: &[i128], y: &[i128], nodes: u32) -> bool
    requires x { SizedBy (2 ^ 40) x.now }
    requires y { SizedBy (2 ^ 40) y.now }
    ensures { result ≡ are_still x.now y.now nodes }
{
    for k in 0..nodes {
        if !is_still_at(x, y, k as usize) {
            return false;
        }
    }
    true
}

/// The state that a pass or a sweep makes, or the place of its first part past 2^40 in size.
#[derive(Drop)]
pub enum Made {
    State(Vec<i128>),
    Past(u32),
}

// The start: a forward pass without currents.
fn start(alloc: Global, ladder: &Ladder, loads: &[LoadAt], size: u32) -> Result<Made, AllocError>
    requires ladder { IsLadder ladder.now }
    ensures value { IfOk result (λ made. made_in made ≡ started (ladder_in ladder.now) loads.now size) }
    ensures small { IfOk result IsMade }
{
    let mut x = vec![in alloc; 0; size as usize]?;
    match raise(&mut x, ladder, loads) {
        Ok(()) => Ok(Made::State(x)),
        Err(place) => Ok(Made::Past(place)),
    }
}

// The state after one more sweep.
fn sweep_from(
    alloc: Global,
    x: &[i128],
    ladder: &Ladder,
    loads: &[LoadAt],
) -> Result<Made, AllocError>
    requires ladder { IsLadder ladder.now }
    requires loads { All (λ u. IsLoadPhase u.load) loads.now }
    requires few { length loads.now < 2 ^ 21 }
    requires x { SizedBy (2 ^ 40) x.now }
    ensures value { IfOk result (λ made. made_in made ≡ swept_once (ladder_in ladder.now) loads.now x.now) }
    ensures small { IfOk result IsMade }
{
    let mut y = x.to_vec(alloc)?;
    let mut draws = vec![in alloc; 0; x.len()]?;
    match sweep_with(&mut y, &mut draws, ladder, loads) {
        Ok(()) => Ok(Made::State(y)),
        Err(place) => Ok(Made::Past(place)),
    }
}

/// The sweeps of Kersting's ladder over the rungs of a radial feeder with these part loads: a forward pass without
/// currents, then sweeps, each a backward pass from what the nodes draw and a forward pass, until no part of the first
/// `nodes` complex unknowns moves by more than 10^-8 of its weight, at most `most` of them. Products with impedances,
/// admittances and ratios are rounded one by one. There are `size` real unknowns.
///
/// # Errors
/// `AllocError` where the memory for a state is refused.
pub fn sweeps(
    alloc: Global,
    ladder: &Ladder,
    loads: &[LoadAt],
    nodes: u32,
    size: u32,
    most: u32,
) -> Result<Swept, AllocError>
    requires ladder { IsLadder ladder.now }
    requires loads { All (λ u. IsLoadPhase u.load) loads.now }
    requires few { length loads.now < 2 ^ 21 }
    requires small { size < 2 ^ 31 }
    ensures { IfOk result (λ swept. swept ≡ sweeps_of (ladder_in ladder.now) loads.now nodes size most) }
{
    let mut x = match start(alloc, ladder, loads, size)? {
        Made::State(x) => x,
        Made::Past(place) => return Ok(Swept::OutOfRange { place, sweep: 0 }),
    };
    for sweep in 0..most {
        let y = match sweep_from(alloc, &x, ladder, loads)? {
            Made::State(y) => y,
            Made::Past(place) => {
                return Ok(Swept::OutOfRange {
                    place,
                    sweep: sweep + 1,
                });
            }
        };
        if are_still(&x, &y, nodes) {
            return Ok(Swept::Settled {
                x: Numbers::new(y),
                sweeps: sweep + 1,
            });
        }
        x = y;
    }
    Ok(Swept::NotConverged { sweeps: most })
}
