// What a regulator's control wants at a magnitude, which is known by its square.
ghost use Rattle.std.specs.Prelude.{◌≡◌, ℕ, ◌+◌, ◌*◌, ◌/◌, ◌≤◌, ◌<◌, ◌^◌, pos, ◌+ℤ◌, ◌-ℤ◌, nat_abs, int_lt, if◌then◌else◌, true};
ghost use Rattle.fd_network.specs.fd_exact.Rounding.{near_div};
ghost use Rattle.fd_regctl.specs.fd_queue.Decisions.{steps_of};
ghost use Rattle.fd_regctl.specs.fd_queue.Quantities.{magnitude};
ghost use Rattle.fd_regctl.specs.fd_queue.Verdicts.{decision, is_decided};
ghost use Rattle.fd_regctl.specs.Regulator.{capped as capped_steps, greatest_within};
ghost use Rattle.fd_regctl.specs.Settings.{room_down as room_below, room_up as room_above, volt_step as step_of};
ghost use Rattle.fd_sample.specs.Regulators.{AreRegSettings, edge_at, fits_down, fits_up, nominal_of, settings_of, wanted_at};

use crate::probe::RegProbe;
use crate::roots::{is_above, is_below};
use fd_network::near_quotient;
use fd_regctl::Verdict;

// 1 in 10^-9 and in 10^-5, and a microvolt in 10^-9 V
const NANO_PER_ONE: u128 = 1_000_000_000;

const STEPS_PER_ONE: u128 = 100_000;

const NANO_PER_MICRO: u128 = 1000;

/// What the control wants at the magnitude of this square, in whole 10^-12, where its winding stands at this tap.
pub fn wanted(probe: &RegProbe, tap: u32, square: u128) -> Verdict
    requires settings { AreRegSettings probe.now }
    ensures decided { is_decided result ≡ true }
    ensures few { steps_of (decision result) ≤ 1000 }
    ensures decision { decision result ≡ wanted_at probe.now tap (magnitude square 1) }
{
    if is_below(square, low_edge(probe)) {
        Verdict::Raise {
            steps: capped(
                probe.maxtapchange,
                room_up(probe, tap),
                steps_up(probe, square),
            ),
        }
    } else if is_above(square, high_edge(probe)) {
        Verdict::Lower {
            steps: capped(
                probe.maxtapchange,
                room_down(probe, tap),
                steps_down(probe, square),
            ),
        }
    } else {
        Verdict::Hold
    }
}

/// The least value at which the verdict changes, in whole microvolts, by the verdict of the least magnitude.
pub fn edge_after(probe: &RegProbe, verdict: Verdict) -> i128
    requires settings { AreRegSettings probe.now }
    requires few { steps_of (decision verdict) ≤ 1000 }
    ensures { (tap : ℕ) → result ≡ edge_at probe.now tap (decision verdict) }
{
    match verdict {
        Verdict::Raise { steps } if steps >= 2 => {
            lesser(below(probe, volt_step(probe), steps), low_edge(probe))
        }
        Verdict::Raise { .. } => low_edge(probe),
        Verdict::Lower { steps } => above(probe, volt_step(probe), steps + 1),
        Verdict::Hold | Verdict::Undecided { .. } => high_edge(probe),
    }
}

// ---- steps

// One step of the tap in whole microvolts at the control, rounded down, and at least 1.
fn volt_step(probe: &RegProbe) -> u128
    requires settings { AreRegSettings probe.now }
    ensures value { result ≡ step_of (settings_of probe.now) }
    ensures most { result ≤ 2 * 10 ^ 15 }
{
    let moved = probe.tap_step as u128 * nominal(probe) * NANO_PER_ONE;
    (moved / (STEPS_PER_ONE * probe.ptratio)).max(1)
}

fn nominal(probe: &RegProbe) -> u128
    requires settings { AreRegSettings probe.now }
    ensures value { result ≡ nominal_of probe.now }
    ensures most { result ≤ 10 ^ 12 }
{
    if probe.is_second {
        probe.second_volts
    } else {
        probe.first_volts
    }
}

// The greatest number of steps, up to the most at once, of which the magnitude is at most so many below the voltage
// that is wanted.
fn steps_up(probe: &RegProbe, square: u128) -> u32
    requires settings { AreRegSettings probe.now }
    ensures { result ≡ greatest_within (fits_up probe.now square) probe.now.maxtapchange }
{
    let step = volt_step(probe);
    let mut n = probe.maxtapchange;
    while n > 0 && !is_up(probe, step, n, square) {
        n -= 1;
    }
    n
}

// Whether the magnitude is at most n steps below the voltage that is wanted.
fn is_up(probe: &RegProbe, step: u128, n: u32, square: u128) -> bool
    requires settings { AreRegSettings probe.now }
    requires step { step ≡ step_of (settings_of probe.now) }
    requires most { step ≤ 2 * 10 ^ 15 }
    requires few { n ≤ 1000 }
    ensures { result ≡ fits_up probe.now square n }
{
    !is_above(square, below(probe, step, n))
}

// The greatest number of steps, up to the most at once, of which the magnitude is at least so many above the voltage
// that is wanted.
fn steps_down(probe: &RegProbe, square: u128) -> u32
    requires settings { AreRegSettings probe.now }
    ensures { result ≡ greatest_within (fits_down probe.now square) probe.now.maxtapchange }
{
    let step = volt_step(probe);
    let mut n = probe.maxtapchange;
    while n > 0 && !is_down(probe, step, n, square) {
        n -= 1;
    }
    n
}

// Whether the magnitude is at least n steps above the voltage that is wanted.
fn is_down(probe: &RegProbe, step: u128, n: u32, square: u128) -> bool
    requires settings { AreRegSettings probe.now }
    requires step { step ≡ step_of (settings_of probe.now) }
    requires most { step ≤ 2 * 10 ^ 15 }
    requires few { n ≤ 1000 }
    ensures { result ≡ fits_down probe.now square n }
{
    !is_below(square, above(probe, step, n))
}

// At least 1 step, then at most so many at once, then at most the room.
fn capped(most: u32, room: u32, n: u32) -> u32
    ensures value { result ≡ capped_steps most room n }
    ensures few { result ≤ most }
{
    n.max(1).min(most).min(room)
}

// The whole steps that are left up to the greatest tap, and down to the least.
fn room_up(probe: &RegProbe, tap: u32) -> u32
    requires settings { AreRegSettings probe.now }
    ensures { result ≡ room_above (settings_of probe.now) tap }
{
    probe.max_tap.saturating_sub(tap) / probe.tap_step
}

fn room_down(probe: &RegProbe, tap: u32) -> u32
    requires settings { AreRegSettings probe.now }
    ensures { result ≡ room_below (settings_of probe.now) tap }
{
    tap.saturating_sub(probe.min_tap) / probe.tap_step
}

// ---- edges, in whole microvolts

// The lower end of the band.
fn low_edge(probe: &RegProbe) -> i128
    requires settings { AreRegSettings probe.now }
    ensures value { result ≡ near_div (pos (2 * probe.now.vreg) -ℤ pos probe.now.band) 2000 }
    ensures small { nat_abs result ≤ 2 ^ 62 }
{
    let twice = (2 * probe.vreg) as i128 - probe.band as i128;
    near_quotient(twice, 2 * NANO_PER_MICRO)
}

// The upper end of the band.
fn high_edge(probe: &RegProbe) -> i128
    requires settings { AreRegSettings probe.now }
    ensures value { result ≡ near_div (pos (2 * probe.now.vreg) +ℤ pos probe.now.band) 2000 }
    ensures small { nat_abs result ≤ 2 ^ 62 }
{
    let twice = (2 * probe.vreg) as i128 + probe.band as i128;
    near_quotient(twice, 2 * NANO_PER_MICRO)
}

// n steps below the voltage that is wanted.
fn below(probe: &RegProbe, step: u128, n: u32) -> i128
    requires settings { AreRegSettings probe.now }
    requires step { step ≤ 2 * 10 ^ 15 }
    requires few { n ≤ 1001 }
    ensures value { result ≡ near_div (pos probe.now.vreg -ℤ pos (1000 * (n * step))) 1000 }
    ensures small { nat_abs result ≤ 2 ^ 62 }
{
    let moved = NANO_PER_MICRO * (n as u128 * step);
    near_quotient(probe.vreg as i128 - moved as i128, NANO_PER_MICRO)
}

// n steps above the voltage that is wanted.
fn above(probe: &RegProbe, step: u128, n: u32) -> i128
    requires settings { AreRegSettings probe.now }
    requires step { step ≤ 2 * 10 ^ 15 }
    requires few { n ≤ 1001 }
    ensures value { result ≡ near_div (pos probe.now.vreg +ℤ pos (1000 * (n * step))) 1000 }
    ensures small { nat_abs result ≤ 2 ^ 62 }
{
    let moved = NANO_PER_MICRO * (n as u128 * step);
    near_quotient(probe.vreg as i128 + moved as i128, NANO_PER_MICRO)
}

fn lesser(edge: i128, other: i128) -> i128
    ensures { result ≡ (if int_lt edge other then edge else other) }
{
    if edge < other { edge } else { other }
}
