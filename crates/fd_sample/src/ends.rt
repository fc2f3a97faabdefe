// What the ends of an interval decide.
ghost use Rattle.std.specs.Prelude.{◌≡◌, ◌^◌, ◌<◌, None, Some, IsSome, IfSome, true, false};
ghost use Rattle.fd_network.specs.fd_exact.Rounding.{ceil_div, floor_div};
ghost use Rattle.fd_regctl.specs.fd_queue.Decisions.{same_decision};
ghost use Rattle.fd_regctl.specs.fd_queue.Verdicts.{decision, is_decided};
ghost use Rattle.fd_regctl.specs.fd_arith.Limits.{Fits, non_negative as at_least_0};
ghost use Rattle.fd_sample.specs.Samples.{AreRootEnds, AreValueEnds, IfUndecided, agreed as agreed_by, decision_of, lower_square, upper_square};

use fd_regctl::{Interval, Square, Verdict, floor_of_product};

// 2^120, which ends that no interval has
const MOST: i128 = 0x100_0000_0000_0000_0000_0000_0000_0000;

// 10^-9 in 10^-15
const FEMTO_PER_NANO: u128 = 1_000_000;

/// The least and the greatest square of an interval of squares, with a negative end taken as 0; 0 and 0 at ALL.
pub fn square_ends(squares: Interval<Square>) -> (u128, u128)
    ensures least { result.0 ≡ lower_square squares }
    ensures greatest { IsSome squares → result.1 ≡ upper_square squares }
{
    match squares.ends() {
        None => (0, 0),
        Some((lo, hi)) => (non_negative(lo), non_negative(hi)),
    }
}

fn non_negative(x: i128) -> u128
    ensures { result ≡ at_least_0 x }
{
    if x < 0 { 0 } else { x as u128 }
}

/// The verdict of a sample over an interval of squares, by those at its least and greatest magnitude and the edge that
/// is to be told where they differ.
pub fn agreed(squares: Interval<Square>, low: Verdict, high: Verdict, edge: i128) -> Verdict
    requires low { is_decided low ≡ true }
    requires high { is_decided high ≡ true }
    ensures decides { decision_of result ≡ agreed_by squares (decision low) (decision high) }
    ensures ends { IfUndecided result (λ lo hi at. AreRootEnds squares lo hi) }
    ensures edge { IfUndecided result (λ lo hi at. at ≡ edge) }
{
    match squares.ends() {
        Some(_) => {
            if is_same(low, high) {
                low
            } else {
                between_roots(squares, edge)
            }
        }
        None => between_roots(squares, edge),
    }
}

// The undecided verdict over an interval of squares: its magnitudes, rounded outward, and this edge.
fn between_roots(squares: Interval<Square>, edge: i128) -> Verdict
    ensures decides { decision_of result ≡ None }
    ensures ends { IfUndecided result (λ lo hi at. AreRootEnds squares lo hi) }
    ensures edge { IfUndecided result (λ lo hi at. at ≡ edge) }
{
    let (low, high) = squares.root().ends().unwrap_or((0, MOST));
    Verdict::Undecided { low, high, edge }
}

/// The least and the greatest value of an interval; 0 and 0 at ALL.
pub fn value_ends(values: Interval<Square>) -> (i128, i128)
    ensures { IfSome values (λ e. (result.0 ≡ e.0) × (result.1 ≡ e.1)) }
{
    values.ends().unwrap_or((0, 0))
}

/// The same over an interval of values in 10^-15, whose ends are told in whole 10^-9.
pub fn agreed_value(values: Interval<Square>, low: Verdict, high: Verdict, edge: i128) -> Verdict
    requires low { is_decided low ≡ true }
    requires high { is_decided high ≡ true }
    ensures decides { decision_of result ≡ agreed_by values (decision low) (decision high) }
    ensures ends { IfUndecided result (λ lo hi at. AreValueEnds values lo hi) }
    ensures edge { IfUndecided result (λ lo hi at. at ≡ edge) }
{
    match values.ends() {
        Some((least, greatest)) => {
            if is_same(low, high) {
                low
            } else {
                Verdict::Undecided {
                    low: down(least),
                    high: up(greatest),
                    edge,
                }
            }
        }
        None => Verdict::Undecided {
            low: -MOST,
            high: MOST,
            edge,
        },
    }
}

// A number of 10^-15 in whole 10^-9, rounded down.
fn down(n: i128) -> i128
    requires { Fits n }
    ensures value { result ≡ floor_div n (10 ^ 6) }
    ensures small { Fits result }
{
    floor_of_product(n, 1, FEMTO_PER_NANO)
}

// The same, rounded up.
fn up(n: i128) -> i128
    requires { Fits n }
    ensures value { result ≡ ceil_div n (10 ^ 6) }
    ensures small { Fits result }
{
    -down(-n)
}

// Whether two decided verdicts are the same.
fn is_same(one: Verdict, other: Verdict) -> bool
    requires one { is_decided one ≡ true }
    requires other { is_decided other ≡ true }
    ensures { result ≡ same_decision (decision one) (decision other) }
{
    match (one, other) {
        (Verdict::Raise { steps }, Verdict::Raise { steps: others }) => steps == others,
        (Verdict::Lower { steps }, Verdict::Lower { steps: others }) => steps == others,
        (Verdict::Hold, Verdict::Hold) => true,
        _ => false,
    }
}
