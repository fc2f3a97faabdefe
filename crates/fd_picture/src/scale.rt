// The axis of a page, and the place of a voltage on it.
ghost use Rattle.std.specs.Prelude.{◌≡◌, ◌<◌, ◌≤◌, ◌^◌, ◌/◌, ◌*◌};
ghost use Rattle.fd_picture.specs.Scales.{axis_of, bare_axis, level, place, scale_of, step_for, step_in, tick_value, widened, widened_by, widened_near};

use crate::marks::{GREATEST_INSIDE, LEAST_INSIDE};
use crate::report::Node;
use crate::strips::Strip;
use crate::units::{BaseTable, Span, is_far, is_per_unit, span_of};

/// The height of an axis, in units of the page.
const PLOT_HEIGHT: u128 = 220;
/// Where the low end of an axis stands below the top of its panel.
const PLOT_BOTTOM: u128 = 256;

/// The unit and the axis of a page, which are those of each strip.
#[derive(Clone, Copy, Debug, PartialEq, Eq)]
pub struct Scale {
    /// Whether the axis is in millionths of each node's base to ground, and else in microvolts.
    pub per_unit: bool,
    pub axis: Span,
}

// The span from the lower low to the higher high.
fn widened(axis: Option<Span>, span: Span) -> Span
    ensures { result ≡ widened axis span }
{
    match axis {
        Some(axis) => Span {
            low: axis.low.min(span.low),
            high: axis.high.max(span.high),
        },
        None => span,
    }
}

// An axis that holds a span too, unless that is far from one per unit.
fn widened_near(per_unit: bool, axis: Option<Span>, span: Span) -> Option<Span>
    ensures { result ≡ widened_near per_unit axis span }
{
    if is_far(per_unit, span) {
        axis
    } else {
        Some(widened(axis, span))
    }
}

// An axis, widened by the nodes that aren't far from one per unit.
#[tactic(auto, unfolding(crate::specs::Scales::widened_by))]
fn widened_by(bases: &BaseTable, per_unit: bool, axis: Option<Span>, nodes: &[Node]) -> Option<Span>
    ensures { result ≡ widened_by bases.now per_unit axis nodes.now }
{
    let mut axis = axis;
    for node in nodes {
        axis = widened_near(per_unit, axis, span_of(bases, per_unit, node));
    }
    axis
}

// The axis where no node gives one: between the limits, or at 0 V.
fn bare_axis(per_unit: bool) -> Span
    ensures { result ≡ bare_axis per_unit }
{
    if per_unit {
        Span {
            low: LEAST_INSIDE,
            high: GREATEST_INSIDE,
        }
    } else {
        Span { low: 0, high: 0 }
    }
}

// From the least low to the greatest high of all nodes that aren't far from one per unit.
#[tactic(auto, unfolding(crate::specs::Scales::axis_of))]
fn axis_of(bases: &BaseTable, per_unit: bool, strips: &[Strip]) -> Span
    ensures { result ≡ axis_of bases.now per_unit strips.now }
{
    let mut axis = None;
    for strip in strips {
        axis = widened_by(bases, per_unit, axis, strip.nodes());
    }
    axis.unwrap_or(bare_axis(per_unit))
}

/// The unit and the axis of a page.
#[tactic(auto, unfolding(crate::specs::Scales::scale_of))]
pub(crate) fn scale_of(bases: &BaseTable, strips: &[Strip]) -> Scale
    ensures { result ≡ scale_of bases.now strips.now }
{
    let per_unit = is_per_unit(bases, strips);
    Scale {
        per_unit,
        axis: axis_of(bases, per_unit, strips),
    }
}

// How far above the low end of the axis a voltage stands, in units of the page, rounded down; at an end where it is off
// the axis.
#[tactic(auto, unfolding(crate::specs::Scales::place))]
fn place(axis: Span, value: u64) -> u128
    ensures { result ≡ place axis value }
{
    let range = u128::from(axis.high.saturating_sub(axis.low).max(1));
    let above = u128::from(value.saturating_sub(axis.low));
    (above * PLOT_HEIGHT / range).min(PLOT_HEIGHT)
}

/// Where a voltage stands below the top of its panel, in units of the page.
pub(crate) fn level(axis: Span, value: u64) -> u128
    ensures value { result ≡ level axis value }
    ensures small { result ≤ 256 }
{
    PLOT_BOTTOM.saturating_sub(place(axis, value))
}

// A power of ten.
fn power(decade: u32) -> u64
    requires { decade ≤ 18 }
    ensures value { result ≡ 10 ^ decade }
    ensures most { result ≤ 10 ^ 18 }
{
    10u64.pow(decade)
}

// The least of one, two and five times a power of ten that is above a fifth of the range, if one is.
fn step_in(decade: u32, range: u64) -> Option<u64>
    requires { decade ≤ 18 }
    ensures { result ≡ step_in decade range }
{
    let unit = power(decade);
    if range / 5 < unit {
        Some(unit)
    } else if range / 5 < unit * 2 {
        Some(unit * 2)
    } else if range / 5 < unit * 5 {
        Some(unit * 5)
    } else {
        None
    }
}

/// The distance of the lines of an axis: the least of one, two and five times a power of ten that is above a fifth of
/// the range.
pub(crate) fn step_for(range: u64) -> u64
    ensures { result ≡ step_for range }
{
    for decade in 0..19 {
        if let Some(step) = step_in(decade, range) {
            return step;
        }
    }
    10_000_000_000_000_000_000
}

/// The k-th multiple of a step from the low end of an axis on, where it is within the axis.
#[tactic(auto, unfolding(crate::specs::Scales::tick_value))]
pub(crate) fn tick_value(axis: Span, step: u64, k: u64) -> Option<u64>
    ensures { result ≡ tick_value axis step k }
{
    if step == 0 {
        return None;
    }
    let number = u128::from(axis.low.div_ceil(step)) + u128::from(k);
    let value = number * u128::from(step);
    if value <= u128::from(axis.high) {
        Some(value as u64)
    } else {
        None
    }
}
