// The mark of a node.
ghost use Rattle.std.specs.Prelude.{◌≡◌, ◌≤◌, ◌^◌};
ghost use Rattle.fd_picture.specs.Marks.{judgement_of, mark_of, shape_of};

use crate::report::Node;
use crate::scale::level;
use crate::units::{Span, is_far};

/// The shape of a mark, which tells the number of its node.
#[derive(Clone, Copy, Debug, PartialEq, Eq)]
pub enum Shape {
    Triangle,
    Square,
    Circle,
    Diamond,
}

/// How a node stands to the limits of 0.95 and 1.05 per unit.
#[derive(Clone, Copy, Debug, PartialEq, Eq)]
pub enum Judgement {
    /// All of its interval is within them.
    Within,
    /// A limit is inside its interval.
    Across,
    /// None of its interval is within them.
    Outside,
    /// It isn't judged, since it is far from one per unit: below 0.5 or above 1.4.
    Far,
    /// It isn't judged, since its page is in volts.
    InVolts,
}

/// The mark of a node: from the level of its high to that of its low, in units of the page from the top left of its
/// panel.
#[derive(Clone, Copy, Debug, PartialEq, Eq)]
pub struct Mark {
    /// The middle of the mark, across.
    pub across: u128,
    /// The level of the high.
    pub top: u128,
    /// The height down to the level of the low, and at least one unit.
    pub height: u128,
    pub shape: Shape,
    pub judgement: Judgement,
}

/// The lower limit, in millionths of a base.
pub(crate) const LEAST_INSIDE: u64 = 950_000;
/// The upper limit, in millionths of a base.
pub(crate) const GREATEST_INSIDE: u64 = 1_050_000;

fn shape_of(number: u64) -> Shape
    ensures { result ≡ shape_of number }
{
    match number {
        1 => Shape::Triangle,
        2 => Shape::Square,
        3 => Shape::Circle,
        _ => Shape::Diamond,
    }
}

fn judgement_of(per_unit: bool, span: Span) -> Judgement
    ensures { result ≡ judgement_of per_unit span }
{
    if !per_unit {
        Judgement::InVolts
    } else if is_far(per_unit, span) {
        Judgement::Far
    } else if span.high < LEAST_INSIDE || span.low > GREATEST_INSIDE {
        Judgement::Outside
    } else if span.low < LEAST_INSIDE || span.high > GREATEST_INSIDE {
        Judgement::Across
    } else {
        Judgement::Within
    }
}

/// The mark of the node at this place of its panel, counted from 0.
#[tactic(auto, unfolding(crate::specs::Marks::mark_of))]
pub(crate) fn mark_of(axis: Span, per_unit: bool, place: usize, node: &Node, span: Span) -> Mark
    ensures mark { result ≡ mark_of axis per_unit place node.now span }
    ensures top { result.top ≤ 256 }
    ensures height { result.height ≤ 256 }
    ensures across { result.across ≤ 2 ^ 100 }
{
    let top = level(axis, span.high);
    Mark {
        across: 110 + 20 * place as u128,
        top,
        height: level(axis, span.low).saturating_sub(top).max(1),
        shape: shape_of(node.number),
        judgement: judgement_of(per_unit, span),
    }
}
