// A strip of a panel: nodes of one round over the axis of the page.
ghost use Rattle.std.specs.Prelude.{◌≡◌, ◌≤◌, ◌^◌, ◌-◌, ◌++◌, OnOk, codes};
ghost use Rattle.fd_decimal.specs.Decimals.{size_text};
ghost use Rattle.fd_picture.specs.Panels.{head_text, label_text, limit_text, mark_text, marks_text, node_name, panel_text, per_unit_text, shape_name, tick_text, ticks_text, title_text, unit_name, level_text, axis_text, bar_text, frame_text, line_text, node_text, place_text, judgement_text, shape_text, tick_within, frame_width};

use crate::marks::{GREATEST_INSIDE, Judgement, LEAST_INSIDE, Mark, Shape, mark_of};
use crate::report::Node;
use crate::scale::{Scale, level, step_for, tick_value};
use crate::strips::Strip;
use crate::text::{push, push_attribute, push_between, push_escaped, push_number, push_size};
use crate::units::{BaseTable, Span, span_of};
use fd_decimal::fixed_text;
use std::alloc::{AllocError, Global};

// BUS.NODE
fn push_node_name(text: &mut Vec<u8>, node: &Node) -> Result<(), AllocError>
    ensures { OnOk result (text.new.items ≡ text.old.items ++ node_name node.now) }
{
    push_escaped(text, node.bus.as_slice())?;
    push(text, b".")?;
    push_number(text, u128::from(node.number))
}

// The per unit part of a title.
#[tactic(auto, unfolding(crate::specs::Panels::per_unit_text))]
fn push_per_unit(
    alloc: Global,
    text: &mut Vec<u8>,
    per_unit: bool,
    span: Span,
) -> Result<(), AllocError>
    ensures { OnOk result (text.new.items ≡ text.old.items ++ per_unit_text per_unit span) }
{
    if !per_unit {
        return Ok(());
    }
    push(text, b", ")?;
    push_size(alloc, text, span.low)?;
    push(text, b" to ")?;
    push_size(alloc, text, span.high)?;
    push(text, b" per unit")
}

// A low, a high and the width between them, in volts.
fn push_volts(alloc: Global, text: &mut Vec<u8>, low: u64, high: u64) -> Result<(), AllocError>
    ensures { OnOk result (text.new.items ≡ text.old.items
        ++ (size_text low ++ codes " to " ++ size_text high ++ codes " V, width "
        ++ size_text (high - low) ++ codes " V")) }
{
    push_size(alloc, text, low)?;
    push(text, b" to ")?;
    push_size(alloc, text, high)?;
    push(text, b" V, width ")?;
    push_size(alloc, text, high.saturating_sub(low))?;
    push(text, b" V")
}

// The title of a mark: the node, its low, its high and the width between them, per unit too where the page is.
#[tactic(auto, unfolding(crate::specs::Panels::title_text))]
fn push_title(
    alloc: Global,
    text: &mut Vec<u8>,
    node: &Node,
    per_unit: bool,
    span: Span,
) -> Result<(), AllocError>
    ensures { OnOk result (text.new.items ≡ text.old.items ++ title_text node.now per_unit span) }
{
    push(text, b"<title>")?;
    push_node_name(text, node)?;
    push(text, b": ")?;
    push_volts(alloc, text, node.low, node.high)?;
    push_per_unit(alloc, text, per_unit, span)?;
    push(text, b"</title>")
}

fn shape_name(shape: Shape) -> &'static [u8]
    ensures { result.now ≡ shape_name shape }
{
    match shape {
        Shape::Triangle => b"triangle",
        Shape::Square => b"square",
        Shape::Circle => b"circle",
        Shape::Diamond => b"diamond",
    }
}

// The attributes of a place, and the end of the element.
#[tactic(auto, unfolding(crate::specs::Panels::place_text))]
fn push_place(text: &mut Vec<u8>, across: u128, down: u128) -> Result<(), AllocError>
    ensures { OnOk result (text.new.items ≡ text.old.items ++ place_text across down) }
{
    push_attribute(text, b"x", across)?;
    push_attribute(text, b"y", down)?;
    push(text, b"/>")
}

// A shape of the page's definitions at a place.
#[tactic(auto, unfolding(crate::specs::Panels::shape_text))]
fn push_shape(text: &mut Vec<u8>, name: &[u8], across: u128, down: u128) -> Result<(), AllocError>
    ensures { OnOk result (text.new.items ≡ text.old.items ++ shape_text name.now across down) }
{
    push(text, b"<use href='#")?;
    push(text, name)?;
    push(text, b"'")?;
    push_place(text, across, down)
}

// Over the mark of a node that isn't judged to be within the limits: a ring, a broken ring, or a cross.
#[tactic(auto, unfolding(crate::specs::Panels::judgement_text))]
fn push_judgement(
    text: &mut Vec<u8>,
    judgement: Judgement,
    across: u128,
    down: u128,
) -> Result<(), AllocError>
    ensures { OnOk result (text.new.items ≡ text.old.items ++ judgement_text judgement across down) }
{
    match judgement {
        Judgement::Outside => push_shape(text, b"outside", across, down),
        Judgement::Across => push_shape(text, b"across", across, down),
        Judgement::Far => push_shape(text, b"far", across, down),
        Judgement::Within | Judgement::InVolts => Ok(()),
    }
}

// The bar of a mark, from its high to its low.
#[tactic(auto, unfolding(crate::specs::Panels::bar_text))]
fn push_bar(text: &mut Vec<u8>, mark: Mark) -> Result<(), AllocError>
    ensures { OnOk result (text.new.items ≡ text.old.items ++ bar_text mark) }
{
    push(text, b"<rect class='bar' width='18'")?;
    push_attribute(text, b"x", mark.across.saturating_sub(9))?;
    push_attribute(text, b"y", mark.top)?;
    push_attribute(text, b"height", mark.height)?;
    push(text, b"/>")
}

// The mark of a node, whole.
#[tactic(auto, unfolding(crate::specs::Panels::mark_text))]
fn push_mark(
    alloc: Global,
    text: &mut Vec<u8>,
    mark: Mark,
    node: &Node,
    per_unit: bool,
    span: Span,
) -> Result<(), AllocError>
    requires height { mark.height ≤ 256 }
    requires top { mark.top ≤ 256 }
    ensures { OnOk result (text.new.items ≡ text.old.items ++ mark_text mark node.now per_unit span) }
{
    let middle = mark.top + mark.height / 2;
    push(text, b"<g class='mark'>")?;
    push_title(alloc, text, node, per_unit, span)?;
    push_bar(text, mark)?;
    push_shape(text, shape_name(mark.shape), mark.across, middle)?;
    push_judgement(text, mark.judgement, mark.across, middle)?;
    push(text, b"</g>\n")
}

// The name of a node below its mark, from the bottom up.
#[tactic(auto, unfolding(crate::specs::Panels::label_text))]
fn push_label(text: &mut Vec<u8>, across: u128, node: &Node) -> Result<(), AllocError>
    requires { across ≤ 2 ^ 100 }
    ensures { OnOk result (text.new.items ≡ text.old.items ++ label_text across node.now) }
{
    push(text, b"<text class='node' transform='translate(")?;
    push_number(text, across + 4)?;
    push(text, b",278)rotate(-90)'>")?;
    push_node_name(text, node)?;
    push(text, b"</text>\n")
}

// A node of a panel: its mark, and its name below.
fn push_node(
    alloc: Global,
    text: &mut Vec<u8>,
    bases: &BaseTable,
    per_unit: bool,
    axis: Span,
    place: usize,
    node: &Node,
) -> Result<(), AllocError>
    ensures { OnOk result (text.new.items ≡ text.old.items ++ node_text bases.now per_unit axis place node.now) }
{
    let span = span_of(bases, per_unit, node);
    let mark = mark_of(axis, per_unit, place, node, span);
    push_mark(alloc, text, mark, node, per_unit, span)?;
    push_label(text, mark.across, node)
}

// The marks of a panel's nodes and their names, in the order of the report.
#[tactic(auto, unfolding(crate::specs::Panels::marks_text))]
fn push_marks(
    alloc: Global,
    text: &mut Vec<u8>,
    bases: &BaseTable,
    per_unit: bool,
    axis: Span,
    nodes: &[Node],
) -> Result<(), AllocError>
    ensures { OnOk result (text.new.items ≡ text.old.items ++ marks_text bases.now per_unit axis nodes.now) }
{
    for place in 0..nodes.len() {
        push_node(alloc, text, bases, per_unit, axis, place, &nodes[place])?;
    }
    Ok(())
}

// The number at a line of the axis, with as few decimals as the distance of the lines needs: none, three or six.
#[tactic(auto, unfolding(crate::specs::Panels::level_text))]
fn push_level(alloc: Global, text: &mut Vec<u8>, step: u64, value: u128) -> Result<(), AllocError>
    ensures { OnOk result (text.new.items ≡ text.old.items ++ level_text step value) }
{
    if step % 1_000_000 == 0 {
        push_number(text, value / 1_000_000)
    } else if step % 1000 == 0 {
        push(text, &fixed_text(alloc, 3, value / 1000)?)
    } else {
        push(text, &fixed_text(alloc, 6, value)?)
    }
}

fn unit_name(per_unit: bool) -> &'static [u8]
    ensures { result.now ≡ unit_name per_unit }
{
    if per_unit { b"per unit" } else { b"V" }
}

// A line across a panel.
#[tactic(auto, unfolding(crate::specs::Panels::line_text))]
fn push_line(text: &mut Vec<u8>, class: &[u8], width: u128, down: u128) -> Result<(), AllocError>
    ensures { OnOk result (text.new.items ≡ text.old.items ++ line_text class.now width down) }
{
    push(text, b"<path class='")?;
    push(text, class)?;
    push(text, b"' d='M100 ")?;
    push_number(text, down)?;
    push(text, b"h")?;
    push_number(text, width)?;
    push(text, b"'/>\n")
}

// A line of the axis, with its number to the left.
#[tactic(auto, unfolding(crate::specs::Panels::tick_text))]
fn push_tick(
    alloc: Global,
    text: &mut Vec<u8>,
    axis: Span,
    step: u64,
    width: u128,
    value: u64,
) -> Result<(), AllocError>
    ensures { OnOk result (text.new.items ≡ text.old.items ++ tick_text axis step width value) }
{
    let down = level(axis, value);
    push_line(text, b"tick", width, down)?;
    push(text, b"<text class='tick' x='94'")?;
    push_attribute(text, b"y", down + 5)?;
    push(text, b">")?;
    push_level(alloc, text, step, u128::from(value))?;
    push(text, b"</text>\n")
}

// The line at the k-th multiple of the step from the low end of the axis on, where it is within the axis.
#[tactic(auto, unfolding(crate::specs::Panels::tick_within))]
fn push_tick_within(
    alloc: Global,
    text: &mut Vec<u8>,
    axis: Span,
    step: u64,
    width: u128,
    k: u64,
) -> Result<(), AllocError>
    ensures { OnOk result (text.new.items ≡ text.old.items ++ tick_within axis step width k) }
{
    match tick_value(axis, step, k) {
        Some(value) => push_tick(alloc, text, axis, step, width, value),
        None => Ok(()),
    }
}

// A line at a limit of 0.95 or 1.05 per unit, where the axis passes it.
#[tactic(auto, unfolding(crate::specs::Panels::limit_text))]
fn push_limit(
    text: &mut Vec<u8>,
    axis: Span,
    per_unit: bool,
    width: u128,
    limit: u64,
) -> Result<(), AllocError>
    ensures { OnOk result (text.new.items ≡ text.old.items ++ limit_text axis per_unit width limit) }
{
    if per_unit && axis.low <= limit && limit <= axis.high {
        push_line(text, b"limit", width, level(axis, limit))
    } else {
        Ok(())
    }
}

// The lines of the axis: the first seven multiples of the step within it. The step is above a fifth of the axis, so
// there are no more.
fn push_ticks(
    alloc: Global,
    text: &mut Vec<u8>,
    axis: Span,
    step: u64,
    width: u128,
) -> Result<(), AllocError>
    ensures { OnOk result (text.new.items ≡ text.old.items ++ ticks_text axis step width) }
{
    push_tick_within(alloc, text, axis, step, width, 0)?;
    push_tick_within(alloc, text, axis, step, width, 1)?;
    push_tick_within(alloc, text, axis, step, width, 2)?;
    push_tick_within(alloc, text, axis, step, width, 3)?;
    push_tick_within(alloc, text, axis, step, width, 4)?;
    push_tick_within(alloc, text, axis, step, width, 5)?;
    push_tick_within(alloc, text, axis, step, width, 6)
}

// The unit of a panel's axis, and the panel's frame.
#[tactic(auto, unfolding(crate::specs::Panels::frame_text))]
fn push_frame(text: &mut Vec<u8>, per_unit: bool, width: u128) -> Result<(), AllocError>
    ensures { OnOk result (text.new.items ≡ text.old.items ++ frame_text per_unit width) }
{
    push(text, b"<text class='unit' x='94' y='18'>")?;
    push(text, unit_name(per_unit))?;
    push(text, b"</text>\n<text x='4' y='290'>bus.node</text>\n")?;
    push(text, b"<rect class='frame' x='100' y='26' height='240'")?;
    push_attribute(text, b"width", width)?;
    push(text, b"/>\n")
}

// A panel's frame and axis, with the limits where it is per unit.
#[tactic(auto, unfolding(crate::specs::Panels::axis_text))]
fn push_axis(
    alloc: Global,
    text: &mut Vec<u8>,
    per_unit: bool,
    axis: Span,
    width: u128,
) -> Result<(), AllocError>
    ensures { OnOk result (text.new.items ≡ text.old.items ++ axis_text per_unit axis width) }
{
    let step = step_for(axis.high.saturating_sub(axis.low));
    push_frame(text, per_unit, width)?;
    push_ticks(alloc, text, axis, step, width)?;
    push_limit(text, axis, per_unit, width, LEAST_INSIDE)?;
    push_limit(text, axis, per_unit, width, GREATEST_INSIDE)
}

// The head of a panel: its settle, hour and round.
#[tactic(auto, unfolding(crate::specs::Panels::head_text))]
fn push_head(text: &mut Vec<u8>, strip: &Strip) -> Result<(), AllocError>
    ensures { OnOk result (text.new.items ≡ text.old.items ++ head_text strip.now) }
{
    push_between(
        text,
        b"<text class='round' x='104' y='18'>settle ",
        strip.settle(),
        b", hour ",
    )?;
    push_between(text, b"", strip.hour(), b", round ")?;
    push_between(text, b"", strip.round(), b"</text>\n")
}

// Frames are at least as wide as those of so many nodes.
const LEAST_NODES: usize = 7;

fn frame_width(nodes: usize) -> u128
    ensures { result ≡ frame_width nodes }
{
    20 * nodes.max(LEAST_NODES) as u128
}

/// A strip of a panel, from its own top left.
#[tactic(auto, unfolding(crate::specs::Panels::panel_text))]
pub(crate) fn push_panel(
    alloc: Global,
    text: &mut Vec<u8>,
    bases: &BaseTable,
    scale: Scale,
    strip: &Strip,
) -> Result<(), AllocError>
    ensures { OnOk result (text.new.items ≡ text.old.items ++ panel_text bases.now scale strip.now) }
{
    let nodes = strip.nodes();
    push_head(text, strip)?;
    push_axis(
        alloc,
        text,
        scale.per_unit,
        scale.axis,
        frame_width(nodes.len()),
    )?;
    push_marks(alloc, text, bases, scale.per_unit, scale.axis, nodes)
}
