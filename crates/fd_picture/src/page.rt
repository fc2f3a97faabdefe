// The page of a report.
ghost use Rattle.std.specs.Prelude.{◌≡◌, ◌<◌, ◌≤◌, ◌^◌, ◌++◌, IfOk, OnOk};
ghost use Rattle.fd_picture.specs.Pages.{limits_text, fault_length, heads_text, longest_element, page_width, panel_left, panel_top, table_height, cell_text, entries_text, entry_text, fault_text, grid_of, heading_text, kind_name, label_length, legend_text, longest_bus, most_nodes, number_cell, page_of, panel_at, panels_text, shapes_text, style_text, svg_text, table_text, table_top, view_text};
ghost use Rattle.fd_picture.specs.Strips.{drawn};

use crate::panel::push_panel;
use crate::report::{Entry, Kind, Node, Report};
use crate::scale::{Scale, scale_of};
use crate::strips::{Strip, drawn};
use crate::text::{push, push_all, push_attribute, push_escaped, push_number};
use crate::units::BaseTable;
use fd_outside::Bytes;
use std::alloc::{AllocError, Global};

// The least width of a page, and of a strip in nodes.
const LEAST_WIDTH: u128 = 1000;

const LEAST_NODES: usize = 7;
// Longer names run over the edge of their panel: no line of a script has more bytes.
const MOST_LETTERS: usize = 65_536;

fn most_nodes(strips: &[Strip]) -> usize
    ensures { result ≡ most_nodes strips.now }
{
    let mut most = LEAST_NODES;
    for strip in strips {
        most = most.max(strip.nodes().len());
    }
    most
}

fn longest_bus(nodes: &[Node]) -> usize
    ensures { result ≡ longest_bus nodes.now }
{
    let mut longest = 0;
    for node in nodes {
        longest = longest.max(node.bus.as_slice().len());
    }
    longest
}

fn label_length(strips: &[Strip]) -> usize
    ensures value { result ≡ label_length strips.now }
    ensures small { result ≤ 65_536 }
{
    let mut longest = 0;
    for strip in strips {
        longest = longest.max(longest_bus(strip.nodes()));
    }
    longest.min(MOST_LETTERS)
}

/// The size of a strip and how many stand beside each other.
#[derive(Clone, Copy)]
struct Grid {
    width: u128,
    height: u128,
    columns: u128,
}

#[tactic(auto, unfolding(crate::specs::Pages::grid_of))]
fn grid_of(strips: &[Strip]) -> Grid
    ensures grid { result ≡ grid_of strips.now }
    ensures columns { 0 < result.columns }
    ensures most { result.columns ≤ 1000 }
    ensures width { 0 < result.width }
    ensures wide { result.width ≤ 2 ^ 70 }
    ensures height { result.height ≤ 1_000_000 }
{
    let width = 110 + 20 * most_nodes(strips) as u128;
    Grid {
        width,
        height: 310 + 8 * (label_length(strips) as u128 + 3),
        columns: (LEAST_WIDTH / width).max(1),
    }
}

// The left edge of the k-th strip.
fn panel_left(grid: Grid, k: usize) -> u128
    requires columns { 0 < grid.columns }
    requires most { grid.columns ≤ 1000 }
    requires wide { grid.width ≤ 2 ^ 70 }
    ensures { result ≡ panel_left grid k }
{
    k as u128 % grid.columns * grid.width
}

// The top edge of the k-th strip.
fn panel_top(grid: Grid, k: usize) -> u128
    requires columns { 0 < grid.columns }
    requires height { grid.height ≤ 1_000_000 }
    ensures { result ≡ panel_top grid k }
{
    100 + k as u128 / grid.columns * grid.height
}

// The k-th strip, at its place on the page.
#[tactic(auto, unfolding(crate::specs::Pages::panel_at))]
fn push_panel_at(
    alloc: Global,
    text: &mut Vec<u8>,
    bases: &BaseTable,
    scale: Scale,
    grid: Grid,
    k: usize,
    strip: &Strip,
) -> Result<(), AllocError>
    requires columns { 0 < grid.columns }
    requires most { grid.columns ≤ 1000 }
    requires wide { grid.width ≤ 2 ^ 70 }
    requires height { grid.height ≤ 1_000_000 }
    ensures { OnOk result (text.new.items ≡ text.old.items ++ panel_at bases.now scale grid k strip.now) }
{
    push(text, b"<g transform='translate(")?;
    push_number(text, panel_left(grid, k))?;
    push(text, b",")?;
    push_number(text, panel_top(grid, k))?;
    push(text, b")'>\n")?;
    push_panel(alloc, text, bases, scale, strip)?;
    push(text, b"</g>\n")
}

#[tactic(auto, unfolding(crate::specs::Pages::panels_text))]
fn push_panels(
    alloc: Global,
    text: &mut Vec<u8>,
    bases: &BaseTable,
    scale: Scale,
    grid: Grid,
    strips: &[Strip],
) -> Result<(), AllocError>
    requires columns { 0 < grid.columns }
    requires most { grid.columns ≤ 1000 }
    requires wide { grid.width ≤ 2 ^ 70 }
    requires height { grid.height ≤ 1_000_000 }
    ensures { OnOk result (text.new.items ≡ text.old.items ++ panels_text bases.now scale grid strips.now) }
{
    for k in 0..strips.len() {
        push_panel_at(alloc, text, bases, scale, grid, k, &strips[k])?;
    }
    Ok(())
}

// Where the table begins below the strips.
fn table_top(grid: Grid, strips: usize) -> u128
    requires columns { 0 < grid.columns }
    requires most { grid.columns ≤ 1000 }
    requires height { grid.height ≤ 1_000_000 }
    ensures value { result ≡ table_top grid strips }
    ensures small { result ≤ 2 ^ 90 }
{
    100 + (strips as u128 + (grid.columns - 1)) / grid.columns * grid.height
}

fn kind_name(kind: Kind) -> &'static [u8]
    ensures { result.now ≡ kind_name kind }
{
    match kind {
        Kind::Act => b"act",
        Kind::Tap => b"tap",
        Kind::Bank => b"bank",
    }
}

// A cell of the table, at its column.
#[tactic(auto, unfolding(crate::specs::Pages::cell_text))]
fn push_cell(text: &mut Vec<u8>, across: u128, cell: &[u8]) -> Result<(), AllocError>
    ensures { OnOk result (text.new.items ≡ text.old.items ++ cell_text across cell.now) }
{
    push(text, b"<tspan")?;
    push_attribute(text, b"x", across)?;
    push(text, b">")?;
    push_escaped(text, cell)?;
    push(text, b"</tspan>")
}

#[tactic(auto, unfolding(crate::specs::Pages::number_cell))]
fn push_number_cell(text: &mut Vec<u8>, across: u128, n: u64) -> Result<(), AllocError>
    ensures { OnOk result (text.new.items ≡ text.old.items ++ number_cell across n) }
{
    push(text, b"<tspan")?;
    push_attribute(text, b"x", across)?;
    push(text, b">")?;
    push_number(text, u128::from(n))?;
    push(text, b"</tspan>")
}

// The first cells of a row: the settle, the hour and the record.
fn push_round_cells(text: &mut Vec<u8>, entry: &Entry) -> Result<(), AllocError>
    ensures { OnOk result (text.new.items ≡ text.old.items
        ++ (number_cell 20 entry.now.settle ++ number_cell 90 entry.now.hour
        ++ cell_text 160 (kind_name entry.now.kind))) }
{
    push_number_cell(text, 20, entry.settle)?;
    push_number_cell(text, 90, entry.hour)?;
    push_cell(text, 160, kind_name(entry.kind))
}

// The cells behind them, of the record's own fields.
fn push_field_cells(text: &mut Vec<u8>, entry: &Entry) -> Result<(), AllocError>
    ensures { OnOk result (text.new.items ≡ text.old.items
        ++ (cell_text 230 entry.now.time ++ cell_text 350 entry.now.steps
        ++ cell_text 420 entry.now.position ++ cell_text 600 entry.now.element)) }
{
    push_cell(text, 230, entry.time.as_slice())?;
    push_cell(text, 350, entry.steps.as_slice())?;
    push_cell(text, 420, entry.position.as_slice())?;
    push_cell(text, 600, entry.element.as_slice())
}

// A row of the table.
#[tactic(auto, unfolding(crate::specs::Pages::entry_text))]
fn push_entry(text: &mut Vec<u8>, top: u128, k: usize, entry: &Entry) -> Result<(), AllocError>
    requires { top ≤ 2 ^ 90 }
    ensures { OnOk result (text.new.items ≡ text.old.items ++ entry_text top k entry.now) }
{
    push(text, b"<text class='row'")?;
    push_attribute(text, b"y", top + 54 + 20 * k as u128)?;
    push(text, b">")?;
    push_round_cells(text, entry)?;
    push_field_cells(text, entry)?;
    push(text, b"</text>\n")
}

#[tactic(auto, unfolding(crate::specs::Pages::entries_text))]
fn push_entries(text: &mut Vec<u8>, top: u128, entries: &[Entry]) -> Result<(), AllocError>
    requires { top ≤ 2 ^ 90 }
    ensures { OnOk result (text.new.items ≡ text.old.items ++ entries_text top entries.now) }
{
    for k in 0..entries.len() {
        push_entry(text, top, k, &entries[k])?;
    }
    Ok(())
}

// The heads of the table's columns.
#[tactic(auto, unfolding(crate::specs::Pages::heads_text))]
fn push_heads(text: &mut Vec<u8>, top: u128) -> Result<(), AllocError>
    requires { top ≤ 2 ^ 90 }
    ensures { OnOk result (text.new.items ≡ text.old.items ++ heads_text top) }
{
    push(text, b"<text class='head'")?;
    push_attribute(text, b"y", top + 24)?;
    push(
        text,
        b"><tspan x='20'>settle</tspan><tspan x='90'>hour</tspan><tspan x='160'>record</tspan><tspan x='230'>time in s</tspan>",
    )?;
    push(
        text,
        b"<tspan x='350'>steps</tspan><tspan x='420'>tap per unit, or bank</tspan><tspan x='600'>element</tspan></text>\n",
    )
}

// The table, where it has a row.
#[tactic(auto, unfolding(crate::specs::Pages::table_text))]
fn push_table(text: &mut Vec<u8>, top: u128, entries: &[Entry]) -> Result<(), AllocError>
    requires { top ≤ 2 ^ 90 }
    ensures { OnOk result (text.new.items ≡ text.old.items ++ table_text top entries.now) }
{
    if entries.is_empty() {
        return Ok(());
    }
    push_heads(text, top)?;
    push_entries(text, top, entries)
}

// The height of a table of so many rows.
fn table_height(entries: usize) -> u128
    ensures value { result ≡ table_height entries }
    ensures small { result ≤ 2 ^ 70 }
{
    if entries == 0 {
        0
    } else {
        40 + 20 * entries as u128
    }
}

fn longest_element(entries: &[Entry]) -> usize
    ensures { result ≡ longest_element entries.now }
{
    let mut longest = 0;
    for entry in entries {
        longest = longest.max(entry.element.as_slice().len());
    }
    longest
}

fn fault_length(fault: &Option<Bytes>) -> usize
    ensures { result ≡ fault_length fault.now }
{
    match fault {
        Some(fault) => fault.as_slice().len(),
        None => 0,
    }
}

// The width of the page of a report: of a row of panels, the table with its longest name, and the line of the fault.
fn page_width(grid: Grid, report: &Report) -> u128
    requires { grid.width ≤ 2 ^ 70 }
    ensures { result ≡ page_width grid report.now }
{
    let table = 600 + 8 * longest_element(report.entries.as_slice()) as u128;
    let fault = 200 + 8 * fault_length(&report.fault) as u128;
    grid.width.max(LEAST_WIDTH).max(table.max(fault)) + 30
}

// The record of the fault that ends the report, below the table.
#[tactic(auto, unfolding(crate::specs::Pages::fault_text))]
fn push_fault(text: &mut Vec<u8>, down: u128, fault: &Option<Bytes>) -> Result<(), AllocError>
    ensures { OnOk result (text.new.items ≡ text.old.items ++ fault_text down fault.now) }
{
    match fault {
        Some(fault) => {
            push(text, b"<text class='fault' x='20'")?;
            push_attribute(text, b"y", down)?;
            push(text, b">The report ends with:")?;
            push_escaped(text, fault.as_slice())?;
            push(text, b"</text>\n")
        }
        None => Ok(()),
    }
}

// How the page's elements look.
#[tactic(auto, unfolding(crate::specs::Pages::style_text))]
fn push_style(text: &mut Vec<u8>) -> Result<(), AllocError>
    ensures { OnOk result (text.new.items ≡ text.old.items ++ style_text) }
{
    push_all(
        text,
        &[
            b"<style>text{font:14px sans-serif}.head{font-weight:bold}.title{font:bold 18px sans-serif}.round,.tick{font-size:12px}",
            b".node,.row{font:13px monospace}.fault{font:bold 13px monospace}.tick,.node,.unit{text-anchor:end}path.tick{stroke:#bbb}",
            b"path.limit{stroke:#000;stroke-dasharray:6 4}.frame{fill:none;stroke:#000}.bar{fill:#000;fill-opacity:.5}</style>\n",
        ],
    )
}

// The shapes of marks, apart in black and white too, and what stands over those that aren't within the limits.
#[tactic(auto, unfolding(crate::specs::Pages::shapes_text))]
fn push_shapes(text: &mut Vec<u8>) -> Result<(), AllocError>
    ensures { OnOk result (text.new.items ≡ text.old.items ++ shapes_text) }
{
    push_all(
        text,
        &[
            b"<defs>\n<path id='triangle' d='M0 -7L7 5H-7Z' fill='#0072b2' stroke='#000'/>\n",
            b"<path id='square' d='M-5 -5H5V5H-5Z' fill='#fff' stroke='#d55e00' stroke-width='2.5'/>\n",
            b"<circle id='circle' r='6' fill='#009e73' stroke='#000'/>\n",
            b"<path id='diamond' d='M0 -7L6 0L0 7L-6 0Z' fill='#fff' stroke='#000' stroke-width='2'/>\n",
            b"<circle id='outside' r='10' fill='none' stroke='#000' stroke-width='2'/>\n",
            b"<circle id='across' r='10' fill='none' stroke='#000' stroke-width='2' stroke-dasharray='4 4'/>\n",
            b"<path id='far' d='M-9 -9L9 9M-9 9L9 -9' stroke='#000' stroke-width='2'/>\n</defs>\n",
        ],
    )
}

// The heading of the page, and the legend of the shapes and the bar.
#[tactic(auto, unfolding(crate::specs::Pages::heading_text))]
fn push_heading(text: &mut Vec<u8>) -> Result<(), AllocError>
    ensures { OnOk result (text.new.items ≡ text.old.items ++ heading_text) }
{
    push_all(
        text,
        &[
            b"<rect width='100%' height='100%' fill='#fff'/>\n",
            b"<text class='title' x='20' y='30'>Voltage magnitudes to ground, in the last round of each hour</text>\n",
            b"<use href='#triangle' x='28' y='53'/><text x='44' y='58'>node 1</text>\n",
            b"<use href='#square' x='128' y='53'/><text x='144' y='58'>node 2</text>\n",
            b"<use href='#circle' x='228' y='53'/><text x='244' y='58'>node 3</text>\n",
            b"<use href='#diamond' x='328' y='53'/><text x='344' y='58'>another node</text>\n",
            b"<rect class='bar' x='460' y='49' width='18' height='8'/><text x='486' y='58'>from low to high, at least a line</text>\n",
        ],
    )
}

// The legend of the limits and of what isn't within them, or that nothing is judged.
#[tactic(auto, unfolding(crate::specs::Pages::limits_text))]
fn push_limits(text: &mut Vec<u8>, per_unit: bool) -> Result<(), AllocError>
    ensures { OnOk result (text.new.items ≡ text.old.items ++ limits_text per_unit) }
{
    if per_unit {
        push_all(
            text,
            &[
                b"<path class='limit' d='M18 77h26'/><text x='52' y='82'>limits of 0.95 and 1.05 per unit</text>\n",
                b"<use href='#outside' x='292' y='77'/><text x='310' y='82'>surely outside</text>\n",
                b"<use href='#across' x='432' y='77'/><text x='450' y='82'>across a limit</text>\n",
                b"<use href='#far' x='570' y='77'/><text x='588' y='82'>below 0.5 or above 1.4, as in a delta: off the axis, not judged</text>\n",
            ],
        )
    } else {
        push(
            text,
            b"<text x='20' y='82'>not every node has a voltage base: in volts, and no limits are judged</text>\n",
        )
    }
}

// What is the same on each page of a unit.
#[tactic(auto, unfolding(crate::specs::Pages::legend_text))]
fn push_legend(text: &mut Vec<u8>, per_unit: bool) -> Result<(), AllocError>
    ensures { OnOk result (text.new.items ≡ text.old.items ++ legend_text per_unit) }
{
    push_style(text)?;
    push_shapes(text)?;
    push_heading(text)?;
    push_limits(text, per_unit)
}

// Where the view of the page ends, right and below.
#[tactic(auto, unfolding(crate::specs::Pages::view_text))]
fn push_view(text: &mut Vec<u8>, width: u128, height: u128) -> Result<(), AllocError>
    ensures { OnOk result (text.new.items ≡ text.old.items ++ view_text width height) }
{
    push_number(text, width)?;
    push(text, b" ")?;
    push_number(text, height)?;
    push(text, b"'>\n")
}

// The head of the page, with its size.
#[tactic(auto, unfolding(crate::specs::Pages::svg_text))]
fn push_svg(text: &mut Vec<u8>, width: u128, height: u128) -> Result<(), AllocError>
    ensures { OnOk result (text.new.items ≡ text.old.items ++ svg_text width height) }
{
    push(text, b"<svg xmlns='http://www.w3.org/2000/svg'")?;
    push_attribute(text, b"width", width)?;
    push_attribute(text, b"height", height)?;
    push(text, b" viewBox='0 0 ")?;
    push_view(text, width, height)
}

// The page of a report, with its bases and its strips.
#[tactic(auto, unfolding(crate::specs::Pages::page_of))]
fn push_page(
    alloc: Global,
    text: &mut Vec<u8>,
    report: &Report,
    bases: &BaseTable,
    strips: &[Strip],
) -> Result<(), AllocError>
    requires bases { bases.now ≡ report.now.bases }
    requires strips { strips.now ≡ drawn report.now.panels }
    ensures { OnOk result (text.new.items ≡ text.old.items ++ page_of report.now) }
{
    let entries = report.entries.as_slice();
    let grid = grid_of(strips);
    let scale = scale_of(bases, strips);
    let top = table_top(grid, strips.len());
    let down = top + 24 + table_height(entries.len());
    push_svg(text, page_width(grid, report), down + 40)?;
    push_legend(text, scale.per_unit)?;
    push_panels(alloc, text, bases, scale, grid, strips)?;
    push_table(text, top, entries)?;
    push_fault(text, down, &report.fault)?;
    push(text, b"</svg>\n")
}

/// The page of a report: one SVG picture, as text.
///
/// The voltages of each panel's nodes stand beside each other in the order of the report, one mark for each, in strips of
/// at most 42 over the axis that all strips have; acts, taps and banks in a table below. The time is linear in the
/// report.
pub fn draw(alloc: Global, report: &Report) -> Result<Vec<u8>, AllocError>
    ensures { IfOk result (λ text. text.items ≡ page_of report.now) }
{
    let strips = drawn(alloc, report.panels.as_slice())?;
    let bases = BaseTable::new(alloc, report.bases.as_slice())?;
    let mut text = Vec::new(alloc);
    push_page(alloc, &mut text, report, &bases, &strips)?;
    Ok(text)
}
