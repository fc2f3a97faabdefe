// The radii of slopes, at the places of the Jacobian's non-zeros.
ghost use Rattle.std.specs.Prelude.{◌≡◌, ℕ, ◌+◌, ◌*◌, ◌<◌, ◌≤◌, ◌^◌, ◌&&◌, cond, eqb, IfOk, IfSome, length, All};
ghost use Rattle.fd_enclosure.specs.fd_system.Residual.{IsPlace};
ghost use Rattle.fd_enclosure.specs.fd_pattern.Conditions.{IsPart};
ghost use Rattle.fd_enclosure.specs.fd_pattern.Patterns.{key};
ghost use Rattle.fd_enclosure.specs.fd_pattern.Terminals.{IsConnected};
ghost use Rattle.fd_enclosure.specs.fd_slope.Changes.{im_width, magnitude_width as width_of_magnitude, radii_in, re_width};
ghost use Rattle.fd_enclosure.specs.fd_slope.Radii.{AreRadii, IsRadiusRow};
ghost use Rattle.fd_enclosure.specs.Radii.{load_radius, radius_in, spread, spread_magnitude, spread_node};
ghost use Rattle.fd_enclosure.specs.Sound.{number_at};
ghost use Rattle.fd_cert.specs.Places.{AreRadiusCells, AreRaised, HaveRoom, HaveWidths, RaisesRoom, loads_radius, radius_cell};

use fd_enclosure::{Cell, LoadAt, NodeAt, Pattern, Radii, RadiusRow, load_slope, voltage_of};
use std::alloc::{AllocError, Global};

// What covers the rounding of a summand of the Jacobian, in units of 2^-40.
const UNITS_OF_SUMMAND: i128 = 4;

// The radii of the slopes of part loads in the box around the point x, at each place of a pattern.
pub fn load_radii(
    alloc: Global,
    pattern: &Pattern,
    loads: &[LoadAt],
    x: &[i128],
    boxes: &[u128],
) -> Result<Vec<u128>, AllocError>
    requires size { length x.now ≤ 2 ^ 11 }
    requires loads { All (IsConnected (length x.now)) loads.now }
    requires few { length loads.now < 2 ^ 21 }
    requires parts { All IsPart x.now }
    requires boxes { HaveWidths (length x.now) boxes.now }
    ensures long { IfOk result (λ radii. length radii.items ≡ length pattern.now.places) }
    ensures radii { IfOk result (λ radii. (k : ℕ) → k < length pattern.now.places
        → number_at radii.items k ≡ loads_radius (number_at boxes.now) x.now loads.now (key pattern.now.places k)) }
    ensures room { IfOk result (λ radii. HaveRoom pattern.now.places radii.items (2 ^ 126)) }
{
    let mut radii = vec![in alloc; 0; pattern.places().len()]?;
    add_loads(pattern, &mut radii, loads, x, boxes);
    Ok(radii)
}

// The cells of the Jacobian with radii in place of their entries: those of part loads, and those of the rounding of each summand.
pub fn with_radii(alloc: Global, cells: &[Cell], radii: &[u128]) -> Result<Vec<Cell>, AllocError>
    requires long { length radii.now ≡ length cells.now }
    requires room { (k : ℕ) → k < length cells.now → number_at radii.now k ≤ 2 ^ 126 }
    ensures { IfOk result (λ made. AreRadiusCells cells.now radii.now made.items) }
{
    let mut made = Vec::with_capacity(alloc, cells.len())?;
    for k in 0..cells.len() {
        made.push(with_radius(&cells[k], radii[k]))?;
    }
    Ok(made)
}

fn with_radius(cell: &Cell, radius: u128) -> Cell
    requires { radius ≤ 2 ^ 126 }
    ensures { result ≡ radius_cell cell.now radius }
{
    let summands = cell.count as i128 + cell.slopes as i128;
    Cell {
        units: radius as i128 + UNITS_OF_SUMMAND * summands,
        ..*cell
    }
}

// Adds the radii of the slopes of part loads.
fn add_loads(pattern: &Pattern, radii: &mut [u128], loads: &[LoadAt], x: &[i128], boxes: &[u128])
    requires long { length radii.old ≡ length pattern.now.places }
    requires size { length x.now ≤ 2 ^ 11 }
    requires loads { All (IsConnected (length x.now)) loads.now }
    requires few { length loads.now < 2 ^ 21 }
    requires parts { All IsPart x.now }
    requires boxes { HaveWidths (length x.now) boxes.now }
    requires none { HaveRoom pattern.now.places radii.old 0 }
    ensures raised { AreRaised pattern.now.places radii.old radii.new (loads_radius (number_at boxes.now) x.now loads.now) }
    ensures room { HaveRoom pattern.now.places radii.new (2 ^ 126) }
{
    for load in loads {
        add_load(pattern, radii, load, &radii_of(load, x, boxes));
    }
}

// The radii of the slopes of a part load in the box around the point x.
fn radii_of(load: &LoadAt, x: &[i128], boxes: &[u128]) -> Radii
    requires load { IsConnected (length x.now) load.now }
    requires parts { All IsPart x.now }
    requires boxes { HaveWidths (length x.now) boxes.now }
    ensures radii { result ≡ radii_in (number_at boxes.now) x.now load.now }
    ensures most { AreRadii result }
{
    let at = voltage_of(load, x);
    let re = real_width(load.first, boxes) + real_width(load.second, boxes);
    let im = imaginary_width(load.first, boxes) + imaginary_width(load.second, boxes);
    let magnitude = magnitude_width(load.magnitude, boxes);
    load_slope(&load.load, at.re, at.im, at.magnitude, re, im, magnitude).radius
}

// The half-width of the real part of a node's voltage.
fn real_width(node: NodeAt, boxes: &[u128]) -> u128
    requires place { IsPlace (length boxes.now) node }
    requires widths { HaveWidths (length boxes.now) boxes.now }
    ensures value { result ≡ re_width (number_at boxes.now) node }
    ensures small { result ≤ 2 ^ 40 }
{
    match node {
        NodeAt::Ground => 0,
        NodeAt::Node(k) => boxes[2 * k as usize],
    }
}

// The half-width of the imaginary part of a node's voltage.
fn imaginary_width(node: NodeAt, boxes: &[u128]) -> u128
    requires place { IsPlace (length boxes.now) node }
    requires widths { HaveWidths (length boxes.now) boxes.now }
    ensures value { result ≡ im_width (number_at boxes.now) node }
    ensures small { result ≤ 2 ^ 40 }
{
    match node {
        NodeAt::Ground => 0,
        NodeAt::Node(k) => boxes[2 * k as usize + 1],
    }
}

// The half-width of a magnitude, and 0 where there is none.
fn magnitude_width(place: Option<u32>, boxes: &[u128]) -> u128
    requires place { IfSome place (λ k. k < length boxes.now) }
    requires widths { HaveWidths (length boxes.now) boxes.now }
    ensures value { result ≡ width_of_magnitude (number_at boxes.now) place }
    ensures small { result ≤ 2 ^ 40 }
{
    match place {
        None => 0,
        Some(k) => boxes[k as usize],
    }
}

// Adds the radii of a part load; one of constant impedance has none.
fn add_load(pattern: &Pattern, radii: &mut [u128], load: &LoadAt, slopes: &Radii)
    requires long { length radii.old ≡ length pattern.now.places }
    requires load { IsConnected (2 ^ 11) load.now }
    requires slopes { AreRadii slopes.now }
    requires room { HaveRoom pattern.now.places radii.old (2 ^ 126) }
    ensures raised { AreRaised pattern.now.places radii.old radii.new (λ p. load_radius load.now slopes.now p.0 p.1) }
    ensures room { RaisesRoom pattern.now.places radii.old radii.new 25 }
{
    if !load.load.model.is_linear() {
        add_all_rows(pattern, radii, load, slopes);
    }
}

// Adds the radii of all rows of a part load.
fn add_all_rows(pattern: &Pattern, radii: &mut [u128], load: &LoadAt, slopes: &Radii)
    requires long { length radii.old ≡ length pattern.now.places }
    requires load { IsConnected (2 ^ 11) load.now }
    requires slopes { AreRadii slopes.now }
    requires room { HaveRoom pattern.now.places radii.old (2 ^ 126) }
    ensures raised { AreRaised pattern.now.places radii.old radii.new (λ p.
        spread p.0 load.now (radius_in p.1 load.now slopes.now.real) (radius_in p.1 load.now slopes.now.imaginary)
        (radius_in p.1 load.now slopes.now.magnitude)) }
    ensures room { RaisesRoom pattern.now.places radii.old radii.new 25 }
{
    let (real, imaginary) = (slopes.real, slopes.imaginary);
    add_node_rows(pattern, radii, load, load.first, real, imaginary);
    add_node_rows(pattern, radii, load, load.second, real, imaginary);
    add_magnitude_row(pattern, radii, load, slopes.magnitude);
}

// Adds the radii of the real and of the imaginary row of a node.
fn add_node_rows(
    pattern: &Pattern,
    radii: &mut [u128],
    load: &LoadAt,
    node: NodeAt,
    real: RadiusRow,
    imaginary: RadiusRow,
)
    requires long { length radii.old ≡ length pattern.now.places }
    requires load { IsConnected (2 ^ 11) load.now }
    requires place { IsPlace (2 ^ 11) node }
    requires real { IsRadiusRow real }
    requires imaginary { IsRadiusRow imaginary }
    requires room { HaveRoom pattern.now.places radii.old (2 ^ 126 + 10 * 2 ^ 100) }
    ensures raised { AreRaised pattern.now.places radii.old radii.new
        (λ p. spread_node p.0 node (radius_in p.1 load.now real) (radius_in p.1 load.now imaginary)) }
    ensures room { RaisesRoom pattern.now.places radii.old radii.new 10 }
{
    if let NodeAt::Node(k) = node {
        add_row(pattern, radii, 2 * k, load, real);
        add_row(pattern, radii, 2 * k + 1, load, imaginary);
    }
}

// Adds the radii of the row of a magnitude, if there is one.
fn add_magnitude_row(pattern: &Pattern, radii: &mut [u128], load: &LoadAt, slope: RadiusRow)
    requires long { length radii.old ≡ length pattern.now.places }
    requires load { IsConnected (2 ^ 11) load.now }
    requires slope { IsRadiusRow slope }
    requires room { HaveRoom pattern.now.places radii.old (2 ^ 126 + 20 * 2 ^ 100) }
    ensures raised { AreRaised pattern.now.places radii.old radii.new (λ p. spread_magnitude p.0 load.now.magnitude (radius_in p.1 load.now slope)) }
    ensures room { RaisesRoom pattern.now.places radii.old radii.new 5 }
{
    if let Some(place) = load.magnitude {
        add_row(pattern, radii, place, load, slope);
    }
}

// Adds the radii of a row.
fn add_row(pattern: &Pattern, radii: &mut [u128], row: u32, load: &LoadAt, slope: RadiusRow)
    requires long { length radii.old ≡ length pattern.now.places }
    requires load { IsConnected (2 ^ 11) load.now }
    requires slope { IsRadiusRow slope }
    requires room { HaveRoom pattern.now.places radii.old (2 ^ 126 + 20 * 2 ^ 100) }
    ensures raised { AreRaised pattern.now.places radii.old radii.new (λ p. cond (eqb row p.0) (radius_in p.1 load.now slope) 0) }
    ensures room { RaisesRoom pattern.now.places radii.old radii.new 5 }
{
    add_node(pattern, radii, row, load.first, slope.p, slope.q);
    add_node(pattern, radii, row, load.second, slope.p, slope.q);
    add_magnitude(pattern, radii, row, load.magnitude, slope.m);
}

// Adds re and im in the columns of a node; ground has none.
fn add_node(pattern: &Pattern, radii: &mut [u128], row: u32, node: NodeAt, re: u128, im: u128)
    requires long { length radii.old ≡ length pattern.now.places }
    requires place { IsPlace (2 ^ 11) node }
    requires re { re ≤ 2 ^ 100 }
    requires im { im ≤ 2 ^ 100 }
    requires room { HaveRoom pattern.now.places radii.old (2 ^ 126 + 24 * 2 ^ 100) }
    ensures raised { AreRaised pattern.now.places radii.old radii.new (λ p. cond (eqb row p.0) (spread_node p.1 node re im) 0) }
    ensures room { RaisesRoom pattern.now.places radii.old radii.new 2 }
{
    if let NodeAt::Node(k) = node {
        add_radius(pattern, radii, row, 2 * k, re);
        add_radius(pattern, radii, row, 2 * k + 1, im);
    }
}

// Adds a radius in the column of a magnitude, if there is one.
fn add_magnitude(
    pattern: &Pattern,
    radii: &mut [u128],
    row: u32,
    magnitude: Option<u32>,
    radius: u128,
)
    requires long { length radii.old ≡ length pattern.now.places }
    requires radius { radius ≤ 2 ^ 100 }
    requires room { HaveRoom pattern.now.places radii.old (2 ^ 126 + 24 * 2 ^ 100) }
    ensures raised { AreRaised pattern.now.places radii.old radii.new (λ p. cond (eqb row p.0) (spread_magnitude p.1 magnitude radius) 0) }
    ensures room { RaisesRoom pattern.now.places radii.old radii.new 1 }
{
    if let Some(place) = magnitude {
        add_radius(pattern, radii, row, place, radius);
    }
}

// Adds a radius in a row and a column.
fn add_radius(pattern: &Pattern, radii: &mut [u128], row: u32, col: u32, radius: u128)
    requires long { length radii.old ≡ length pattern.now.places }
    requires radius { radius ≤ 2 ^ 100 }
    requires room { HaveRoom pattern.now.places radii.old (2 ^ 126 + 25 * 2 ^ 100) }
    ensures raised { AreRaised pattern.now.places radii.old radii.new (λ p. cond (eqb row p.0 && eqb col p.1) radius 0) }
    ensures room { RaisesRoom pattern.now.places radii.old radii.new 1 }
{
    if let Some(k) = pattern.find(row, col) {
        radii[k] += radius;
    }
}
