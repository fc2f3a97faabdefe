// What part loads add at the places of a pattern: their slopes in units of 2^-40, and how many there are.
ghost use Rattle.std.specs.Prelude.{◌≡◌, ◌+◌, ◌*◌, ◌<◌, ◌≤◌, ◌^◌, ◌&&◌, pos, cond, eqb, nat_abs, length, All};
ghost use Rattle.fd_pattern.specs.fd_system.Residual.{IsPlace};
ghost use Rattle.fd_equations.specs.Amounts.{AreGrown, HaveSlopeRoom, amount, more, of_load, of_loads};
ghost use Rattle.fd_pattern.specs.Conditions.{IsPart};
ghost use Rattle.fd_equations.specs.PartLoads.{no_slopes as no_slopes_of, slope_in, slopes_there, start_slopes as slopes_at_start};
ghost use Rattle.fd_equations.specs.Slopes.{AreSlopes, IsSlope};
ghost use Rattle.fd_pattern.specs.Terminals.{IsConnected, at_magnitude, at_node, at_terminal, count_magnitude, count_node, count_terminal};

use crate::cells::Cell;
use crate::load_slopes::{negated, no_slopes, slopes, start_slopes};
use fd_pattern::{LoadAt, NodeAt, Pattern, SlopeRow, Slopes};

/// Counts the slopes of part loads; no sum changes.
pub fn count_slopes(pattern: &Pattern, cells: &mut [Cell], loads: &[LoadAt])
    requires long { length cells.old ≡ length pattern.now.places }
    requires loads { All (IsConnected (2 ^ 11)) loads.now }
    requires few { length loads.now < 2 ^ 21 }
    requires room { HaveSlopeRoom pattern.now.places cells.old (2 ^ 78) 0 }
    ensures grown { AreGrown pattern.now.places cells.old cells.new (of_loads (λ u. no_slopes_of) loads.now) }
    ensures room { HaveSlopeRoom pattern.now.places cells.new (2 ^ 100) (2 ^ 27) }
{
    for load in loads {
        add_load(pattern, cells, load, &no_slopes());
    }
}

/// Adds the slopes of part loads at the start.
pub fn add_start_slopes(pattern: &Pattern, cells: &mut [Cell], loads: &[LoadAt])
    requires long { length cells.old ≡ length pattern.now.places }
    requires loads { All (IsConnected (2 ^ 11)) loads.now }
    requires few { length loads.now < 2 ^ 21 }
    requires room { HaveSlopeRoom pattern.now.places cells.old (2 ^ 78) 0 }
    ensures grown { AreGrown pattern.now.places cells.old cells.new (of_loads (λ u. slopes_at_start u.load) loads.now) }
    ensures room { HaveSlopeRoom pattern.now.places cells.new (2 ^ 100) (2 ^ 27) }
{
    for load in loads {
        add_load(pattern, cells, load, &start_slopes(&load.load));
    }
}

/// Adds the slopes of part loads at the point x.
pub fn add_slopes(pattern: &Pattern, cells: &mut [Cell], loads: &[LoadAt], x: &[i128])
    requires long { length cells.old ≡ length pattern.now.places }
    requires size { length x.now ≤ 2 ^ 11 }
    requires loads { All (IsConnected (length x.now)) loads.now }
    requires few { length loads.now < 2 ^ 21 }
    requires parts { All IsPart x.now }
    requires room { HaveSlopeRoom pattern.now.places cells.old (2 ^ 78) 0 }
    ensures grown { AreGrown pattern.now.places cells.old cells.new (of_loads (slopes_there x.now) loads.now) }
    ensures room { HaveSlopeRoom pattern.now.places cells.new (2 ^ 100) (2 ^ 27) }
{
    for load in loads {
        add_load(pattern, cells, load, &slopes(load, x));
    }
}

// Adds a part load with these slopes.
fn add_load(pattern: &Pattern, cells: &mut [Cell], load: &LoadAt, slopes: &Slopes)
    requires long { length cells.old ≡ length pattern.now.places }
    requires load { IsConnected (2 ^ 11) load.now }
    requires slopes { AreSlopes slopes.now }
    requires room { HaveSlopeRoom pattern.now.places cells.old (2 ^ 120) (2 ^ 27) }
    ensures { AreGrown pattern.now.places cells.old cells.new (of_load load.now slopes.now) }
{
    if !load.load.model.is_linear() {
        add_all_rows(pattern, cells, load, slopes);
    }
}

// Adds the slopes of all rows of a part load.
fn add_all_rows(pattern: &Pattern, cells: &mut [Cell], load: &LoadAt, slopes: &Slopes)
    requires long { length cells.old ≡ length pattern.now.places }
    requires load { IsConnected (2 ^ 11) load.now }
    requires slopes { AreSlopes slopes.now }
    requires room { HaveSlopeRoom pattern.now.places cells.old (2 ^ 120) (2 ^ 27) }
    ensures { AreGrown pattern.now.places cells.old cells.new (λ p.
        amount (at_terminal p.0 load.now (slope_in p.1 load.now slopes.now.real)
        (slope_in p.1 load.now slopes.now.imaginary) (slope_in p.1 load.now slopes.now.magnitude))
        0 (count_terminal p.0 load.now * count_terminal p.1 load.now)) }
{
    let (real, imaginary) = (slopes.real, slopes.imaginary);
    add_node_rows(pattern, cells, load, load.first, real, imaginary);
    add_node_rows(
        pattern,
        cells,
        load,
        load.second,
        negated(real),
        negated(imaginary),
    );
    add_magnitude_row(pattern, cells, load, slopes.magnitude);
}

// Adds the slopes of the real and of the imaginary row of a node.
fn add_node_rows(
    pattern: &Pattern,
    cells: &mut [Cell],
    load: &LoadAt,
    node: NodeAt,
    real: SlopeRow,
    imaginary: SlopeRow,
)
    requires long { length cells.old ≡ length pattern.now.places }
    requires load { IsConnected (2 ^ 11) load.now }
    requires place { IsPlace (2 ^ 11) node }
    requires real { IsSlope real }
    requires imaginary { IsSlope imaginary }
    requires room { HaveSlopeRoom pattern.now.places cells.old (2 ^ 121) (2 ^ 28) }
    ensures { AreGrown pattern.now.places cells.old cells.new (λ p.
        amount (at_node p.0 node (slope_in p.1 load.now real) (slope_in p.1 load.now imaginary)) 0
        (count_node p.0 node * count_terminal p.1 load.now)) }
{
    if let NodeAt::Node(k) = node {
        add_row(pattern, cells, 2 * k, load, real);
        add_row(pattern, cells, 2 * k + 1, load, imaginary);
    }
}

// Adds the slopes of the row of a magnitude, if there is one.
fn add_magnitude_row(pattern: &Pattern, cells: &mut [Cell], load: &LoadAt, slope: SlopeRow)
    requires long { length cells.old ≡ length pattern.now.places }
    requires load { IsConnected (2 ^ 11) load.now }
    requires slope { IsSlope slope }
    requires room { HaveSlopeRoom pattern.now.places cells.old (2 ^ 122) (2 ^ 29) }
    ensures { AreGrown pattern.now.places cells.old cells.new (λ p.
        amount (at_magnitude p.0 load.now.magnitude (slope_in p.1 load.now slope)) 0
        (count_magnitude p.0 load.now.magnitude * count_terminal p.1 load.now)) }
{
    if let Some(place) = load.magnitude {
        add_row(pattern, cells, place, load, slope);
    }
}

// Adds the slopes of a row.
fn add_row(pattern: &Pattern, cells: &mut [Cell], row: u32, load: &LoadAt, slope: SlopeRow)
    requires long { length cells.old ≡ length pattern.now.places }
    requires load { IsConnected (2 ^ 11) load.now }
    requires slope { IsSlope slope }
    requires room { HaveSlopeRoom pattern.now.places cells.old (2 ^ 122) (2 ^ 29) }
    ensures { AreGrown pattern.now.places cells.old cells.new (λ p.
        amount (cond (eqb row p.0) (slope_in p.1 load.now slope) (pos 0)) 0
        (cond (eqb row p.0) (count_terminal p.1 load.now) 0)) }
{
    add_node(pattern, cells, row, load.first, slope.p, slope.q);
    add_node(pattern, cells, row, load.second, -slope.p, -slope.q);
    add_magnitude(pattern, cells, row, load.magnitude, slope.m);
}

// Adds re and im in the columns of a node.
fn add_node(pattern: &Pattern, cells: &mut [Cell], row: u32, node: NodeAt, re: i128, im: i128)
    requires long { length cells.old ≡ length pattern.now.places }
    requires place { IsPlace (2 ^ 11) node }
    requires re { nat_abs re ≤ 2 ^ 73 }
    requires im { nat_abs im ≤ 2 ^ 73 }
    requires room { HaveSlopeRoom pattern.now.places cells.old (2 ^ 123) (2 ^ 30) }
    ensures { AreGrown pattern.now.places cells.old cells.new (λ p.
        amount (cond (eqb row p.0) (at_node p.1 node re im) (pos 0)) 0 (cond (eqb row p.0) (count_node p.1 node) 0)) }
{
    if let NodeAt::Node(k) = node {
        add_slope(pattern, cells, row, 2 * k, re);
        add_slope(pattern, cells, row, 2 * k + 1, im);
    }
}

// Adds a slope in the column of a magnitude, if there is one.
fn add_magnitude(
    pattern: &Pattern,
    cells: &mut [Cell],
    row: u32,
    magnitude: Option<u32>,
    units: i128,
)
    requires long { length cells.old ≡ length pattern.now.places }
    requires units { nat_abs units ≤ 2 ^ 73 }
    requires room { HaveSlopeRoom pattern.now.places cells.old (2 ^ 124) (2 ^ 31) }
    ensures { AreGrown pattern.now.places cells.old cells.new (λ p.
        amount (cond (eqb row p.0) (at_magnitude p.1 magnitude units) (pos 0)) 0
        (cond (eqb row p.0) (count_magnitude p.1 magnitude) 0)) }
{
    if let Some(place) = magnitude {
        add_slope(pattern, cells, row, place, units);
    }
}

// Adds a slope in a row and a column.
fn add_slope(pattern: &Pattern, cells: &mut [Cell], row: u32, col: u32, units: i128)
    requires long { length cells.old ≡ length pattern.now.places }
    requires units { nat_abs units ≤ 2 ^ 73 }
    requires room { HaveSlopeRoom pattern.now.places cells.old (2 ^ 124) (2 ^ 31) }
    ensures { AreGrown pattern.now.places cells.old cells.new
        (λ p. amount (cond (eqb row p.0 && eqb col p.1) units (pos 0)) 0 (cond (eqb row p.0 && eqb col p.1) 1 0)) }
{
    if let Some(k) = pattern.find(row, col) {
        cells[k] = with_slope(cells[k], units);
    }
}

fn with_slope(cell: Cell, units: i128) -> Cell
    requires units { nat_abs units ≤ 2 ^ 73 }
    requires sum { nat_abs cell.units ≤ 2 ^ 124 }
    requires slopes { cell.slopes ≤ 2 ^ 31 }
    ensures { result ≡ more cell (amount units 0 1) }
{
    Cell {
        col: cell.col,
        count: cell.count,
        slopes: cell.slopes + 1,
        units: cell.units + units,
    }
}
