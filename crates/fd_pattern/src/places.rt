// The places of row and column at which contributions and slopes of part loads stand.
ghost use Rattle.std.specs.Prelude.{◌≡◌, ◌<◌, ◌^◌, ◌*◌, ◌+◌, ◌++◌, IfOk, OnOk, map, All};
ghost use Rattle.std.specs.List.{flat_map};
ghost use Rattle.fd_load.specs.fd_system.Contributions.{IsSmall};
ghost use Rattle.fd_pattern.specs.PatternPlaces.{cross, load_places, magnitude_places, node_places, place_of, places_of as all_places, terminal_places};
ghost use Rattle.fd_pattern.specs.Terminals.{IsConnected};

use fd_load::{LoadAt, NodeAt, Term};
use std::alloc::{AllocError, Global};

/// The places of these contributions, and of the slopes of these part loads.
///
/// # Errors
/// `AllocError` where the memory is refused.
pub fn places_of(
    alloc: Global,
    terms: &[Term],
    loads: &[LoadAt],
) -> Result<Vec<(u32, u32)>, AllocError>
    requires { All (IsConnected (2 ^ 11)) loads.now }
    ensures { IfOk result (λ places. places.items ≡ all_places terms.now loads.now) }
{
    let mut places = Vec::new(alloc);
    add_term_places(&mut places, terms)?;
    add_load_places(alloc, &mut places, loads)?;
    Ok(places)
}

/// Adds the places of contributions.
///
/// # Errors
/// `AllocError` where the memory is refused.
pub fn add_term_places(places: &mut Vec<(u32, u32)>, terms: &[Term]) -> Result<(), AllocError>
    ensures { OnOk result (places.new.items ≡ places.old.items ++ map place_of terms.now) }
{
    for term in terms {
        places.push((term.row, term.col))?;
    }
    Ok(())
}

/// Adds the places of the slopes of part loads.
///
/// # Errors
/// `AllocError` where the memory is refused.
pub fn add_load_places(
    alloc: Global,
    places: &mut Vec<(u32, u32)>,
    loads: &[LoadAt],
) -> Result<(), AllocError>
    requires first { All (λ u. IsSmall u.first) loads.now }
    requires second { All (λ u. IsSmall u.second) loads.now }
    ensures { OnOk result (places.new.items ≡ places.old.items ++ flat_map load_places loads.now) }
{
    for load in loads {
        add_load(alloc, places, load)?;
    }
    Ok(())
}

// Adds the places of the slopes of a part load.
fn add_load(alloc: Global, places: &mut Vec<(u32, u32)>, load: &LoadAt) -> Result<(), AllocError>
    requires first { IsSmall load.now.first }
    requires second { IsSmall load.now.second }
    ensures { OnOk result (places.new.items ≡ places.old.items ++ load_places load.now) }
{
    let unknowns = unknowns(alloc, load)?;
    add_cross(places, &unknowns, &unknowns)
}

// The unknowns of a part load's terminal.
fn unknowns(alloc: Global, load: &LoadAt) -> Result<Vec<u32>, AllocError>
    requires first { IsSmall load.now.first }
    requires second { IsSmall load.now.second }
    ensures { IfOk result (λ at. at.items ≡ terminal_places load.now) }
{
    let mut at = Vec::new(alloc);
    add_node_places(&mut at, load.first)?;
    add_node_places(&mut at, load.second)?;
    add_magnitude(&mut at, load.magnitude)?;
    Ok(at)
}

/// Adds the real unknowns of a node. Ground has none.
///
/// # Errors
/// `AllocError` where the memory is refused.
pub fn add_node_places(at: &mut Vec<u32>, node: NodeAt) -> Result<(), AllocError>
    requires { IsSmall node }
    ensures { OnOk result (at.new.items ≡ at.old.items ++ node_places node) }
{
    if let NodeAt::Node(k) = node {
        at.push(2 * k)?;
        at.push(2 * k + 1)?;
    }
    Ok(())
}

fn add_magnitude(at: &mut Vec<u32>, magnitude: Option<u32>) -> Result<(), AllocError>
    ensures { OnOk result (at.new.items ≡ at.old.items ++ magnitude_places magnitude) }
{
    if let Some(place) = magnitude {
        at.push(place)?;
    }
    Ok(())
}

/// Adds each of these rows in each of these columns.
///
/// # Errors
/// `AllocError` where the memory is refused.
pub fn add_cross(places: &mut Vec<(u32, u32)>, rows: &[u32], cols: &[u32]) -> Result<(), AllocError>
    ensures { OnOk result (places.new.items ≡ places.old.items ++ cross rows.now cols.now) }
{
    for row in rows {
        add_row(places, *row, cols)?;
    }
    Ok(())
}

fn add_row(places: &mut Vec<(u32, u32)>, row: u32, cols: &[u32]) -> Result<(), AllocError>
    ensures { OnOk result (places.new.items ≡ places.old.items ++ map (λ col. (row, col)) cols.now) }
{
    for col in cols {
        places.push((row, *col))?;
    }
    Ok(())
}
