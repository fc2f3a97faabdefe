// The levels of buses.
ghost use Rattle.std.specs.Prelude.{◌≡◌, ℕ, ◌<◌, ◌^◌, [], false, length, nat_eq, slice_get, IfOk, OnOk};
ghost use Rattle.std.specs.List.{list_any};
ghost use Rattle.fd_levels.specs.Levels.{level_by, level_in, level_of, starts};
ghost use Rattle.fd_levels.specs.Marking.{AreBehind, NotesBehind, buses_behind, marked, marked_all, marked_behind, marking};

use crate::feed::Feed;
use std::alloc::{AllocError, Global};

// A bus gets a level where it has none.
fn mark(
    levels: &mut [Option<usize>],
    found: &mut Vec<usize>,
    bus: usize,
    level: usize,
) -> Result<(), AllocError>
    ensures { OnOk result (marked level bus (marking levels.old found.old.items) ≡ marking levels.new found.new.items) }
{
    if let Some(None) = levels.get(bus) {
        levels[bus] = Some(level);
        found.push(bus)?;
    }
    Ok(())
}

fn mark_all(
    levels: &mut [Option<usize>],
    found: &mut Vec<usize>,
    buses: &[usize],
    level: usize,
) -> Result<(), AllocError>
    ensures { OnOk result (marked_all level buses.now (marking levels.old found.old.items) ≡ marking levels.new found.new.items) }
{
    for bus in buses {
        mark(levels, found, *bus, level)?;
    }
    Ok(())
}

// The far buses of feeds from a bus.
fn buses_behind(behind: &[Vec<usize>], bus: usize) -> &[usize]
    ensures { result.now ≡ buses_behind (slice_get behind.now bus) }
{
    match behind.get(bus) {
        Some(buses) => buses.as_slice(),
        None => &[],
    }
}

// The buses behind those of a front get a level where they have none; the answer is these.
fn mark_behind(
    alloc: Global,
    levels: &mut [Option<usize>],
    behind: &[Vec<usize>],
    front: &[usize],
    level: usize,
) -> Result<Vec<usize>, AllocError>
    ensures { IfOk result (λ found. marked_behind level behind.now front.now (marking levels.old []) ≡ marking levels.new found.items) }
{
    let mut found = Vec::new(alloc);
    for bus in front {
        mark_all(levels, &mut found, buses_behind(behind, *bus), level)?;
    }
    Ok(found)
}

// So many empty lists.
fn no_buses(alloc: Global, count: usize) -> Result<Vec<Vec<usize>>, AllocError>
    ensures long { IfOk result (λ lists. length lists.items ≡ count) }
    ensures none { IfOk result (λ lists. (near far : ℕ) → list_any (nat_eq far) (buses_behind (slice_get lists.items near)) ≡ false) }
{
    let mut lists = Vec::with_capacity(alloc, count)?;
    for _place in 0..count {
        lists.push(Vec::new(alloc))?;
    }
    Ok(lists)
}

// The far bus of a feed is noted behind its near bus.
fn note(behind: &mut [Vec<usize>], feed: &Feed) -> Result<(), AllocError>
    ensures { OnOk result (NotesBehind behind.old behind.new feed.now) }
{
    if feed.near < behind.len() {
        behind[feed.near].push(feed.far)?;
    }
    Ok(())
}

// For each bus the far buses of the feeds from it.
fn behind_in(alloc: Global, count: usize, feeds: &[Feed]) -> Result<Vec<Vec<usize>>, AllocError>
    ensures { IfOk result (λ behind. AreBehind count feeds.now behind.items) }
{
    let mut behind = no_buses(alloc, count)?;
    for feed in feeds {
        note(&mut behind, feed)?;
    }
    Ok(behind)
}

// Ground and the bus of the source have level 0.
fn mark_starts(
    alloc: Global,
    levels: &mut [Option<usize>],
    count: usize,
    feeds: &[Feed],
) -> Result<Vec<usize>, AllocError>
    ensures { IfOk result (λ found. marked_all 0 (starts count feeds.now) (marking levels.old []) ≡ marking levels.new found.items) }
{
    let mut found = Vec::new(alloc);
    mark(levels, &mut found, count, 0)?;
    if let Some(source) = feeds.first() {
        mark(levels, &mut found, source.far, 0)?;
    }
    Ok(found)
}

/// The levels of so many buses, and of ground behind them.
pub fn levels_in(
    alloc: Global,
    count: usize,
    feeds: &[Feed],
) -> Result<Vec<Option<usize>>, AllocError>
    requires { count < 2 ^ 63 }
    ensures { IfOk result (λ levels. (bus : ℕ) → level_in levels.items bus ≡ level_of count feeds.now bus) }
{
    let behind = behind_in(alloc, count + 1, feeds)?;
    let mut levels = Vec::from_elem(alloc, None, count + 1)?;
    let mut front = mark_starts(alloc, &mut levels, count, feeds)?;
    for round in 0..count {
        front = mark_behind(alloc, &mut levels, &behind, &front, round + 1)?;
    }
    Ok(levels)
}
