// Pairs by the levels of far buses.
ghost use Rattle.std.specs.Prelude.{◌≡◌, ℕ, ◌+◌, ◌++◌, ◌<◌, ◌≤◌, ◌^◌, [], Option, length, min, IfOk, OnOk};
ghost use Rattle.std.specs.List.{flat_map};
ghost use Rattle.fd_levels.specs.Levels.{level_in};
ghost use Rattle.fd_levels.specs.Order.{both_parts, current_pairs, down_from, level_pairs, voltage_pairs};
ghost use Rattle.fd_levels.specs.Grouping.{AreGroupsOf, Adds};

use crate::feed::Feed;
use fd_triangles::Pair;
use std::alloc::{AllocError, Global};

/// The pairs of the feeds whose far buses have one level.
#[derive(Drop)]
pub struct Group {
    /// Currents with the current laws of far nodes.
    pub currents: Vec<Pair>,
    /// Voltages of far nodes with the voltage equations of phases.
    pub voltages: Vec<Pair>,
}

// The real part of a complex unknown with that of a complex equation, then the imaginary one.
fn push_both(pairs: &mut Vec<Pair>, unknown: usize, equation: usize) -> Result<(), AllocError>
    requires unknown { unknown < 2 ^ 62 }
    requires equation { equation < 2 ^ 62 }
    ensures { OnOk result (pairs.new.items ≡ pairs.old.items ++ both_parts unknown equation) }
{
    pairs.push(Pair {
        unknown: 2 * unknown,
        equation: 2 * equation,
    })?;
    pairs.push(Pair {
        unknown: 2 * unknown + 1,
        equation: 2 * equation + 1,
    })?;
    Ok(())
}

// How many phases have a far node.
fn phases_of(feed: &Feed) -> usize
    ensures value { result ≡ min feed.now.phases (length feed.now.nodes) }
    ensures small { result < 2 ^ 32 }
{
    (feed.phases as usize).min(feed.nodes.as_slice().len())
}

fn push_currents(pairs: &mut Vec<Pair>, feed: &Feed) -> Result<(), AllocError>
    ensures { OnOk result (pairs.new.items ≡ pairs.old.items ++ current_pairs feed.now) }
{
    let nodes = feed.nodes.as_slice();
    for place in 0..phases_of(feed) {
        push_both(pairs, feed.branch as usize + place, nodes[place] as usize)?;
    }
    Ok(())
}

fn push_voltages(pairs: &mut Vec<Pair>, feed: &Feed) -> Result<(), AllocError>
    ensures { OnOk result (pairs.new.items ≡ pairs.old.items ++ voltage_pairs feed.now) }
{
    let nodes = feed.nodes.as_slice();
    for place in 0..phases_of(feed) {
        push_both(pairs, nodes[place] as usize, feed.branch as usize + place)?;
    }
    Ok(())
}

fn no_groups(alloc: Global, count: usize) -> Result<Vec<Group>, AllocError>
    ensures long { IfOk result (λ groups. length groups.items ≡ count) }
    ensures none { (level : ℕ → Option ℕ) → IfOk result (λ groups. AreGroupsOf level [] groups.items) }
{
    let mut groups = Vec::with_capacity(alloc, count)?;
    for _level in 0..count {
        groups.push(Group {
            currents: Vec::new(alloc),
            voltages: Vec::new(alloc),
        })?;
    }
    Ok(groups)
}

fn level_at(levels: &[Option<usize>], bus: usize) -> Option<usize>
    ensures { result ≡ level_in levels.now bus }
{
    match levels.get(bus) {
        Some(level) => *level,
        None => None,
    }
}

// The pairs of a feed join a group.
fn join(group: &mut Group, feed: &Feed) -> Result<(), AllocError>
    ensures currents { OnOk result (group.new.currents.items ≡ group.old.currents.items ++ current_pairs feed.now) }
    ensures voltages { OnOk result (group.new.voltages.items ≡ group.old.voltages.items ++ voltage_pairs feed.now) }
{
    push_currents(&mut group.currents, feed)?;
    push_voltages(&mut group.voltages, feed)
}

// The pairs of a feed join those of the level of its far bus.
fn add(groups: &mut [Group], levels: &[Option<usize>], feed: &Feed) -> Result<(), AllocError>
    ensures { OnOk result (Adds (level_in levels.now) groups.old groups.new feed.now) }
{
    let Some(level) = level_at(levels, feed.far) else {
        return Ok(());
    };
    if level >= groups.len() {
        return Ok(());
    }
    join(&mut groups[level], feed)?;
    Ok(())
}

// All currents of a group, then all voltages.
fn push_group(pairs: &mut Vec<Pair>, group: &Group) -> Result<(), AllocError>
    ensures { OnOk result (pairs.new.items ≡ pairs.old.items ++ (group.now.currents.items ++ group.now.voltages.items)) }
{
    pairs.extend_from_slice(&group.currents)?;
    pairs.extend_from_slice(&group.voltages)?;
    Ok(())
}

// The pairs of feeds by the levels of their far buses, of which there are so many.
fn groups_in(
    alloc: Global,
    count: usize,
    levels: &[Option<usize>],
    feeds: &[Feed],
) -> Result<Vec<Group>, AllocError>
    ensures long { IfOk result (λ groups. length groups.items ≡ count) }
    ensures groups { IfOk result (λ groups. AreGroupsOf (level_in levels.now) feeds.now groups.items) }
{
    let mut groups = no_groups(alloc, count)?;
    for feed in feeds {
        add(&mut groups, levels, feed)?;
    }
    Ok(groups)
}

/// Adds the pairs of feeds by the levels of their far buses, from the deepest of so many levels to level 0: of each
/// level all currents, then all voltages.
pub fn push_levels(
    alloc: Global,
    pairs: &mut Vec<Pair>,
    count: usize,
    levels: &[Option<usize>],
    feeds: &[Feed],
) -> Result<(), AllocError>
    ensures { OnOk result (pairs.new.items ≡ pairs.old.items ++ flat_map (level_pairs (level_in levels.now) feeds.now) (down_from count)) }
{
    let groups = groups_in(alloc, count, levels, feeds)?;
    let mut level = count;
    while level > 0 {
        level -= 1;
        push_group(pairs, &groups[level])?;
    }
    Ok(())
}
