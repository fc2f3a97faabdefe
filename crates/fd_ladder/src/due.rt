// The sections that may be taken, by their places in order of definition.
ghost use Rattle.std.specs.Prelude.{ℕ, ◌≡◌, ◌||◌, ◌≤◌, ◌<◌, false, true, OnOk, IfOk, IfSome, IfNone, nat_lt};
ghost use Rattle.fd_ladder.specs.Due.{is_due, is_noted, IsFirstFrom, NoneFrom};

use crate::touching::Touching;
use dss_layout::NodeName;
use std::alloc::{AllocError, Global};
use std::collections::BTreeSet;

/// The places of the sections that are due.
pub type Due = BTreeSet<usize>;

/// All places below a count.
pub fn all_due(alloc: Global, count: usize) -> Result<Due, AllocError>
    ensures { IfOk result (λ due. (place : ℕ) → is_due due place ≡ nat_lt place count) }
{
    let mut due = BTreeSet::new(alloc);
    for place in 0..count {
        due.insert(place)?;
    }
    Ok(due)
}

/// The first place from this one on that is due.
pub fn next_due(due: &Due, from: usize) -> Option<usize>
    ensures first { IfSome result (IsFirstFrom due.now from) }
    ensures none { IfNone result (NoneFrom due.now from) }
{
    due.range(from..).next().copied()
}

/// The sections that join a node are due too.
pub fn wake(due: &mut Due, touching: &Touching, node: &NodeName) -> Result<(), AllocError>
    ensures { OnOk result ((place : ℕ) → is_due due.new place ≡ (is_due due.old place || is_noted touching.now.entries node.now place)) }
{
    let Some(places) = touching.get(node) else {
        return Ok(());
    };
    for place in places {
        due.insert(*place)?;
    }
    Ok(())
}
