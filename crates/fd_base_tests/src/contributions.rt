// Where elements stand, and the numbers of what they add to a network.
ghost use Rattle.std.specs.Prelude.{◌≡◌, IfOk};

use fd_inverse::{Ends, NodeAt, NodesAt, Term};
use std::alloc::{AllocError, Global};

/// A whole unit, where numbers count billionths of it.
pub const GIGA: i128 = 1_000_000_000;

/// The first nodes of a network.
pub const THREE: [NodeAt; 3] = [NodeAt::Node(0), NodeAt::Node(1), NodeAt::Node(2)];

/// The ends of an element at these nodes of each side, with its first branch.
pub fn ends(
    alloc: Global,
    first: &[NodeAt],
    second: &[NodeAt],
    branch: u32,
) -> Result<Ends, AllocError>
    ensures first { IfOk result (λ e. e.first ≡ first.now) }
    ensures second { IfOk result (λ e. e.second ≡ second.now) }
    ensures branch { IfOk result (λ e. e.branch ≡ branch) }
{
    Ok(Ends {
        first: NodesAt::new(Vec::from_slice(alloc, first)?),
        second: NodesAt::new(Vec::from_slice(alloc, second)?),
        branch,
    })
}

/// The row, the column and the numerator of a contribution.
pub(crate) fn numbers(term: &Term) -> (u32, u32, i128) {
    (term.row, term.col, term.num)
}
