// A law of the settles and sweeps of `ladder`.
ghost use Rattle.fd_sweeping.specs.SweptLaw.{SweptLaw};

use fd_solving::{
    agreement_law, hours_law, limits_law, modest_law, network_law, next_law, said_room_law,
    solution_law, widening_law,
};

/// A law: every settle of `ladder` is solved, and its sweep stands behind it where it ended well; where that says that it
/// agrees, the sweep's state meets the equations within the greater mismatches of both states, lies in the printed box,
/// and is at every place within the radius that these mismatches give of the printed state. Does nothing.
pub fn swept_law()
    ensures { SweptLaw }
{
    limits_law();
    said_room_law();
    solution_law();
    network_law();
    hours_law();
    modest_law();
    next_law();
    widening_law();
    agreement_law();
}
