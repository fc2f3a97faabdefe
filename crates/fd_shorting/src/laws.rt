// A law of the settles of short circuits.
ghost use Rattle.fd_shorting.specs.StudiedLaw.{StudiedLaw};

use fd_solving::{limits_law, said_room_law, solution_law};

/// A law: every settle of a short circuit is a study: it is solved, and every state of its circuit, of whatever size, that
/// meets the equations within the printed mismatches is within the printed radii. Does nothing.
pub fn studied_law()
    ensures { StudiedLaw }
{
    limits_law();
    said_room_law();
    solution_law();
}
