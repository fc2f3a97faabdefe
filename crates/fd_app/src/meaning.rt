// What it means of a certificate that `check` accepts it.
ghost use Rattle.fd_app.specs.Meaning.{MeaningLaw};

use fd_checking::{
    checked_law, enclosure_law, hours_law, kept_law, limits_law, modest_law, next_law,
    said_room_law, sound_at_law,
};

/// A law: where the history of `check` ends without a fault, the bytes held under the certificate's name have a block for
/// each round of the script's Solves. Each block's state meets the complex equations of the circuit of its round within
/// the claimed mismatches, at most 1,000; every state in its trust box that does so is within the claimed radii, with
/// the sizes of its voltages and currents from low to high; and the acts are those of the queue machine over any such
/// states, through all hours of all Solves. Nothing is asked of whoever made the certificate. Does nothing.
pub fn accepted_law()
    ensures { MeaningLaw }
{
    checked_law();
    limits_law();
    said_room_law();
    enclosure_law();
    sound_at_law();
    kept_law();
    modest_law();
    hours_law();
    next_law();
}
