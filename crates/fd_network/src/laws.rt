// What the definition of a circuit's network is.
ghost use Rattle.fd_network.specs.Laws.{NetworkLaw};

use fd_devices::device_law;

/// A law: the network of a circuit that passed the tests of Solve, at settings at which no element is to blame for being
/// out of range, is a network, and its rows are those of the elements' complex equations at every state. Does nothing.
pub fn network_law()
    ensures { NetworkLaw }
{
    device_law();
}
