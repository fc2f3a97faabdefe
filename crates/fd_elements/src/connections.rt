// The connection of a script as that of the physics.
ghost use Rattle.std.specs.Prelude.{◌≡◌};
ghost use Rattle.fd_elements.specs.Connections.{conn_of as conn_by};

use dss_model::{Conn, Connection};

/// The connection of the phases of a load, a bank or a winding.
pub fn conn_of(connection: Connection) -> Conn
    ensures { result ≡ conn_by connection }
{
    match connection {
        Connection::Wye => Conn::Wye,
        Connection::Delta => Conn::Delta,
    }
}
