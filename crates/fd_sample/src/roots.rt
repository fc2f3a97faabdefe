// Where magnitudes, which are known by their squares, stand to edges.
ghost use Rattle.std.specs.Prelude.{◌≡◌, ◌*◌, ◌≤◌, ◌^◌, nat_abs};
ghost use Rattle.fd_regctl.specs.fd_queue.Quantities.{root_above, root_below};

/// Whether the magnitude of a square is below an edge. A magnitude is above every negative edge.
pub fn is_below(square: u128, edge: i128) -> bool
    requires { nat_abs edge ≤ 2 ^ 62 }
    ensures { result ≡ root_below square 1 edge }
{
    edge >= 0 && square < squared(edge)
}

/// Whether it is above an edge.
pub fn is_above(square: u128, edge: i128) -> bool
    requires { nat_abs edge ≤ 2 ^ 62 }
    ensures { result ≡ root_above square 1 edge }
{
    edge < 0 || squared(edge) < square
}

fn squared(edge: i128) -> u128
    requires { nat_abs edge ≤ 2 ^ 62 }
    ensures { result ≡ nat_abs edge * nat_abs edge }
{
    edge.unsigned_abs() * edge.unsigned_abs()
}
