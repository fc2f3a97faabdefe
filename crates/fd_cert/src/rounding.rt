// Quotients rounded up.
ghost use Rattle.std.specs.Prelude.{◌≡◌, ◌<◌, ◌≤◌, ◌^◌};
ghost use Rattle.fd_enclosure.specs.fd_exact.Rounding.{ceil_nat};

// n / d rounded up.
pub fn ceil_over(n: u128, d: u128) -> u128
    requires positive { 0 < d }
    requires number { n ≤ 2 ^ 126 }
    requires divisor { d ≤ 2 ^ 126 }
    ensures { result ≡ ceil_nat n d }
{
    (n + (d - 1)) / d
}
