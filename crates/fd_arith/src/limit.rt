// The limit on whole numbers of units.
ghost use Rattle.std.specs.Prelude.{◌↔◌, IsTrue};
ghost use Rattle.fd_arith.specs.Limits.{Fits};

/// 2^120: no number, no end and no bounded whole number passes it in size.
pub const LIMIT: i128 = 0x100_0000_0000_0000_0000_0000_0000_0000;

/// Whether a number is at most 2^120 in size.
#[inline]
pub fn fits(n: i128) -> bool
    ensures { IsTrue result ↔ Fits n }
{
    -LIMIT <= n && n <= LIMIT
}
