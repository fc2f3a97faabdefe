// Bytes that are cut at one of them.
ghost use Rattle.std.specs.Prelude.{◌≡◌, ◌++◌, ◌∷◌, IfNone, IfSome};
ghost use Rattle.fd_lines.specs.Cuts.{Lacks};

use memchr::memchr;

/// What stands before the first such byte, and what behind it.
#[inline]
pub fn cut(bytes: &[u8], at: u8) -> Option<(&[u8], &[u8])>
    ensures none { IfNone result (Lacks at bytes.now) }
    ensures before { IfSome result (λ p. Lacks at p.0.now) }
    ensures whole { IfSome result (λ p. bytes.now ≡ p.0.now ++ at ∷ p.1.now) }
{
    match memchr(at, bytes) {
        Some(place) => Some((&bytes[..place], &bytes[place + 1..])),
        None => None,
    }
}
