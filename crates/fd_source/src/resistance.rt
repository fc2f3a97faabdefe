// The greatest resistance that keeps an impedance within a size.
ghost use Rattle.std.specs.Prelude.{◌+◌, ◌-◌, ◌*◌, ◌<◌, ◌≤◌, ◌^◌, IsTrue, ◌↔◌};
ghost use Rattle.fd_source.specs.Powers.{KeepsSize, IsBracket, IsGreatest, IsInside};

/// An impedance r + j x, a ratio of reactance to resistance in 10^-4, and a size that the impedance and a further resistance with
/// its reactance are to keep; the parts and the size in whole 10^-9 ohm.
#[derive(Clone, Copy)]
pub struct SizeLimit {
    pub r: u128,
    pub x: u128,
    pub ratio: u128,
    pub size: u128,
}

/// The greatest resistance beside an impedance that keeps the size, or 0 where none does, in whole 10^-9 ohm.
pub fn greatest_resistance(limit: &SizeLimit) -> u128
    requires r { limit.now.r ≤ 10 ^ 14 }
    requires x { limit.now.x ≤ 10 ^ 16 }
    requires ratio { limit.now.ratio ≤ 10 ^ 6 }
    requires size { limit.now.size ≤ 10 ^ 14 }
    ensures greatest { IsGreatest (KeepsSize limit.now.r limit.now.x limit.now.ratio limit.now.size) result }
    ensures most { result ≤ limit.now.size }
    ensures reactance { limit.now.ratio * result ≤ 10 ^ 4 * limit.now.size }
{
    let (mut low, mut high) = (0, limit.size);
    while low < high {
        (low, high) = narrowed(limit, low, high);
    }
    low
}

// One half of the resistances from low to high: the one in which the greatest lies.
fn narrowed(limit: &SizeLimit, low: u128, high: u128) -> (u128, u128)
    requires r { limit.now.r ≤ 10 ^ 14 }
    requires x { limit.now.x ≤ 10 ^ 16 }
    requires ratio { limit.now.ratio ≤ 10 ^ 6 }
    requires size { limit.now.size ≤ 10 ^ 14 }
    requires bracket { IsBracket limit.now.r limit.now.x limit.now.ratio limit.now.size low high }
    requires more { low < high }
    ensures bracket { IsBracket limit.now.r limit.now.x limit.now.ratio limit.now.size result.0 result.1 }
    ensures smaller { result.1 - result.0 < high - low }
{
    let middle = high - (high - low) / 2;
    if keeps_size(limit, middle) {
        (middle, high)
    } else {
        (low, middle - 1)
    }
}

// Whether a resistance keeps the size.
fn keeps_size(limit: &SizeLimit, s: u128) -> bool
    requires r { limit.now.r ≤ 10 ^ 14 }
    requires x { limit.now.x ≤ 10 ^ 16 }
    requires ratio { limit.now.ratio ≤ 10 ^ 6 }
    requires size { limit.now.size ≤ 10 ^ 14 }
    requires s { s ≤ 10 ^ 14 }
    ensures { IsTrue result ↔ KeepsSize limit.now.r limit.now.x limit.now.ratio limit.now.size s }
{
    is_inside(
        10_000 * (limit.r + s),
        10_000 * limit.x + limit.ratio * s,
        10_000 * limit.size,
    )
}

// Whether r + j x is at most a size.
fn is_inside(r: u128, x: u128, size: u128) -> bool
    requires { size ≤ 10 ^ 18 }
    ensures { IsTrue result ↔ IsInside r x size }
{
    if r > size {
        return false;
    }
    if x > size {
        return false;
    }
    r * r + x * x <= size * size
}
