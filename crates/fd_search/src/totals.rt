// Sums of mismatches, exact whatever their size.
ghost use Rattle.std.specs.Prelude.{◌≡◌, ◌+◌, ◌*◌, ◌<◌, ◌^◌, nat_lt};
ghost use Rattle.fd_inject.specs.fd_equations.fd_exact.Sums.{list_n};

// 2^64.
const HALF: u128 = 0x1_0000_0000_0000_0000;

// A sum of naturals: so many times 2^64, and less than that.
#[derive(Drop)]
struct Sum {
    high: u128,
    low: u128,
}

// The sum of mismatches.
fn total(mismatches: &[u128]) -> Sum
    ensures sum { result.high * 2 ^ 64 + result.low ≡ list_n (λ n. n) mismatches.now }
    ensures low { result.low < 2 ^ 64 }
{
    let mut high = 0;
    let mut low = 0;
    for mismatch in mismatches {
        high += *mismatch / HALF;
        low += *mismatch % HALF;
    }
    Sum {
        high: high + low / HALF,
        low: low % HALF,
    }
}

/// Whether the sum of mismatches has become less.
pub fn falls(old: &[u128], new: &[u128]) -> bool
    ensures { result ≡ nat_lt (list_n (λ n. n) new.now) (list_n (λ n. n) old.now) }
{
    let before = total(old);
    let after = total(new);
    after.high < before.high || after.high == before.high && after.low < before.low
}
