// Products with coefficients, and whole roots.
ghost use Rattle.std.specs.Prelude.{◌≡◌, ◌+◌, ◌*◌, ◌≤◌, ◌^◌, pos, neg_ℤ, nat_abs};
ghost use Rattle.fd_rungs.specs.Numbers.{IsCoefficient, root_of, times};

// What a coefficient of 1 has in whole 2^-40, and the half of it.
const COEF_PER_ONE: u128 = 1_099_511_627_776;

const HALF: u128 = 549_755_813_888;

// The product of sizes; it may pass 128 bits before the division, so that goes in two steps.
fn size_of_product(f: u128, z: u128) -> u128
    requires f { f ≤ 2 ^ 100 }
    requires z { z ≤ 2 ^ 41 }
    ensures value { times (pos f) (pos z) ≡ pos result }
    ensures most { result ≤ 2 * f + 1 }
{
    f / COEF_PER_ONE * z + (f % COEF_PER_ONE * z + HALF) / COEF_PER_ONE
}

// The product with the size of a coefficient.
fn times_size(f: u128, z: i128) -> i128
    requires f { f ≤ 2 ^ 100 }
    requires z { nat_abs z ≤ 2 ^ 41 }
    ensures value { result ≡ times (pos f) z }
    ensures most { nat_abs result ≤ 2 * f + 1 }
{
    let size = size_of_product(f, z.unsigned_abs()) as i128;
    if z < 0 { -size } else { size }
}

/// A coefficient in whole 2^-40 times a number, to the nearest.
pub fn times(f: i128, z: i128) -> i128
    requires f { IsCoefficient f }
    requires z { nat_abs z ≤ 2 ^ 41 }
    ensures value { result ≡ times f z }
    ensures most { nat_abs result ≤ 2 * nat_abs f + 1 }
{
    let product = times_size(f.unsigned_abs(), z);
    if f < 0 { -product } else { product }
}

/// The opposite number.
pub fn opposite(z: i128) -> i128
    requires { nat_abs z ≤ 2 ^ 120 }
    ensures value { result ≡ neg_ℤ z }
    ensures size { nat_abs result ≡ nat_abs z }
{
    -z
}

/// The square of the size of a number.
pub fn square(z: i128) -> u128
    requires { nat_abs z ≤ 2 ^ 41 }
    ensures value { result ≡ nat_abs z * nat_abs z }
    ensures most { result ≤ 2 ^ 82 }
{
    square_of_size(z.unsigned_abs())
}

fn square_of_size(n: u128) -> u128
    requires { n ≤ 2 ^ 41 }
    ensures value { result ≡ n * n }
    ensures most { result ≤ 2 ^ 82 }
{
    n * n
}

/// The square root, rounded down.
pub fn root(n: u128) -> u128
    ensures value { result ≡ root_of n }
    ensures most { result ≤ n }
{
    n.isqrt()
}
