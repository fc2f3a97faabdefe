// Totals of products of natural numbers, up to 2^120.
ghost use Rattle.std.specs.Prelude.{◌≡◌, ℕ, ◌+◌, ◌*◌, ◌<◌, ◌≤◌, ◌^◌, nat_abs, IfSome};
ghost use Rattle.fd_cert.specs.Totals.{IsTotal};

// The greatest total, 2^120.
const LIMIT: u128 = 0x100_0000_0000_0000_0000_0000_0000_0000;

// What stands for each total above that.
pub const PAST: u128 = LIMIT + 1;

// The greatest short weight, 2^40: 2^11 of its products with numbers of 64 bits are at most 2^115.
const SHORT_WEIGHT: u128 = 0x100_0000_0000;

// The least and the greatest number of 64 bits with a sign.
const LEAST: i128 = -0x8000_0000_0000_0000;

const GREATEST: i128 = 0x7fff_ffff_ffff_ffff;

// The greatest number of 64 bits.
const HALF: u128 = 0xffff_ffff_ffff_ffff;

// A total, if it is at most 2^120.
pub fn up_to_limit(total: u128) -> Option<u128>
    ensures { IsTotal total result }
{
    if total <= LIMIT { Some(total) } else { None }
}

// The total with a product more.
pub fn plus_product(total: u128, factor: u128, number: u128) -> Option<u128>
    requires total { total ≤ 2 ^ 127 }
    ensures { IsTotal (total + factor * number) result }
{
    match factor.checked_mul(number) {
        Some(product) if product <= LIMIT => up_to_limit(total + product),
        _ => None,
    }
}

// The product of two numbers of 64 bits: one multiplication.
fn short_product(left: u64, right: u64) -> u128
    ensures { result ≡ left * right }
{
    left as u128 * right as u128
}

// The same as `plus_product` for the size of an entry of an inverse, in one multiplication where the number has 64
// bits.
pub fn plus_entry(total: u128, entry: i64, number: u128) -> Option<u128>
    requires total { total ≤ 2 ^ 120 }
    requires entry { nat_abs entry ≤ 2 ^ 56 }
    ensures { IsTotal (total + nat_abs entry * number) result }
{
    let size = entry.unsigned_abs();
    if number <= HALF {
        up_to_limit(total + short_product(size, number as u64))
    } else {
        plus_product(total, size as u128, number)
    }
}

// A weight in 64 bits, if it is at most 2^40.
pub fn short_weight(weight: i128) -> Option<u64>
    ensures same { IfSome result (λ short. short ≡ nat_abs weight) }
    ensures small { IfSome result (λ short. short ≤ 2 ^ 40) }
{
    let size = weight.unsigned_abs();
    if size <= SHORT_WEIGHT {
        Some(size as u64)
    } else {
        None
    }
}

// The size of a number of 64 bits with its sign, if it is one.
pub fn short_size(number: i128) -> Option<u64>
    ensures { IfSome result (λ size. size ≡ nat_abs number) }
{
    if number >= LEAST && number <= GREATEST {
        Some((number as i64).unsigned_abs())
    } else {
        None
    }
}

// The total with the product of a short weight and a number of 64 bits more.
pub fn plus_short(total: u128, short: u64, number: u64) -> u128
    requires total { total ≤ 2 ^ 127 }
    requires short { short ≤ 2 ^ 40 }
    ensures sum { result ≡ total + short * number }
    ensures small { (k : ℕ) → total ≤ k * 2 ^ 104 → result ≤ (k + 1) * 2 ^ 104 }
{
    total + short_product(short, number)
}

// The total with the product of the size of an entry of an inverse and a number below 2^60 more: one multiplication.
pub fn plus_low(total: u128, entry: i64, low: u64) -> u128
    requires total { total ≤ 2 ^ 127 }
    requires entry { nat_abs entry ≤ 2 ^ 56 }
    requires low { low < 2 ^ 60 }
    ensures sum { result ≡ total + nat_abs entry * low }
    ensures small { (k : ℕ) → total ≤ k * 2 ^ 116 → result ≤ (k + 1) * 2 ^ 116 }
{
    total + short_product(entry.unsigned_abs(), low)
}
