// The mismatch of each row, the first loose one, and the first claimed one that doesn't hold.
ghost use Rattle.std.specs.Prelude.{◌≡◌, ℕ, ◌<◌, ◌≤◌, ◌^◌, IfOk, IfNone, IfSome, length, map, nat_lt};
ghost use Rattle.fd_enclosure.specs.fd_exact.First.{first_place};
ghost use Rattle.fd_enclosure.specs.fd_system.Residual.{greater_size};
ghost use Rattle.fd_enclosure.specs.fd_pattern.Conditions.{IsPoint};
ghost use Rattle.fd_enclosure.specs.Sound.{greatest_mismatch, mismatch_size, mismatches_of, number_at};
ghost use Rattle.fd_cert.specs.Rechecks.{is_untrue};

use fd_enclosure::{Interval, Micro, NetworkRows};
use std::alloc::{AllocError, Global};

// The greatest mismatch of a solution, in whole microamperes and microvolts.
const GREATEST_MISMATCH: u128 = 1_000;

// The mismatch of each row at the point x.
pub fn mismatches(alloc: Global, net: &NetworkRows, x: &[i128]) -> Result<Vec<u128>, AllocError>
    requires { IsPoint net.now x.now }
    ensures mismatches { IfOk result (λ m. m.items ≡ mismatches_of net.now x.now) }
    ensures long { IfOk result (λ m. length m.items ≡ net.now.size) }
{
    let residual = net.residual(alloc, x)?;
    sizes(alloc, &residual)
}

fn sizes(alloc: Global, residual: &[Interval<Micro>]) -> Result<Vec<u128>, AllocError>
    ensures { IfOk result (λ m. m.items ≡ map (λ a. mismatch_size (greater_size a)) residual.now) }
{
    residual.iter().map(|row| mismatch(row)).collect(alloc)
}

// The greater size of the ends of a row; one above the greatest mismatch where it has none.
fn mismatch(row: &Interval<Micro>) -> u128
    ensures { result ≡ mismatch_size (greater_size row.now) }
{
    match row.ends() {
        Some((low, high)) => low.unsigned_abs().max(high.unsigned_abs()),
        None => GREATEST_MISMATCH + 1,
    }
}

// The first row whose mismatch is above the greatest, if there is one.
pub fn first_loose(mismatch: &[u128]) -> Option<u32>
    requires { length mismatch.now ≤ 2 ^ 11 }
    ensures first { result ≡ first_place (λ l. nat_lt greatest_mismatch (number_at mismatch.now l)) (length mismatch.now) }
    ensures inside { IfSome result (λ row. row < length mismatch.now) }
    ensures tight { IfNone result ((l : ℕ) → l < length mismatch.now → number_at mismatch.now l ≤ greatest_mismatch) }
{
    for row in 0..mismatch.len() {
        if mismatch[row] > GREATEST_MISMATCH {
            return Some(row as u32);
        }
    }
    None
}

// Whether a claimed mismatch is below the row's own or above the greatest.
fn is_untrue(own: u128, claimed: u128) -> bool
    ensures { result ≡ is_untrue own claimed }
{
    claimed < own || claimed > GREATEST_MISMATCH
}

// The first row whose claimed mismatch is below its own or above the greatest, if there is one.
pub fn first_untrue(own: &[u128], claimed: &[u128]) -> Option<u32>
    requires few { length own.now ≤ 2 ^ 11 }
    requires long { length claimed.now ≡ length own.now }
    ensures { result ≡ first_place (λ l. is_untrue (number_at own.now l) (number_at claimed.now l)) (length own.now) }
{
    for row in 0..own.len() {
        if is_untrue(own[row], claimed[row]) {
            return Some(row as u32);
        }
    }
    None
}
