// Bounds raised, and compared with new ones.
ghost use Rattle.std.specs.Prelude.{◌≡◌, ℕ, ◌+◌, ◌/◌, ◌<◌, ◌≤◌, ◌^◌, nat_lt, length, IfOk};
ghost use Rattle.fd_substitution.specs.fd_derived.Rows.{number_at};
ghost use Rattle.fd_substitution.specs.fd_derived.fd_factors.fd_exact.First.{first_place};
ghost use Rattle.fd_bounds.specs.Passes.{raised as raised_by};

use std::alloc::{AllocError, Global};

// By what part a bound is raised, 2^20.
const PART: u128 = 0x10_0000;

// A bound raised by a part in 2^20, and by one.
fn raise(bound: u128) -> u128
    requires { bound ≤ 2 ^ 60 }
    ensures { result ≡ bound + bound / 2 ^ 20 + 1 }
{
    bound + bound / PART + 1
}

// Each bound raised by a part in 2^20, and by one.
pub fn raised(alloc: Global, bounds: &[u128]) -> Result<Vec<u128>, AllocError>
    requires { (j : ℕ) → j < length bounds.now → number_at bounds.now j ≤ 2 ^ 60 }
    ensures long { IfOk result (λ list. length list.items ≡ length bounds.now) }
    ensures each { IfOk result (λ list. (j : ℕ) → number_at list.items j ≡ raised_by (length bounds.now) (number_at bounds.now) j) }
{
    let mut list = Vec::with_capacity(alloc, bounds.len())?;
    for place in 0..bounds.len() {
        list.push(raise(bounds[place]))?;
    }
    Ok(list)
}

// The first unknown whose bound is above the raised one.
pub fn first_risen(bounds: &[u128], raised: &[u128]) -> Option<usize>
    requires { length bounds.now ≡ length raised.now }
    ensures { result ≡ first_place (λ j. nat_lt (number_at raised.now j) (number_at bounds.now j)) (length bounds.now) }
{
    for unknown in 0..bounds.len() {
        if bounds[unknown] > raised[unknown] {
            return Some(unknown);
        }
    }
    None
}
