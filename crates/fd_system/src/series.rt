// The series impedance between the phases of an element.
ghost use Rattle.std.specs.Prelude.{◌≡◌, ◌++◌, ◌+◌, ◌*◌, ◌<◌, ◌≤◌, ◌^◌, ℤ, pos, neg_ℤ, ◌≤ℤ◌, ◌+ℤ◌, ◌*ℤ◌, nat_abs, length, vec_capacity};
ghost use Rattle.fd_arith.specs.fd_exact.Ranges.{UpTo};
ghost use Rattle.fd_system.specs.Series.{drop_terms, three_times};

use crate::stamps::add_complex;
use fd_arith::{NodeAt, Term};

/// Impedances are in whole numbers of this part of an ohm.
const PICO_PER_OHM: i128 = 1_000_000_000_000;

/// Three times the entry in row k and column m of the matrix with the sequence values z1 and z0 (at most 10^16), in their unit:
/// 2 z1 + z0 on the diagonal, z0 - z1 beside it (Kersting, sequence impedances of a line).
pub fn thirds(z1: i128, z0: i128, k: u32, m: u32) -> i128
    requires z1 { UpTo (10 ^ 16) z1 }
    requires z0 { UpTo (10 ^ 16) z0 }
    ensures value { result ≡ three_times z1 z0 k m }
    ensures least { neg_ℤ z1 ≤ℤ result }
    ensures most { result ≤ℤ (pos 2 *ℤ z1 +ℤ z0) }
{
    if k == m { 2 * z1 + z0 } else { z0 - z1 }
}

/// Adds what the current of phase m takes from the voltage of phase k, by the entry r + j x of the impedance in whole 10^-12 ohm: at
/// most four contributions in the row of the branch of phase k. Takes no memory.
pub fn add_drop(terms: &mut Vec<Term>, branch: u32, k: u32, m: u32, r: i128, x: i128)
    requires branch { branch < 2 ^ 30 }
    requires k_in { k < 3 }
    requires m_in { m < 3 }
    requires r { nat_abs r ≤ 10 ^ 30 }
    requires x { nat_abs x ≤ 10 ^ 30 }
    requires room { length terms.old.items + 4 ≤ vec_capacity terms.old }
    ensures items { terms.new.items ≡ terms.old.items ++ drop_terms branch k m r x }
    ensures capacity { vec_capacity terms.new ≡ vec_capacity terms.old }
    ensures few { length terms.new.items ≤ length terms.old.items + 4 }
{
    let (row, col) = (NodeAt::Node(branch + k), NodeAt::Node(branch + m));
    add_complex(terms, row, col, -r, -x, PICO_PER_OHM);
}
