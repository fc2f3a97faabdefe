// Sums at places, of which few are touched.
ghost use Rattle.std.specs.Prelude.{◌≡◌, ℕ, ◌+◌, ◌*◌, ◌<◌, ◌≤◌, ◌^◌, ℤ, pos, ◌+ℤ◌, ◌*ℤ◌, nat_abs, [], ◌∷◌, length, IfOk};
ghost use Rattle.fd_factors.specs.fd_exact.States.{part};
ghost use Rattle.fd_derived.specs.Rows.{entries_of, number_at};
ghost use Rattle.fd_derived.specs.Sums.{AreInside, AreZero, HasRoom, IsAdded, IsSupported, capped, size_of, spread};

use crate::entries::Entry;
use crate::totals::plus_product;
use std::alloc::AllocError;

// The sum with a product more.
fn plus(sum: i128, factor: i128, units: i64) -> i128
    requires { nat_abs sum + nat_abs factor * nat_abs units ≤ 2 ^ 120 }
    ensures { result ≡ sum +ℤ factor *ℤ units }
{
    sum + factor * units as i128
}

// Adds a multiple of a number to the sum at a place, and notes the place. At a place that has no sum it counts for
// nothing.
fn add_at(
    sums: &mut [i128],
    touched: &mut Vec<usize>,
    place: usize,
    units: i64,
    factor: i128,
) -> Result<(), AllocError>
    requires room { HasRoom sums.old (nat_abs factor * nat_abs units) }
    requires supported { IsSupported sums.old touched.old.items }
    requires inside { AreInside touched.old.items (length sums.old) }
    ensures added { IfOk result (λ _. IsAdded sums.old sums.new ((place, units) ∷ []) factor) }
    ensures supported { IfOk result (λ _. IsSupported sums.new touched.new.items) }
    ensures inside { IfOk result (λ _. AreInside touched.new.items (length sums.new)) }
{
    if place >= sums.len() {
        return Ok(());
    }
    let sum = plus(sums[place], factor, units);
    sums[place] = sum;
    touched.push(place)?;
    Ok(())
}

// Adds a multiple of a row to the sums, and notes the places. An entry at a place that has no sum counts for nothing.
pub fn add(
    sums: &mut [i128],
    touched: &mut Vec<usize>,
    row: &[Entry],
    factor: i128,
) -> Result<(), AllocError>
    requires room { HasRoom sums.old (nat_abs factor * size_of (entries_of row.now)) }
    requires supported { IsSupported sums.old touched.old.items }
    requires inside { AreInside touched.old.items (length sums.old) }
    ensures added { IfOk result (λ _. IsAdded sums.old sums.new (entries_of row.now) factor) }
    ensures supported { IfOk result (λ _. IsSupported sums.new touched.new.items) }
    ensures inside { IfOk result (λ _. AreInside touched.new.items (length sums.new)) }
{
    for entry in row {
        add_at(sums, touched, entry.place, entry.units, factor)?;
    }
    Ok(())
}

// The total with the sizes of the sums more, each times the bound at its place. Leaves zeros.
pub fn drain(sums: &mut [i128], touched: &[usize], bounds: &[u128], total: u128) -> u128
    requires long { length bounds.now ≡ length sums.old }
    requires supported { IsSupported sums.old touched.now }
    requires inside { AreInside touched.now (length sums.old) }
    ensures long { length sums.new ≡ length sums.old }
    ensures total { result ≡ capped (total + spread sums.old bounds.now (length sums.old)) }
    ensures zero { AreZero sums.new }
{
    let mut whole = total;
    for place in touched {
        whole = plus_product(whole, sums[*place].unsigned_abs(), bounds[*place]);
        sums[*place] = 0;
    }
    whole
}
