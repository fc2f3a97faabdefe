// Totals of natural numbers, which stay at the greatest number of 128 bits where they would pass it.
ghost use Rattle.std.specs.Prelude.{◌≡◌, ◌+◌, ◌*◌};
ghost use Rattle.fd_factors.specs.Factors.{weighted_size};
ghost use Rattle.fd_derived.specs.Rows.{entries_of, number_at as number_in};
ghost use Rattle.fd_derived.specs.Sums.{capped, size_of};

use crate::entries::Entry;

/// The total with a product more.
pub fn plus_product(total: u128, factor: u128, number: u128) -> u128
    ensures { result ≡ capped (total + factor * number) }
{
    total.saturating_add(factor.saturating_mul(number))
}

/// The number at a place of a list, 0 outside it.
#[tactic(auto, using(std::proofs::lemmas::List::get_or_past))]
pub fn number_at(numbers: &[u128], place: usize) -> u128
    ensures { result ≡ number_in numbers.now place }
{
    if place < numbers.len() {
        numbers[place]
    } else {
        0
    }
}

// The sizes of a row's entries.
pub fn size_of(row: &[Entry]) -> u128
    ensures { result ≡ capped (size_of (entries_of row.now)) }
{
    let mut size = 0u128;
    for entry in row {
        size = size.saturating_add(entry.units.unsigned_abs() as u128);
    }
    size
}

/// The total with the sizes of a row's entries more, each times the number of its place. A place without a number counts
/// for nothing.
pub fn plus_weighted(total: u128, row: &[Entry], numbers: &[u128]) -> u128
    ensures { result ≡ capped (total + weighted_size (entries_of row.now) (number_in numbers.now)) }
{
    let mut whole = total;
    for entry in row {
        let size = entry.units.unsigned_abs() as u128;
        whole = plus_product(whole, size, number_at(numbers, entry.place));
    }
    whole
}
