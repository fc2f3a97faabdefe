// The numbers of a claim by derived rows.
ghost use Rattle.std.specs.Prelude.{◌≡◌, ℕ, ◌*◌, ◌<◌, ◌≤◌, ◌^◌, nat_abs, nat_lt, length};
ghost use Rattle.fd_cert.specs.fd_enclosure.Sound.{number_at};
ghost use Rattle.fd_cert.specs.fd_enclosure.fd_exact.First.{first_place};
ghost use Rattle.fd_bounds.specs.fd_derived.Rows.{derived_row, entries_of};
ghost use Rattle.fd_rowcert.specs.Rechecks.{has_large as entries_have_large, has_size as claim_has_size, is_box as parts_are_box, is_far as is_far_out, is_far_at, is_high_at, is_large as row_is_large, is_large_at, is_narrow, refused_by};

use crate::broken::BrokenRow;
use fd_bounds::{Claim, Entry, Refusal, Row};

// The greatest size of a centre and of a radius, in whole micro-units.
const CENTRE_LIMIT: u128 = 0x100_0000_0000;

// The greatest size of a multiple and of an entry, in units of 2^-40.
const ENTRY_LIMIT: u64 = 0x4000_0000_0000_0000;

// What a height is below, in units of 2^-60.
const HEIGHT_END: u128 = 0x80_0000_0000_0000_0000_0000;

// The greatest bound, in units of 2^-20.
const BOUND_LIMIT: u128 = 0x1000_0000_0000_0000;

// One whole unit in units of 2^-20.
const FINE: u128 = 0x10_0000;

// Whether each list is as long as the unknowns, and there are as many heights as rows.
pub fn has_size(
    size: u32,
    centre: &[i128],
    radius: &[u128],
    mismatch: &[u128],
    claim: &Claim,
) -> bool
    ensures { result ≡ claim_has_size size centre.now radius.now mismatch.now claim.now }
{
    let size = size as usize;
    centre.len() == size
        && radius.len() == size
        && mismatch.len() == size
        && claim.heights.len() == claim.rows.len()
        && claim.bounding.len() == size
        && claim.bounds.len() == size
}

// Whether a claim may have the box of this part of the weights.
pub fn is_box(parts: u32) -> bool
    ensures { result ≡ parts_are_box parts }
{
    parts == 200 || parts == 2_000 || parts == 20_000
}

// Whether a centre or its radius is out of range.
fn is_far(centre: i128, radius: u128) -> bool
    ensures { result ≡ is_far_out centre radius }
{
    centre.unsigned_abs() > CENTRE_LIMIT || radius > CENTRE_LIMIT
}

// The first unknown whose centre or radius is out of range.
pub fn first_far(centre: &[i128], radius: &[u128]) -> Option<usize>
    requires { length radius.now ≡ length centre.now }
    ensures { result ≡ first_place (is_far_at centre.now radius.now) (length centre.now) }
{
    for place in 0..centre.len() {
        if is_far(centre[place], radius[place]) {
            return Some(place);
        }
    }
    None
}

// Whether the number of an entry is out of range.
fn is_large_entry(entry: &Entry) -> bool
    ensures { result ≡ nat_lt (2 ^ 62) (nat_abs entry.now.units) }
{
    entry.units.unsigned_abs() > ENTRY_LIMIT
}

// Whether a number of these entries is out of range.
fn has_large(entries: &[Entry]) -> bool
    ensures { result ≡ entries_have_large (entries_of entries.now) }
{
    for entry in entries {
        if is_large_entry(entry) {
            return true;
        }
    }
    false
}

// Whether a height, or a number of its row, is out of range.
fn is_large(height: u128, row: &Row) -> bool
    ensures { result ≡ row_is_large height (derived_row row.now) }
{
    height >= HEIGHT_END
        || has_large(&row.equations)
        || has_large(&row.others)
        || has_large(&row.left)
}

// The first row of which a number is out of range.
pub fn first_large(claim: &Claim) -> Option<usize>
    requires { length claim.now.heights.items ≡ length claim.now.rows.items }
    ensures { result ≡ first_place (is_large_at claim.now) (length claim.now.rows.items) }
{
    for row in 0..claim.rows.len() {
        if is_large(claim.heights[row], &claim.rows[row]) {
            return Some(row);
        }
    }
    None
}

// Whether a bound is out of range.
fn is_high(bound: u128) -> bool
    ensures { result ≡ nat_lt (2 ^ 60) bound }
{
    bound > BOUND_LIMIT
}

// The first unknown whose bound is out of range.
pub fn first_high(bounds: &[u128]) -> Option<usize>
    ensures { result ≡ first_place (is_high_at bounds.now) (length bounds.now) }
{
    for unknown in 0..bounds.len() {
        if is_high(bounds[unknown]) {
            return Some(unknown);
        }
    }
    None
}

// Whether a radius is below its bound.
fn is_below(radius: u128, bound: u128) -> bool
    requires { radius ≤ 2 ^ 40 }
    ensures { result ≡ nat_lt (2 ^ 20 * radius) bound }
{
    FINE * radius < bound
}

// The first unknown whose radius is below its bound.
pub fn first_narrow(bounds: &[u128], radius: &[u128]) -> Option<usize>
    requires long { length radius.now ≡ length bounds.now }
    requires small { (j : ℕ) → j < length bounds.now → number_at radius.now j ≤ 2 ^ 40 }
    ensures { result ≡ first_place (is_narrow bounds.now radius.now) (length bounds.now) }
{
    for unknown in 0..bounds.len() {
        if is_below(radius[unknown], bounds[unknown]) {
            return Some(unknown);
        }
    }
    None
}

// The rule that the checker of rows finds broken.
pub fn refused(refusal: Refusal) -> BrokenRow
    ensures { result ≡ refused_by refusal }
{
    match refusal {
        Refusal::Size => BrokenRow::Size,
        Refusal::Place(row) | Refusal::Range(row) | Refusal::Height(row) => BrokenRow::Row(row),
        Refusal::BoundRange(unknown) | Refusal::Bound(unknown) => BrokenRow::Bound(unknown),
    }
}
