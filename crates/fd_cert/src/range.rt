// The range of a claim's numbers, and its size.
ghost use Rattle.std.specs.Prelude.{◌≡◌, ◌≤◌, ◌^◌, length};
ghost use Rattle.fd_enclosure.specs.fd_exact.First.{first_place};
ghost use Rattle.fd_cert.specs.Rechecks.{has_size, has_wide_entry, is_out_of_range, is_past_range};

use crate::reach::RADIUS_LIMIT;
use fd_enclosure::{Dense, NetworkRows};

// The greatest size of a centre, in whole micro-units, and of an entry of an inverse, in units of 2^-40.
const CENTRE_LIMIT: u128 = 0x100_0000_0000;

const ENTRY_LIMIT: u128 = 0x100_0000_0000_0000;

// Whether each list has the network's size.
pub fn has_size(
    net: &NetworkRows,
    centre: &[i128],
    radius: &[u128],
    mismatch: &[u128],
    inverse: &Dense,
) -> bool
    ensures { result ≡ has_size net.now.size centre.now radius.now mismatch.now inverse.now }
{
    let size = net.size() as usize;
    centre.len() == size
        && radius.len() == size
        && mismatch.len() == size
        && inverse.size() as usize == size
}

// Whether an entry is too wide.
fn has_wide_entry(row: &[i64]) -> bool
    ensures { result ≡ has_wide_entry (length row.now) row.now }
{
    for col in 0..row.len() {
        if row[col].unsigned_abs() as u128 > ENTRY_LIMIT {
            return true;
        }
    }
    false
}

// Whether a centre, its radius or an entry of its row is out of range.
fn is_past_range(centre: i128, radius: u128, row: &[i64]) -> bool
    ensures { result ≡ is_past_range (length row.now) centre radius row.now }
{
    centre.unsigned_abs() > CENTRE_LIMIT || radius > RADIUS_LIMIT || has_wide_entry(row)
}

// The first unknown whose numbers are out of range, if there is one.
pub fn first_out_of_range(centre: &[i128], radius: &[u128], inverse: &Dense) -> Option<u32>
    requires few { length centre.now ≤ 2 ^ 11 }
    requires radii { length radius.now ≡ length centre.now }
    requires inverse { length inverse.now ≡ length centre.now }
    ensures { result ≡ first_place (is_out_of_range (length centre.now) centre.now radius.now inverse.now) (length centre.now) }
{
    for place in 0..centre.len() {
        if is_past_range(centre[place], radius[place], inverse.row(place as u32)) {
            return Some(place as u32);
        }
    }
    None
}
