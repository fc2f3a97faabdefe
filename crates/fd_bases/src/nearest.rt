// Which voltage base is nearest to a nominal voltage.
ghost use Rattle.std.specs.Prelude.{◌≡◌, ◌⊎◌, ◌∷◌, All, pos};
ghost use Rattle.dss_layout.specs.fd_exact.Ranges.{IsBetween};
ghost use Rattle.dss_layout.specs.dss_model.Ranges.{ones};
ghost use Rattle.fd_bases.specs.declared.nominal.Nominal.TheVariants.{Whole, OverRootThree};
ghost use Rattle.fd_bases.specs.Nearest.{distance, IsBefore, nearest};

use crate::nominal::Nominal;
use dss_layout::{FEMTO_PER_ONE, ROOT_THREE};

fn distance_to_whole(kv: i64, base: i128) -> u128
    requires { IsBetween (pos 1_000_000) (ones 1000) base }
    ensures { result ≡ distance (Whole kv) base }
{
    (base * FEMTO_PER_ONE - i128::from(kv) * ROOT_THREE as i128).unsigned_abs()
}

fn distance_to_part(kv: i64, base: i128) -> u128
    requires { IsBetween (pos 1_000_000) (ones 1000) base }
    ensures { result ≡ distance (OverRootThree kv) base }
{
    (base - i128::from(kv)).unsigned_abs() * FEMTO_PER_ONE.unsigned_abs()
}

// How far a base over root three is from a nominal voltage, in whole 10^-24 kV over root three.
fn distance(nominal: Nominal, base: i128) -> u128
    requires { IsBetween (pos 1_000_000) (ones 1000) base }
    ensures { result ≡ distance nominal base }
{
    match nominal {
        Nominal::Whole(kv) => distance_to_whole(kv, base),
        Nominal::OverRootThree(kv) => distance_to_part(kv, base),
    }
}

// Of two bases the nearer, the smaller where both are as near.
fn nearer(nominal: Nominal, base: i128, other: i128) -> i128
    requires base_in_range { IsBetween (pos 1_000_000) (ones 1000) base }
    requires other_in_range { IsBetween (pos 1_000_000) (ones 1000) other }
    ensures one_of_them { (result ≡ base) ⊎ (result ≡ other) }
    ensures before_base { IsBefore nominal result base }
    ensures before_other { IsBefore nominal result other }
{
    let here = distance(nominal, base);
    let there = distance(nominal, other);
    if here < there || (here == there && base < other) {
        base
    } else {
        other
    }
}

/// The base that is nearest to a nominal voltage, the least of several that are. Bases are in whole 10^-9 kV.
pub fn nearest(nominal: Nominal, first: i128, others: &[i128]) -> i128
    requires first_in_range { IsBetween (pos 1_000_000) (ones 1000) first }
    requires others_in_range { All (IsBetween (pos 1_000_000) (ones 1000)) others.now }
    ensures { result ≡ nearest nominal (first ∷ others.now) }
{
    let mut best = first;
    for base in others {
        best = nearer(nominal, *base, best);
    }
    best
}
