// The parts of a state, read and made.
ghost use Rattle.std.specs.Prelude.{◌≡◌, ◌≤◌, ◌<◌, ◌*◌, ◌+◌, ◌^◌, ◌-ℤ◌, ℕ, nat_abs, length, set, MatchResult, OnOk, Ok, Err};
ghost use Rattle.fd_pattern.specs.fd_load.fd_exact.States.{part};
ghost use Rattle.fd_pattern.specs.fd_system.Contributions.{IsSmall};
ghost use Rattle.fd_rungs.specs.Numbers.{SizedBy};
ghost use Rattle.fd_rungs.specs.Passes.{im_across, im_at, re_across, re_at, with_both, with_node, with_part};

use fd_pattern::NodeAt;
use fd_xfmr::NodePair;

// 2^40, the most that a part may be in size.
const PART_LIMIT: u128 = 1_099_511_627_776;

/// What stands at a place, and 0 outside.
pub fn part(x: &[i128], place: usize) -> i128
    ensures value { result ≡ part x.now place }
    ensures small { (n : ℕ) → SizedBy n x.now → nat_abs result ≤ n }
{
    match x.get(place) {
        Some(z) => *z,
        None => 0,
    }
}

/// Writes a number at a place, if it is inside.
pub fn put(x: &mut [i128], place: usize, z: i128)
    ensures { x.new ≡ set x.old place z }
{
    if place < x.len() {
        x[place] = z;
    }
}

/// The real part at a node, 0 at ground.
pub fn re_at(x: &[i128], node: NodeAt) -> i128
    ensures value { result ≡ re_at x.now node }
    ensures small { (n : ℕ) → SizedBy n x.now → nat_abs result ≤ n }
{
    match node {
        NodeAt::Ground => 0,
        NodeAt::Node(k) => part(x, 2 * k as usize),
    }
}

/// The imaginary part at a node, 0 at ground.
pub fn im_at(x: &[i128], node: NodeAt) -> i128
    ensures value { result ≡ im_at x.now node }
    ensures small { (n : ℕ) → SizedBy n x.now → nat_abs result ≤ n }
{
    match node {
        NodeAt::Ground => 0,
        NodeAt::Node(k) => part(x, 2 * k as usize + 1),
    }
}

/// The real part across a terminal.
pub fn re_across(x: &[i128], pair: &NodePair) -> i128
    requires { SizedBy (2 ^ 40) x.now }
    ensures value { result ≡ re_across x.now pair.now }
    ensures small { nat_abs result ≤ 2 ^ 41 }
{
    re_at(x, pair.first) - re_at(x, pair.second)
}

/// The imaginary part across a terminal.
pub fn im_across(x: &[i128], pair: &NodePair) -> i128
    requires { SizedBy (2 ^ 40) x.now }
    ensures value { result ≡ im_across x.now pair.now }
    ensures small { nat_abs result ≤ 2 ^ 41 }
{
    im_at(x, pair.first) - im_at(x, pair.second)
}

/// A part is made. The error is its place where it is past 2^40 in size.
pub fn make_part(x: &mut [i128], place: u32, z: i128) -> Result<(), u32>
    requires { SizedBy (2 ^ 40) x.old }
    ensures made { MatchResult result (λ _. with_part place z x.old ≡ Ok x.new) (λ p. with_part place z x.old ≡ Err p) }
    ensures part { OnOk result (nat_abs z ≤ 2 ^ 40) }
    ensures small { SizedBy (2 ^ 40) x.new }
    ensures long { length x.new ≡ length x.old }
{
    if z.unsigned_abs() > PART_LIMIT {
        return Err(place);
    }
    put(x, place as usize, z);
    Ok(())
}

/// Both parts of a complex unknown are made, the real part first.
pub fn make_both(x: &mut [i128], k: u32, re: i128, im: i128) -> Result<(), u32>
    requires k { k < 2 ^ 31 }
    requires x { SizedBy (2 ^ 40) x.old }
    ensures made { MatchResult result (λ _. with_both k re im x.old ≡ Ok x.new) (λ p. with_both k re im x.old ≡ Err p) }
    ensures re { OnOk result (nat_abs re ≤ 2 ^ 40) }
    ensures im { OnOk result (nat_abs im ≤ 2 ^ 40) }
    ensures small { SizedBy (2 ^ 40) x.new }
    ensures long { length x.new ≡ length x.old }
{
    make_part(x, 2 * k, re)?;
    make_part(x, 2 * k + 1, im)
}

/// The parts of a node are made; ground has none.
pub fn make_node(x: &mut [i128], node: NodeAt, re: i128, im: i128) -> Result<(), u32>
    requires node { IsSmall node }
    requires x { SizedBy (2 ^ 40) x.old }
    ensures made { MatchResult result (λ _. with_node node re im x.old ≡ Ok x.new) (λ p. with_node node re im x.old ≡ Err p) }
    ensures small { SizedBy (2 ^ 40) x.new }
    ensures long { length x.new ≡ length x.old }
{
    match node {
        NodeAt::Ground => Ok(()),
        NodeAt::Node(k) => make_both(x, k, re, im),
    }
}
