// The terminal of a part load: its voltage at a point, and numbers at its places of a row.
ghost use Rattle.std.specs.Prelude.{◌≡◌, ℕ, ◌<◌, ◌≤◌, ◌^◌, pos, ◌+ℤ◌, cond, eqb, nat_abs, length, All, IfSome};
ghost use Rattle.fd_mat.specs.fd_exact.States.{part};
ghost use Rattle.fd_pattern.specs.fd_load.Current.{AreVoltages};
ghost use Rattle.fd_pattern.specs.fd_system.Loads.{im_of, magnitude_of, re_of};
ghost use Rattle.fd_pattern.specs.fd_system.Residual.{IsPlace, whole_state};
ghost use Rattle.fd_pattern.specs.Conditions.{IsPart};
ghost use Rattle.fd_pattern.specs.Terminals.{IsConnected, at_magnitude, at_node, at_terminal, imaginary_of, magnitude_in, real_of};

use fd_pattern::{LoadAt, NodeAt};

/// The voltage of a terminal, its first node's less its second's, and its magnitude, in whole microvolts.
#[derive(Clone, Copy)]
pub struct Voltage {
    pub re: i128,
    pub im: i128,
    pub magnitude: i128,
}

/// The voltage of a part load's terminal at the point x.
pub fn voltage_of(load: &LoadAt, x: &[i128]) -> Voltage
    requires load { IsConnected (length x.now) load.now }
    requires parts { All IsPart x.now }
    ensures re { result.re ≡ real_of x.now load.now }
    ensures im { result.im ≡ imaginary_of x.now load.now }
    ensures magnitude { result.magnitude ≡ magnitude_in x.now load.now }
    ensures small { AreVoltages result.re result.im result.magnitude }
{
    Voltage {
        re: real(load.first, x) - real(load.second, x),
        im: imaginary(load.first, x) - imaginary(load.second, x),
        magnitude: magnitude(load.magnitude, x),
    }
}

// The real part of a node's voltage.
fn real(node: NodeAt, x: &[i128]) -> i128
    requires place { IsPlace (length x.now) node }
    requires parts { All IsPart x.now }
    ensures value { result ≡ re_of (whole_state x.now) node }
    ensures small { nat_abs result ≤ 2 ^ 40 }
{
    match node {
        NodeAt::Ground => 0,
        NodeAt::Node(k) => x[2 * k as usize],
    }
}

// The imaginary part of a node's voltage.
fn imaginary(node: NodeAt, x: &[i128]) -> i128
    requires place { IsPlace (length x.now) node }
    requires parts { All IsPart x.now }
    ensures value { result ≡ im_of (whole_state x.now) node }
    ensures small { nat_abs result ≤ 2 ^ 40 }
{
    match node {
        NodeAt::Ground => 0,
        NodeAt::Node(k) => x[2 * k as usize + 1],
    }
}

// The magnitude of a load, and 0 where it has none.
fn magnitude(place: Option<u32>, x: &[i128]) -> i128
    requires place { IfSome place (λ k. k < length x.now) }
    requires parts { All IsPart x.now }
    ensures value { result ≡ magnitude_of (whole_state x.now) place }
    ensures small { nat_abs result ≤ 2 ^ 40 }
{
    match place {
        None => 0,
        Some(k) => x[k as usize],
    }
}

/// Adds re and im at the places of a part load's first node, the same with their signs turned at its second, and a number at its
/// magnitude.
pub fn add_terminal(row: &mut [i128], load: &LoadAt, re: i128, im: i128, magnitude: i128)
    requires load { IsConnected (length row.old) load.now }
    requires room { (l : ℕ) → nat_abs (part row.old l) ≤ 2 ^ 123 }
    requires re { nat_abs re ≤ 2 ^ 73 }
    requires im { nat_abs im ≤ 2 ^ 73 }
    requires magnitude { nat_abs magnitude ≤ 2 ^ 73 }
    ensures { (l : ℕ) → part row.new l ≡ part row.old l +ℤ at_terminal l load.now re im magnitude }
{
    add_node(row, load.first, re, im);
    add_node(row, load.second, -re, -im);
    add_magnitude(row, load.magnitude, magnitude);
}

// Adds re and im at the places of a node; ground has none.
fn add_node(row: &mut [i128], node: NodeAt, re: i128, im: i128)
    requires place { IsPlace (length row.old) node }
    requires room { (l : ℕ) → nat_abs (part row.old l) ≤ 2 ^ 124 }
    requires re { nat_abs re ≤ 2 ^ 73 }
    requires im { nat_abs im ≤ 2 ^ 73 }
    ensures { (l : ℕ) → part row.new l ≡ part row.old l +ℤ at_node l node re im }
{
    match node {
        NodeAt::Ground => {}
        NodeAt::Node(k) => {
            add_number(row, 2 * k as usize, re);
            add_number(row, 2 * k as usize + 1, im);
        }
    }
}

// Adds a number at the place of a magnitude, if there is one.
fn add_magnitude(row: &mut [i128], place: Option<u32>, value: i128)
    requires place { IfSome place (λ k. k < length row.old) }
    requires room { (l : ℕ) → nat_abs (part row.old l) ≤ 2 ^ 125 }
    requires value { nat_abs value ≤ 2 ^ 73 }
    ensures { (l : ℕ) → part row.new l ≡ part row.old l +ℤ at_magnitude l place value }
{
    match place {
        None => {}
        Some(k) => add_number(row, k as usize, value),
    }
}

// Adds a number at a place.
fn add_number(row: &mut [i128], place: usize, value: i128)
    requires inside { place < length row.old }
    requires room { (l : ℕ) → nat_abs (part row.old l) ≤ 2 ^ 125 }
    requires value { nat_abs value ≤ 2 ^ 73 }
    ensures { (l : ℕ) → part row.new l ≡ part row.old l +ℤ cond (eqb place l) value (pos 0) }
{
    row[place] += value;
}
