// The part loads of a phase that draws shares of its power at constant impedance, current and power.
ghost use Rattle.std.specs.Prelude.{◌≡◌, ◌*◌, ◌≤◌, ◌^◌, ◌*ℤ◌, nat_abs, All};
ghost use Rattle.fd_load.specs.Zip.{AreShares, IsPart, IsZipPhase, share_of as share_by_number, zip_part as part_by_shares, zip_parts as parts_by_shares};

use fd_system::{LoadModel, LoadPhase, near_quotient};

// shares are whole 10^-9
const NANO_PER_ONE: u128 = 1_000_000_000;

/// What one part load has of a phase's P and of its Q, in whole 10^-9.
#[derive(Clone, Copy)]
pub struct PartShares {
    pub p: i128,
    pub q: i128,
}

/// A phase whose power is drawn in shares: P and Q in thousandths of a volt-ampere, what the part of constant
/// impedance, that of constant current and that of constant power have of them, and the nominal voltage and its
/// limits in microvolts.
#[derive(Clone, Copy)]
pub struct ZipPhase {
    pub p: i128,
    pub q: i128,
    pub impedance: PartShares,
    pub current: PartShares,
    pub power: PartShares,
    pub vn: i128,
    pub vlo: i128,
    pub vhi: i128,
}

/// The three part loads of a phase: of constant impedance, of constant current and of constant power, in this order,
/// also where a share is 0. Each has its share of P and of Q, to the nearest 10^-3 VA, and the phase's voltages
/// (OpenDSS manual, property ZIPV). Takes no memory.
pub fn zip_parts(zip: &ZipPhase) -> [LoadPhase; 3]
    requires { IsZipPhase zip.now }
    ensures parts { result ≡ parts_by_shares zip.now }
    ensures small { All IsPart result }
{
    let impedance = zip_part(zip, LoadModel::ConstantImpedance, &zip.impedance);
    let current = zip_part(zip, LoadModel::ConstantCurrent, &zip.current);
    let power = zip_part(zip, LoadModel::ConstantPower, &zip.power);
    [impedance, current, power]
}

// The part load of a model with these shares.
fn zip_part(zip: &ZipPhase, model: LoadModel, shares: &PartShares) -> LoadPhase
    requires zip { IsZipPhase zip.now }
    requires shares { AreShares shares.now }
    ensures part { result ≡ part_by_shares zip.now model shares.now }
    ensures small { IsPart result }
{
    LoadPhase {
        model,
        p: share_of(zip.p, shares.p),
        q: share_of(zip.q, shares.q),
        vn: zip.vn,
        vlo: zip.vlo,
        vhi: zip.vhi,
    }
}

// A share of a power.
fn share_of(power: i128, share: i128) -> i128
    requires power { nat_abs power ≤ 10 ^ 17 }
    requires share { nat_abs share ≤ 10 ^ 10 }
    ensures value { result ≡ share_by_number power share }
    ensures most { nat_abs result ≤ 10 ^ 18 }
{
    near_quotient(product(power, share), NANO_PER_ONE)
}

// A power times a share, in 10^-12 VA.
fn product(power: i128, share: i128) -> i128
    requires power { nat_abs power ≤ 10 ^ 17 }
    requires share { nat_abs share ≤ 10 ^ 10 }
    ensures value { result ≡ power *ℤ share }
    ensures most { nat_abs result ≤ 10 ^ 17 * 10 ^ 10 }
{
    power * share
}
