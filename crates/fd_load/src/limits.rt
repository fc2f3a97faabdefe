// The limit on a load phase.
ghost use Rattle.std.specs.Prelude.{◌≡◌, ◌*◌, ◌≤◌, ◌^◌, nat_abs};
ghost use Rattle.fd_load.specs.Current.{is_past};

use fd_system::LoadPhase;

// 100 megavolt-ampere
const MOST_POWER: u128 = 100_000_000_000;

// 2^12 siemens
const MOST_SIEMENS: u128 = 4096;

// siemens in 10^-3 VA over a squared microvolt
const PER_UNIT: u128 = 1_000_000_000;

/// Whether a load phase has more than 100 megavolt-ampere, or more than 2^12 siemens at the lower limit of its voltage: the sum of the
/// sizes of P and Q over the square of that limit (this profile).
pub fn is_load_past(phase: &LoadPhase) -> bool
    requires p { nat_abs phase.now.p ≤ 10 ^ 18 }
    requires q { nat_abs phase.now.q ≤ 10 ^ 18 }
    requires low { nat_abs phase.now.vlo ≤ 10 ^ 12 }
    ensures { result ≡ is_past phase.now }
{
    let power = phase.p.unsigned_abs() + phase.q.unsigned_abs();
    let low = phase.vlo.unsigned_abs();
    power > MOST_POWER || power * PER_UNIT > MOST_SIEMENS * (low * low)
}
