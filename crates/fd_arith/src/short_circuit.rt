// The limit of a source's impedance by its short-circuit powers.
ghost use Rattle.std.specs.Prelude.{◌≡◌};
ghost use Rattle.fd_arith.specs.ShortCircuit.{is_above_limit, is_source_above_limit};

// 10^4 ohm, in 10^-9 ohm.
const MOST_SOURCE_OHMS: u128 = 10_000_000_000_000;

/// Whether a source with this nominal voltage, in 10^-9 kV, and these short-circuit powers of three phases and of one,
/// in 10^-9 MVA, has more than 10^4 ohm by one of them. The size kV^2 / MVA is rounded down to 10^-9 ohm; at no power
/// it is 0.
pub fn is_source_above_limit(basekv: i128, mvasc3: i128, mvasc1: i128) -> bool
    ensures { result ≡ is_source_above_limit basekv mvasc3 mvasc1 }
{
    is_above(basekv, mvasc3) || is_above(basekv, mvasc1)
}

// Whether it has by this power.
fn is_above(basekv: i128, mva: i128) -> bool
    ensures { result ≡ is_above_limit basekv mva }
{
    let volts = basekv.unsigned_abs();
    let power = mva.unsigned_abs();
    if power == 0 {
        return false;
    }
    let (low, high) = volts.carrying_mul(volts, 0);
    let (least_low, least_high) = (MOST_SOURCE_OHMS + 1).carrying_mul(power, 0);
    high > least_high || (high == least_high && low >= least_low)
}
