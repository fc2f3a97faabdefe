// The impedances of a source by its short-circuit powers.
ghost use Rattle.std.specs.Prelude.{◌≡◌, ◌*◌, ◌/◌, ◌<◌, ◌≤◌, ◌^◌, ℤ, pos, ◌≤ℤ◌, IfOk, IfErr, ◌↔◌};
ghost use Rattle.fd_system.specs.fd_exact.Ranges.{UpTo};
ghost use Rattle.fd_system.specs.fd_arith.ShortCircuit.{most_source_ohms, short_circuit_ohms};
ghost use Rattle.fd_source.specs.Powers.{AreWithin, KeepsSize, IsGreatest, IsPast, IsShortCircuit, ohms_of as ohms_by, one_phase_size, ratio_of, reactance_by, three_phase_size};

use crate::data::{Ohms, ShortCircuit};
use crate::resistance::{SizeLimit, greatest_resistance};
use fd_system::{TermFault, is_source_above_limit};

/// The sequence impedances of a source with these short-circuit powers (OpenDSS manual, Vsource; the rounding is this
/// profile's). R1 is the greatest multiple of 10^-9 ohm for which R1 + j X1R1 R1 is at most kV^2 / MVAsc3 in size, R0
/// the greatest from 0 up for which 2 (R1 + j X1) + R0 + j X0R0 R0 is at most 3 kV^2 / MVAsc1 in size, and 0 where
/// there is none; both sizes and the reactances are rounded down to 10^-9 ohm. Range exactly where one of the sizes
/// kV^2 / MVA is above 10^4 ohm; takes no memory.
///
/// The data are in the ranges of the script profile.
pub fn source_ohms(source: &ShortCircuit) -> Result<Ohms, TermFault>
    requires { IsShortCircuit source.now }
    ensures ohms { IfOk result (λ o. o ≡ ohms_by source.now) }
    ensures within { IfOk result (λ o. AreWithin o) }
    ensures range { result ≡ Err TermFault.Range ↔ IsPast source.now }
    ensures takes_no_memory { IfErr result (λ e. e ≡ TermFault.Range) }
{
    if is_source_above_limit(source.basekv, source.mvasc3, source.mvasc1) {
        return Err(TermFault::Range);
    }
    let three = size(source.basekv, source.mvasc3);
    let one = size(source.basekv, source.mvasc1);
    Ok(ohms_from(source, three, one))
}

// kV^2 / MVA in whole 10^-9 ohm, rounded down.
fn size(kv: i128, mva: i128) -> u128
    requires kv_least { pos 0 ≤ℤ kv }
    requires kv_most { kv ≤ℤ pos (10 ^ 12) }
    requires mva { pos (10 ^ 6) ≤ℤ mva }
    ensures { result ≡ short_circuit_ohms kv mva }
{
    kv.unsigned_abs() * kv.unsigned_abs() / mva.unsigned_abs()
}

fn ohms_from(source: &ShortCircuit, three: u128, one: u128) -> Ohms
    requires source { IsShortCircuit source.now }
    requires three { three ≡ three_phase_size source.now }
    requires one { one ≡ one_phase_size source.now }
    requires three_most { three ≤ most_source_ohms }
    requires one_most { one ≤ most_source_ohms }
    ensures ohms { result ≡ ohms_by source.now }
    ensures within { AreWithin result }
{
    let (r1, x1) = part(0, 0, source.x1r1, three);
    let (r0, x0) = part(2 * r1, 2 * x1, source.x0r0, 3 * one);
    Ohms {
        r1: r1 as i128,
        x1: x1 as i128,
        r0: r0 as i128,
        x0: x0 as i128,
    }
}

// The greatest resistance beside r + j x that keeps the size, and its reactance by the ratio, rounded down.
fn part(r: u128, x: u128, ratio: i128, size: u128) -> (u128, u128)
    requires r { r ≤ 10 ^ 14 }
    requires x { x ≤ 10 ^ 16 }
    requires ratio { UpTo (10 ^ 11) ratio }
    requires size { size ≤ 10 ^ 14 }
    ensures greatest { IsGreatest (KeepsSize r x (ratio_of ratio) size) result.0 }
    ensures reactance { result.1 ≡ reactance_by (ratio_of ratio) result.0 }
    ensures most { result.0 ≤ size }
    ensures reactance_most { result.1 ≤ size }
{
    let ratio = ratio.unsigned_abs() / 100_000;
    let limit = SizeLimit { r, x, ratio, size };
    let resistance = greatest_resistance(&limit);
    (resistance, ratio * resistance / 10_000)
}
