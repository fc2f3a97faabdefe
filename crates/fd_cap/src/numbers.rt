// The reactive power of a capacitor bank and its nominal voltage.
ghost use Rattle.std.specs.Prelude.{◌≡◌, ◌*◌, ◌≤◌, ◌<◌, ◌^◌, nat_abs};
ghost use Rattle.fd_system.specs.fd_exact.Ranges.{UpTo};
ghost use Rattle.fd_cap.specs.Capacitor.{IsCap, cap_power, cap_volts, volts_squared as squared_volts};

use crate::data::CapData;
use fd_system::phase_volts;

// The reactive power of all phases in 10^-12 volt-ampere.
pub(crate) fn power(cap: &CapData) -> i128
    requires { IsCap cap.now }
    ensures value { result ≡ cap_power cap.now }
    ensures within { UpTo (10 ^ 20) result }
{
    cap.kvar * 1_000_000
}

// The nominal voltage of a phase in microvolts.
pub(crate) fn volts(cap: &CapData) -> u128
    requires { IsCap cap.now }
    ensures value { result ≡ nat_abs (cap_volts cap.now) }
    ensures least { 5 * 10 ^ 6 ≤ result }
    ensures most { result ≤ 10 ^ 12 }
{
    phase_volts(cap.phases, cap.conn, cap.kv).unsigned_abs()
}

// The square of the nominal voltage in 10^-12 volt^2, times the number of phases.
pub(crate) fn volts_squared(cap: &CapData) -> u128
    requires { IsCap cap.now }
    ensures value { result ≡ squared_volts cap.now }
    ensures least { 0 < result }
    ensures most { result ≤ 3 * 10 ^ 24 }
{
    square(volts(cap)) * cap.phases as u128
}

fn square(n: u128) -> u128
    requires positive { 0 < n }
    requires most { n ≤ 10 ^ 12 }
    ensures value { result ≡ n * n }
    ensures least { 0 < result }
    ensures most { result ≤ 10 ^ 24 }
{
    n * n
}
