// What a capacitor bank draws at its nominal voltage.
ghost use Rattle.std.specs.Prelude.{◌≡◌, ◌*◌, ◌≤◌, ◌^◌};
ghost use Rattle.fd_cap.specs.Capacitor.{IsCap, cap_draw_of, phase_draw as draw_of_phase};

use crate::data::CapData;
use crate::numbers::{power, volts};

/// What the phases of a capacitor bank draw together at nominal voltage, in whole microamperes: for each phase its reactive power
/// over its nominal voltage, rounded up. An open bank draws nothing.
///
/// The data are in the ranges of the script profile.
pub fn cap_draw(cap: &CapData, closed: bool) -> u128
    requires { IsCap cap.now }
    ensures exact { result ≡ cap_draw_of cap.now closed }
    ensures most { result ≤ 6 * 10 ^ 13 }
{
    if closed {
        phase_draw(cap) * cap.phases as u128
    } else {
        0
    }
}

// What a phase draws.
fn phase_draw(cap: &CapData) -> u128
    requires { IsCap cap.now }
    ensures value { result ≡ draw_of_phase cap.now }
    ensures most { result ≤ 2 * 10 ^ 13 }
{
    let over = volts(cap) * cap.phases as u128;
    (power(cap).unsigned_abs() + (over - 1)) / over
}
