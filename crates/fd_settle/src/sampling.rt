// The samples of the controls over a certified state.
ghost use Rattle.std.specs.Prelude.{◌≡◌, ◌<◌, ◌≤◌, ◌^◌, All, length, map, vec_capacity, None};
ghost use Rattle.fd_sample.specs.fd_xfmr.Leakage.{AreTaps};
ghost use Rattle.fd_sample.specs.Balls.{IsBall};
ghost use Rattle.fd_sample.specs.Probes.{HasDevice, IsProbe, positions_in};
ghost use Rattle.fd_settle.specs.Acting.{IsSampled, sampled_over};
ghost use Rattle.fd_settle.specs.Controls.{probe_in};

use crate::progress::Progress;
use crate::state::ControlState;
use fd_sample::{Positions, Verdict};

/// Samples all controls in order over the ball of these centres and radii. Gives the first sample that is undecided, if
/// there is one; else leaves the verdicts, for which there is room.
pub(crate) fn sample_all(
    states: &[ControlState],
    at: &Positions,
    centre: &[i128],
    radii: &[u128],
    verdicts: &mut Vec<Verdict>,
) -> Option<Progress>
    requires probes { All (IsProbe (length centre.now)) (map probe_in states.now) }
    requires devices { All (HasDevice (positions_in at.now)) (map probe_in states.now) }
    requires taps { All AreTaps at.now.taps }
    requires ball { IsBall centre.now radii.now }
    requires few { length states.now < 2 ^ 18 }
    requires room { length states.now ≤ vec_capacity verdicts.old }
    ensures sampled { IsSampled result verdicts.new.items (sampled_over states.now (positions_in at.now) centre.now radii.now) }
    ensures each { result ≡ None → length verdicts.new.items ≡ length states.now }
    ensures capacity { vec_capacity verdicts.old ≤ vec_capacity verdicts.new }
{
    verdicts.clear();
    for (control, state) in states.iter().enumerate() {
        let verdict = state.sample(at, centre, radii);
        if let Verdict::Undecided { low, high, edge } = verdict {
            return Some(Progress::Undecided {
                control: control as u32,
                low,
                high,
                edge,
            });
        }
        let _ = verdicts.push(verdict);
    }
    None
}
