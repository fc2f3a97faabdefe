// The controls whose entries are due move their devices.
ghost use Rattle.std.specs.Prelude.{◌≡◌, ◌<◌, ◌≤◌, ◌^◌, [], length, map, vec_capacity};
ghost use Rattle.std.specs.List.{AllByRecursion};
ghost use Rattle.fd_sample.specs.fd_queue.Queue.{HaveOneEach};
ghost use Rattle.fd_settle.specs.Acting.{ActsLeadTo, AllCanAct, AreStanding};
ghost use Rattle.fd_settle.specs.Controls.{OpensEarly, probe_in};
ghost use Rattle.fd_settle.specs.Rounds.{seen};

use crate::round::Act;
use crate::state::ControlState;
use fd_inject::TapPair;
use fd_sample::{Entry, Timing};

/// The entries, which are due at this time, act in order: each moves its control's device. The acts are left in `acts`,
/// which has room for them.
pub(crate) fn act_all(
    timing: Timing,
    now: u64,
    due: &[Entry],
    states: &mut [ControlState],
    taps: &mut [TapPair],
    closed: &mut [bool],
    opened: &mut [Option<u64>],
    acts: &mut Vec<Act>,
)
    requires now { now < 2 ^ 62 }
    requires one_each { HaveOneEach due.now }
    requires controls { AllByRecursion (λ e. e.control < length states.old) due.now }
    requires standing { AreStanding taps.old closed.old opened.old states.old }
    requires can_act { AllCanAct taps.old states.old due.now }
    requires openings { AllByRecursion OpensEarly due.now }
    requires empty { acts.old.items ≡ [] }
    requires room { length due.now ≤ vec_capacity acts.old }
    ensures acts { ActsLeadTo timing now due.now states.old taps.old closed.old opened.old states.new taps.new closed.new opened.new (map seen acts.new.items) }
    ensures standing { AreStanding taps.new closed.new opened.new states.new }
    ensures probes { map probe_in states.new ≡ map probe_in states.old }
    ensures each_tap { length taps.new ≡ length taps.old }
    ensures each_closed { length closed.new ≡ length closed.old }
    ensures each_opened { length opened.new ≡ length opened.old }
    ensures each_state { length states.new ≡ length states.old }
{
    for entry in due {
        let time = timing.acts_at(now, entry);
        let act = states[entry.control as usize].act(entry, time, taps, closed, opened);
        let _ = acts.push(act);
    }
}
