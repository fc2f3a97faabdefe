// The controls take, keep or give up their entries of the queue.
ghost use Rattle.std.specs.Prelude.{◌≡◌, ◌+◌, ◌<◌, ◌≤◌, ◌^◌, All, length, map};
ghost use Rattle.std.specs.List.{AllByRecursion};
ghost use Rattle.fd_sample.specs.fd_capctl.CapState.{IsEarly};
ghost use Rattle.fd_sample.specs.fd_queue.MachineLaws.{IsQueueOf};
ghost use Rattle.fd_sample.specs.fd_queue.Verdicts.{decision};
ghost use Rattle.fd_sample.specs.Circuits.{HasTimes};
ghost use Rattle.fd_settle.specs.Acting.{AreDecided, ReactionsLeadTo, judged};
ghost use Rattle.fd_settle.specs.Controls.{AreStates, OpensEarly, probe_in};

use crate::clock::Clock;
use crate::state::ControlState;
use fd_sample::{Queue, Verdict, queue_law, spare_law};

/// Each control in order takes its verdict and has its entry of the queue by it.
pub(crate) fn react_all(
    states: &mut [ControlState],
    verdicts: &[Verdict],
    clock: &Clock,
    queue: &mut Queue,
)
    requires each { length verdicts.now ≡ length states.old }
    requires decided { AreDecided verdicts.now }
    requires states { AreStates clock.now.opened.items states.old }
    requires times { All HasTimes (map probe_in states.old) }
    requires early { All IsEarly clock.now.opened.items }
    requires now { clock.now.now < 2 ^ 60 }
    requires few { length states.old < 2 ^ 18 }
    requires queue { IsQueueOf (length states.old) queue.old.next queue.old.entries }
    requires openings { AllByRecursion OpensEarly queue.old.entries }
    requires room { length states.old ≤ queue.old.spare + length queue.old.entries }
    requires numbers { queue.old.next < 2 ^ 62 }
    ensures states { states.new ≡ judged states.old (map decision verdicts.now) }
    ensures reactions { ReactionsLeadTo clock.entry.now states.old (map decision verdicts.now) queue.old queue.new }
    ensures openings { AllByRecursion OpensEarly queue.new.entries }
    ensures numbers { queue.new.next ≤ queue.old.next + length states.old }
    ensures room { queue.new.spare + length queue.new.entries ≡ queue.old.spare + length queue.old.entries }
{
    queue_law();
    spare_law();
    let now = clock.now;
    for (control, verdict) in verdicts.iter().enumerate() {
        states[control].react(*verdict, now, queue);
    }
}
