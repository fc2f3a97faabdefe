// The state of a regulator's control.
ghost use Rattle.std.specs.Prelude.{◌≡◌, ◌⊎◌, ◌^◌, ◌<◌, ◌≤◌, ◌+◌, ◌*◌, ◌==◌, Some, None, true, false, length, if◌then◌else◌, ◌-◌};
ghost use Rattle.fd_queue.specs.Controls.{moved_tap, tap_of};
ghost use Rattle.fd_queue.specs.Decisions.{Hold, is_raise, is_way, steps_of};
ghost use Rattle.fd_queue.specs.Machine.{signed_steps};
ghost use Rattle.fd_queue.specs.Queue.{has_entry};
ghost use Rattle.fd_queue.specs.Verdicts.{decision, is_decided};
ghost use Rattle.fd_regctl.specs.RegState.{ActsInMachine, CanMove, Reacts, moved_pair};

use fd_queue::{Queue, TapPair, Verdict};
use std::marker::Model;

/// The settings of a regulator's control, its latest verdict and its latest move. Delays are in milliseconds, the tap
/// step in whole 10^-5.
#[derive(Drop, Debug)]
pub struct RegState {
    control: u32,
    is_second: bool,
    step: u32,
    delay: u64,
    tap_delay: u64,
    verdict: Verdict,
    moved: Option<bool>,
}

impl Model for RegState {
    ghost use Rattle.fd_queue.specs.Verdicts.{decision};
    ghost use Rattle.fd_regctl.specs.RegState.{RegView};

    ghost Value = { RegView };

    ghost view = { λ s. record {
      control = s.control;
      is_second = s.is_second;
      tap_step = s.step;
      delay = s.delay;
      tap_delay = s.tap_delay;
      verdict = decision s.verdict;
      moved = s.moved;
    } };
}

impl RegState {
    /// The control of this number, of winding 1 or 2, with the verdict Hold and no move.
    pub fn new(control: u32, winding: u8, step: u32, delay: u64, tapdelay: u64) -> RegState
        requires { (winding ≡ 1) ⊎ (winding ≡ 2) }
        ensures { result ≡ record {
          control = control;
          is_second = winding == 2;
          tap_step = step;
          delay = delay;
          tap_delay = tapdelay;
          verdict = Hold;
          moved = None;
        } }
    {
        RegState {
            control,
            is_second: winding == 2,
            step,
            delay,
            tap_delay: tapdelay,
            verdict: Verdict::Hold,
            moved: None,
        }
    }

    /// Forgets the latest move.
    pub fn forget_move(&mut self)
        ensures { self.new ≡ record self.old { moved = None } }
    {
        self.moved = None;
    }

    /// Takes the verdict of a sample. The control's entry goes where the verdict is Hold, has no steps or goes the
    /// other way; then a control without an entry whose verdict has steps is queued, for now + delay, or for
    /// now + tapdelay where its latest move went the same way. An entry that stays keeps its time.
    pub fn react(&mut self, verdict: Verdict, now: u64, queue: &mut Queue)
        requires decided { is_decided verdict ≡ true }
        requires room { has_entry self.old.control queue.old.entries ≡ false → 0 < queue.old.spare }
        requires numbers { queue.old.next < 2 ^ 64 - 1 }
        requires times { (now < 2 ^ 62) × (self.old.delay < 2 ^ 62) × (self.old.tap_delay < 2 ^ 62) }
        ensures state { self.new ≡ record self.old { verdict = decision verdict } }
        ensures step { Reacts self.old self.new queue.old queue.new now (decision verdict) }
        ensures numbers { queue.new.next ≤ queue.old.next + 1 }
        ensures room { queue.new.spare + length queue.new.entries ≡ queue.old.spare + length queue.old.entries }
    {
        self.verdict = verdict;
        let wanted = verdict.way();
        if queue.keep(self.control, wanted) {
            return;
        }
        if let Some(up) = wanted {
            let time = now + delay_of(self.moved, up, self.delay, self.tap_delay);
            queue.push(time, self.control, up);
        }
    }

    /// Moves the tap of the winding by the steps of the latest verdict, and gives the steps, signed: up is positive.
    pub fn act(&mut self, taps: &mut TapPair) -> i32
        requires few { steps_of self.old.verdict ≤ 1000 }
        requires moves { CanMove self.old.verdict (tap_of self.old.is_second taps.old) self.old.tap_step }
        ensures taps { taps.new ≡ moved_pair self.old taps.old }
        ensures steps { result ≡ signed_steps (is_raise self.old.verdict) (steps_of self.old.verdict) }
        ensures state { self.new ≡ record self.old { moved = Some (is_raise self.old.verdict) } }
        ensures acts { ActsInMachine self.old self.new taps.old taps.new result }
    {
        if self.is_second {
            taps.second = moved(taps.second, self.verdict, self.step);
        } else {
            taps.first = moved(taps.first, self.verdict, self.step);
        }
        self.moved = Some(raises(self.verdict));
        signed(self.verdict)
    }
}

// The delay of a move, in milliseconds.
fn delay_of(latest: Option<bool>, up: bool, delay: u64, tap_delay: u64) -> u64
    ensures { result ≡ (if is_way up latest then tap_delay else delay) }
{
    match latest {
        Some(true) if up => tap_delay,
        Some(false) if !up => tap_delay,
        _ => delay,
    }
}

// Whether a verdict raises.
fn raises(verdict: Verdict) -> bool
    ensures { result ≡ is_raise (decision verdict) }
{
    matches!(verdict, Verdict::Raise { .. })
}

// A tap after the steps of a verdict that moves it.
fn moved(tap: u32, verdict: Verdict, step: u32) -> u32
    requires { CanMove (decision verdict) tap step }
    ensures { result ≡ moved_tap (is_raise (decision verdict)) tap (steps_of (decision verdict) * step) }
{
    match verdict {
        Verdict::Raise { steps } => tap + steps * step,
        Verdict::Lower { steps } => tap - steps * step,
        Verdict::Hold | Verdict::Undecided { .. } => tap,
    }
}

// The steps of a verdict, signed.
fn signed(verdict: Verdict) -> i32
    requires { steps_of (decision verdict) ≤ 1000 }
    ensures { result ≡ signed_steps (is_raise (decision verdict)) (steps_of (decision verdict)) }
{
    match verdict {
        Verdict::Raise { steps } => steps as i32,
        Verdict::Lower { steps } => -(steps as i32),
        Verdict::Hold | Verdict::Undecided { .. } => 0,
    }
}
