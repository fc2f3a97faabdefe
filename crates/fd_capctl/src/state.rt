// The state of a bank's control.
ghost use Rattle.std.specs.Prelude.{◌≡◌, ◌-◌, ◌^◌, ◌<◌, ◌≤◌, ◌+◌, true, false, Some, None, length};
ghost use Rattle.fd_queue.specs.Decisions.{Hold, is_raise};
ghost use Rattle.fd_queue.specs.Machine.{after_opening, signed_steps};
ghost use Rattle.fd_queue.specs.Queue.{has_entry};
ghost use Rattle.fd_queue.specs.Verdicts.{decision, is_decided};
ghost use Rattle.fd_capctl.specs.CapState.{ActsInMachine, AreEarly, IsEarly, IsMove, Reacts, opened_at};

use fd_queue::{Queue, Verdict};
use std::marker::Model;

/// The settings of a bank's control, the bank's last opening time, and the control's latest verdict and latest move.
/// All times are in milliseconds.
#[derive(Drop, Debug)]
pub struct CapState {
    control: u32,
    delay: u64,
    delay_off: u64,
    dead_time: u64,
    opened: Option<u64>,
    verdict: Verdict,
    moved: Option<bool>,
}

impl Model for CapState {
    ghost use Rattle.fd_queue.specs.Verdicts.{decision};
    ghost use Rattle.fd_capctl.specs.CapState.{CapView};

    ghost Value = { CapView };

    ghost view = { λ s. record {
      control = s.control;
      delay = s.delay;
      delay_off = s.delay_off;
      dead_time = s.dead_time;
      opened = s.opened;
      verdict = decision s.verdict;
      moved = s.moved;
    } };
}

impl CapState {
    /// The control of this number, of a bank last opened at this time, with the verdict Hold and no move.
    pub fn new(
        control: u32,
        delay: u64,
        delayoff: u64,
        deadtime: u64,
        opened: Option<u64>,
    ) -> CapState
        ensures { result ≡ record {
          control = control;
          delay = delay;
          delay_off = delayoff;
          dead_time = deadtime;
          opened = opened;
          verdict = Hold;
          moved = None;
        } }
    {
        CapState {
            control,
            delay,
            delay_off: delayoff,
            dead_time: deadtime,
            opened,
            verdict: Verdict::Hold,
            moved: None,
        }
    }

    /// Forgets the latest move; the bank's last opening time stays.
    pub fn forget_move(&mut self)
        ensures { self.new ≡ record self.old { moved = None } }
    {
        self.moved = None;
    }

    /// The bank's last opening time, as the acts have left it.
    pub fn opened(&self) -> Option<u64>
        ensures { result ≡ self.now.opened }
    {
        self.opened
    }

    /// Takes the verdict of a sample. The control's entry goes where the verdict is Hold, has no steps or goes the
    /// other way; then a control without an entry whose verdict has steps is queued: to close for now + delay, but not
    /// before the dead time after the last opening, and to open for now + delayoff. An entry that stays keeps its time.
    pub fn react(&mut self, verdict: Verdict, now: u64, queue: &mut Queue)
        requires decided { is_decided verdict ≡ true }
        requires room { has_entry self.old.control queue.old.entries ≡ false → 0 < queue.old.spare }
        requires numbers { queue.old.next < 2 ^ 64 - 1 }
        requires times { AreEarly self.old now }
        ensures state { self.new ≡ record self.old { verdict = decision verdict } }
        ensures step { Reacts self.old self.new queue.old queue.new now (decision verdict) }
        ensures numbers { queue.new.next ≤ queue.old.next + 1 }
        ensures room { queue.new.spare + length queue.new.entries ≡ queue.old.spare + length queue.old.entries }
    {
        self.verdict = verdict;
        let wanted = verdict.way();
        if queue.keep(self.control, wanted) {
            return;
        }
        if let Some(up) = wanted {
            let time = if up {
                closing_time(now + self.delay, self.dead_time, self.opened)
            } else {
                now + self.delay_off
            };
            queue.push(time, self.control, up);
        }
    }

    /// Closes or opens the bank by the latest verdict, at this time, and gives 1 where it closes and -1 where it opens.
    /// An opening bank's last opening time is this one.
    pub fn act(&mut self, time: u64, closed: &mut bool) -> i32
        requires { IsMove self.old.verdict }
        ensures closed { closed.new ≡ is_raise self.old.verdict }
        ensures steps { result ≡ signed_steps (is_raise self.old.verdict) 1 }
        ensures state { self.new ≡ record self.old {
          moved = Some (is_raise self.old.verdict);
          opened = opened_at time (is_raise self.old.verdict) self.old.opened;
        } }
        ensures acts { ActsInMachine self.old self.new time closed.old closed.new result }
    {
        let up = raises(self.verdict);
        *closed = up;
        self.moved = Some(up);
        self.opened = after_switching(self.opened, up, time);
        if up { 1 } else { -1 }
    }
}

// The greater of a time and the last opening time with the dead time.
fn closing_time(time: u64, dead_time: u64, opened: Option<u64>) -> u64
    requires dead_time { dead_time < 2 ^ 62 }
    requires opened { IsEarly opened }
    ensures { result ≡ after_opening time dead_time opened }
{
    match opened {
        None => time,
        Some(opened) => time.max(opened + dead_time),
    }
}

// The last opening time after a bank closes, or opens at this time.
fn after_switching(opened: Option<u64>, up: bool, time: u64) -> Option<u64>
    ensures { result ≡ opened_at time up opened }
{
    if up { opened } else { Some(time) }
}

// Whether a verdict raises.
fn raises(verdict: Verdict) -> bool
    ensures { result ≡ is_raise (decision verdict) }
{
    matches!(verdict, Verdict::Raise { .. })
}
