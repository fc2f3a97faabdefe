// The state of a control: what it measures, and where it stands in the rules of the queue.
ghost use Rattle.std.specs.Prelude.{◌≡◌, ◌⊎◌, ◌==◌, ◌+◌, ◌-◌, ◌<◌, ◌≤◌, ◌^◌, All, false, get_or, length, None, true};
ghost use Rattle.fd_sample.specs.fd_xfmr.Leakage.{AreTaps};
ghost use Rattle.fd_sample.specs.fd_queue.Controls.{tap_of as tap_at};
ghost use Rattle.fd_sample.specs.fd_queue.Queue.{has_entry};
ghost use Rattle.fd_sample.specs.fd_queue.Verdicts.{decision, is_decided};
ghost use Rattle.fd_sample.specs.Balls.{IsBall};
ghost use Rattle.fd_sample.specs.Decided.{sample_of, sample_over};
ghost use Rattle.fd_sample.specs.Probes.{HasDevice, IsProbe, positions_in};
ghost use Rattle.fd_settle.specs.Acting.{CanAct, HasEarlyTimes, HasPlace, Reacts, act_of, acted_closed, acted_opened, acted_state, acted_taps, fresh, number_in, opened_for, rested, with_verdict};
ghost use Rattle.fd_settle.specs.Controls.{probe_in};
ghost use Rattle.fd_settle.specs.Rounds.{seen};

use crate::round::Act;
use fd_inject::TapPair;
use fd_sample::{
    CapProbe, CapState, Entry, Positions, Probe, Queue, RegProbe, RegState, Verdict, verdict,
};

/// A control with what its samples need, and its state in the queue's rules.
#[derive(Drop)]
pub(crate) enum ControlState {
    Regulator { probe: RegProbe, state: RegState },
    Bank { probe: CapProbe, state: CapState },
}

impl ControlState {
    /// The control of this number at the start of a settle, where the banks were last opened at these times.
    pub(crate) fn new(control: u32, probe: &Probe, opened: &[Option<u64>]) -> ControlState
        ensures { result ≡ fresh control (opened_for opened.now probe.now) probe.now }
    {
        match probe {
            Probe::Regulator(p) => ControlState::Regulator {
                probe: *p,
                state: RegState::new(
                    control,
                    winding(p.is_second),
                    p.tap_step,
                    p.delay,
                    p.tapdelay,
                ),
            },
            Probe::Bank(p) => ControlState::Bank {
                probe: *p,
                state: CapState::new(
                    control,
                    p.delay,
                    p.delayoff,
                    p.deadtime,
                    at_bank(opened, p.bank),
                ),
            },
        }
    }

    /// Forgets its latest move.
    pub(crate) fn forget_move(&mut self)
        ensures { self.new ≡ rested self.old }
    {
        match self {
            ControlState::Regulator { state, .. } => state.forget_move(),
            ControlState::Bank { state, .. } => state.forget_move(),
        }
    }

    /// What the control measures, and how.
    pub(crate) fn probe(&self) -> Probe
        ensures { result ≡ probe_in self.now }
    {
        match self {
            ControlState::Regulator { probe, .. } => Probe::Regulator(*probe),
            ControlState::Bank { probe, .. } => Probe::Bank(*probe),
        }
    }

    /// The verdict of its sample over a ball, where taps and banks stand at these positions.
    pub(crate) fn sample(&self, at: &Positions, centre: &[i128], radii: &[u128]) -> Verdict
        requires probe { IsProbe (length centre.now) (probe_in self.now) }
        requires device { HasDevice (positions_in at.now) (probe_in self.now) }
        requires taps { All AreTaps at.now.taps }
        requires ball { IsBall centre.now radii.now }
        ensures { sample_of result ≡ sample_over (probe_in self.now) (positions_in at.now) centre.now radii.now }
    {
        let probe = self.probe();
        verdict(&probe, at, centre, radii)
    }

    /// Takes the verdict of a sample, and takes, keeps or gives up its entry of the queue by it.
    pub(crate) fn react(&mut self, verdict: Verdict, now: u64, queue: &mut Queue)
        requires decided { is_decided verdict ≡ true }
        requires room { has_entry (number_in self.old) queue.old.entries ≡ false → 0 < queue.old.spare }
        requires numbers { queue.old.next < 2 ^ 64 - 1 }
        requires times { HasEarlyTimes self.old now }
        ensures state { self.new ≡ with_verdict (decision verdict) self.old }
        ensures step { Reacts self.old queue.old queue.new now (decision verdict) }
        ensures numbers { queue.new.next ≤ queue.old.next + 1 }
        ensures room { queue.new.spare + length queue.new.entries ≡ queue.old.spare + length queue.old.entries }
    {
        match self {
            ControlState::Regulator { state, .. } => state.react(verdict, now, queue),
            ControlState::Bank { state, .. } => state.react(verdict, now, queue),
        }
    }

    /// Moves its device by the latest verdict, where an entry of it acts at this time, and gives the act.
    pub(crate) fn act(
        &mut self,
        entry: &Entry,
        time: u64,
        taps: &mut [TapPair],
        closed: &mut [bool],
        opened: &mut [Option<u64>],
    ) -> Act
        requires acts { CanAct taps.old self.old entry.now }
        requires place { HasPlace taps.old closed.old opened.old self.old }
        requires within { All AreTaps taps.old }
        ensures taps { taps.new ≡ acted_taps self.old taps.old }
        ensures closed { closed.new ≡ acted_closed self.old closed.old }
        ensures opened { opened.new ≡ acted_opened time self.old opened.old }
        ensures state { self.new ≡ acted_state time self.old }
        ensures act { seen result ≡ act_of self.old time entry.now taps.old }
    {
        match self {
            ControlState::Regulator { probe, state } => {
                let place = probe.transformer as usize;
                let mut pair = taps[place];
                let steps = state.act(&mut pair);
                taps[place] = pair;
                act_at(time, entry, steps, tap_of(probe.is_second, pair))
            }
            ControlState::Bank { probe, state } => {
                let bank = probe.bank as usize;
                let mut is_closed = closed[bank];
                let steps = state.act(time, &mut is_closed);
                closed[bank] = is_closed;
                opened[bank] = state.opened();
                act_at(time, entry, steps, u32::from(is_closed))
            }
        }
    }
}

// The act of an entry at this time.
fn act_at(time: u64, entry: &Entry, steps: i32, after: u32) -> Act
    ensures { seen result ≡ record { time = time; control = entry.now.control; steps = steps; after = after } }
{
    let (time, control) = (time, entry.control);
    Act {
        time,
        control,
        steps,
        after,
    }
}

// The tap of a winding.
fn tap_of(is_second: bool, pair: TapPair) -> u32
    ensures { result ≡ tap_at is_second pair }
{
    if is_second { pair.second } else { pair.first }
}

// The number of a winding.
fn winding(is_second: bool) -> u8
    ensures either { (result ≡ 1) ⊎ (result ≡ 2) }
    ensures second { (result == 2) ≡ is_second }
{
    if is_second { 2 } else { 1 }
}

// The last opening time of a bank.
fn at_bank(opened: &[Option<u64>], bank: u32) -> Option<u64>
    ensures { result ≡ get_or opened.now bank None }
{
    if (bank as usize) < opened.len() {
        opened[bank as usize]
    } else {
        None
    }
}
