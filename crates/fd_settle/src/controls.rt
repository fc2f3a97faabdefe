// The controls of a settle: they are sampled over a certified state, wait in the queue, and move their devices.
ghost use Rattle.std.specs.Prelude.{◌≡◌, ℕ, ◌+◌, ◌<◌, ◌≤◌, ◌^◌, IfOk, List, [], length, map, vec_capacity};
ghost use Rattle.fd_sample.specs.fd_devices.declared.settings.Positions.{Positions as CodePositions};
ghost use Rattle.fd_sample.specs.fd_elements.declared.powers.LoadPower.{LoadPower};
ghost use Rattle.fd_cert.specs.Claims.{claim_in};
ghost use Rattle.fd_sample.specs.Balls.{IsBall};
ghost use Rattle.fd_sample.specs.Circuits.{AreProbes, probes_of};
ghost use Rattle.fd_sample.specs.Probes.{positions_in};
ghost use Rattle.fd_sample.specs.dss_circuit.Circuit.{CircuitView};
ghost use Rattle.fd_sample.specs.fd_queue.Machine.{hour_begun};
ghost use Rattle.fd_settle.specs.Acting.{CanActNow, CanReact, HaveActed, HaveReacted, fresh_from, rested};
ghost use Rattle.fd_settle.specs.Controls.{AreAtWork, AreControls, HasNumbers, IfMoved, TellsActs, machine_of, probes_in, setup_in, shown};
ghost use Rattle.fd_settle.specs.Plant.{controls_in, started, timing_of};
ghost use Rattle.fd_settle.specs.Rounds.{seen};
ghost use Rattle.fd_settle.specs.Sampling.{look_over};
ghost use Rattle.fd_settle.specs.Settle.{outcome_of};
ghost use Rattle.fd_settle.specs.Start.{ArePositions, IsClock};

use crate::acting::act_all;
use crate::clock::Clock;
use crate::progress::Progress;
use crate::reacting::react_all;
use crate::round::Act;
use crate::sampling::sample_all;
use crate::state::ControlState;
use fd_cert::Certified;
use fd_sample::{
    BankStates, Circuit, ControlMode, Entry, Positions, Probe, Queue, Taps, Timing, Verdict,
    away_law, own_law, queue_law, room_law, tap_law,
};
use std::alloc::{AllocError, Global};
use std::mem;

/// The controls of a circuit at work, in the script's order: what each measures and its latest move, the queue of their
/// entries, the number of acts in the hour, and room for what a round needs. They live as long as a Solve.
#[derive(Drop)]
pub struct Controls {
    states: Vec<ControlState>,
    verdicts: Vec<Verdict>,
    queue: Queue,
    due: Vec<Entry>,
    made: u32,
    limit: u32,
    timing: Timing,
}

impl Controls {
    /// The controls of a circuit that passed the tests of Solve, by their probes, before the first hour of a Solve: none has
    /// moved, and the queue is empty. There are none in controlmode off. All room that they need is taken here.
    ///
    /// # Errors
    /// `AllocError` where the memory is refused.
    pub fn start(
        alloc: Global,
        circuit: &Circuit,
        probes: &[Probe],
        clock: &Clock,
    ) -> Result<Controls, AllocError>
        requires probes { probes.now ≡ probes_of circuit.now.elements }
        requires fit { AreProbes circuit.now.elements probes.now }
        requires clock { IsClock circuit.now clock.now }
        ensures machine { IfOk result (λ c. (at : CodePositions)
            → machine_of at clock.entry.now c
            ≡ started circuit.now (positions_in at) clock.entry.now.now clock.entry.now.opened.items) }
        ensures work { IfOk result (λ c.
            (at : CodePositions) (powers : List LoadPower) → ArePositions circuit.now powers (positions_in at)
            → AreAtWork circuit.now at clock.entry.now c) }
    {
        // (read for its clause: there are at most 2^17, and no more controls)
        let _elements = circuit.elements();
        let probes = taking_part(circuit, probes);
        let states = fresh_states(alloc, probes, &clock.opened)?;
        let count = states.len();
        Ok(Controls {
            states,
            verdicts: Vec::with_capacity(alloc, count)?,
            queue: Queue::with_room(alloc, count as u32)?,
            due: Vec::with_capacity(alloc, count)?,
            made: 0,
            limit: circuit.options().maxcontroliter,
            timing: timing_of(circuit.options().controlmode),
        })
    }

    /// An hour of the Solve begins at this time, in milliseconds: acts are counted anew. In static mode the queue is
    /// emptied and latest moves are forgotten; where the time goes on with the hours both stay.
    pub fn begin_hour(&mut self, clock: &mut Clock, now: u64)
        requires { now < 2 ^ 60 }
        ensures machine { (at : CodePositions)
            → machine_of at clock.new self.new ≡ hour_begun self.old.timing now (machine_of at clock.old self.old) }
        ensures work { (circuit : CircuitView) (at : CodePositions) → AreAtWork circuit at clock.old self.old
            → AreAtWork circuit at clock.new self.new }
    {
        clock.now = now;
        self.made = 0;
        match self.timing {
            Timing::Static => {
                self.queue.clear();
                forget_moves(&mut self.states);
            }
            Timing::Clock => {}
        }
    }

    /// The entries that wait in the queue, in order.
    pub fn pending(&self) -> &[Entry]
        ensures { (at : CodePositions) (clock : Clock) → result.now ≡ (machine_of at clock self.now).queue }
    {
        self.queue.entries()
    }

    /// How many controls there are.
    pub(crate) fn count(&self) -> usize
        ensures { result ≡ length self.now.states.items }
    {
        self.states.len()
    }

    /// Samples all controls over a certified state and takes one step of the queue machine. Its acts are left in
    /// `acts`, which is empty before and has room for one act of each control. Where a sample is undecided nothing
    /// changes. Takes no memory.
    pub(crate) fn step(
        &mut self,
        at: &mut Positions,
        clock: &mut Clock,
        certified: &Certified,
        acts: &mut Vec<Act>,
    ) -> Progress
        requires controls { AreControls (length certified.now.ball.centre.items) at.old clock.old self.old }
        requires numbers { self.old.queue.next < 2 ^ 62 }
        requires ball { IsBall certified.now.ball.centre.items certified.now.ball.radius.items }
        requires empty { acts.old.items ≡ [] }
        requires room { length self.old.states.items ≤ vec_capacity acts.old }
        ensures probes { probes_in self.new ≡ probes_in self.old }
        ensures limit { self.new.limit ≡ self.old.limit }
        ensures timing { self.new.timing ≡ self.old.timing }
        ensures round { outcome_of (setup_in self.old) (machine_of at.old clock.old self.old)
            (look_over (probes_in self.old) (positions_in at.old) (claim_in certified.now))
            ≡ shown result (map seen acts.new.items) (machine_of at.new clock.new self.new) }
        ensures acts { TellsActs result acts.new.items (machine_of at.new clock.new self.new) }
        ensures controls { AreControls (length certified.now.ball.centre.items) at.new clock.new self.new }
        ensures numbers { (first : ℕ) → HasNumbers first self.old → IfMoved result (HasNumbers first self.new) }
        ensures few { self.new.queue.next ≤ self.old.queue.next + length self.old.states.items }
        ensures taps { length at.new.taps ≡ length at.old.taps }
        ensures closed { length at.new.closed ≡ length at.old.closed }
        ensures time { clock.new.now ≡ clock.old.now }
    {
        own_law();
        queue_law();
        room_law();
        tap_law();
        away_law();
        let (centre, radii) = (&certified.ball.centre, &certified.ball.radius);
        let undecided = sample_all(&self.states, at, centre, radii, &mut self.verdicts);
        if let Some(end) = undecided {
            return end;
        }
        self.react(clock);
        if !self.queue.is_due(self.timing, clock.now) {
            Progress::Settled
        } else if self.made == self.limit {
            Progress::Limited { acts: self.made }
        } else {
            self.act(at, clock, acts);
            Progress::Moved
        }
    }

    // Each control takes, keeps or gives up its entry of the queue by its verdict.
    fn react(&mut self, clock: &Clock)
        requires { CanReact clock.now self.old }
        ensures { HaveReacted clock.entry.now self.old self.new }
    {
        react_all(&mut self.states, &self.verdicts, clock, &mut self.queue);
    }

    // All entries of the least time act together. Takes no memory: an empty vector has none.
    fn act(&mut self, at: &mut Positions, clock: &mut Clock, acts: &mut Vec<Act>)
        requires controls { CanActNow at.old clock.old self.old }
        requires empty { acts.old.items ≡ [] }
        requires room { length self.old.queue.entries ≤ vec_capacity acts.old }
        ensures { HaveActed at.old at.new clock.old clock.new self.old self.new (map seen acts.new.items) }
    {
        let alloc = *self.due.allocator();
        self.queue.take_nearest(&mut self.due);
        let mut taps = mem::replace(&mut at.taps, Taps::new(Vec::new(alloc))).into_vec();
        let mut closed = mem::replace(&mut at.closed, BankStates::new(Vec::new(alloc))).into_vec();
        act_all(
            self.timing,
            clock.now,
            &self.due,
            &mut self.states,
            &mut taps,
            &mut closed,
            &mut clock.opened,
            acts,
        );
        at.taps = Taps::new(taps);
        at.closed = BankStates::new(closed);
        self.made += 1;
    }
}

// The probes of the controls that take part in a settle, among those of all.
fn taking_part<'a>(circuit: &Circuit, probes: &'a [Probe]) -> &'a [Probe]
    requires probes { probes.now ≡ probes_of circuit.now.elements }
    requires fit { AreProbes circuit.now.elements probes.now }
    ensures probes { result.now ≡ controls_in circuit.now }
    ensures fit { AreProbes circuit.now.elements result.now }
{
    match circuit.options().controlmode {
        ControlMode::Off => &[],
        ControlMode::Static | ControlMode::Time => probes,
    }
}

// How the time goes with the queue.
fn timing_of(mode: ControlMode) -> Timing
    ensures { result ≡ timing_of mode }
{
    match mode {
        ControlMode::Off | ControlMode::Static => Timing::Static,
        ControlMode::Time => Timing::Clock,
    }
}

// Each control forgets its latest move.
fn forget_moves(states: &mut [ControlState])
    ensures { states.new ≡ map rested states.old }
{
    for state in states.iter_mut() {
        state.forget_move();
    }
}

// The states of controls before the first hour, numbered in order.
fn fresh_states(
    alloc: Global,
    probes: &[Probe],
    opened: &[Option<u64>],
) -> Result<Vec<ControlState>, AllocError>
    requires few { length probes.now < 2 ^ 18 }
    ensures { IfOk result (λ v. v.items ≡ fresh_from opened.now 0 probes.now) }
{
    let mut states = Vec::with_capacity(alloc, probes.len())?;
    for (control, probe) in probes.iter().enumerate() {
        states.push(ControlState::new(control as u32, probe, opened))?;
    }
    Ok(states)
}
