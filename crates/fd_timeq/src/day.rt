// A Solve in controlmode time.
ghost use Rattle.std.specs.Prelude.{◌≡◌, All, IfErr, IfOk, IfSome, OnErr, OnOk, is_ok};
ghost use Rattle.fd_daily.specs.dss_ready.Ready.{HasPassed};
ghost use Rattle.fd_daily.specs.fd_settings.Daily.{AreDaily};
ghost use Rattle.fd_daily.specs.fd_settings.Hours.{hour_powers};
ghost use Rattle.fd_daily.specs.fd_network.Built.{IsBuiltOf};
ghost use Rattle.fd_daily.specs.fd_sample.Circuits.{probes_of};
ghost use Rattle.fd_daily.specs.fd_sample.Probes.{positions_in};
ghost use Rattle.fd_daily.specs.fd_settle.Controls.{AreAtWork};
ghost use Rattle.fd_daily.specs.fd_settle.Contract.{CallsAs, EndsAs, limits_of};
ghost use Rattle.fd_daily.specs.fd_settle.Rounds.{AtEach, acts_in, claims_in};
ghost use Rattle.fd_daily.specs.fd_settle.Start.{ArePositions, IsSoundAt};
ghost use Rattle.fd_daily.specs.fd_xfmr.Leakage.{AreTaps};
ghost use Rattle.fd_daily.specs.fd_devices.declared.settings.Positions.{Positions as CodePositions};
ghost use Rattle.fd_daily.specs.Day.{IsDay, MayBegin, before_first, hour_in, hour_kept, hours_done, hours_left};
ghost use Rattle.fd_daily.specs.Hours.{hours_of};
ghost use Rattle.fd_daily.specs.Underway.{IsRefusedAt, IsUnderway, machine_in, start_from};
ghost use Rattle.fd_timeq.specs.Timed.{IsInTimeMode, carried, timed_hour, timed_plant};

use dss_commands::Circuit;
use fd_certfile::{Entry, Solver};
use fd_daily::{BuildFault, Positions, Round, SettleFault, Underway, daily_run};
use std::alloc::Global;

/// The hours of a Solve under way whose controlmode is time. What it has besides the entries that wait is that of
/// `Underway`: the rounds of the hour before, and the network of the next, which `Underway::next_network` brings up to
/// date.
#[derive(Drop)]
pub struct TimeDay {
    pub underway: Underway<Vec<Round>>,
}

impl TimeDay {
    /// Starts a Solve of a circuit that passed the tests, whose controlmode is time, with an empty queue whose next
    /// sequence number is 0. The positions are those that the Solve before left; they become those with which this one
    /// starts, and the network is that of its first hour.
    ///
    /// # Errors
    /// `Range` where the network of the first hour is out of range, with what is to blame; `NoMemory`. The positions
    /// stay then as they were.
    pub fn start(
        alloc: Global,
        circuit: &Circuit,
        at: &mut Positions,
    ) -> Result<TimeDay, BuildFault>
        requires ready { HasPassed circuit.now }
        requires mode { IsInTimeMode circuit.now }
        requires taps { All AreTaps at.old.taps }
        ensures start { OnOk result (positions_in at.new ≡ start_from circuit.now (positions_in at.old)) }
        ensures underway { IfOk result (λ d. IsUnderway circuit.now at.new d.underway) }
        ensures left { IfOk result (λ d. hours_left d.underway.day ≡ hours_of circuit.now.options) }
        ensures machine { IfOk result (λ d.
            machine_in at.new d.underway ≡ before_first circuit.now (positions_in at.new)) }
        ensures refused { IfErr result (IsRefusedAt circuit.now (hours_of circuit.now.options)
            (start_from circuit.now (positions_in at.old))) }
        ensures as_before { OnErr result (at.new ≡ at.old) }
    {
        let underway = Underway::start(alloc, circuit, at)?;
        Ok(TimeDay { underway })
    }

    /// The hour that comes next: 0 for a snapshot, from 1 on for a day; none after the last.
    pub fn next_hour(&self) -> Option<u32>
        ensures { result ≡ self.now.underway.day.hour }
    {
        self.underway.day.next_hour()
    }

    /// The entries that wait, in the order of the queue: those that the hours so far left.
    pub fn pending(&self) -> &[Entry]
        ensures { (at : CodePositions) → result.now ≡ (machine_in at self.now.underway).queue }
    {
        self.underway.controls.pending()
    }
}

/// Solves the next hour of a Solve that is under way: one settle at the time of the hour, whose rounds are left in
/// `day.underway.rounds`. The circuit passed the tests of Solve, and its controlmode is time. The hour begins with the
/// machine that the hour before left, positions, opening times, latest moves and queue, at its own time and with no act
/// counted. An entry is due from its time on, and acts at the time of the hour.
///
/// # Errors
/// Those of `daily_run`. After each of them the same hour comes next.
pub fn time_run<V: Solver>(
    alloc: Global,
    circuit: &Circuit,
    day: &mut TimeDay,
    at: &mut Positions,
    solver: &mut V,
) -> Result<(), SettleFault<V::Fault>>
    requires ready { HasPassed circuit.now }
    requires mode { IsInTimeMode circuit.now }
    requires underway { IsUnderway circuit.now at.old day.old.underway }
    // The rounds are those of this hour alone. Their acts are those of the settle by the clock over their certified
    // states, from the machine that the hour before left; positions and controls then show what it leaves.
    ensures acts { acts_in day.new.underway.rounds.items
        ≡ (timed_hour circuit.now (hour_in day.old.underway.day) (machine_in at.old day.old.underway)
        day.new.underway.rounds.items).rounds }
    ensures machine { machine_in at.new day.new.underway
        ≡ (timed_hour circuit.now (hour_in day.old.underway.day) (machine_in at.old day.old.underway)
        day.new.underway.rounds.items).machine }
    // How it ends is how that settle ends.
    ensures ends { EndsAs (timed_plant circuit.now (hour_in day.old.underway.day)) result
        (timed_hour circuit.now (hour_in day.old.underway.day) (machine_in at.old day.old.underway)
        day.new.underway.rounds.items).end
        (timed_hour circuit.now (hour_in day.old.underway.day) (machine_in at.old day.old.underway)
        day.new.underway.rounds.items).machine }
    // The solver was called once for each of these rounds, in order, and once more where it answered a fault.
    ensures calls { CallsAs (λ v. V.gives v (limits_of circuit.now.options))
        (timed_plant circuit.now (hour_in day.old.underway.day)) solver.old
        (carried (hour_in day.old.underway.day) (machine_in at.old day.old.underway))
        day.new.underway.rounds.items result solver.new }
    ensures sound { AtEach (IsSoundAt circuit.now (hour_powers circuit.now.elements (hour_in day.old.underway.day)))
        (timed_plant circuit.now (hour_in day.old.underway.day))
        (carried (hour_in day.old.underway.day) (machine_in at.old day.old.underway))
        (claims_in day.new.underway.rounds.items) }
    // The hours that are left are those behind it where it ended well, and else the same.
    ensures hour { day.new.underway.day.hour
        ≡ hour_kept (is_ok result) (hour_in day.old.underway.day) day.old.underway.day }
    ensures last { day.new.underway.day.last ≡ day.old.underway.day.last }
    ensures left { hours_left day.old.underway.day
        ≡ hours_done (is_ok result) (hour_in day.old.underway.day) (hours_left day.new.underway.day) }
    // What the next hour asks for.
    ensures powers { day.new.underway.powers ≡ day.old.underway.powers }
    ensures positions { ArePositions circuit.now day.new.underway.powers.loads (positions_in at.new) }
    ensures loads { AreDaily circuit.now.elements day.new.underway.loads.each.items }
    ensures probes { day.new.underway.probes.items ≡ probes_of circuit.now.elements }
    ensures day { IsDay day.new.underway.day }
    ensures built { IsBuiltOf day.new.underway.net circuit.now }
    ensures work { AreAtWork circuit.now at.new day.new.underway.clock day.new.underway.controls }
    ensures numbers { OnOk result (IfSome day.new.underway.day.hour
        (λ k. MayBegin k (machine_in at.new day.new.underway).next)) }
{
    daily_run(alloc, circuit, &mut day.underway, at, solver)
}
