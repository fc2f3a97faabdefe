// The hours of a Solve under way.
ghost use Rattle.std.specs.Prelude.{◌≡◌, All, IfErr, IfOk, IsSome, OnErr, OnOk};
ghost use Rattle.fd_settle.specs.dss_ready.Ready.{HasPassed};
ghost use Rattle.fd_settle.specs.fd_sample.Probes.{positions_in};
ghost use Rattle.fd_settings.specs.fd_xfmr.Leakage.{AreTaps};
ghost use Rattle.fd_daily.specs.Day.{MayBegin, before_first, hour_in, hours_left};
ghost use Rattle.fd_daily.specs.Hours.{hours_of};
ghost use Rattle.fd_daily.specs.Underway.{IsAfterHour, IsRefusedAt, IsUnderway, machine_in, start_from};

use crate::day::{Day, no_openings};
use fd_settings::{
    BuildFault, Circuit, DailyLoads, Positions, Powers, hours_law, next_law, next_positions,
};
use fd_settle::{Clock, Controls, Journal, Network, Probe, probes};
use std::alloc::Global;

/// The hours of a Solve under way: its loads with what they follow, the probes of the circuit's controls, the network with
/// the powers of the next hour, where the Solve stands, the time and the controls as the hour before left them, and what
/// is kept of the rounds of an hour.
#[derive(Drop)]
pub struct Underway<K> {
    pub loads: DailyLoads,
    pub probes: Vec<Probe>,
    pub net: Network,
    pub powers: Powers,
    pub day: Day,
    pub clock: Clock,
    pub controls: Controls,
    pub rounds: K,
}

impl<K: Journal> Underway<K> {
    /// Starts a Solve of a circuit that passed the tests. The positions are those that the Solve before left; they become
    /// those with which this one starts, and the network is that of its first hour.
    ///
    /// # Errors
    /// `Range` where the network of the first hour is out of range, with what is to blame; `NoMemory`. The positions stay
    /// then as they were.
    pub fn start(
        alloc: Global,
        circuit: &Circuit,
        at: &mut Positions,
    ) -> Result<Underway<K>, BuildFault>
        requires ready { HasPassed circuit.now }
        requires taps { All AreTaps at.old.taps }
        ensures start { OnOk result (positions_in at.new ≡ start_from circuit.now (positions_in at.old)) }
        ensures underway { IfOk result (IsUnderway circuit.now at.new) }
        ensures left { IfOk result (λ u. hours_left u.day ≡ hours_of circuit.now.options) }
        ensures machine { IfOk result (λ u. machine_in at.new u ≡ before_first circuit.now (positions_in at.new)) }
        ensures refused { IfErr result (IsRefusedAt circuit.now (hours_of circuit.now.options) (start_from circuit.now (positions_in at.old))) }
        ensures as_before { OnErr result (at.new ≡ at.old) }
    {
        // read for what the elements are
        let _elements = circuit.elements();
        next_law();
        hours_law();
        let day = Day::start(circuit);
        let start = next_positions(alloc, circuit, at)?;
        let hour = day.next_hour().unwrap();
        let loads = DailyLoads::of(alloc, circuit)?;
        let powers = loads.powers_at(alloc, circuit, hour)?;
        let net = match Network::build(alloc, circuit, &start, &powers) {
            Ok(net) => net,
            Err(fault) => return Err(fault),
        };
        let probes = probes(alloc, circuit, net.layout())?;
        let opened = no_openings(alloc, circuit)?;
        let clock = Clock { now: 0, opened };
        let controls = Controls::start(alloc, circuit, &probes, &clock)?;
        *at = start;
        Ok(Underway {
            loads,
            probes,
            net,
            powers,
            day,
            clock,
            controls,
            rounds: K::empty(alloc),
        })
    }
}

impl<K> Underway<K> {
    /// The hour that comes next, where one is left: 0 for a snapshot, from 1 on for a day.
    pub fn hour(&self) -> u32
        requires { IsSome self.now.day.hour }
        ensures { result ≡ hour_in self.now.day }
    {
        self.day.next_hour().unwrap()
    }

    /// Brings the network up to date for the hour that comes next, at the positions that the hour before left.
    ///
    /// # Errors
    /// `Range` where the network of that hour is out of range, with what is to blame; `NoMemory`. All stays then as it was.
    pub fn next_network(
        &mut self,
        alloc: Global,
        circuit: &Circuit,
        at: &Positions,
    ) -> Result<(), BuildFault>
        requires ready { HasPassed circuit.now }
        requires after_hour { IsAfterHour circuit.now at.now self.old }
        requires hour { IsSome self.old.day.hour }
        requires numbers { MayBegin (hour_in self.old.day) (machine_in at.now self.old).next }
        ensures underway { OnOk result (IsUnderway circuit.now at.now self.new) }
        ensures day { self.new.day ≡ self.old.day }
        ensures machine { machine_in at.now self.new ≡ machine_in at.now self.old }
        ensures refused { IfErr result (IsRefusedAt circuit.now (hours_left self.old.day) (positions_in at.now)) }
        ensures as_before { OnErr result (self.new ≡ self.old) }
    {
        hours_law();
        let hour = self.hour();
        let powers = self.loads.powers_at(alloc, circuit, hour)?;
        match self.net.update(circuit, at, &powers) {
            Ok(()) => {
                self.powers = powers;
                Ok(())
            }
            Err(fault) => Err(fault),
        }
    }
}
