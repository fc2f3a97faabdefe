// Banks of capacitors.
ghost use Rattle.std.specs.Prelude.{◌≡◌, IfOk};
ghost use Rattle.dss_model.specs.Defaults.{fresh_capacitor};

use crate::copies::copied_bus;
use crate::{BankState, Bus, Connection, ONE, Place};
use std::alloc::AllocError;

/// A bank of capacitors at one bus. Numbers are whole 10^-9.
#[derive(Drop)]
pub struct Capacitor {
    /// Where its New stands.
    pub place: Place,
    pub bus1: Option<Bus>,
    /// 1 or 3.
    pub phases: u32,
    /// The rated power in kvar, of all phases.
    pub kvar: i128,
    /// The nominal voltage in kV: of the phase pair for one phase and for delta, else between phases.
    pub kv: i128,
    pub conn: Connection,
    /// The number of steps, 1.
    pub numsteps: u32,
    /// The state of its one step, as the script sets it.
    pub states: BankState,
    /// The number of Solves that were applied before its New, or before the last pair that set its state.
    pub set_at: u32,
    /// The frequency in hertz, where it was given.
    pub basefreq: Option<i128>,
}

impl Capacitor {
    /// A closed bank with its defaults, `solves` being the number of Solves that were applied so far.
    pub fn fresh(place: Place, solves: u32) -> Self
        ensures { result ≡ fresh_capacitor solves place }
    {
        Capacitor {
            place,
            bus1: None,
            phases: 3,
            kvar: 1200 * ONE,
            kv: 12_470_000_000,
            conn: Connection::Wye,
            numsteps: 1,
            states: BankState::Closed,
            set_at: solves,
            basefreq: None,
        }
    }

    /// The same bank.
    pub fn copied(&self) -> Result<Capacitor, AllocError>
        ensures { IfOk result (λ copy. copy ≡ self.now) }
    {
        Ok(Capacitor {
            place: self.place.clone()?,
            bus1: copied_bus(&self.bus1)?,
            phases: self.phases,
            kvar: self.kvar,
            kv: self.kv,
            conn: self.conn,
            numsteps: self.numsteps,
            states: self.states,
            set_at: self.set_at,
            basefreq: self.basefreq,
        })
    }
}
