// Loads.
ghost use Rattle.std.specs.Prelude.{◌≡◌, IfOk};
ghost use Rattle.dss_model.specs.Defaults.{fresh_load};
ghost use Rattle.dss_model.specs.LoadKinds.{has_magnitude as kind_has_magnitude, lacks_shares as load_lacks_shares};

use crate::copies::{copied_bus, copied_text};
use crate::{Bus, Connection, ONE, Place, ReactiveRule};
use dss_lexer::Text;
use std::alloc::AllocError;

/// What a load draws at a voltage (OpenDSS manual, property Model: 1, 2, 5, 8).
#[derive(Clone, Copy)]
pub enum LoadKind {
    ConstantPower,
    ConstantImpedance,
    ConstantCurrent,
    /// Shares of constant impedance, current and power side by side.
    Zip,
}

impl LoadKind {
    /// Whether each phase has a voltage magnitude among the unknowns, as those with a part of constant current have.
    pub fn has_magnitude(self) -> bool
        ensures { result ≡ kind_has_magnitude self }
    {
        match self {
            LoadKind::ConstantPower | LoadKind::ConstantImpedance => false,
            LoadKind::ConstantCurrent | LoadKind::Zip => true,
        }
    }
}

/// The shares of one power that are drawn at constant impedance, at constant current and at constant power, in whole
/// 10^-9, each from -10 to 10. They need not add up to 1.
#[derive(Clone, Copy)]
pub struct Shares {
    pub impedance: i128,
    pub current: i128,
    pub power: i128,
}

/// The shares of a load's real power and those of its reactive power (OpenDSS manual, property ZIPV, whose seventh
/// number, the cutoff, is 0 in this profile and so isn't kept).
#[derive(Clone, Copy)]
pub struct ZipShares {
    pub p: Shares,
    pub q: Shares,
}

/// A load. Numbers are whole 10^-9.
#[derive(Drop)]
pub struct Load {
    /// Where its New stands.
    pub place: Place,
    pub bus1: Option<Bus>,
    /// 1 or 3.
    pub phases: u32,
    /// The nominal voltage in kV: of the phase pair for one phase and for delta, else between phases.
    pub kv: i128,
    /// The power in kW, of all phases.
    pub kw: i128,
    /// The power factor, with its sign.
    pub pf: i128,
    /// The reactive power in kvar, of all phases, where it was given.
    pub kvar: Option<i128>,
    pub model: LoadKind,
    /// The shares of a load of model 8, where they were given.
    pub zipv: Option<ZipShares>,
    pub conn: Connection,
    /// The lowest voltage, as a part of the nominal one, at which the model holds.
    pub vminpu: i128,
    /// The highest voltage, as a part of the nominal one, at which the model holds.
    pub vmaxpu: i128,
    /// The name of the load shape of a day, in lower case.
    pub daily: Option<Text>,
    /// The frequency in hertz, where it was given.
    pub basefreq: Option<i128>,
    /// Whether pf or kvar gives the reactive power.
    pub reactive: ReactiveRule,
}

impl Load {
    /// A load with its defaults.
    pub fn fresh(place: Place) -> Self
        ensures { result ≡ fresh_load place }
    {
        Load {
            place,
            bus1: None,
            phases: 3,
            kv: 12_470_000_000,
            kw: 10 * ONE,
            pf: 880_000_000,
            kvar: None,
            model: LoadKind::ConstantPower,
            zipv: None,
            conn: Connection::Wye,
            vminpu: 950_000_000,
            vmaxpu: 1_050_000_000,
            daily: None,
            basefreq: None,
            reactive: ReactiveRule::PowerFactor,
        }
    }

    /// The same load.
    pub fn copied(&self) -> Result<Load, AllocError>
        ensures { IfOk result (λ copy. copy ≡ self.now) }
    {
        Ok(Load {
            place: self.place.clone()?,
            bus1: copied_bus(&self.bus1)?,
            phases: self.phases,
            kv: self.kv,
            kw: self.kw,
            pf: self.pf,
            kvar: self.kvar,
            model: self.model,
            zipv: self.zipv,
            conn: self.conn,
            vminpu: self.vminpu,
            vmaxpu: self.vmaxpu,
            daily: copied_text(&self.daily)?,
            basefreq: self.basefreq,
            reactive: self.reactive,
        })
    }

    /// Whether the load is of model 8 and its shares weren't given.
    pub fn lacks_shares(&self) -> bool
        ensures { result ≡ load_lacks_shares self.now }
    {
        matches!(self.model, LoadKind::Zip) && self.zipv.is_none()
    }
}
