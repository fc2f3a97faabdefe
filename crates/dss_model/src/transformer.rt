// Transformers of two windings.
ghost use Rattle.std.specs.Prelude.{◌≡◌, IfOk};
ghost use Rattle.dss_model.specs.Defaults.{fresh_winding, fresh_transformer};

use crate::copies::copied_bus;
use crate::{Bus, Connection, LeadLag, ONE, Place};
use std::alloc::AllocError;

/// A winding. Numbers are whole 10^-9 where nothing else is said.
#[derive(Drop)]
pub struct Winding {
    pub bus: Option<Bus>,
    pub conn: Connection,
    /// The nominal voltage in kV: of the phase pair for one phase and for delta, else between phases.
    pub kv: i128,
    /// The rated power in kVA, of all phases.
    pub kva: i128,
    /// The resistance in percent.
    pub pct_r: i128,
    /// The tap as the script sets it, in whole 10^-5.
    pub tap: u32,
    /// The number of Solves that were applied before the New of the transformer, or before the last pair that set
    /// this tap.
    pub set_at: u32,
    /// The lowest tap, in whole 10^-5.
    pub mintap: u32,
    /// The highest tap, in whole 10^-5.
    pub maxtap: u32,
    /// The steps from the lowest tap to the highest.
    pub numtaps: u32,
}

/// A transformer. Numbers are whole 10^-9 where nothing else is said.
#[derive(Drop)]
pub struct Transformer {
    /// Where its New stands.
    pub place: Place,
    /// 1 or 3.
    pub phases: u32,
    /// The number of windings, 2.
    pub windings: u32,
    /// The winding that pairs set: 1 or 2.
    pub wdg: u32,
    pub first: Winding,
    pub second: Winding,
    /// The reactance between the windings in percent.
    pub xhl: i128,
    /// The losses at full load in percent, where they were given. Each winding's pct_r was set to half of it.
    pub pct_loadloss: Option<i128>,
    pub leadlag: LeadLag,
    /// The losses at no load in percent, 0.
    pub pct_noloadloss: i128,
    /// The magnetizing current in percent, 0.
    pub pct_imag: i128,
    /// The frequency in hertz, where it was given.
    pub basefreq: Option<i128>,
}

impl Winding {
    fn fresh(solves: u32) -> Self
        ensures { result ≡ fresh_winding solves }
    {
        Winding {
            bus: None,
            conn: Connection::Wye,
            kv: 12_470_000_000,
            kva: 1000 * ONE,
            pct_r: 200_000_000,
            tap: 100_000,
            set_at: solves,
            mintap: 90_000,
            maxtap: 110_000,
            numtaps: 32,
        }
    }

    fn copied(&self) -> Result<Winding, AllocError>
        ensures { IfOk result (λ copy. copy ≡ self.now) }
    {
        Ok(Winding {
            bus: copied_bus(&self.bus)?,
            conn: self.conn,
            kv: self.kv,
            kva: self.kva,
            pct_r: self.pct_r,
            tap: self.tap,
            set_at: self.set_at,
            mintap: self.mintap,
            maxtap: self.maxtap,
            numtaps: self.numtaps,
        })
    }
}

impl Transformer {
    /// A transformer with its defaults, `solves` being the number of Solves that were applied so far.
    pub fn fresh(place: Place, solves: u32) -> Self
        ensures { result ≡ fresh_transformer solves place }
    {
        Transformer {
            place,
            phases: 3,
            windings: 2,
            wdg: 1,
            first: Winding::fresh(solves),
            second: Winding::fresh(solves),
            xhl: 7 * ONE,
            pct_loadloss: None,
            leadlag: LeadLag::Lag,
            pct_noloadloss: 0,
            pct_imag: 0,
            basefreq: None,
        }
    }

    /// The same transformer.
    pub fn copied(&self) -> Result<Transformer, AllocError>
        ensures { IfOk result (λ copy. copy ≡ self.now) }
    {
        Ok(Transformer {
            place: self.place.clone()?,
            phases: self.phases,
            windings: self.windings,
            wdg: self.wdg,
            first: self.first.copied()?,
            second: self.second.copied()?,
            xhl: self.xhl,
            pct_loadloss: self.pct_loadloss,
            leadlag: self.leadlag,
            pct_noloadloss: self.pct_noloadloss,
            pct_imag: self.pct_imag,
            basefreq: self.basefreq,
        })
    }
}
