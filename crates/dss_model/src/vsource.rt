// Voltage sources.
ghost use Rattle.std.specs.Prelude.{◌≡◌, [], IfOk};
ghost use Rattle.dss_model.specs.Defaults.{source_bus, fresh_vsource};

use crate::{Bus, Nodes, ONE, Place, SourceForm};
use dss_lexer::Text;
use std::alloc::{AllocError, Global};

/// A voltage behind an impedance. Numbers are whole 10^-9 where nothing else is said.
#[derive(Drop)]
pub struct Vsource {
    /// Where its New stands.
    pub place: Place,
    pub bus1: Bus,
    /// 1 or 3.
    pub phases: u32,
    /// The nominal voltage in kV, between phases where there are three.
    pub basekv: i128,
    /// The voltage as a part of basekv.
    pub pu: i128,
    /// The angle of phase 1, in degrees, a multiple of 30 from -360 to 360.
    pub angle: i32,
    /// The short-circuit power in MVA, of three phases.
    pub mvasc3: i128,
    /// The short-circuit power in MVA, of one phase.
    pub mvasc1: i128,
    /// X1 over R1, a multiple of 10^-4.
    pub x1r1: i128,
    /// X0 over R0, a multiple of 10^-4.
    pub x0r0: i128,
    /// Sequence impedances in ohm, where they were given.
    pub r1: Option<i128>,
    pub x1: Option<i128>,
    pub r0: Option<i128>,
    pub x0: Option<i128>,
    /// The frequency in hertz, where it was given.
    pub basefreq: Option<i128>,
    /// Which of these data hold.
    pub form: SourceForm,
}

// The bus `sourcebus` with no node numbers.
fn source_bus_alone(alloc: Global) -> Result<Bus, AllocError>
    ensures { IfOk result (λ bus. bus ≡ record { name = source_bus; nodes = [] }) }
{
    Ok(Bus {
        name: Text::of(alloc, &['s', 'o', 'u', 'r', 'c', 'e', 'b', 'u', 's'])?,
        nodes: Nodes::new(Vec::new(alloc)),
    })
}

impl Vsource {
    /// A source with its defaults, at the bus `sourcebus`.
    pub fn fresh(alloc: Global, place: Place) -> Result<Self, AllocError>
        ensures { IfOk result (λ source. source ≡ fresh_vsource place) }
    {
        Ok(Vsource {
            bus1: source_bus_alone(alloc)?,
            place,
            phases: 3,
            basekv: 115 * ONE,
            pu: ONE,
            angle: 0,
            mvasc3: 2000 * ONE,
            mvasc1: 2100 * ONE,
            x1r1: 4 * ONE,
            x0r0: 3 * ONE,
            r1: None,
            x1: None,
            r0: None,
            x0: None,
            basefreq: None,
            form: SourceForm::ShortCircuit,
        })
    }

    /// The same source.
    pub fn copied(&self) -> Result<Vsource, AllocError>
        ensures { IfOk result (λ copy. copy ≡ self.now) }
    {
        Ok(Vsource {
            place: self.place.clone()?,
            bus1: self.bus1.copied()?,
            phases: self.phases,
            basekv: self.basekv,
            pu: self.pu,
            angle: self.angle,
            mvasc3: self.mvasc3,
            mvasc1: self.mvasc1,
            x1r1: self.x1r1,
            x0r0: self.x0r0,
            r1: self.r1,
            x1: self.x1,
            r0: self.r0,
            x0: self.x0,
            basefreq: self.basefreq,
            form: self.form,
        })
    }
}
