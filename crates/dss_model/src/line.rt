// Lines.
ghost use Rattle.std.specs.Prelude.{◌≡◌, IfOk};
ghost use Rattle.dss_model.specs.Defaults.{fresh_line};

use crate::copies::{copied_bus, copied_text};
use crate::{Bus, LineConstants, ONE, Place, Units};
use dss_lexer::Text;
use std::alloc::AllocError;

/// A line between two buses. Numbers are whole 10^-9.
#[derive(Drop)]
pub struct Line {
    /// Where its New stands.
    pub place: Place,
    pub bus1: Option<Bus>,
    pub bus2: Option<Bus>,
    /// 1 to 3.
    pub phases: u32,
    /// The name of the line code whose data were copied last, in lower case.
    pub linecode: Option<Text>,
    pub length: i128,
    /// The unit of the length.
    pub units: Units,
    /// Impedance and charging.
    pub constants: LineConstants,
    /// Whether it was last said to be a switch.
    pub switch: bool,
    /// The frequency in hertz, where it was given.
    pub basefreq: Option<i128>,
    /// The unit of length of the data, the line code's as it was when they were copied. It is none where the line
    /// has an impedance of its own. Where it or `units` is none, the ratio of the two is 1.
    pub code_units: Units,
}

impl Line {
    /// A line with its defaults: three phases, no buses, no data.
    pub fn fresh(place: Place) -> Self
        ensures { result ≡ fresh_line place }
    {
        Line {
            place,
            bus1: None,
            bus2: None,
            phases: 3,
            linecode: None,
            length: ONE,
            units: Units::None,
            constants: LineConstants::fresh(),
            switch: false,
            basefreq: None,
            code_units: Units::None,
        }
    }

    /// The same line.
    pub fn copied(&self) -> Result<Line, AllocError>
        ensures { IfOk result (λ copy. copy ≡ self.now) }
    {
        Ok(Line {
            place: self.place.clone()?,
            bus1: copied_bus(&self.bus1)?,
            bus2: copied_bus(&self.bus2)?,
            phases: self.phases,
            linecode: copied_text(&self.linecode)?,
            length: self.length,
            units: self.units,
            constants: self.constants.copied()?,
            switch: self.switch,
            basefreq: self.basefreq,
            code_units: self.code_units,
        })
    }
}
