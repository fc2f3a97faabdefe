// Data of lines under a name.
ghost use Rattle.std.specs.Prelude.{◌≡◌, IfOk};
ghost use Rattle.dss_model.specs.Defaults.{fresh_linecode};

use crate::{LineConstants, Place, Units};
use std::alloc::AllocError;

/// Impedance and charging of a unit of length, for lines to copy. Numbers are whole 10^-9.
#[derive(Drop)]
pub struct Linecode {
    /// Where its New stands.
    pub place: Place,
    /// 1 to 3.
    pub nphases: u32,
    /// Impedance and charging.
    pub constants: LineConstants,
    /// The unit of length.
    pub units: Units,
    /// The frequency in hertz, where it was given.
    pub basefreq: Option<i128>,
}

impl Linecode {
    /// A line code with its defaults: three phases, no data.
    pub fn fresh(place: Place) -> Self
        ensures { result ≡ fresh_linecode place }
    {
        Linecode {
            place,
            nphases: 3,
            constants: LineConstants::fresh(),
            units: Units::None,
            basefreq: None,
        }
    }

    /// The same line code.
    pub fn copied(&self) -> Result<Linecode, AllocError>
        ensures { IfOk result (λ copy. copy ≡ self.now) }
    {
        Ok(Linecode {
            place: self.place.clone()?,
            nphases: self.nphases,
            constants: self.constants.copied()?,
            units: self.units,
            basefreq: self.basefreq,
        })
    }
}
