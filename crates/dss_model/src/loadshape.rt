// Shapes of loads over a day.
ghost use Rattle.std.specs.Prelude.{◌≡◌, IfOk};
ghost use Rattle.dss_model.specs.Defaults.{fresh_loadshape};

use crate::{Numbers, Place};
use std::alloc::{AllocError, Global};

/// Factors by which a load's power is multiplied, hour by hour.
#[derive(Drop)]
pub struct Loadshape {
    /// Where its New stands.
    pub place: Place,
    /// How many of the factors are used, 0 to 8760.
    pub npts: u32,
    /// The hours from one factor to the next, 1.
    pub interval: u32,
    /// One factor for each hour, in whole 10^-9.
    pub mult: Numbers,
}

impl Loadshape {
    /// A shape with its defaults: no factors, of which none is used.
    pub fn fresh(alloc: Global, place: Place) -> Self
        ensures { result ≡ fresh_loadshape place }
    {
        Loadshape {
            place,
            npts: 0,
            interval: 1,
            mult: Numbers::new(Vec::new(alloc)),
        }
    }

    /// The same shape.
    pub fn copied(&self) -> Result<Loadshape, AllocError>
        ensures { IfOk result (λ copy. copy ≡ self.now) }
    {
        Ok(Loadshape {
            place: self.place.clone()?,
            npts: self.npts,
            interval: self.interval,
            mult: self.mult.copied()?,
        })
    }
}
