// Controls of regulators.
ghost use Rattle.std.specs.Prelude.{◌≡◌, IfOk};
ghost use Rattle.dss_model.specs.Defaults.{fresh_regcontrol};

use crate::copies::copied_text;
use crate::{ONE, Place};
use dss_lexer::Text;
use std::alloc::AllocError;

/// A control that moves a transformer's tap. Numbers are whole 10^-9 where nothing else is said.
#[derive(Drop)]
pub struct RegControl {
    /// Where its New stands.
    pub place: Place,
    /// The name of the Transformer, in lower case.
    pub transformer: Option<Text>,
    /// The winding whose voltage it measures and whose tap it moves: 1 or 2.
    pub winding: u32,
    /// The voltage that is wanted, in volts at the relay.
    pub vreg: i128,
    /// The width of the deadband, in volts at the relay.
    pub band: i128,
    /// The ratio of the voltage transformer.
    pub ptratio: i128,
    /// The primary rating of the current transformer, in amperes.
    pub ctprim: i128,
    /// The settings of the line drop compensation, in volts.
    pub r: i128,
    pub x: i128,
    /// The delay of the first act, in milliseconds.
    pub delay: u32,
    /// The delay of each further act, in milliseconds.
    pub tapdelay: u32,
    /// The most steps of one act.
    pub maxtapchange: u32,
    /// The phase that it measures. Whether the transformer has it is a test of Solve.
    pub ptphase: i32,
}

impl RegControl {
    /// A control with its defaults.
    pub fn fresh(place: Place) -> Self
        ensures { result ≡ fresh_regcontrol place }
    {
        RegControl {
            place,
            transformer: None,
            winding: 1,
            vreg: 120 * ONE,
            band: 3 * ONE,
            ptratio: 60 * ONE,
            ctprim: 300 * ONE,
            r: 0,
            x: 0,
            delay: 15_000,
            tapdelay: 2_000,
            maxtapchange: 16,
            ptphase: 1,
        }
    }

    /// The same control.
    pub fn copied(&self) -> Result<RegControl, AllocError>
        ensures { IfOk result (λ copy. copy ≡ self.now) }
    {
        Ok(RegControl {
            place: self.place.clone()?,
            transformer: copied_text(&self.transformer)?,
            winding: self.winding,
            vreg: self.vreg,
            band: self.band,
            ptratio: self.ptratio,
            ctprim: self.ctprim,
            r: self.r,
            x: self.x,
            delay: self.delay,
            tapdelay: self.tapdelay,
            maxtapchange: self.maxtapchange,
            ptphase: self.ptphase,
        })
    }
}
