// Controls of banks of capacitors.
ghost use Rattle.std.specs.Prelude.{◌≡◌, IfOk};
ghost use Rattle.dss_model.specs.Defaults.{fresh_capcontrol};

use crate::copies::copied_text;
use crate::{ControlQuantity, ONE, Place};
use dss_lexer::Text;
use std::alloc::AllocError;

/// A control that opens and closes a bank of capacitors. Numbers are whole 10^-9 where nothing else is said.
#[derive(Drop)]
pub struct CapControl {
    /// Where its New stands.
    pub place: Place,
    /// The name of the Line that it measures, in lower case and without the class.
    pub element: Option<Text>,
    /// The end of the line that it measures: 1 or 2.
    pub terminal: u32,
    /// The name of the Capacitor, in lower case.
    pub capacitor: Option<Text>,
    /// What it measures, `type` in scripts.
    pub kind: ControlQuantity,
    /// The ratio of the voltage transformer.
    pub ptratio: i128,
    /// The ratio of the current transformer.
    pub ctratio: i128,
    /// The value at which it closes the bank.
    pub onsetting: i128,
    /// The value at which it opens the bank.
    pub offsetting: i128,
    /// The delay before it closes the bank, in milliseconds.
    pub delay: u32,
    /// The delay before it opens the bank, in milliseconds.
    pub delayoff: u32,
    /// The time for which an opened bank stays open, in milliseconds.
    pub deadtime: u32,
    /// The phases that it measures. Whether the line has them is a test of Solve.
    pub ptphase: i32,
    pub ctphase: i32,
}

impl CapControl {
    /// A control with its defaults.
    pub fn fresh(place: Place) -> Self
        ensures { result ≡ fresh_capcontrol place }
    {
        CapControl {
            place,
            element: None,
            terminal: 1,
            capacitor: None,
            kind: ControlQuantity::Current,
            ptratio: 60 * ONE,
            ctratio: 60 * ONE,
            onsetting: 300 * ONE,
            offsetting: 200 * ONE,
            delay: 15_000,
            delayoff: 15_000,
            deadtime: 300_000,
            ptphase: 1,
            ctphase: 1,
        }
    }

    /// The same control.
    pub fn copied(&self) -> Result<CapControl, AllocError>
        ensures { IfOk result (λ copy. copy ≡ self.now) }
    {
        Ok(CapControl {
            place: self.place.clone()?,
            element: copied_text(&self.element)?,
            terminal: self.terminal,
            capacitor: copied_text(&self.capacitor)?,
            kind: self.kind,
            ptratio: self.ptratio,
            ctratio: self.ctratio,
            onsetting: self.onsetting,
            offsetting: self.offsetting,
            delay: self.delay,
            delayoff: self.delayoff,
            deadtime: self.deadtime,
            ptphase: self.ptphase,
            ctphase: self.ctphase,
        })
    }
}
