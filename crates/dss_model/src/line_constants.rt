// Impedance and charging of lines and of line codes.
ghost use Rattle.std.specs.Prelude.{◌≡◌, IfOk};
ghost use Rattle.dss_model.specs.Defaults.{fresh_constants};

use crate::copies::copied_numbers;
use crate::{DataForm, Numbers};
use std::alloc::AllocError;

/// Impedance and charging of a line. Numbers are whole 10^-9, impedances in ohm and capacitances in nF for each unit
/// of length.
#[derive(Drop)]
pub struct LineConstants {
    /// Series resistance: a whole square matrix, row by row, where it was given.
    pub rmatrix: Option<Numbers>,
    /// Series reactance, as rmatrix.
    pub xmatrix: Option<Numbers>,
    /// Capacitance, as rmatrix.
    pub cmatrix: Option<Numbers>,
    /// Sequence values, where they were given.
    pub r1: Option<i128>,
    pub x1: Option<i128>,
    pub r0: Option<i128>,
    pub x0: Option<i128>,
    pub c1: Option<i128>,
    pub c0: Option<i128>,
    /// Which impedance holds; none where none was given.
    pub form: Option<DataForm>,
    /// Which charging holds; none where none was given, and then there is none.
    pub charge_form: Option<DataForm>,
}

impl LineConstants {
    /// No impedance and no charging.
    pub fn fresh() -> Self
        ensures { result ≡ fresh_constants }
    {
        LineConstants {
            rmatrix: None,
            xmatrix: None,
            cmatrix: None,
            r1: None,
            x1: None,
            r0: None,
            x0: None,
            c1: None,
            c0: None,
            form: None,
            charge_form: None,
        }
    }

    /// The same impedance and charging.
    pub fn copied(&self) -> Result<LineConstants, AllocError>
        ensures { IfOk result (λ copy. copy ≡ self.now) }
    {
        Ok(LineConstants {
            rmatrix: copied_numbers(&self.rmatrix)?,
            xmatrix: copied_numbers(&self.xmatrix)?,
            cmatrix: copied_numbers(&self.cmatrix)?,
            r1: self.r1,
            x1: self.x1,
            r0: self.r0,
            x0: self.x0,
            c1: self.c1,
            c0: self.c0,
            form: self.form,
            charge_form: self.charge_form,
        })
    }
}
