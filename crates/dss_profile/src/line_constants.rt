// Properties of the impedance and the charging of lines and of line codes.
ghost use Rattle.std.specs.Prelude.{◌≡◌};
ghost use Rattle.dss_values.specs.dss_model.Changes.{Becomes};
ghost use Rattle.dss_values.specs.dss_model.Names.{named};
ghost use Rattle.dss_profile.specs.LineConstants.{impedance_matrix_in, capacitance_matrix_in, is_impedance, with_constant, with_switch};
ghost use Rattle.dss_values.specs.dss_model.Answers.{Gives};

use dss_values::{
    DataForm, LineConstants, ModelError, Numbers, ONE, Pair, matrix_within, number_within,
};
use std::alloc::Global;

/// A property of the impedance or the charging of lines, for each unit of length.
#[derive(Clone, Copy)]
pub enum DataProperty {
    Rmatrix,
    Xmatrix,
    Cmatrix,
    R1,
    X1,
    R0,
    X0,
    C1,
    C0,
}

impl DataProperty {
    /// Whether it is a property of the impedance, and not of the charging.
    pub fn is_impedance(self) -> bool
        ensures { result ≡ is_impedance self }
    {
        match self {
            DataProperty::Rmatrix
            | DataProperty::Xmatrix
            | DataProperty::R1
            | DataProperty::X1
            | DataProperty::R0
            | DataProperty::X0 => true,
            DataProperty::Cmatrix | DataProperty::C1 | DataProperty::C0 => false,
        }
    }
}

/// A matrix of resistances or reactances, in ohm for each unit of length, each at most 10^4 in size.
#[tactic(auto, unfolding(crate::specs::LineConstants::impedance_matrix_in))]
pub fn impedance_matrix(alloc: Global, pair: &Pair) -> Result<Numbers, ModelError>
    ensures { Gives (λ m. m) result (impedance_matrix_in pair.now) }
{
    matrix_within(alloc, pair, -10_000 * ONE, 10_000 * ONE)
}

/// A matrix of capacitances, in nF for each unit of length, each at most 10^6 in size.
#[tactic(auto, unfolding(crate::specs::LineConstants::capacitance_matrix_in))]
pub fn capacitance_matrix(alloc: Global, pair: &Pair) -> Result<Numbers, ModelError>
    ensures { Gives (λ m. m) result (capacitance_matrix_in pair.now) }
{
    matrix_within(alloc, pair, -1_000_000 * ONE, 1_000_000 * ONE)
}

/// Sets one property. The last pair among matrices and sequence values decides which of them hold. After an `Err`
/// it is as before.
pub fn set_constant(
    alloc: Global,
    constants: &mut LineConstants,
    property: DataProperty,
    pair: &Pair,
) -> Result<(), ModelError>
    ensures { Becomes constants.old constants.new result (with_constant property pair.now constants.old) }
{
    match property {
        DataProperty::Rmatrix => {
            constants.rmatrix = Some(impedance_matrix(alloc, pair)?);
            constants.form = Some(DataForm::Matrix);
        }
        DataProperty::Xmatrix => {
            constants.xmatrix = Some(impedance_matrix(alloc, pair)?);
            constants.form = Some(DataForm::Matrix);
        }
        DataProperty::Cmatrix => {
            constants.cmatrix = Some(capacitance_matrix(alloc, pair)?);
            constants.charge_form = Some(DataForm::Matrix);
        }
        DataProperty::R1 => {
            constants.r1 = Some(number_within(alloc, pair, 0, 10_000 * ONE)?);
            constants.form = Some(DataForm::Sequence);
        }
        DataProperty::X1 => {
            constants.x1 = Some(number_within(alloc, pair, 0, 10_000 * ONE)?);
            constants.form = Some(DataForm::Sequence);
        }
        DataProperty::R0 => {
            constants.r0 = Some(number_within(alloc, pair, 0, 10_000 * ONE)?);
            constants.form = Some(DataForm::Sequence);
        }
        DataProperty::X0 => {
            constants.x0 = Some(number_within(alloc, pair, 0, 10_000 * ONE)?);
            constants.form = Some(DataForm::Sequence);
        }
        DataProperty::C1 => {
            constants.c1 = Some(number_within(alloc, pair, 0, 1_000_000 * ONE)?);
            constants.charge_form = Some(DataForm::Sequence);
        }
        DataProperty::C0 => {
            constants.c0 = Some(number_within(alloc, pair, 0, 1_000_000 * ONE)?);
            constants.charge_form = Some(DataForm::Sequence);
        }
    }
    Ok(())
}

/// Takes the sequence values of a switch.
pub fn make_switch(constants: &mut LineConstants)
    ensures { constants.new ≡ with_switch constants.old }
{
    constants.r1 = Some(ONE);
    constants.x1 = Some(ONE);
    constants.r0 = Some(ONE);
    constants.x0 = Some(ONE);
    constants.c1 = Some(1_100_000_000);
    constants.c0 = Some(ONE);
    constants.form = Some(DataForm::Sequence);
    constants.charge_form = Some(DataForm::Sequence);
}
