// Properties of line codes.
ghost use Rattle.std.specs.Prelude.{◌≡◌};
ghost use Rattle.dss_values.specs.dss_model.Changes.{Becomes};
ghost use Rattle.dss_values.specs.dss_model.Names.{named};
ghost use Rattle.dss_profile.specs.Linecode.{linecode_properties, with_linecode};

use crate::DataProperty;
use crate::line_constants::set_constant;
use dss_values::{Linecode, ModelError, Pair, find_named, length_unit, number_value, whole_within};
use std::alloc::Global;

/// A property of a Linecode.
#[derive(Clone, Copy)]
pub enum LinecodeProperty {
    Nphases,
    /// A property of the impedance or the charging.
    Data(DataProperty),
    Units,
    Basefreq,
    Ignored,
}

const LINECODE_PROPERTIES: [(&str, LinecodeProperty); 17] = [
    ("nphases", LinecodeProperty::Nphases),
    ("rmatrix", LinecodeProperty::Data(DataProperty::Rmatrix)),
    ("xmatrix", LinecodeProperty::Data(DataProperty::Xmatrix)),
    ("cmatrix", LinecodeProperty::Data(DataProperty::Cmatrix)),
    ("r1", LinecodeProperty::Data(DataProperty::R1)),
    ("x1", LinecodeProperty::Data(DataProperty::X1)),
    ("r0", LinecodeProperty::Data(DataProperty::R0)),
    ("x0", LinecodeProperty::Data(DataProperty::X0)),
    ("c1", LinecodeProperty::Data(DataProperty::C1)),
    ("c0", LinecodeProperty::Data(DataProperty::C0)),
    ("units", LinecodeProperty::Units),
    ("basefreq", LinecodeProperty::Basefreq),
    ("normamps", LinecodeProperty::Ignored),
    ("emergamps", LinecodeProperty::Ignored),
    ("faultrate", LinecodeProperty::Ignored),
    ("pctperm", LinecodeProperty::Ignored),
    ("repair", LinecodeProperty::Ignored),
];

/// The property of a name in lower case.
pub fn linecode_property(name: &str) -> Option<LinecodeProperty>
    ensures { result ≡ named linecode_properties name.now }
{
    find_named(&LINECODE_PROPERTIES, name)
}

/// Sets one property of a line code. After an `Err` it is as before.
pub fn set_linecode(
    alloc: Global,
    code: &mut Linecode,
    property: LinecodeProperty,
    pair: &Pair,
) -> Result<(), ModelError>
    ensures { Becomes code.old code.new result (with_linecode property pair.now code.old) }
{
    match property {
        LinecodeProperty::Nphases => code.nphases = whole_within(alloc, pair, 1, 3)?,
        LinecodeProperty::Data(property) => set_constant(
            alloc,
            &mut code.constants,
            property,
            pair,
        )?,
        LinecodeProperty::Units => code.units = length_unit(alloc, pair)?,
        LinecodeProperty::Basefreq => code.basefreq = Some(number_value(alloc, pair)?),
        LinecodeProperty::Ignored => {}
    }
    Ok(())
}
