// Properties of lines.
ghost use Rattle.std.specs.Prelude.{◌≡◌, IfErr, OnOk};
ghost use Rattle.dss_values.specs.dss_model.Changes.{Becomes};
ghost use Rattle.dss_values.specs.dss_model.Names.{named};
ghost use Rattle.dss_profile.specs.Line.{line_properties, with_code, with_code_in, switched, with_line_data, with_line};
ghost use Rattle.std.specs.Option.{option_copied};

use crate::DataProperty;
use crate::line_constants::{make_switch, set_constant};
use dss_values::{
    Line, Linecode, ModelError, ModelFault, ONE, Pair, Text, Units, bus_value, find_named,
    length_unit, name, number_value, number_within, truth, whole_within,
};
use std::alloc::{AllocError, Global};

/// A property of a Line.
#[derive(Clone, Copy)]
pub enum LineProperty {
    Bus1,
    Bus2,
    Phases,
    Linecode,
    Length,
    Units,
    /// A property of the impedance or the charging.
    Data(DataProperty),
    Switch,
    Basefreq,
    Ignored,
}

const LINE_PROPERTIES: [(&str, LineProperty); 22] = [
    ("bus1", LineProperty::Bus1),
    ("bus2", LineProperty::Bus2),
    ("phases", LineProperty::Phases),
    ("linecode", LineProperty::Linecode),
    ("length", LineProperty::Length),
    ("units", LineProperty::Units),
    ("rmatrix", LineProperty::Data(DataProperty::Rmatrix)),
    ("xmatrix", LineProperty::Data(DataProperty::Xmatrix)),
    ("cmatrix", LineProperty::Data(DataProperty::Cmatrix)),
    ("r1", LineProperty::Data(DataProperty::R1)),
    ("x1", LineProperty::Data(DataProperty::X1)),
    ("r0", LineProperty::Data(DataProperty::R0)),
    ("x0", LineProperty::Data(DataProperty::X0)),
    ("c1", LineProperty::Data(DataProperty::C1)),
    ("c0", LineProperty::Data(DataProperty::C0)),
    ("switch", LineProperty::Switch),
    ("basefreq", LineProperty::Basefreq),
    ("normamps", LineProperty::Ignored),
    ("emergamps", LineProperty::Ignored),
    ("faultrate", LineProperty::Ignored),
    ("pctperm", LineProperty::Ignored),
    ("repair", LineProperty::Ignored),
];

/// The property of a name in lower case.
pub fn line_property(name: &str) -> Option<LineProperty>
    ensures { result ≡ named line_properties name.now }
{
    find_named(&LINE_PROPERTIES, name)
}

// Takes the data of a line code, with its phases and its unit.
fn take_code(line: &mut Line, name: Text, code: &Linecode) -> Result<(), AllocError>
    ensures taken { OnOk result (line.new ≡ with_code name code.now line.old) }
    ensures as_before { IfErr result (λ _. line.new ≡ line.old) }
{
    let constants = code.constants.copied()?;
    line.linecode = Some(name);
    line.phases = code.nphases;
    line.constants = constants;
    line.code_units = code.units;
    Ok(())
}

fn copy_code(
    alloc: Global,
    line: &mut Line,
    pair: &Pair,
    code: Option<&Linecode>,
) -> Result<(), ModelError>
    ensures { Becomes line.old line.new result (with_code_in (option_copied code.entry) pair.now line.old) }
{
    let name = name(alloc, pair)?;
    match code {
        Some(code) => Ok(take_code(line, name, code)?),
        None => Err(ModelError::Fault(ModelFault::UnknownName)),
    }
}

fn set_switch(line: &mut Line, on: bool)
    ensures { line.new ≡ switched on line.old }
{
    line.switch = on;
    if on {
        make_switch(&mut line.constants);
        line.length = 1_000_000;
        line.units = Units::None;
        line.code_units = Units::None;
    }
}

// Sets a property of the line's own impedance or charging. An impedance of the line's own has no unit.
fn set_data(
    alloc: Global,
    line: &mut Line,
    property: DataProperty,
    pair: &Pair,
) -> Result<(), ModelError>
    ensures { Becomes line.old line.new result (with_line_data property pair.now line.old) }
{
    set_constant(alloc, &mut line.constants, property, pair)?;
    if property.is_impedance() {
        line.code_units = Units::None;
    }
    Ok(())
}

/// Sets one property of a line. After an `Err` it is as before.
/// `code` is the line code that the pair names, where there is one.
pub fn set_line(
    alloc: Global,
    line: &mut Line,
    property: LineProperty,
    pair: &Pair,
    code: Option<&Linecode>,
) -> Result<(), ModelError>
    ensures { Becomes line.old line.new result (with_line (option_copied code.entry) property pair.now line.old) }
{
    match property {
        LineProperty::Bus1 => line.bus1 = Some(bus_value(alloc, pair)?),
        LineProperty::Bus2 => line.bus2 = Some(bus_value(alloc, pair)?),
        LineProperty::Phases => line.phases = whole_within(alloc, pair, 1, 3)?,
        LineProperty::Linecode => copy_code(alloc, line, pair, code)?,
        LineProperty::Length => line.length = number_within(alloc, pair, 0, 1_000_000 * ONE)?,
        LineProperty::Units => line.units = length_unit(alloc, pair)?,
        LineProperty::Data(property) => set_data(alloc, line, property, pair)?,
        LineProperty::Switch => set_switch(line, truth(alloc, pair)?),
        LineProperty::Basefreq => line.basefreq = Some(number_value(alloc, pair)?),
        LineProperty::Ignored => {}
    }
    Ok(())
}
