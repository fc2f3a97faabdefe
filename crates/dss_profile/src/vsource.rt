// Properties of voltage sources.
ghost use Rattle.std.specs.Prelude.{◌≡◌};
ghost use Rattle.dss_values.specs.dss_model.Changes.{Becomes};
ghost use Rattle.dss_values.specs.dss_model.Names.{named};
ghost use Rattle.dss_profile.specs.Vsource.{vsource_properties, with_vsource};

use dss_values::{
    ModelError, ONE, Pair, SourceForm, Vsource, angle, bus_value, find_named, number_value,
    number_within, ratio, whole_of,
};
use std::alloc::Global;

/// A property of a Vsource.
#[derive(Clone, Copy)]
pub enum VsourceProperty {
    Bus1,
    Phases,
    Basekv,
    Pu,
    Angle,
    Mvasc3,
    Mvasc1,
    X1r1,
    X0r0,
    R1,
    X1,
    R0,
    X0,
    Basefreq,
}

const VSOURCE_PROPERTIES: [(&str, VsourceProperty); 14] = [
    ("bus1", VsourceProperty::Bus1),
    ("phases", VsourceProperty::Phases),
    ("basekv", VsourceProperty::Basekv),
    ("pu", VsourceProperty::Pu),
    ("angle", VsourceProperty::Angle),
    ("mvasc3", VsourceProperty::Mvasc3),
    ("mvasc1", VsourceProperty::Mvasc1),
    ("x1r1", VsourceProperty::X1r1),
    ("x0r0", VsourceProperty::X0r0),
    ("r1", VsourceProperty::R1),
    ("x1", VsourceProperty::X1),
    ("r0", VsourceProperty::R0),
    ("x0", VsourceProperty::X0),
    ("basefreq", VsourceProperty::Basefreq),
];

/// The property of a name in lower case.
pub fn vsource_property(name: &str) -> Option<VsourceProperty>
    ensures { result ≡ named vsource_properties name.now }
{
    find_named(&VSOURCE_PROPERTIES, name)
}

/// Sets one property of a source. After an `Err` it is as before.
pub fn set_vsource(
    alloc: Global,
    source: &mut Vsource,
    property: VsourceProperty,
    pair: &Pair,
) -> Result<(), ModelError>
    ensures { Becomes source.old source.new result (with_vsource property pair.now source.old) }
{
    match property {
        VsourceProperty::Bus1 => source.bus1 = bus_value(alloc, pair)?,
        VsourceProperty::Phases => source.phases = whole_of(alloc, pair, &[1, 3])?,
        VsourceProperty::Basekv => {
            source.basekv = number_within(alloc, pair, 1_000_000, 1000 * ONE)?;
        }
        VsourceProperty::Pu => source.pu = number_within(alloc, pair, 0, 2 * ONE)?,
        VsourceProperty::Angle => source.angle = angle(alloc, pair)?,
        VsourceProperty::Mvasc3 => {
            source.mvasc3 = number_within(alloc, pair, 1_000_000, 1_000_000 * ONE)?;
            source.form = SourceForm::ShortCircuit;
        }
        VsourceProperty::Mvasc1 => {
            source.mvasc1 = number_within(alloc, pair, 1_000_000, 1_000_000 * ONE)?;
            source.form = SourceForm::ShortCircuit;
        }
        VsourceProperty::X1r1 => source.x1r1 = ratio(alloc, pair)?,
        VsourceProperty::X0r0 => source.x0r0 = ratio(alloc, pair)?,
        VsourceProperty::R1 => {
            source.r1 = Some(number_within(alloc, pair, 0, 10_000 * ONE)?);
            source.form = SourceForm::Ohms;
        }
        VsourceProperty::X1 => {
            source.x1 = Some(number_within(alloc, pair, 0, 10_000 * ONE)?);
            source.form = SourceForm::Ohms;
        }
        VsourceProperty::R0 => {
            source.r0 = Some(number_within(alloc, pair, 0, 10_000 * ONE)?);
            source.form = SourceForm::Ohms;
        }
        VsourceProperty::X0 => {
            source.x0 = Some(number_within(alloc, pair, 0, 10_000 * ONE)?);
            source.form = SourceForm::Ohms;
        }
        VsourceProperty::Basefreq => source.basefreq = Some(number_value(alloc, pair)?),
    }
    Ok(())
}
