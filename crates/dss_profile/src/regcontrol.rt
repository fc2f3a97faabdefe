// Properties of controls of regulators.
ghost use Rattle.std.specs.Prelude.{◌≡◌};
ghost use Rattle.dss_values.specs.dss_model.Changes.{Becomes};
ghost use Rattle.dss_values.specs.dss_model.Names.{named};
ghost use Rattle.dss_profile.specs.RegControl.{regcontrol_properties, with_regcontrol};

use dss_values::{
    ModelError, ONE, Pair, RegControl, find_named, found_name, milliseconds, number_within, phase,
    whole_within,
};
use std::alloc::Global;

/// A property of a RegControl.
#[derive(Clone, Copy)]
pub enum RegControlProperty {
    Transformer,
    Winding,
    Vreg,
    Band,
    Ptratio,
    Ctprim,
    R,
    X,
    Delay,
    Tapdelay,
    Maxtapchange,
    Ptphase,
}

const REGCONTROL_PROPERTIES: [(&str, RegControlProperty); 12] = [
    ("transformer", RegControlProperty::Transformer),
    ("winding", RegControlProperty::Winding),
    ("vreg", RegControlProperty::Vreg),
    ("band", RegControlProperty::Band),
    ("ptratio", RegControlProperty::Ptratio),
    ("ctprim", RegControlProperty::Ctprim),
    ("r", RegControlProperty::R),
    ("x", RegControlProperty::X),
    ("delay", RegControlProperty::Delay),
    ("tapdelay", RegControlProperty::Tapdelay),
    ("maxtapchange", RegControlProperty::Maxtapchange),
    ("ptphase", RegControlProperty::Ptphase),
];

/// The property of a name in lower case.
pub fn regcontrol_property(name: &str) -> Option<RegControlProperty>
    ensures { result ≡ named regcontrol_properties name.now }
{
    find_named(&REGCONTROL_PROPERTIES, name)
}

/// Sets one property of a control of a regulator. After an `Err` it is as before.
/// `found` says whether the Transformer that the pair names is there.
pub fn set_regcontrol(
    alloc: Global,
    control: &mut RegControl,
    property: RegControlProperty,
    pair: &Pair,
    found: bool,
) -> Result<(), ModelError>
    ensures { Becomes control.old control.new result (with_regcontrol found property pair.now control.old) }
{
    match property {
        RegControlProperty::Transformer => control.transformer = Some(found_name(
            alloc, pair, found,
        )?),
        RegControlProperty::Winding => control.winding = whole_within(alloc, pair, 1, 2)?,
        RegControlProperty::Vreg => control.vreg = number_within(
            alloc,
            pair,
            ONE,
            1_000_000 * ONE,
        )?,
        RegControlProperty::Band => {
            control.band = number_within(alloc, pair, 1_000_000, 1000 * ONE)?;
        }
        RegControlProperty::Ptratio => {
            control.ptratio = number_within(alloc, pair, 1_000_000, 1_000_000 * ONE)?;
        }
        RegControlProperty::Ctprim => {
            control.ctprim = number_within(alloc, pair, 1_000_000, 1_000_000 * ONE)?;
        }
        RegControlProperty::R => control.r = number_within(alloc, pair, -1000 * ONE, 1000 * ONE)?,
        RegControlProperty::X => control.x = number_within(alloc, pair, -1000 * ONE, 1000 * ONE)?,
        RegControlProperty::Delay => control.delay = milliseconds(alloc, pair)?,
        RegControlProperty::Tapdelay => control.tapdelay = milliseconds(alloc, pair)?,
        RegControlProperty::Maxtapchange => control.maxtapchange = whole_within(
            alloc, pair, 1, 1000,
        )?,
        RegControlProperty::Ptphase => control.ptphase = phase(alloc, pair)?,
    }
    Ok(())
}
