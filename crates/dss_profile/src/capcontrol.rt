// Properties of controls of banks of capacitors.
ghost use Rattle.std.specs.Prelude.{◌≡◌};
ghost use Rattle.dss_values.specs.dss_model.Changes.{Becomes};
ghost use Rattle.dss_values.specs.dss_model.Names.{named};
ghost use Rattle.dss_profile.specs.CapControl.{capcontrol_properties, with_capcontrol};

use dss_values::{
    CapControl, ModelError, ONE, Pair, find_named, found_line_name, found_name, milliseconds,
    number_within, phase, quantity, whole_within,
};
use std::alloc::Global;

/// A property of a CapControl.
#[derive(Clone, Copy)]
pub enum CapControlProperty {
    Element,
    Terminal,
    Capacitor,
    Kind,
    Ptratio,
    Ctratio,
    Onsetting,
    Offsetting,
    Delay,
    Delayoff,
    Deadtime,
    Ptphase,
    Ctphase,
}

const CAPCONTROL_PROPERTIES: [(&str, CapControlProperty); 13] = [
    ("element", CapControlProperty::Element),
    ("terminal", CapControlProperty::Terminal),
    ("capacitor", CapControlProperty::Capacitor),
    ("type", CapControlProperty::Kind),
    ("ptratio", CapControlProperty::Ptratio),
    ("ctratio", CapControlProperty::Ctratio),
    ("onsetting", CapControlProperty::Onsetting),
    ("offsetting", CapControlProperty::Offsetting),
    ("delay", CapControlProperty::Delay),
    ("delayoff", CapControlProperty::Delayoff),
    ("deadtime", CapControlProperty::Deadtime),
    ("ptphase", CapControlProperty::Ptphase),
    ("ctphase", CapControlProperty::Ctphase),
];

/// The property of a name in lower case.
pub fn capcontrol_property(name: &str) -> Option<CapControlProperty>
    ensures { result ≡ named capcontrol_properties name.now }
{
    find_named(&CAPCONTROL_PROPERTIES, name)
}

/// Sets one property of a control of a bank. After an `Err` it is as before.
/// `found` says whether the element that the pair names is there.
pub fn set_capcontrol(
    alloc: Global,
    control: &mut CapControl,
    property: CapControlProperty,
    pair: &Pair,
    found: bool,
) -> Result<(), ModelError>
    ensures { Becomes control.old control.new result (with_capcontrol found property pair.now control.old) }
{
    match property {
        CapControlProperty::Element => control.element = Some(found_line_name(alloc, pair, found)?),
        CapControlProperty::Terminal => control.terminal = whole_within(alloc, pair, 1, 2)?,
        CapControlProperty::Capacitor => control.capacitor = Some(found_name(alloc, pair, found)?),
        CapControlProperty::Kind => control.kind = quantity(alloc, pair)?,
        CapControlProperty::Ptratio => {
            control.ptratio = number_within(alloc, pair, 1_000_000, 1_000_000 * ONE)?;
        }
        CapControlProperty::Ctratio => {
            control.ctratio = number_within(alloc, pair, 1_000_000, 1_000_000 * ONE)?;
        }
        CapControlProperty::Onsetting => {
            control.onsetting = number_within(alloc, pair, -1_000_000 * ONE, 1_000_000 * ONE)?;
        }
        CapControlProperty::Offsetting => {
            control.offsetting = number_within(alloc, pair, -1_000_000 * ONE, 1_000_000 * ONE)?;
        }
        CapControlProperty::Delay => control.delay = milliseconds(alloc, pair)?,
        CapControlProperty::Delayoff => control.delayoff = milliseconds(alloc, pair)?,
        CapControlProperty::Deadtime => control.deadtime = milliseconds(alloc, pair)?,
        CapControlProperty::Ptphase => control.ptphase = phase(alloc, pair)?,
        CapControlProperty::Ctphase => control.ctphase = phase(alloc, pair)?,
    }
    Ok(())
}
