// Properties of shapes of loads over a day.
ghost use Rattle.std.specs.Prelude.{◌≡◌};
ghost use Rattle.dss_values.specs.dss_model.Changes.{Becomes};
ghost use Rattle.dss_values.specs.dss_model.Names.{named};
ghost use Rattle.dss_profile.specs.Loadshape.{loadshape_properties, with_loadshape};

use dss_values::{
    Loadshape, ModelError, ONE, Pair, find_named, numbers_within, supported_of, whole_within,
};
use std::alloc::Global;

/// A property of a Loadshape.
#[derive(Clone, Copy)]
pub enum LoadshapeProperty {
    Npts,
    Interval,
    Mult,
}

const LOADSHAPE_PROPERTIES: [(&str, LoadshapeProperty); 3] = [
    ("npts", LoadshapeProperty::Npts),
    ("interval", LoadshapeProperty::Interval),
    ("mult", LoadshapeProperty::Mult),
];

/// The property of a name in lower case.
pub fn loadshape_property(name: &str) -> Option<LoadshapeProperty>
    ensures { result ≡ named loadshape_properties name.now }
{
    find_named(&LOADSHAPE_PROPERTIES, name)
}

/// Sets one property of a load shape. After an `Err` it is as before.
pub fn set_loadshape(
    alloc: Global,
    shape: &mut Loadshape,
    property: LoadshapeProperty,
    pair: &Pair,
) -> Result<(), ModelError>
    ensures { Becomes shape.old shape.new result (with_loadshape property pair.now shape.old) }
{
    match property {
        LoadshapeProperty::Npts => shape.npts = whole_within(alloc, pair, 0, 8760)?,
        LoadshapeProperty::Interval => shape.interval = supported_of(alloc, pair, &[1])?,
        LoadshapeProperty::Mult => shape.mult = numbers_within(alloc, pair, 0, 1000 * ONE)?,
    }
    Ok(())
}
