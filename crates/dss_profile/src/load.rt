// Properties of loads.
ghost use Rattle.std.specs.Prelude.{◌≡◌};
ghost use Rattle.dss_values.specs.dss_model.Changes.{Becomes};
ghost use Rattle.dss_values.specs.dss_model.Names.{named};
ghost use Rattle.dss_profile.specs.Load.{load_properties, model_of as model_by_number, with_load};

use dss_values::{
    Load, LoadKind, ModelError, ONE, Pair, ReactiveRule, bus_value, connection, find_named,
    found_name, number_value, number_within, power_factor, shares, supported_of, whole_of,
};
use std::alloc::Global;

/// A property of a Load.
#[derive(Clone, Copy)]
pub enum LoadProperty {
    Bus1,
    Phases,
    Kv,
    Kw,
    Pf,
    Kvar,
    Model,
    Zipv,
    Conn,
    Vminpu,
    Vmaxpu,
    Daily,
    Basefreq,
    Ignored,
}

const LOAD_PROPERTIES: [(&str, LoadProperty); 15] = [
    ("bus1", LoadProperty::Bus1),
    ("phases", LoadProperty::Phases),
    ("kv", LoadProperty::Kv),
    ("kw", LoadProperty::Kw),
    ("pf", LoadProperty::Pf),
    ("kvar", LoadProperty::Kvar),
    ("model", LoadProperty::Model),
    ("zipv", LoadProperty::Zipv),
    ("conn", LoadProperty::Conn),
    ("vminpu", LoadProperty::Vminpu),
    ("vmaxpu", LoadProperty::Vmaxpu),
    ("daily", LoadProperty::Daily),
    ("basefreq", LoadProperty::Basefreq),
    ("class", LoadProperty::Ignored),
    ("numcust", LoadProperty::Ignored),
];

/// The property of a name in lower case.
pub fn load_property(name: &str) -> Option<LoadProperty>
    ensures { result ≡ named load_properties name.now }
{
    find_named(&LOAD_PROPERTIES, name)
}

// The model of one of its numbers: constant power is 1, constant impedance 2, constant current 5, shares of the three 8.
fn model_of(number: u32) -> LoadKind
    ensures { result ≡ model_by_number number }
{
    match number {
        1 => LoadKind::ConstantPower,
        2 => LoadKind::ConstantImpedance,
        5 => LoadKind::ConstantCurrent,
        _ => LoadKind::Zip,
    }
}

/// Sets one property of a load. After an `Err` it is as before.
/// `found` says whether the load shape that the pair names is there.
pub fn set_load(
    alloc: Global,
    load: &mut Load,
    property: LoadProperty,
    pair: &Pair,
    found: bool,
) -> Result<(), ModelError>
    ensures { Becomes load.old load.new result (with_load found property pair.now load.old) }
{
    match property {
        LoadProperty::Bus1 => load.bus1 = Some(bus_value(alloc, pair)?),
        LoadProperty::Phases => load.phases = whole_of(alloc, pair, &[1, 3])?,
        LoadProperty::Kv => load.kv = number_within(alloc, pair, ONE / 100, 1000 * ONE)?,
        LoadProperty::Kw => {
            load.kw = number_within(alloc, pair, -300_000 * ONE, 300_000 * ONE)?;
        }
        LoadProperty::Pf => {
            load.pf = power_factor(alloc, pair)?;
            load.reactive = ReactiveRule::PowerFactor;
        }
        LoadProperty::Kvar => {
            load.kvar = Some(number_within(alloc, pair, -300_000 * ONE, 300_000 * ONE)?);
            load.reactive = ReactiveRule::Kvar;
        }
        LoadProperty::Model => load.model = model_of(supported_of(alloc, pair, &[1, 2, 5, 8])?),
        LoadProperty::Zipv => load.zipv = Some(shares(alloc, pair)?),
        LoadProperty::Conn => load.conn = connection(alloc, pair)?,
        LoadProperty::Vminpu => load.vminpu = number_within(alloc, pair, 400_000_000, ONE)?,
        LoadProperty::Vmaxpu => load.vmaxpu = number_within(alloc, pair, ONE, 2 * ONE)?,
        LoadProperty::Daily => load.daily = Some(found_name(alloc, pair, found)?),
        LoadProperty::Basefreq => load.basefreq = Some(number_value(alloc, pair)?),
        LoadProperty::Ignored => {}
    }
    Ok(())
}
