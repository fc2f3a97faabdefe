// Properties of banks of capacitors.
ghost use Rattle.std.specs.Prelude.{◌≡◌};
ghost use Rattle.dss_values.specs.dss_model.Changes.{Becomes};
ghost use Rattle.dss_values.specs.dss_model.Names.{named};
ghost use Rattle.dss_profile.specs.Capacitor.{capacitor_properties, with_capacitor};

use dss_values::{
    Capacitor, ModelError, ModelFault, ONE, Pair, bank_state, bus_value, connection, find_named,
    number_value, number_within, supported_of, whole_of,
};
use std::alloc::Global;

/// A property of a Capacitor.
#[derive(Clone, Copy)]
pub enum CapacitorProperty {
    Bus1,
    Bus2,
    Phases,
    Kvar,
    Kv,
    Conn,
    Numsteps,
    States,
    Basefreq,
}

const CAPACITOR_PROPERTIES: [(&str, CapacitorProperty); 9] = [
    ("bus1", CapacitorProperty::Bus1),
    ("bus2", CapacitorProperty::Bus2),
    ("phases", CapacitorProperty::Phases),
    ("kvar", CapacitorProperty::Kvar),
    ("kv", CapacitorProperty::Kv),
    ("conn", CapacitorProperty::Conn),
    ("numsteps", CapacitorProperty::Numsteps),
    ("states", CapacitorProperty::States),
    ("basefreq", CapacitorProperty::Basefreq),
];

/// The property of a name in lower case.
pub fn capacitor_property(name: &str) -> Option<CapacitorProperty>
    ensures { result ≡ named capacitor_properties name.now }
{
    find_named(&CAPACITOR_PROPERTIES, name)
}

/// Sets one property of a bank. After an `Err` it is as before.
/// `solves` is the number of Solves that were applied so far.
pub fn set_capacitor(
    alloc: Global,
    bank: &mut Capacitor,
    property: CapacitorProperty,
    pair: &Pair,
    solves: u32,
) -> Result<(), ModelError>
    ensures { Becomes bank.old bank.new result (with_capacitor solves property pair.now bank.old) }
{
    match property {
        CapacitorProperty::Bus1 => bank.bus1 = Some(bus_value(alloc, pair)?),
        CapacitorProperty::Bus2 => return Err(ModelError::Fault(ModelFault::Unsupported)),
        CapacitorProperty::Phases => bank.phases = whole_of(alloc, pair, &[1, 3])?,
        CapacitorProperty::Kvar => bank.kvar = number_within(alloc, pair, 0, 100_000 * ONE)?,
        CapacitorProperty::Kv => bank.kv = number_within(alloc, pair, ONE / 100, 1000 * ONE)?,
        CapacitorProperty::Conn => bank.conn = connection(alloc, pair)?,
        CapacitorProperty::Numsteps => bank.numsteps = supported_of(alloc, pair, &[1])?,
        CapacitorProperty::States => {
            bank.states = bank_state(alloc, pair)?;
            bank.set_at = solves;
        }
        CapacitorProperty::Basefreq => bank.basefreq = Some(number_value(alloc, pair)?),
    }
    Ok(())
}
