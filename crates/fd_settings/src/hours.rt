// The powers of loads at an hour of a day.
ghost use Rattle.std.specs.Prelude.{◌≡◌, ◌++◌, ◌%◌, pos, get_or, replicate, take, All, IfOk, IfSome, OnOk, Some, option_copied};
ghost use Rattle.std.specs.Map.{lookup};
ghost use Rattle.fd_devices.specs.dss_model.Ranges.{ones, IsBetween};
ghost use Rattle.fd_devices.specs.dss_model.InRange.{ElementInRange, LoadInRange, LoadshapeInRange};
ghost use Rattle.fd_devices.specs.dss_model.SameElement.{same_element};
ghost use Rattle.fd_devices.specs.dss_model.declared.names.Class.TheVariants as class;
ghost use Rattle.fd_devices.specs.dss_circuit.Lookups.{element_given};
ghost use Rattle.fd_devices.specs.Building.{IsModest};
ghost use Rattle.fd_settings.specs.Daily.{AreDaily, IsDaily, IsDailyAt, element_at};
ghost use Rattle.fd_settings.specs.Hours.{HoursLaw, element_powers, followed_point, hour_powers, point_at, repeated_point};
ghost use Rattle.fd_settings.specs.Snapshot.{power_of};

use fd_devices::{
    Circuit, Class, Element, ElementName, Load, LoadPower, LoadPowers, Loadshape, Powers, Text,
    load_power,
};
use indexmap::IndexMap;
use std::alloc::{AllocError, Global};

// 1 as the point of a load shape, in 10^-9
const ONE: i128 = 1_000_000_000;

// what stands for an element that is no load
const NO_LOAD: DailyLoad = DailyLoad {
    shape: None,
    base: LoadPower { p: 0, q: 0 },
};

/// What is kept of a load through the hours of a Solve: the place among the elements of the shape that it follows, where
/// it follows one, and the power of one of its phases where the point of that shape is 1.
#[derive(Clone, Copy, Debug)]
pub struct DailyLoad {
    pub shape: Option<usize>,
    pub base: LoadPower,
}

/// What is kept of a circuit's loads through the hours of a Solve: for each element in order that of a load. What stands
/// for another element counts for nothing.
#[derive(Drop)]
pub struct DailyLoads {
    pub each: Vec<DailyLoad>,
}

impl DailyLoads {
    /// The loads of a circuit.
    ///
    /// # Errors
    /// `AllocError` where the memory is refused.
    pub fn of(alloc: Global, circuit: &Circuit) -> Result<DailyLoads, AllocError>
        ensures { IfOk result (λ d. AreDaily circuit.now.elements d.each.items) }
    {
        let mut each = Vec::new(alloc);
        let entries = circuit.elements().as_slice();
        for place in 0..entries.len() {
            let (_, element) = entries.get_index(place).unwrap();
            each.push(daily_load(circuit, element)?)?;
        }
        Ok(DailyLoads { each })
    }

    /// The power of each load phase at an hour, in order of definition, in whole thousandths of a volt-ampere: of the
    /// load's kw and its kvar or power factor times the point of its shape. Hour 0 is the snapshot, in which each point
    /// is 1. Hour 1 has the first point of a shape, and after the last its points begin anew; a load that names no shape
    /// keeps 1 (OpenDSS manual, Load `daily`).
    ///
    /// # Errors
    /// `AllocError` where the memory is refused.
    pub fn powers_at(
        &self,
        alloc: Global,
        circuit: &Circuit,
        hour: u32,
    ) -> Result<Powers, AllocError>
        requires { AreDaily circuit.now.elements self.now.each.items }
        ensures powers { IfOk result (λ p. p.loads ≡ hour_powers circuit.now.elements hour) }
        ensures modest { IfOk result (λ p. All IsModest p.loads) }
    {
        let each = self.each.as_slice();
        let mut powers = Vec::new(alloc);
        let entries = circuit.elements().as_slice();
        for place in 0..entries.len() {
            let (_, element) = entries.get_index(place).unwrap();
            add_powers(&mut powers, circuit, hour, element, each[place])?;
        }
        Ok(Powers {
            loads: LoadPowers::new(powers),
        })
    }
}

/// The same where one hour alone is asked for.
///
/// # Errors
/// `AllocError` where the memory is refused.
pub fn powers_at(alloc: Global, circuit: &Circuit, hour: u32) -> Result<Powers, AllocError>
    ensures powers { IfOk result (λ p. p.loads ≡ hour_powers circuit.now.elements hour) }
    ensures modest { IfOk result (λ p. All IsModest p.loads) }
{
    DailyLoads::of(alloc, circuit)?.powers_at(alloc, circuit, hour)
}

// What is kept of an element, if it is a load.
fn daily_load(circuit: &Circuit, element: &Element) -> Result<DailyLoad, AllocError>
    requires range { ElementInRange element.now }
    ensures { IfOk result (IsDailyAt circuit.now.elements element.now) }
{
    match element {
        Element::Load(load) => Ok(DailyLoad {
            shape: shape_place(circuit, &load.daily)?,
            base: phase_power(load, ONE),
        }),
        _ => Ok(NO_LOAD),
    }
}

// The powers of a load's phases.
fn add_powers(
    powers: &mut Vec<LoadPower>,
    circuit: &Circuit,
    hour: u32,
    element: &Element,
    own: DailyLoad,
) -> Result<(), AllocError>
    requires range { ElementInRange element.now }
    requires own { IsDailyAt circuit.now.elements element.now own }
    ensures powers { OnOk result (powers.new.items ≡ powers.old.items ++ element_powers circuit.now.elements hour element.now) }
    ensures modest { OnOk result (All IsModest powers.old.items → All IsModest powers.new.items) }
{
    if let Element::Load(load) = element {
        let power = load_power_at(circuit, load, own, hour);
        add_phases(powers, load.phases, power)?;
    }
    Ok(())
}

// The power of one phase of a load at an hour.
fn load_power_at(circuit: &Circuit, load: &Load, own: DailyLoad, hour: u32) -> LoadPower
    requires load { LoadInRange load.now }
    requires own { IsDaily circuit.now.elements load.now own }
    ensures value { result ≡ power_of load.now (point_at circuit.now.elements load.now hour) }
    ensures modest { IsModest result }
{
    let point = find_point(circuit, load, own, hour);
    if point == ONE {
        own.base
    } else {
        phase_power(load, point)
    }
}

// The same power for each of so many phases.
fn add_phases(powers: &mut Vec<LoadPower>, phases: u32, power: LoadPower) -> Result<(), AllocError>
    requires { IsModest power }
    ensures powers { OnOk result (powers.new.items ≡ powers.old.items ++ replicate phases power) }
    ensures modest { OnOk result (All IsModest powers.old.items → All IsModest powers.new.items) }
{
    for _ in 0..phases {
        powers.push(power)?;
    }
    Ok(())
}

// The power of one phase at a point of the shape.
fn phase_power(load: &Load, point: i128) -> LoadPower
    requires load { LoadInRange load.now }
    requires point { IsBetween (pos 0) (ones 1000) point }
    ensures value { result ≡ power_of load.now point }
    ensures modest { IsModest result }
{
    load_power(load, point)
}

// The point of a load's shape at an hour.
fn find_point(circuit: &Circuit, load: &Load, own: DailyLoad, hour: u32) -> i128
    requires { IsDaily circuit.now.elements load.now own }
    ensures value { result ≡ point_at circuit.now.elements load.now hour }
    ensures within { IsBetween (pos 0) (ones 1000) result }
{
    if hour == 0 {
        return ONE;
    }
    followed_point(shape_at(circuit, own.shape), hour - 1)
}

// The shape at a place among the elements, where there is one.
fn shape_at(circuit: &Circuit, shape: Option<usize>) -> Option<&Element>
    ensures found { option_copied result ≡ element_at circuit.now.elements shape }
    ensures in_range { IfSome (option_copied result) ElementInRange }
{
    match shape {
        Some(place) => element_in(circuit.elements(), place),
        None => None,
    }
}

// The element at a place, where there is one.
fn element_in(elements: &IndexMap<ElementName, Element>, place: usize) -> Option<&Element>
    ensures { option_copied result ≡ element_at elements.now.entries (Some place) }
{
    match elements.as_slice().get_index(place) {
        Some((_, element)) => Some(element),
        None => None,
    }
}

// The place of the shape that a load names, where it names one.
fn shape_place(circuit: &Circuit, daily: &Option<Text>) -> Result<Option<usize>, AllocError>
    ensures { IfOk result (λ o. element_at circuit.now.elements o ≡ element_given circuit.now.elements class.Loadshape daily.now) }
{
    match daily {
        Some(daily) => {
            let name = daily.clone()?;
            let class = Class::Loadshape;
            Ok(place_of(circuit.elements(), &ElementName { class, name }))
        }
        None => Ok(None),
    }
}

// The place of the element of a name.
fn place_of(elements: &IndexMap<ElementName, Element>, name: &ElementName) -> Option<usize>
    ensures { element_at elements.now.entries result ≡ lookup (same_element name.now) elements.now.entries }
{
    elements.get_index_of(name)
}

// The point of the shape that a load names, and 1 where it names none.
fn followed_point(shape: Option<&Element>, passed: u32) -> i128
    requires { IfSome (option_copied shape) ElementInRange }
    ensures value { result ≡ followed_point (option_copied shape.entry) passed }
    ensures within { IsBetween (pos 0) (ones 1000) result }
{
    match shape {
        Some(Element::Loadshape(shape)) => repeated_point(shape, passed),
        _ => ONE,
    }
}

// The point of a shape that many hours after the first.
fn repeated_point(shape: &Loadshape, passed: u32) -> i128
    requires { LoadshapeInRange shape.now }
    ensures value { result ≡ repeated_point shape.now passed }
    ensures within { IsBetween (pos 0) (ones 1000) result }
{
    repeated(shape.mult.as_slice(), shape.npts, passed)
}

// Of the first numbers, begun anew after the last, the one of that place; 0 where there is none.
fn repeated(numbers: &[i128], count: u32, place: u32) -> i128
    requires { All (IsBetween (pos 0) (ones 1000)) numbers.now }
    ensures value { result ≡ get_or (take count numbers.now) (place % count) (pos 0) }
    ensures within { IsBetween (pos 0) (ones 1000) result }
{
    if count == 0 {
        return 0;
    }
    match numbers.get((place % count) as usize) {
        Some(number) => *number,
        None => 0,
    }
}

/// The powers of hour 0 are those of the snapshot, and those of each hour are as many as the loads have phases.
pub fn hours_law()
    ensures { HoursLaw }
{}
