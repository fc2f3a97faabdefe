// The network of a circuit, built.
ghost use Rattle.std.specs.Prelude.{◌≡◌, ◌<◌, ◌≤◌, All, IfErr, IfOk, IfSome, IsOk, None, Some, length};
ghost use Rattle.std.specs.List.{flat_map};
ghost use Rattle.dss_ready.specs.dss_layout.Layout.{complex_count, first_too_many, layout_of, size_of};
ghost use Rattle.dss_ready.specs.dss_layout.Limits.{most_complex, most_magnitudes};
ghost use Rattle.dss_ready.specs.dss_layout.UnknownNames.{unknown_name};
ghost use Rattle.dss_ready.specs.dss_model.declared.fault.ModelFault.TheVariants as cause;
ghost use Rattle.dss_ready.specs.Ready.{HasPassed, blame_at};
ghost use Rattle.fd_devices.specs.fd_xfmr.Leakage.{AreTaps};
ghost use Rattle.fd_equations.specs.fd_pattern.Conditions.{IsNetwork};
ghost use Rattle.fd_equations.specs.fd_pattern.Patterns.{IsInside};
ghost use Rattle.fd_devices.specs.Building.{AreInRange, IsModest};
ghost use Rattle.fd_devices.specs.Devices.{AgreesWith};
ghost use Rattle.fd_devices.specs.Places.{ends_at};
ghost use Rattle.fd_devices.specs.Reach.{device_places};
ghost use Rattle.fd_devices.specs.Scripted.{circuit_network, circuit_parts, devices_of, layout_counts};
ghost use Rattle.fd_devices.specs.Settings.{AreSettings, settings_of};
ghost use Rattle.fd_network.specs.Assembled.{HaveRoom, IsAsBefore, parts_network};
ghost use Rattle.fd_network.specs.Built.{IsBuilt, IsBuiltOf};
ghost use Rattle.fd_network.specs.Faults.{IsFaultOf, range_blame};
ghost use Rattle.fd_network.specs.Former.{AreFormerFrom, former_at};
ghost use Rattle.fd_network.specs.Keeping.{AreKept, Reaches, room_for};
ghost use Rattle.fd_network.specs.Stamps.{extents_of};

use crate::assembly::{Lists, Parts, assemble};
use crate::blame::blame_range;
use crate::fault::PlaceFault;
use crate::keeping::{Made, keep};
use crate::room::{Room, room_of};
use dss_ready::{Circuit, Element, ElementName, Ends, Layout, Text};
use fd_devices::{BuildFault, Kept, Positions, Powers, SettingSlices};
use fd_equations::{Layout as Counts, Network as NetworkRows};
use indexmap::IndexMap;
use std::alloc::{AllocError, Global};
use std::marker::Model;

/// The network of a circuit: the stamps of its elements, with the positions of taps and banks and the powers of load
/// phases at which they stand. Its unknowns and rows are in the order of its layout: nodes in order of first mention, then
/// branch phases, then the magnitudes of loads with a part of constant current.
#[derive(Drop)]
pub struct Network {
    layout: Layout,
    counts: Counts,
    parts: Parts,
    kept: Vec<Kept>,
    room: Room,
    lists: Lists,
    at: Positions,
    powers: Powers,
}

impl Model for Network {
    ghost use Rattle.std.specs.Prelude.{◌≡◌};
    ghost use Rattle.dss_ready.specs.dss_layout.Layout.{size_of};
    ghost use Rattle.fd_devices.specs.Scripted.{layout_counts};
    ghost use Rattle.fd_devices.specs.Settings.{settings_of};
    ghost use Rattle.fd_network.specs.Assembled.{HaveRoom};
    ghost use Rattle.fd_network.specs.Built.{BuiltView, IsBuilt, built_of};
    ghost use Rattle.fd_network.specs.Former.{AreExact};

    ghost Value = { BuiltView };

    ghost view = { λ n. built_of n.layout n.counts n.parts (settings_of n.at n.powers) n.kept.items n.room };

    ghost invariant = { λ n. IsBuilt (built_of n.layout n.counts n.parts (settings_of n.at n.powers) n.kept.items n.room)
        × (n.parts.rows.size ≡ size_of n.layout) × (n.counts ≡ layout_counts n.layout) × HaveRoom n.room n.parts n.lists
        × AreExact n.parts };
}

impl Network {
    /// The network of a circuit with these positions of its taps and banks and these powers of its load phases.
    ///
    /// The circuit passed the tests of Solve, and the lists have its lengths. Taps are from 0.5 to 2, and powers at most 10^17
    /// thousandths of a volt-ampere in size.
    ///
    /// # Errors
    /// `Range` exactly where a contribution, or the sum of those at one place, is past 2^54 in units of 2^-40, or a load phase is past its
    /// limit: the first element, in order, that has such a contribution or such a phase, and where there is none the first with a
    /// contribution at a place with such a sum. `NoMemory` where memory is refused.
    pub fn build(
        alloc: Global,
        circuit: &Circuit,
        at: &Positions,
        powers: &Powers,
    ) -> Result<Network, BuildFault>
        requires ready { HasPassed circuit.now }
        requires settings { AreSettings circuit.now.elements (settings_of at.now powers.now) }
        requires within { All AreTaps at.now.taps }
        requires modest { All IsModest powers.now.loads }
        ensures network { IfOk result (λ n. n.rows ≡ circuit_network circuit.now (settings_of at.now powers.now)) }
        ensures settings { IfOk result (λ n. n.settings ≡ settings_of at.now powers.now) }
        ensures built { IfOk result (λ n. IsBuiltOf n circuit.now) }
        ensures agrees { IfOk result (λ n. AgreesWith n.rows.stamp
            (circuit_parts circuit.now (settings_of at.now powers.now))) }
        ensures in_range { IfOk result (λ n. AreInRange (devices_of circuit.now (settings_of at.now powers.now))) }
        ensures no_blame { IfOk result (λ n. range_blame circuit.now.elements (devices_of circuit.now (settings_of at.now powers.now)) ≡ None) }
        ensures fault { IfErr result (λ f. IsFaultOf (range_blame circuit.now.elements (devices_of circuit.now (settings_of at.now powers.now))) f) }
    {
        let own_at = at.copied()?;
        let own_powers = powers.copied()?;
        let layout = layout(alloc, circuit)?;
        let Assembly {
            parts,
            kept,
            room,
            lists,
        } = assembled(alloc, &layout, circuit, at, powers)?;
        let counts = counts(&layout);
        Ok(Network {
            layout,
            counts,
            parts,
            kept,
            room,
            lists,
            at: own_at,
            powers: own_powers,
        })
    }

    /// Makes the network of a circuit with other positions or powers what `build` gives for them. The stamps of elements that have the
    /// taps, state and powers that they had are left as they are. Takes no memory but for the name of the element to blame. After a
    /// refusal it is as before.
    ///
    /// # Errors
    /// `Range` exactly where `build` has it. `NoMemory` only there, where the memory for the name is refused.
    pub fn update(
        &mut self,
        circuit: &Circuit,
        at: &Positions,
        powers: &Powers,
    ) -> Result<(), BuildFault>
        requires ready { HasPassed circuit.now }
        requires settings { AreSettings circuit.now.elements (settings_of at.now powers.now) }
        requires within { All AreTaps at.now.taps }
        requires modest { All IsModest powers.now.loads }
        requires built { IsBuiltOf self.old circuit.now }
        ensures network { IfOk result (λ _. self.new.rows ≡ circuit_network circuit.now (settings_of at.now powers.now)) }
        ensures settings { IfOk result (λ _. self.new.settings ≡ settings_of at.now powers.now) }
        ensures built { IsBuiltOf self.new circuit.now }
        ensures agrees { IfOk result (λ _. AgreesWith self.new.rows.stamp
            (circuit_parts circuit.now (settings_of at.now powers.now))) }
        ensures in_range { IfOk result (λ _. AreInRange (devices_of circuit.now (settings_of at.now powers.now))) }
        ensures no_blame { IfOk result (λ _. range_blame circuit.now.elements (devices_of circuit.now (settings_of at.now powers.now)) ≡ None) }
        ensures fault { IfErr result (λ f. IsFaultOf (range_blame circuit.now.elements (devices_of circuit.now (settings_of at.now powers.now))) f) }
        ensures ok { AreInRange (devices_of circuit.now (settings_of at.now powers.now)) → IsOk result }
        ensures as_before { IfErr result (λ f. self.new ≡ self.old) }
    {
        let before = SettingSlices::of(&self.at, &self.powers);
        let filled = fill(
            &mut self.parts,
            &mut self.lists,
            &self.layout,
            &self.kept,
            circuit,
            at,
            powers,
            Some(before),
        );
        match filled {
            Ok(()) => {
                self.at.taps.replace(at.taps.as_slice());
                self.at.closed.replace(at.closed.as_slice());
                self.powers.loads.replace(powers.loads.as_slice());
                Ok(())
            }
            Err(fault) => Err(fault),
        }
    }

    /// Its rows, as the solver and the certificate ask for them. Takes no memory.
    pub fn rows(&self) -> NetworkRows<'_>
        ensures { result ≡ self.now.rows }
    {
        NetworkRows::new(
            self.counts,
            &self.parts.rows,
            &self.parts.constants,
            self.parts.draw,
        )
    }

    /// Where its unknowns stand.
    pub fn layout(&self) -> &Layout
        ensures { result.now ≡ self.now.layout }
    {
        &self.layout
    }

    /// How many real unknowns there are, and how many rows.
    pub fn size(&self) -> u32
        ensures rows { result ≡ self.now.rows.size }
        ensures layout { result ≡ size_of self.now.layout }
        ensures valid { IsBuilt self.now }
    {
        self.parts.rows.size()
    }

    /// The name of the real unknown at a place: a bus and a number, or an element and a phase, with `re`, `im` or `mag`.
    ///
    /// # Errors
    /// `AllocError` where the memory for the text is refused.
    pub fn name(&self, alloc: Global, place: u32) -> Result<Text, AllocError>
        requires { place < self.now.rows.size }
        ensures { IfOk result (λ name. unknown_name self.now.layout place ≡ Some name) }
    {
        self.layout.unknown_name(alloc, place as usize)
    }

    /// The nodes and the first branch of the element with this number in order, in the circuit of which the network was built. The branch
    /// of an element without branches is 0.
    ///
    /// # Errors
    /// `AllocError` where the memory is refused.
    pub fn ends_of(
        &self,
        alloc: Global,
        circuit: &Circuit,
        element: usize,
    ) -> Result<Ends, AllocError>
        requires element { element < length circuit.now.elements }
        requires built { IsBuiltOf self.now circuit.now }
        ensures { IfOk result (λ ends. ends_at circuit.now.elements element ≡ Some ends) }
    {
        let (_, own) = circuit.elements().as_slice().get_index(element).unwrap();
        self.layout.ends(alloc, element, own)
    }
}

// The parts of a network, with what is kept of its elements and the lists in which the parts are made anew.
#[derive(Drop)]
struct Assembly {
    parts: Parts,
    kept: Vec<Kept>,
    room: Room,
    lists: Lists,
}

// The parts of the network of a circuit in its layout.
fn assembled(
    alloc: Global,
    layout: &Layout,
    circuit: &Circuit,
    at: &Positions,
    powers: &Powers,
) -> Result<Assembly, BuildFault>
    requires layout { layout.now ≡ layout_of circuit.now.elements }
    requires ready { HasPassed circuit.now }
    requires settings { AreSettings circuit.now.elements (settings_of at.now powers.now) }
    requires within { All AreTaps at.now.taps }
    requires modest { All IsModest powers.now.loads }
    ensures network { IfOk result (λ a. parts_network layout.now a.parts ≡ circuit_network circuit.now (settings_of at.now powers.now)) }
    ensures valid { IfOk result (λ a. IsNetwork (parts_network layout.now a.parts)) }
    ensures agrees { IfOk result (λ a. AgreesWith (parts_network layout.now a.parts).stamp
        (circuit_parts circuit.now (settings_of at.now powers.now))) }
    ensures extents { IfOk result (λ a. a.parts.extents.items ≡ extents_of (devices_of circuit.now (settings_of at.now powers.now))) }
    ensures in_range { IfOk result (λ _. AreInRange (devices_of circuit.now (settings_of at.now powers.now))) }
    ensures fault { IfErr result (λ f. IsFaultOf (range_blame circuit.now.elements (devices_of circuit.now (settings_of at.now powers.now))) f) }
    ensures size { IfOk result (λ a. a.parts.rows.size ≡ size_of layout.now) }
    ensures kept { IfOk result (λ a. AreKept (layout_of circuit.now.elements) circuit.now.options.defaultbasefrequency circuit.now.elements a.kept.items) }
    ensures reach { IfOk result (λ a.
        Reaches (layout_of circuit.now.elements) circuit.now.options.defaultbasefrequency circuit.now.elements
        a.parts.rows.places) }
    ensures room { IfOk result (λ a. a.room ≡ room_for circuit.now.elements) }
    ensures roomy { IfOk result (λ a. HaveRoom a.room a.parts a.lists) }
{
    let Made { kept, places } = kept_in(alloc, layout, circuit, at, powers)?;
    let room = room_of(circuit.elements());
    let mut parts = Parts::reaching(alloc, layout, places, room)?;
    let mut lists = Lists::with_room(alloc, room)?;
    fill(
        &mut parts, &mut lists, layout, &kept, circuit, at, powers, None,
    )?;
    Ok(Assembly {
        parts,
        kept,
        room,
        lists,
    })
}

// What is kept of the elements of a circuit in its layout, with the places that they can reach.
fn kept_in(
    alloc: Global,
    layout: &Layout,
    circuit: &Circuit,
    at: &Positions,
    powers: &Powers,
) -> Result<Made, BuildFault>
    requires layout { layout.now ≡ layout_of circuit.now.elements }
    requires ready { HasPassed circuit.now }
    requires settings { AreSettings circuit.now.elements (settings_of at.now powers.now) }
    requires within { All AreTaps at.now.taps }
    requires modest { All IsModest powers.now.loads }
    ensures kept { IfOk result (λ m. AreKept (layout_of circuit.now.elements) circuit.now.options.defaultbasefrequency circuit.now.elements m.kept.items) }
    ensures places { IfOk result (λ m. m.places.items ≡ flat_map device_places (devices_of circuit.now (settings_of at.now powers.now))) }
    ensures inside { IfOk result (λ m. All (IsInside (size_of layout.now)) m.places.items) }
    ensures fault { IfErr result (λ f. IsFaultOf (range_blame circuit.now.elements (devices_of circuit.now (settings_of at.now powers.now))) f) }
{
    let settings = SettingSlices::of(at, powers);
    let elements = circuit.elements();
    let hertz = circuit.options().defaultbasefrequency;
    match keep(alloc, layout, hertz, elements, &settings) {
        Ok(made) => Ok(made),
        Err(PlaceFault::OutOfRange(place)) => Err(blamed(elements, place)),
        Err(PlaceFault::NoMemory) => Err(BuildFault::NoMemory),
    }
}

// Makes the parts those of the network of a circuit in its layout. Where they stand at settings already, the stamps of elements that have
// the same are left as they are. Takes no memory but for the name of the element to blame. After a refusal the parts are as before.
fn fill(
    parts: &mut Parts,
    lists: &mut Lists,
    layout: &Layout,
    kept: &[Kept],
    circuit: &Circuit,
    at: &Positions,
    powers: &Powers,
    before: Option<SettingSlices>,
) -> Result<(), BuildFault>
    requires layout { layout.now ≡ layout_of circuit.now.elements }
    requires ready { HasPassed circuit.now }
    requires settings { AreSettings circuit.now.elements (settings_of at.now powers.now) }
    requires within { All AreTaps at.now.taps }
    requires modest { All IsModest powers.now.loads }
    requires size { parts.old.rows.size ≡ size_of layout.now }
    requires kept { AreKept (layout_of circuit.now.elements) circuit.now.options.defaultbasefrequency circuit.now.elements kept.now }
    requires reach { Reaches (layout_of circuit.now.elements) circuit.now.options.defaultbasefrequency circuit.now.elements parts.old.rows.places }
    requires room { HaveRoom (room_for circuit.now.elements) parts.old lists.old }
    requires before { IfSome before (λ s. AreFormerFrom (layout_of circuit.now.elements) circuit.now.options.defaultbasefrequency 0
        circuit.now.elements (former_at parts.old s)) }
    ensures network { IfOk result (λ _. parts_network layout.now parts.new ≡ circuit_network circuit.now (settings_of at.now powers.now)) }
    ensures valid { IfOk result (λ _. IsNetwork (parts_network layout.now parts.new)) }
    ensures agrees { IfOk result (λ _. AgreesWith (parts_network layout.now parts.new).stamp
        (circuit_parts circuit.now (settings_of at.now powers.now))) }
    ensures extents { IfOk result (λ _. parts.new.extents.items
        ≡ extents_of (devices_of circuit.now (settings_of at.now powers.now))) }
    ensures in_range { IfOk result (λ _. AreInRange (devices_of circuit.now (settings_of at.now powers.now))) }
    ensures fault { IfErr result (λ f. IsFaultOf (range_blame circuit.now.elements (devices_of circuit.now (settings_of at.now powers.now))) f) }
    ensures ok { AreInRange (devices_of circuit.now (settings_of at.now powers.now)) → IsOk result }
    ensures as_before { IfErr result (λ f. IsAsBefore parts.old parts.new) }
    ensures size { parts.new.rows.size ≡ size_of layout.now }
    ensures places { parts.new.rows.places ≡ parts.old.rows.places }
    ensures room { HaveRoom (room_for circuit.now.elements) parts.new lists.new }
{
    let settings = SettingSlices::of(at, powers);
    let elements = circuit.elements();
    let hertz = circuit.options().defaultbasefrequency;
    match assemble(
        parts, lists, layout, hertz, elements, &settings, kept, before,
    ) {
        Ok(()) => Ok(()),
        Err(fault) => Err(blamed(elements, fault.0)),
    }
}

// The fault that names the element at a place in order.
fn blamed(elements: &IndexMap<ElementName, Element>, place: usize) -> BuildFault
    requires { place < length elements.now.entries }
    ensures { IsFaultOf (blame_at cause.Range elements.now.entries place) result }
{
    match blame_range(elements, place) {
        Ok(blame) => BuildFault::Range(blame),
        Err(_) => BuildFault::NoMemory,
    }
}

// How many nodes, branches and magnitudes a layout has.
fn counts(layout: &Layout) -> Counts
    requires few_complexes { complex_count layout.now ≤ most_complex }
    requires few_magnitudes { length layout.now.magnitudes ≤ most_magnitudes }
    ensures { result ≡ layout_counts layout.now }
{
    Counts {
        nodes: layout.nodes().len() as u32,
        branches: layout.branches().len() as u32,
        magnitudes: layout.magnitudes().len() as u32,
    }
}

// The layout of a circuit of which no element passes a limit on the unknowns, so memory alone can be wanting.
fn layout(alloc: Global, circuit: &Circuit) -> Result<Layout, AllocError>
    requires { first_too_many circuit.now.elements ≡ None }
    ensures { IfOk result (λ l. l ≡ layout_of circuit.now.elements) }
{
    match Layout::of(alloc, circuit.elements()) {
        Ok(layout) => Ok(layout),
        Err(_) => Err(AllocError),
    }
}
