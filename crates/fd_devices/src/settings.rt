// What is set of a circuit beside its script: positions and powers.
ghost use Rattle.std.specs.Prelude.{◌≡◌, ◌↔◌, IfOk, IsTrue};
ghost use Rattle.fd_devices.specs.Settings.{HasOwn, after, bank_count, own, power_count, settings_in, settings_of, tap_count};

use dss_layout::{Element, Items, TapPair};
use fd_elements::LoadPower;
use std::alloc::AllocError;

/// The taps of transformers in order.
pub type Taps = Items<TapPair>;

/// Whether each capacitor bank is closed, in order.
pub type BankStates = Items<bool>;

/// The powers of load phases in order.
pub type LoadPowers = Items<LoadPower>;

/// What controls move: the taps of each Transformer and whether each Capacitor is closed, in order of definition.
#[derive(Drop, Debug)]
pub struct Positions {
    pub taps: Taps,
    pub closed: BankStates,
}

/// The power of each load phase, in order of definition.
#[derive(Drop, Debug)]
pub struct Powers {
    pub loads: LoadPowers,
}

impl Positions {
    /// The same positions.
    ///
    /// # Errors
    /// `AllocError` where the memory is refused.
    pub fn copied(&self) -> Result<Positions, AllocError>
        ensures { IfOk result (λ p. p ≡ self.now) }
    {
        Ok(Positions {
            taps: self.taps.copied()?,
            closed: self.closed.copied()?,
        })
    }
}

impl Powers {
    /// The same powers.
    ///
    /// # Errors
    /// `AllocError` where the memory is refused.
    pub fn copied(&self) -> Result<Powers, AllocError>
        ensures { IfOk result (λ p. p ≡ self.now) }
    {
        Ok(Powers {
            loads: self.loads.copied()?,
        })
    }
}

/// The settings of some elements, each kind in order of definition: the taps of each Transformer, whether each Capacitor
/// is closed, a power for each phase of each Load.
#[derive(Clone, Copy)]
pub struct SettingSlices<'a> {
    pub taps: &'a [TapPair],
    pub closed: &'a [bool],
    pub powers: &'a [LoadPower],
}

impl<'a> SettingSlices<'a> {
    /// The settings of all elements.
    pub fn of(at: &'a Positions, powers: &'a Powers) -> Self
        ensures { settings_in result ≡ settings_of at.now powers.now }
    {
        SettingSlices {
            taps: at.taps.as_slice(),
            closed: at.closed.as_slice(),
            powers: powers.loads.as_slice(),
        }
    }

    /// Those of the first element.
    pub fn own(&self, element: &Element) -> SettingSlices<'a>
        requires { HasOwn element.now (settings_in self.now) }
        ensures { settings_in result ≡ own element.now (settings_in self.now) }
    {
        SettingSlices {
            taps: &self.taps[..tap_count(element)],
            closed: &self.closed[..bank_count(element)],
            powers: &self.powers[..power_count(element)],
        }
    }

    /// Those of the elements after it.
    pub fn after(&self, element: &Element) -> Self
        requires { HasOwn element.now (settings_in self.now) }
        ensures { settings_in result ≡ after element.now (settings_in self.now) }
    {
        SettingSlices {
            taps: &self.taps[tap_count(element)..],
            closed: &self.closed[bank_count(element)..],
            powers: &self.powers[power_count(element)..],
        }
    }

    /// Whether others are the same.
    pub fn is_same(&self, other: &SettingSlices) -> bool
        ensures { IsTrue result ↔ (settings_in self.now ≡ settings_in other.now) }
    {
        are_same_taps(self.taps, other.taps)
            && are_same_states(self.closed, other.closed)
            && are_same_powers(self.powers, other.powers)
    }
}

fn are_same_taps(taps: &[TapPair], others: &[TapPair]) -> bool
    ensures { IsTrue result ↔ (taps.now ≡ others.now) }
{
    taps == others
}

fn are_same_states(closed: &[bool], others: &[bool]) -> bool
    ensures { IsTrue result ↔ (closed.now ≡ others.now) }
{
    closed == others
}

fn are_same_powers(powers: &[LoadPower], others: &[LoadPower]) -> bool
    ensures { IsTrue result ↔ (powers.now ≡ others.now) }
{
    powers == others
}

// How many pairs of taps an element has.
fn tap_count(element: &Element) -> usize
    ensures { result ≡ tap_count element.now }
{
    match element {
        Element::Transformer(_) => 1,
        _ => 0,
    }
}

// How many banks an element has.
fn bank_count(element: &Element) -> usize
    ensures { result ≡ bank_count element.now }
{
    match element {
        Element::Capacitor(_) => 1,
        _ => 0,
    }
}

// How many load phases an element has.
fn power_count(element: &Element) -> usize
    ensures { result ≡ power_count element.now }
{
    match element {
        Element::Load(load) => load.phases as usize,
        _ => 0,
    }
}
