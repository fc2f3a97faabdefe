// The numbers of a circuit's transformers and banks.
ghost use Rattle.std.specs.Prelude.{◌≡◌, ◌<◌, ◌≤◌, IfOk, length, slice_index};
ghost use Rattle.fd_network.specs.dss_circuit.Limits.{most_elements};
ghost use Rattle.fd_network.specs.fd_devices.Settings.{bank_count as banks_of, tap_count as taps_of};
ghost use Rattle.fd_sample.specs.Circuits.{AreNumbers};

use fd_network::{Element, ElementName};
use indexmap::IndexMap;
use std::alloc::{AllocError, Global};

/// For each element of a circuit, in the script's order, how many transformers and how many banks stand before it. So
/// at a transformer's place stands its number among the transformers, and at a bank's place its number among the banks.
#[derive(Drop)]
pub struct Numbers {
    pub transformers: Vec<u32>,
    pub banks: Vec<u32>,
}

impl Numbers {
    /// Those of these elements, by one walk.
    ///
    /// # Errors
    /// `AllocError` where the memory is refused.
    pub fn of(
        alloc: Global,
        elements: &IndexMap<ElementName, Element>,
    ) -> Result<Numbers, AllocError>
        requires few { length elements.now.entries ≤ most_elements }
        ensures { IfOk result (AreNumbers elements.now.entries) }
    {
        let entries = elements.as_slice();
        let mut transformers = Vec::with_capacity(alloc, entries.len())?;
        let mut banks = Vec::with_capacity(alloc, entries.len())?;
        let (mut taps_so_far, mut banks_so_far) = (0, 0);
        for place in 0..entries.len() {
            transformers.push(taps_so_far)?;
            banks.push(banks_so_far)?;
            let (_, element) = entries.get_index(place).unwrap();
            taps_so_far += tap_count(element);
            banks_so_far += bank_count(element);
        }
        Ok(Numbers {
            transformers,
            banks,
        })
    }

    /// How many transformers stand before the element at this place.
    pub fn transformers_before(&self, place: usize) -> u32
        requires { place < length self.now.transformers.items }
        ensures { result ≡ slice_index self.now.transformers.items place }
    {
        self.transformers[place]
    }

    /// How many banks stand before the element at this place.
    pub fn banks_before(&self, place: usize) -> u32
        requires { place < length self.now.banks.items }
        ensures { result ≡ slice_index self.now.banks.items place }
    {
        self.banks[place]
    }
}

// 1 for a Transformer, and else 0.
fn tap_count(element: &Element) -> u32
    ensures value { result ≡ taps_of element.now }
    ensures few { result ≤ 1 }
{
    match element {
        Element::Transformer(_) => 1,
        _ => 0,
    }
}

// 1 for a Capacitor, and else 0.
fn bank_count(element: &Element) -> u32
    ensures value { result ≡ banks_of element.now }
    ensures few { result ≤ 1 }
{
    match element {
        Element::Capacitor(_) => 1,
        _ => 0,
    }
}
