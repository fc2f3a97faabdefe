// The room for what elements add.
ghost use Rattle.std.specs.Prelude.{◌≡◌, ◌≤◌, All, length};
ghost use Rattle.dss_ready.specs.dss_circuit.Limits.{most_elements};
ghost use Rattle.dss_ready.specs.dss_model.InRange.{ElementInRange};
ghost use Rattle.fd_network.specs.Keeping.{room_for};

use dss_ready::{Element, ElementName};
use fd_devices::{most_constants, most_loads, most_terms};
use indexmap::IndexMap;

/// How many elements, and how many of their contributions, part loads and constants, lists have room for.
#[derive(Clone, Copy, Debug)]
pub struct Room {
    pub elements: usize,
    pub terms: usize,
    pub loads: usize,
    pub constants: usize,
}

/// The room for all that elements add, at any settings.
pub fn room_of(elements: &IndexMap<ElementName, Element>) -> Room
    requires few { length elements.now.entries ≤ most_elements }
    requires in_range { All (λ e. ElementInRange e.1) elements.now.entries }
    ensures { result ≡ room_for elements.now.entries }
{
    let entries = elements.as_slice();
    let mut room = Room {
        elements: entries.len(),
        terms: 0,
        loads: 0,
        constants: 0,
    };
    for place in 0..entries.len() {
        let (_, element) = entries.get_index(place).unwrap();
        room.terms += most_terms(element);
        room.loads += most_loads(element);
        room.constants += most_constants(element);
    }
    room
}
