// The elements that touch each bus.
ghost use Rattle.std.specs.Prelude.{ℕ, ◌≡◌, List, OnOk, IfOk, ◌||◌, ◌&&◌, nat_eq};
ghost use Rattle.dss_layout.specs.dss_lexer.Texts.{text_eq};
ghost use Rattle.fd_bases.specs.Due.{is_noted, Notes, ends_touch, touches, touches_at};

use dss_layout::{Bus, Element, ElementName, Text};
use indexmap::IndexMap;
use std::alloc::{AllocError, Global};

/// For each bus the places, in order of definition, of the elements that join it to another bus.
pub type Touching = IndexMap<Text, Vec<usize>>;

// This place is noted at a bus.
fn note(alloc: Global, touching: &mut Touching, bus: &Text, place: usize) -> Result<(), AllocError>
    ensures { OnOk result (Notes (text_eq bus.now) place touching.old.entries touching.new.entries) }
{
    if let Some(places) = touching.get_mut(bus) {
        places.push(place)?;
        return Ok(());
    }
    let mut places = Vec::new(alloc);
    places.push(place)?;
    touching.insert(bus.clone()?, places)?;
    Ok(())
}

// This place is noted at both buses; where one isn't given, at none.
fn note_ends(
    alloc: Global,
    touching: &mut Touching,
    first: &Option<Bus>,
    second: &Option<Bus>,
    place: usize,
) -> Result<(), AllocError>
    ensures { OnOk result (Notes (ends_touch first.now second.now) place touching.old.entries touching.new.entries) }
{
    let (Some(first), Some(second)) = (first, second) else {
        return Ok(());
    };
    note(alloc, touching, &first.name, place)?;
    note(alloc, touching, &second.name, place)
}

fn note_element(
    alloc: Global,
    touching: &mut Touching,
    element: &Element,
    place: usize,
) -> Result<(), AllocError>
    ensures { OnOk result (Notes (touches element.now) place touching.old.entries touching.new.entries) }
{
    match element {
        Element::Line(l) => note_ends(alloc, touching, &l.bus1, &l.bus2, place),
        Element::Transformer(t) => {
            note_ends(alloc, touching, &t.first.bus, &t.second.bus, place)
        }
        _ => Ok(()),
    }
}

/// The places of the elements that touch each bus.
pub fn touching_in(
    alloc: Global,
    elements: &IndexMap<ElementName, Element>,
) -> Result<Touching, AllocError>
    ensures { IfOk result (λ touching. (bus : List ℕ) (place : ℕ) → is_noted touching.entries bus place ≡ touches_at elements.now.entries place bus) }
{
    let mut touching = IndexMap::new(alloc);
    let mut place = 0usize;
    for (_name, element) in elements {
        note_element(alloc, &mut touching, element, place)?;
        place += 1;
    }
    Ok(touching)
}
