// The names of the unknowns.
ghost use Rattle.std.specs.Prelude.{◌≡◌, ◌++◌, ◌<◌, ◌*◌, Some, IfOk, OnOk};
ghost use Rattle.std.specs.Str.{chars};
ghost use Rattle.std.specs.Fmt.{decimal};
ghost use Rattle.dss_layout.specs.Layout.{size_of, complex_count};
ghost use Rattle.dss_layout.specs.UnknownNames.{part_word, node_text, element_text, phase_text, complex_name, unknown_name};

use crate::{Layout, NodeName, PhaseName};
use dss_model::{ElementName, Text};
use itoa::Buffer;
use std::alloc::{AllocError, Global};

fn characters(alloc: Global, text: &str) -> Result<Vec<char>, AllocError>
    ensures { IfOk result (λ v. v.items ≡ chars text.now) }
{
    text.chars().collect(alloc)
}

fn push_text(alloc: Global, name: &mut Vec<char>, text: &str) -> Result<(), AllocError>
    ensures { OnOk result (name.new.items ≡ name.old.items ++ chars text.now) }
{
    let characters = characters(alloc, text)?;
    name.extend_from_slice(&characters)?;
    Ok(())
}

fn push_number(alloc: Global, name: &mut Vec<char>, number: u32) -> Result<(), AllocError>
    ensures { OnOk result (name.new.items ≡ name.old.items ++ decimal number) }
{
    let mut digits = Buffer::new();
    push_text(alloc, name, digits.format(number))
}

fn part(place: usize) -> &'static str
    ensures { result.now ≡ part_word place }
{
    if place % 2 == 0 { " re" } else { " im" }
}

fn node_name(alloc: Global, node: &NodeName) -> Result<Vec<char>, AllocError>
    ensures { IfOk result (λ name. name.items ≡ node_text node.now) }
{
    let mut name = characters(alloc, node.bus.as_str())?;
    name.push('.')?;
    push_number(alloc, &mut name, u32::from(node.number))?;
    Ok(name)
}

fn element_name(alloc: Global, element: &ElementName) -> Result<Vec<char>, AllocError>
    ensures { IfOk result (λ name. name.items ≡ element_text element.now) }
{
    let mut name = characters(alloc, element.class.word())?;
    name.push('.')?;
    push_text(alloc, &mut name, element.name.as_str())?;
    Ok(name)
}

fn phase_name(alloc: Global, phase: &PhaseName) -> Result<Vec<char>, AllocError>
    ensures { IfOk result (λ name. name.items ≡ phase_text phase.now) }
{
    let mut name = element_name(alloc, &phase.element)?;
    name.push(' ')?;
    push_number(alloc, &mut name, phase.phase)?;
    Ok(name)
}

/// `BUS.NUMBER`
pub fn node_text(alloc: Global, node: &NodeName) -> Result<Text, AllocError>
    ensures { IfOk result (λ text. text ≡ node_text node.now) }
{
    let name = node_name(alloc, node)?;
    Text::of(alloc, &name)
}

/// `CLASS.NAME`
pub fn element_text(alloc: Global, element: &ElementName) -> Result<Text, AllocError>
    ensures { IfOk result (λ text. text ≡ element_text element.now) }
{
    let name = element_name(alloc, element)?;
    Text::of(alloc, &name)
}

impl Layout {
    fn complex_name(&self, alloc: Global, number: usize) -> Result<Vec<char>, AllocError>
        requires { number < complex_count self.now }
        ensures { IfOk result (λ name. complex_name self.now number ≡ Some name.items) }
    {
        let nodes = self.nodes();
        if number < nodes.len() {
            let name = node_name(alloc, nodes.get(number).unwrap())?;
            return Ok(name);
        }
        let name = phase_name(alloc, self.branches().get(number - nodes.len()).unwrap())?;
        Ok(name)
    }

    /// The name of the real unknown at this place: a bus and a number, or an element and a phase, with `re`, `im` or `mag`.
    pub fn unknown_name(&self, alloc: Global, place: usize) -> Result<Text, AllocError>
        requires { place < size_of self.now }
        ensures { IfOk result (λ name. unknown_name self.now place ≡ Some name) }
    {
        let complex = self.nodes().len() + self.branches().len();
        if place < 2 * complex {
            let mut name = self.complex_name(alloc, place / 2)?;
            push_text(alloc, &mut name, part(place))?;
            let text = Text::of(alloc, &name)?;
            return Ok(text);
        }
        let mut name = phase_name(alloc, self.magnitudes().get(place - 2 * complex).unwrap())?;
        push_text(alloc, &mut name, " mag")?;
        let text = Text::of(alloc, &name)?;
        Ok(text)
    }
}
