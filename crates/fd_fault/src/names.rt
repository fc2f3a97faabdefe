// The name of the line that a short circuit adds.
ghost use Rattle.std.specs.Prelude.{◌≡◌, ◌++◌, codes, is_none, IfOk, OnOk};
ghost use Rattle.std.specs.Map.{lookup};
ghost use Rattle.std.specs.Fmt.{decimal};
ghost use Rattle.std.specs.Str.{chars};
ghost use Rattle.dss_ready.specs.dss_model.SameElement.{same_element};
ghost use Rattle.dss_ready.specs.dss_circuit.WellFormed.{IsKey};
ghost use Rattle.fd_fault.specs.ShortNames.{line_name, short_name};
ghost use Rattle.fd_fault.specs.Naming.{IsNamed};

use dss_ready::{Class, ElementName, Elements, Text, find_element};
use itoa::Buffer;
use std::alloc::{AllocError, Global};

// a circuit has at most 2^17 elements
const MOST_NAMES: u32 = 131_073;

fn characters(alloc: Global, text: &str) -> Result<Vec<char>, AllocError>
    ensures { IfOk result (λ v. v.items ≡ chars text.now) }
{
    text.chars().collect(alloc)
}

fn push_text(alloc: Global, name: &mut Vec<char>, text: &str) -> Result<(), AllocError>
    ensures { OnOk result (name.new.items ≡ name.old.items ++ chars text.now) }
{
    let characters = characters(alloc, text)?;
    name.extend_from_slice(&characters)?;
    Ok(())
}

fn push_number(alloc: Global, name: &mut Vec<char>, number: u32) -> Result<(), AllocError>
    ensures { OnOk result (name.new.items ≡ name.old.items ++ decimal number) }
{
    let mut digits = Buffer::new();
    push_text(alloc, name, digits.format(number))
}

fn stem(alloc: Global) -> Result<Vec<char>, AllocError>
    ensures { IfOk result (λ v. v.items ≡ codes "short-") }
{
    let mut name = Vec::new(alloc);
    name.extend_from_slice(&['s', 'h', 'o', 'r', 't', '-'])?;
    Ok(name)
}

fn numbered(alloc: Global, number: u32) -> Result<Text, AllocError>
    ensures { IfOk result (λ t. t ≡ codes "short-" ++ decimal number) }
{
    let mut name = stem(alloc)?;
    push_number(alloc, &mut name, number)?;
    Text::of(alloc, &name)
}

fn plain(alloc: Global) -> Result<Text, AllocError>
    ensures { IfOk result (λ t. t ≡ codes "short") }
{
    Text::of(alloc, &['s', 'h', 'o', 'r', 't'])
}

// The name of this number.
fn short_name(alloc: Global, number: u32) -> Result<Text, AllocError>
    ensures { IfOk result (λ t. t ≡ short_name number) }
{
    if number == 0 {
        plain(alloc)
    } else {
        numbered(alloc, number)
    }
}

fn line_name(alloc: Global, number: u32) -> Result<ElementName, AllocError>
    ensures name { IfOk result (λ name. name ≡ line_name number) }
    ensures key { IfOk result IsKey }
{
    let name = short_name(alloc, number)?;
    Ok(ElementName {
        class: Class::Line,
        name,
    })
}

fn is_free(elements: &Elements, name: &ElementName) -> bool
    ensures { result ≡ is_none (lookup (same_element name.now) elements.now.entries) }
{
    find_element(elements, name).is_none()
}

/// The first of the names short, short-1, short-2 and so on that no Line of these elements has. There are more names
/// than a circuit has elements.
pub(crate) fn free_name(alloc: Global, elements: &Elements) -> Result<ElementName, AllocError>
    ensures name { IfOk result (IsNamed elements.now.entries) }
    ensures key { IfOk result IsKey }
{
    for number in 0..MOST_NAMES {
        let name = line_name(alloc, number)?;
        if is_free(elements, &name) {
            return Ok(name);
        }
    }
    Err(AllocError)
}
