// Values that are buses.
ghost use Rattle.std.specs.Prelude.{◌≡◌, map};
ghost use Rattle.dss_model.specs.Answers.{Gives, each};
ghost use Rattle.dss_values.specs.Forms.{node_of, bus_of_parts, bus_of, bus_in};

use crate::forms::{parts, word};
use dss_model::{Bus, ModelError, ModelFault, Nodes, Pair, Text, is_legal_name};
use std::alloc::Global;

fn node(part: &[char]) -> Result<u8, ModelFault>
    ensures { result ≡ node_of part.now }
{
    match part {
        [digit] if digit.is_ascii_digit() => Ok(*digit as u8 - b'0'),
        _ => Err(ModelFault::BadValue),
    }
}

fn nodes(alloc: Global, parts: &[&[char]]) -> Result<Vec<u8>, ModelError>
    ensures { Gives (λ v. v.items) result (each node_of (map (λ part. part.now) parts.now)) }
{
    let mut nodes = Vec::new(alloc);
    for part in parts {
        nodes.push(node(part)?)?;
    }
    Ok(nodes)
}

fn bus_from(alloc: Global, parts: &[&[char]]) -> Result<Bus, ModelError>
    ensures { Gives (λ bus. bus) result (bus_of_parts (map (λ part. part.now) parts.now)) }
{
    match parts {
        [name, numbers @ ..] if is_legal_name(name) && numbers.len() <= 4 => Ok(Bus {
            nodes: Nodes::new(nodes(alloc, numbers)?),
            name: Text::of(alloc, name)?,
        }),
        _ => Err(ModelError::Fault(ModelFault::BadValue)),
    }
}

/// The bus that a word in lower case names.
#[tactic(auto, unfolding(crate::specs::Forms::bus_of))]
pub fn bus_of_word(alloc: Global, word: &Text) -> Result<Bus, ModelError>
    ensures { Gives (λ bus. bus) result (bus_of word.now) }
{
    let characters = word.characters(alloc)?;
    let parts = parts(alloc, &characters)?;
    bus_from(alloc, &parts)
}

/// The bus of a pair.
#[tactic(auto, unfolding(crate::specs::Forms::bus_in))]
pub fn bus_value(alloc: Global, pair: &Pair) -> Result<Bus, ModelError>
    ensures { Gives (λ bus. bus) result (bus_in pair.now) }
{
    let word = word(alloc, pair)?;
    bus_of_word(alloc, &word)
}
