// Values that are words, buses and arrays.
ghost use Rattle.std.specs.Prelude.{◌≡◌, IfOk, map, nat_eq, codes};
ghost use Rattle.std.specs.Cmp.Lexicographic.{pointwise};
ghost use Rattle.std.specs.List.{slice_split};
ghost use Rattle.dss_model.specs.Answers.{Gives};
ghost use Rattle.dss_model.specs.Names.{rows, lower};
ghost use Rattle.dss_values.specs.Forms.{sole, word_in, choice_in, a_name, name_in, line_name_of, line_name_in, known, known_name_in, known_line_name_in, is_point, one};

use dss_model::{ModelError, ModelFault, Pair, Text, cells, find_named, is_legal_name};
use std::alloc::{AllocError, Global};

fn sole_word(alloc: Global, words: &[Text]) -> Result<Text, ModelError>
    ensures { Gives (λ text. text) result (sole words.now) }
{
    match words {
        [word] => Ok(word.lowered(alloc)?),
        _ => Err(ModelError::Fault(ModelFault::BadValue)),
    }
}

/// The one word of a value, in lower case.
#[tactic(auto, unfolding(crate::specs::Forms::word_in))]
pub fn word(alloc: Global, pair: &Pair) -> Result<Text, ModelError>
    ensures { Gives (λ text. text) result (word_in pair.now) }
{
    let words = cells(alloc, pair.value.as_str())?;
    sole_word(alloc, &words)
}

/// One of the words of a table; any other is refused by `other`.
#[tactic(auto, unfolding(crate::specs::Forms::choice_in))]
pub fn choice<T: Copy>(
    alloc: Global,
    table: &[(&str, T)],
    other: ModelFault,
    pair: &Pair,
) -> Result<T, ModelError>
    ensures { Gives (λ x. x) result (choice_in other (rows table.now) pair.now) }
{
    let word = word(alloc, pair)?;
    Ok(find_named(table, word.as_str()).ok_or(other)?)
}

// The text, where it is a name.
fn legal_name(alloc: Global, word: &[char]) -> Result<Text, ModelError>
    ensures { Gives (λ text. text) result (a_name word.now) }
{
    if is_legal_name(word) {
        Ok(Text::of(alloc, word)?)
    } else {
        Err(ModelError::Fault(ModelFault::BadValue))
    }
}

/// The name of an element, in lower case and without its class.
#[tactic(auto, unfolding(crate::specs::Forms::name_in))]
pub fn name(alloc: Global, pair: &Pair) -> Result<Text, ModelError>
    ensures { Gives (λ text. text) result (name_in pair.now) }
{
    let word = word(alloc, pair)?;
    let characters = word.characters(alloc)?;
    legal_name(alloc, &characters)
}

/// The parts of a word between points.
pub fn parts(alloc: Global, word: &[char]) -> Result<Vec<&[char]>, AllocError>
    ensures { IfOk result (λ v. map (λ part. part.now) v.items ≡ slice_split is_point word.now) }
{
    word.split(|character| is_full_stop(*character))
        .collect(alloc)
}

fn is_full_stop(character: char) -> bool
    ensures { result ≡ is_point character }
{
    character == '.'
}

fn is_line(word: &[char]) -> bool
    ensures { result ≡ pointwise nat_eq word.now (codes "line") }
{
    word == ['l', 'i', 'n', 'e'].as_slice()
}

fn line_name_from(alloc: Global, parts: &[&[char]]) -> Result<Text, ModelError>
    ensures { Gives (λ text. text) result (line_name_of (map (λ part. part.now) parts.now)) }
{
    match parts {
        [class, name] if is_line(class) => legal_name(alloc, name),
        _ => Err(ModelError::Fault(ModelFault::BadValue)),
    }
}

/// The name of a line, in lower case, where it is written with its class.
#[tactic(auto, unfolding(crate::specs::Forms::line_name_in))]
pub fn line_name(alloc: Global, pair: &Pair) -> Result<Text, ModelError>
    ensures { Gives (λ text. text) result (line_name_in pair.now) }
{
    let word = word(alloc, pair)?;
    let characters = word.characters(alloc)?;
    let parts = parts(alloc, &characters)?;
    line_name_from(alloc, &parts)
}

// The name, where an element of that name is there.
fn known_name(name: Text, found: bool) -> Result<Text, ModelFault>
    ensures { result ≡ known found name }
{
    if found {
        Ok(name)
    } else {
        Err(ModelFault::UnknownName)
    }
}

/// The name of an element that is there, as `found` says, in lower case.
#[tactic(auto, unfolding(crate::specs::Forms::known_name_in))]
pub fn found_name(alloc: Global, pair: &Pair, found: bool) -> Result<Text, ModelError>
    ensures { Gives (λ text. text) result (known_name_in found pair.now) }
{
    let name = name(alloc, pair)?;
    Ok(known_name(name, found)?)
}

/// The name of a line that is there, as `found` says, in lower case and without its class.
#[tactic(auto, unfolding(crate::specs::Forms::known_line_name_in))]
pub fn found_line_name(alloc: Global, pair: &Pair, found: bool) -> Result<Text, ModelError>
    ensures { Gives (λ text. text) result (known_line_name_in found pair.now) }
{
    let name = line_name(alloc, pair)?;
    Ok(known_name(name, found)?)
}
