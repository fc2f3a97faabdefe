// What the words and pairs of a line ask for.
ghost use Rattle.std.specs.Prelude.{◌≡◌, ◌∷◌, [], ◌||◌, ◌&&◌, Some, None, true, false, map, IfOk, MatchOption, codes};
ghost use Rattle.std.specs.List.{position, slice_split};
ghost use Rattle.dss_model.specs.dss_lexer.Texts.{text_eq};
ghost use Rattle.dss_model.specs.Names.{named, bytes, lower};
ghost use Rattle.dss_script.specs.Meaning.{command_words, cause_of, is_dot, is_word, subject, others, element_of, made, new_element, edited_element, continued, file_in, command_of, property_set, property_of, meaning_of, target_after};

use crate::ScriptCause;
use dss_model::{LineFault, Pair, PairList, Text, Verb, find_named, is_legal_name};
use std::alloc::{AllocError, Global};

/// The class and name of an element as they are written: that of the last New or Edit, with which `~` goes on.
#[derive(Drop)]
pub struct Target {
    pub class: Text,
    pub name: Text,
}

/// What a command does to the element that `~` goes on with.
#[derive(Drop)]
pub enum Change {
    Kept,
    Dropped,
    Taken(Target),
}

/// What a line asks for.
#[derive(Drop)]
pub enum Meaning {
    Nothing,
    Refused(ScriptCause),
    Reads(Text),
    Does(Verb, Change),
}

#[derive(Clone, Copy, Debug, PartialEq, Eq)]
pub enum CommandWord {
    New,
    Edit,
    More,
    Set,
    Solve,
    Clear,
    Bases,
    Redirect,
    Ignored,
}

const COMMAND_WORDS: [(&str, CommandWord); 17] = [
    ("new", CommandWord::New),
    ("edit", CommandWord::Edit),
    ("~", CommandWord::More),
    ("more", CommandWord::More),
    ("set", CommandWord::Set),
    ("solve", CommandWord::Solve),
    ("clear", CommandWord::Clear),
    ("clearall", CommandWord::Clear),
    ("redirect", CommandWord::Redirect),
    ("compile", CommandWord::Redirect),
    ("calcvoltagebases", CommandWord::Bases),
    ("calcv", CommandWord::Bases),
    ("show", CommandWord::Ignored),
    ("export", CommandWord::Ignored),
    ("plot", CommandWord::Ignored),
    ("visualize", CommandWord::Ignored),
    ("buscoords", CommandWord::Ignored),
];

fn command_word(word: &str) -> Option<CommandWord>
    ensures { result ≡ named command_words word.now }
{
    find_named(&COMMAND_WORDS, word)
}

/// The cause that stands for a fault of a line.
pub fn line_cause(fault: LineFault) -> ScriptCause
    ensures { result ≡ cause_of fault }
{
    match fault {
        LineFault::UnclosedGroup => ScriptCause::UnclosedGroup,
        LineFault::LineTooLong => ScriptCause::LineTooLong,
        LineFault::NotText => ScriptCause::NotText,
    }
}

// The first of them, and the others.
fn take_first(pairs: Vec<Pair>) -> Option<(Pair, Vec<Pair>)>
    ensures { MatchOption result (pairs.items ≡ []) (λ x. pairs.items ≡ x.0 ∷ x.1.items) }
{
    let mut rest = pairs;
    if rest.is_empty() {
        return None;
    }
    let first = rest.remove(0);
    Some((first, rest))
}

// Whether a text is this word, however it is spelled in upper and lower case.
fn spells(alloc: Global, text: &Text, word: &str) -> Result<bool, AllocError>
    ensures { IfOk result (λ found. found ≡ text_eq (bytes (lower text.now)) word.now) }
{
    let lowered = text.lowered(alloc)?;
    Ok(lowered.as_str() == word)
}

fn find_dot(text: &[char]) -> Option<usize>
    ensures { result ≡ position is_dot text.now }
{
    text.iter().position(|character| *character == '.')
}

// A class and a name, parted by the first dot, where both are in order.
#[tactic(auto, using(crate::proofs::Elements::no_dot))]
fn element_named(alloc: Global, text: &Text) -> Result<Option<Target>, AllocError>
    ensures { IfOk result (λ found. found ≡ element_of text.now) }
{
    let characters = text.characters(alloc)?;
    let Some(dot) = find_dot(&characters) else {
        return Ok(None);
    };
    let class = &characters[..dot];
    let name = &characters[dot + 1..];
    if class.is_empty() || !is_legal_name(name) {
        return Ok(None);
    }
    Ok(Some(Target {
        class: Text::of(alloc, class)?,
        name: Text::of(alloc, name)?,
    }))
}

// Whether a pair may name the element of a New or an Edit.
fn names_element(alloc: Global, pair: &Pair, is_new: bool) -> Result<bool, AllocError>
    ensures { IfOk result (λ found. found ≡ (is_word pair.now || (is_new && text_eq (bytes (lower pair.now.name)) (codes "object")))) }
{
    if pair.name.is_empty() {
        return Ok(true);
    }
    if !is_new {
        return Ok(false);
    }
    spells(alloc, &pair.name, "object")
}

// The element of a New or an Edit, and the pairs behind it.
fn take_element(
    alloc: Global,
    pairs: Vec<Pair>,
    is_new: bool,
) -> Result<Option<(Target, Vec<Pair>)>, AllocError>
    ensures { IfOk result (λ found. MatchOption found (element_of (subject is_new pairs.items) ≡ None) (λ x.
        (element_of (subject is_new pairs.items) ≡ Some x.0) × (others pairs.items ≡ x.1.items))) }
{
    let Some((first, rest)) = take_first(pairs) else {
        return Ok(None);
    };
    if !names_element(alloc, &first, is_new)? {
        return Ok(None);
    }
    match element_named(alloc, &first.value)? {
        Some(target) => Ok(Some((target, rest))),
        None => Ok(None),
    }
}

fn same_target(target: &Target) -> Result<Target, AllocError>
    ensures { IfOk result (λ t. t ≡ target.now) }
{
    Ok(Target {
        class: target.class.clone()?,
        name: target.name.clone()?,
    })
}

// The source that New Circuit makes.
fn circuit_source(alloc: Global) -> Result<Target, AllocError>
    ensures { IfOk result (λ t. t ≡ record { class = codes "vsource"; name = codes "source" }) }
{
    Ok(Target {
        class: Text::of(alloc, &['v', 's', 'o', 'u', 'r', 'c', 'e'])?,
        name: Text::of(alloc, &['s', 'o', 'u', 'r', 'c', 'e'])?,
    })
}

// What `~` goes on with after a New.
fn made_target(alloc: Global, target: &Target) -> Result<Target, AllocError>
    ensures { IfOk result (λ t. t ≡ made target.now) }
{
    if spells(alloc, &target.class, "circuit")? {
        circuit_source(alloc)
    } else {
        same_target(target)
    }
}

fn new_command(alloc: Global, pairs: Vec<Pair>) -> Result<Meaning, AllocError>
    ensures { IfOk result (λ m. m ≡ new_element (element_of (subject true pairs.items)) (others pairs.items)) }
{
    let Some((target, rest)) = take_element(alloc, pairs, true)? else {
        return Ok(Meaning::Refused(ScriptCause::BadValue));
    };
    let next = made_target(alloc, &target)?;
    let Target { class, name } = target;
    let pairs = PairList::new(rest);
    Ok(Meaning::Does(Verb::New { class, name, pairs }, Change::Taken(next)))
}

fn edit_command(alloc: Global, pairs: Vec<Pair>) -> Result<Meaning, AllocError>
    ensures { IfOk result (λ m. m ≡ edited_element (element_of (subject false pairs.items)) (others pairs.items)) }
{
    let Some((target, rest)) = take_element(alloc, pairs, false)? else {
        return Ok(Meaning::Refused(ScriptCause::BadValue));
    };
    let next = same_target(&target)?;
    let Target { class, name } = target;
    let pairs = PairList::new(rest);
    Ok(Meaning::Does(Verb::Edit { class, name, pairs }, Change::Taken(next)))
}

fn more_command(target: &Option<Target>, pairs: Vec<Pair>) -> Result<Meaning, AllocError>
    ensures { IfOk result (λ m. m ≡ continued target.now pairs.items) }
{
    let Some(target) = target else {
        return Ok(Meaning::Refused(ScriptCause::ContinuesNothing));
    };
    let Target { class, name } = same_target(target)?;
    let pairs = PairList::new(pairs);
    Ok(Meaning::Does(Verb::Edit { class, name, pairs }, Change::Kept))
}

fn redirect_command(pairs: Vec<Pair>) -> Meaning
    ensures { result ≡ file_in pairs.items }
{
    let Some((first, _)) = take_first(pairs) else {
        return Meaning::Refused(ScriptCause::BadValue);
    };
    if !first.name.is_empty() || first.value.is_empty() {
        return Meaning::Refused(ScriptCause::BadValue);
    }
    Meaning::Reads(first.value)
}

// A command, by its first word and what follows it.
fn command(
    alloc: Global,
    word: Option<CommandWord>,
    target: &Option<Target>,
    pairs: Vec<Pair>,
) -> Result<Meaning, AllocError>
    ensures { IfOk result (λ m. m ≡ command_of word target.now pairs.items) }
{
    let Some(word) = word else {
        return Ok(Meaning::Refused(ScriptCause::UnknownCommand));
    };
    match word {
        CommandWord::New => new_command(alloc, pairs),
        CommandWord::Edit => edit_command(alloc, pairs),
        CommandWord::More => more_command(target, pairs),
        CommandWord::Set => Ok(Meaning::Does(
            Verb::Set {
                pairs: PairList::new(pairs),
            },
            Change::Kept,
        )),
        CommandWord::Solve => Ok(Meaning::Does(
            Verb::Solve {
                pairs: PairList::new(pairs),
            },
            Change::Kept,
        )),
        CommandWord::Clear => Ok(Meaning::Does(Verb::Clear, Change::Dropped)),
        CommandWord::Bases => Ok(Meaning::Does(Verb::Bases, Change::Kept)),
        CommandWord::Redirect => Ok(redirect_command(pairs)),
        CommandWord::Ignored => Ok(Meaning::Nothing),
    }
}

// The parts between dots.
fn parts_of(alloc: Global, text: &[char]) -> Result<Vec<&[char]>, AllocError>
    ensures { IfOk result (λ v. map (λ part. part.now) v.items ≡ slice_split is_dot text.now) }
{
    text.split(|character| *character == '.').collect(alloc)
}

// `Class.Name.Prop=value`, by its three parts.
fn property_edit(
    alloc: Global,
    class: &[char],
    name: &[char],
    property: &[char],
    pair: Pair,
    rest: Vec<Pair>,
) -> Result<Meaning, AllocError>
    ensures { IfOk result (λ m. m ≡ property_set class.now name.now property.now pair rest.items) }
{
    if class.is_empty() || name.is_empty() || property.is_empty() {
        return Ok(Meaning::Refused(ScriptCause::UnknownCommand));
    }
    if !is_legal_name(name) {
        return Ok(Meaning::Refused(ScriptCause::BadValue));
    }
    let first = Pair {
        name: Text::of(alloc, property)?,
        value: pair.value,
        grouped: pair.grouped,
    };
    let mut pairs = rest;
    pairs.insert(0, first)?;
    Ok(Meaning::Does(
        Verb::Edit {
            class: Text::of(alloc, class)?,
            name: Text::of(alloc, name)?,
            pairs: PairList::new(pairs),
        },
        Change::Kept,
    ))
}

fn property_by_parts(
    alloc: Global,
    parts: &[&[char]],
    pair: Pair,
    rest: Vec<Pair>,
) -> Result<Meaning, AllocError>
    ensures { IfOk result (λ m. m ≡ property_of (map (λ part. part.now) parts.now) pair rest.items) }
{
    match parts {
        [class, name, property] => property_edit(alloc, class, name, property, pair, rest),
        _ => Ok(Meaning::Refused(ScriptCause::UnknownCommand)),
    }
}

fn property_command(alloc: Global, pair: Pair, rest: Vec<Pair>) -> Result<Meaning, AllocError>
    ensures { IfOk result (λ m. m ≡ property_of (slice_split is_dot pair.name) pair rest.items) }
{
    let characters = pair.name.characters(alloc)?;
    let parts = parts_of(alloc, &characters)?;
    property_by_parts(alloc, &parts, pair, rest)
}

/// What the words and pairs of a line ask for.
pub fn meaning_for(
    alloc: Global,
    target: &Option<Target>,
    pairs: Vec<Pair>,
) -> Result<Meaning, AllocError>
    ensures { IfOk result (λ m. m ≡ meaning_of target.now pairs.items) }
{
    let Some((first, rest)) = take_first(pairs) else {
        return Ok(Meaning::Nothing);
    };
    if !first.name.is_empty() {
        return property_command(alloc, first, rest);
    }
    let word = first.value.lowered(alloc)?;
    command(alloc, command_word(word.as_str()), target, rest)
}

/// The element that `~` goes on with after a command.
pub fn target_then(target: Option<Target>, change: Change) -> Option<Target>
    ensures { result ≡ target_after target change }
{
    match change {
        Change::Kept => target,
        Change::Dropped => None,
        Change::Taken(next) => Some(next),
    }
}
