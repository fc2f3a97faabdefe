// The files of load shapes: their numbers stand in place of their names.
ghost use Rattle.std.specs.Prelude.{◌≡◌, IfOk, Ok};
ghost use Rattle.fd_shape.specs.Column.{column_of};
ghost use Rattle.fd_outside.specs.Answers.{IsLater};
ghost use Rattle.dss_script.specs.Fills.{FillsBy, IsFilled, IsRefusal};
ghost use Rattle.dss_script.specs.Sessions.{IsNotEnded, ReadsLast, cost, found_bytes};
ghost use Rattle.dss_script.specs.Shapes.{class_filled, is_loadshape, pair_filled, pairs_filled, verb_filled, with_file, with_numbers};

use crate::path::name_within;
use crate::shape_file::file_named;
use crate::{ScriptCause, SessionFault};
use dss_model::{Pair, PairList, Place, Text, Verb};
use fd_outside::{Found, LibFault, Library};
use fd_shape::{ShapeFault, read_column, values_text};
use std::alloc::{AllocError, Global};

fn is_loadshape(alloc: Global, class: &Text) -> Result<bool, AllocError>
    ensures { IfOk result (λ is. is ≡ is_loadshape class.now) }
{
    let class = class.lowered(alloc)?;
    Ok(class.as_str() == "loadshape")
}

// The cause with its place, where there is memory for it.
fn refusal(place: &Place, cause: ScriptCause) -> SessionFault
    ensures { IsRefusal place.now cause result }
{
    match place.clone() {
        Ok(place) => SessionFault::Script { place, cause },
        Err(_) => SessionFault::NoMemory,
    }
}

// A pair with these numbers in place of its value, where there is one.
fn with_numbers(
    alloc: Global,
    place: &Place,
    pair: Pair,
    numbers: &[i128],
) -> Result<Pair, SessionFault>
    ensures { IsFilled place.now (with_numbers pair (Ok numbers.now)) result }
{
    if numbers.is_empty() {
        return Err(refusal(place, ScriptCause::BadValue));
    }
    Ok(Pair {
        name: pair.name,
        value: values_text(alloc, numbers)?,
        grouped: true,
    })
}

// A pair with the numbers of a file in place of its value.
fn with_column(alloc: Global, place: &Place, pair: Pair, bytes: &[u8]) -> Result<Pair, SessionFault>
    ensures { IsFilled place.now (with_numbers pair (column_of bytes.now)) result }
{
    match read_column(alloc, bytes) {
        Ok(numbers) => with_numbers(alloc, place, pair, &numbers),
        Err(ShapeFault::BadValue { .. }) => Err(refusal(place, ScriptCause::BadValue)),
        Err(ShapeFault::NoMemory) => Err(SessionFault::NoMemory),
    }
}

// A pair whose file was found so. Needs no library.
fn with_file(alloc: Global, place: &Place, pair: Pair, found: Found) -> Result<Pair, SessionFault>
    ensures { IsFilled place.now (with_file pair (found_bytes found)) result }
{
    match found {
        Found::Absent => Err(refusal(place, ScriptCause::AbsentFile)),
        Found::Bytes(bytes) => with_column(alloc, place, pair, &bytes),
    }
}

// A pair of a load shape, with the numbers of its file where it names one.
#[tactic(auto, using(fd_outside::proofs::CallerLemmas::later_same))]
fn fill_pair<L: Library>(
    alloc: Global,
    lib: &mut L,
    folder: &Text,
    place: &Place,
    pair: Pair,
) -> Result<Pair, SessionFault>
    ensures fills { FillsBy place.now (λ files. pair_filled files folder.now pair) (L.answers lib.old) (L.answers lib.new) result }
    ensures later { IsLater L.answers L.holds lib.old lib.new }
    ensures last { ReadsLast (L.answers lib.old) (L.answers lib.new) result }
    ensures goes { IsNotEnded result }
{
    let Some(name) = file_named(alloc, &pair)? else {
        return Ok(pair);
    };
    let name = name_within(alloc, folder, &name)?;
    match lib.read(alloc, name.as_str()) {
        Ok(found) => with_file(alloc, place, pair, found),
        Err(LibFault::Failed) => Err(SessionFault::Read { name }),
        Err(LibFault::NoMemory) => Err(SessionFault::NoMemory),
    }
}

// The pairs of a load shape, one after another, up to the first that is refused.
#[tactic(auto, using(fd_outside::proofs::CallerLemmas::later_same, crate::proofs::Filling::none_done))]
fn fill_pairs<L: Library>(
    alloc: Global,
    lib: &mut L,
    folder: &Text,
    place: &Place,
    pairs: PairList,
) -> Result<PairList, SessionFault>
    ensures fills { FillsBy place.now (λ files. pairs_filled files folder.now pairs) (L.answers lib.old) (L.answers lib.new) result }
    ensures later { IsLater L.answers L.holds lib.old lib.new }
    ensures last { ReadsLast (L.answers lib.old) (L.answers lib.new) result }
    ensures goes { IsNotEnded result }
{
    let mut filled = Vec::new(alloc);
    for pair in pairs.into_vec() {
        match fill_pair(alloc, lib, folder, place, pair) {
            Ok(pair) => filled.push(pair)?,
            Err(fault) => return Err(fault),
        }
    }
    Ok(PairList::new(filled))
}

// The pairs of an element of this class.
#[tactic(auto, using(fd_outside::proofs::CallerLemmas::later_same))]
fn fill_class<L: Library>(
    alloc: Global,
    lib: &mut L,
    folder: &Text,
    place: &Place,
    class: &Text,
    pairs: PairList,
) -> Result<PairList, SessionFault>
    ensures fills { FillsBy place.now (λ files. class_filled files folder.now class.now pairs) (L.answers lib.old) (L.answers lib.new) result }
    ensures later { IsLater L.answers L.holds lib.old lib.new }
    ensures last { ReadsLast (L.answers lib.old) (L.answers lib.new) result }
    ensures goes { IsNotEnded result }
{
    if !is_loadshape(alloc, class)? {
        return Ok(pairs);
    }
    fill_pairs(alloc, lib, folder, place, pairs)
}

/// What a command does, with the numbers of the files that the pairs of a load shape name, within this folder. Where
/// they name none, it is the same, and nothing is asked.
///
/// Errors: `Script` with the place exactly at the first file that isn't held, or that has no numbers or a record that
/// begins with none; `Read` where the library's last answer is a failed read, with its name; `NoMemory`.
#[tactic(auto, using(fd_outside::proofs::CallerLemmas::later_same, crate::proofs::Entering::grows_none))]
pub fn fill<L: Library>(
    alloc: Global,
    lib: &mut L,
    folder: &Text,
    place: &Place,
    verb: Verb,
) -> Result<Verb, SessionFault>
    ensures fills { FillsBy place.now (λ files. verb_filled files folder.now verb) (L.answers lib.old) (L.answers lib.new) result }
    ensures later { IsLater L.answers L.holds lib.old lib.new }
    ensures last { ReadsLast (L.answers lib.old) (L.answers lib.new) result }
    ensures goes { IsNotEnded result }
    // What it costs stays the same.
    ensures cost { IfOk result (λ filled. cost filled ≡ cost verb) }
{
    match verb {
        Verb::New { class, name, pairs } => {
            match fill_class(alloc, lib, folder, place, &class, pairs) {
                Ok(pairs) => Ok(Verb::New { class, name, pairs }),
                Err(fault) => Err(fault),
            }
        }
        Verb::Edit { class, name, pairs } => {
            match fill_class(alloc, lib, folder, place, &class, pairs) {
                Ok(pairs) => Ok(Verb::Edit { class, name, pairs }),
                Err(fault) => Err(fault),
            }
        }
        other => Ok(other),
    }
}
