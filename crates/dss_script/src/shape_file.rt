// The file that a pair of a load shape names.
ghost use Rattle.std.specs.Prelude.{◌≡◌, codes, drop, nat_eq, IfOk};
ghost use Rattle.std.specs.Cmp.Lexicographic.{pointwise};
ghost use Rattle.std.specs.List.{starts_with};
ghost use Rattle.dss_script.specs.ShapeFiles.{file_named};

use dss_model::{Pair, Text};
use std::alloc::{AllocError, Global};

// Whether a value in lower case begins with `file=`.
fn is_file(value: &str) -> bool
    ensures { result ≡ starts_with nat_eq value.now (codes "file=") }
{
    value.starts_with("file=")
}

// What comes after the first five characters.
fn after_five(characters: &[char]) -> &[char]
    ensures { result.now ≡ drop 5 characters.now }
{
    match characters {
        [_, _, _, _, _, rest @ ..] => rest,
        _ => &[],
    }
}

// The name of a file behind `file=`.
fn file_name(alloc: Global, value: &Text) -> Result<Text, AllocError>
    ensures { IfOk result (λ text. text ≡ drop 5 value.now) }
{
    let characters = value.characters(alloc)?;
    Text::of(alloc, after_five(&characters))
}

fn is_mult(name: &str) -> bool
    ensures { result ≡ pointwise nat_eq name.now (codes "mult") }
{
    name == "mult"
}

/// The name of the file that holds a shape's factors, where a pair is `mult=file=NAME`.
pub fn file_named(alloc: Global, pair: &Pair) -> Result<Option<Text>, AllocError>
    ensures { IfOk result (λ name. name ≡ file_named pair.now) }
{
    let name = pair.name.lowered(alloc)?;
    let value = pair.value.lowered(alloc)?;
    if is_mult(name.as_str()) && is_file(value.as_str()) {
        return Ok(Some(file_name(alloc, &pair.value)?));
    }
    Ok(None)
}
