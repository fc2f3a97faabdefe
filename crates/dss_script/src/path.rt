// Names of files, joined to MASTER's folder.
ghost use Rattle.std.specs.Prelude.{◌≡◌, ◌-◌, ◌≤◌, IfOk, length};
ghost use Rattle.std.specs.List.{suffix_len};
ghost use Rattle.dss_script.specs.Paths.{folder_of, is_slash, is_no_slash, slashed, joined};

use dss_model::Text;
use std::alloc::{AllocError, Global};

fn is_separator(character: char) -> bool
    ensures { result ≡ is_slash character }
{
    character == '/'
}

// How many characters stand up to and with the last slash.
#[tactic(auto, using(crate::proofs::Paths::step_back, crate::proofs::Paths::at_slash))]
fn folder_length(name: &[char]) -> usize
    ensures length { result ≡ length name.now - suffix_len is_no_slash name.now }
    ensures within { result ≤ length name.now }
{
    let mut end = name.len();
    while end > 0 && !is_separator(name[end - 1]) {
        end -= 1;
    }
    end
}

/// The folder of a file: all up to and with the last slash of its name.
pub fn folder(alloc: Global, name: &Text) -> Result<Text, AllocError>
    ensures { IfOk result (λ folder. folder ≡ folder_of name.now) }
{
    let characters = name.characters(alloc)?;
    Text::of(alloc, &characters[..folder_length(&characters)])
}

fn with_slash(character: char) -> char
    ensures { result ≡ slashed character }
{
    if character == '\\' { '/' } else { character }
}

/// The name of a file within a folder, where each backslash is read as a slash.
pub fn name_within(alloc: Global, folder: &Text, name: &Text) -> Result<Text, AllocError>
    ensures { IfOk result (λ text. text ≡ joined folder.now name.now) }
{
    let mut characters = folder.characters(alloc)?;
    for character in &name.characters(alloc)? {
        characters.push(with_slash(*character))?;
    }
    Text::of(alloc, &characters)
}
