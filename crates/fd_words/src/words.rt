// The form that words are.
ghost use Rattle.std.specs.Prelude.{◌≡◌, IfOk, IfSome, OnErr, is_some, map, string_bytes, true};
ghost use Rattle.std.specs.Option.{option_map};
ghost use Rattle.fd_words.specs.Words.{form_in, form_of, has_sections};

use crate::lines::{command, form_of_matches};
use crate::shorts::Short;
use crate::table::ROWS;
use crate::usage::is_form;
use clap::error::ErrorKind;
use std::alloc::{AllocError, Global};

/// A command line, with the words behind its first.
#[derive(Clone, Copy, Drop)]
pub enum Form<'a> {
    Solve(&'a str),
    Cert(&'a str),
    Check(&'a str, &'a str),
    /// The script of a feeder of so many sections from a number.
    Gen {
        number: u64,
        sections: u32,
    },
    Bench {
        number: u64,
        sections: u32,
    },
    /// A certificate of either version, to be written in the second.
    Upgrade(&'a str),
    /// A short circuit of a kind at a bus of the circuit of a script.
    Fault {
        master: &'a str,
        bus: &'a str,
        kind: Short,
    },
    /// Ladder sweeps beside the Solves of a script.
    Ladder(&'a str),
}

// The form that the command makes of words that are one.
fn taken_apart<'a>(alloc: Global, words: &'a [String]) -> Result<Option<Form<'a>>, AllocError>
    requires { is_some (form_of (map string_bytes words.now)) ≡ true }
    ensures form { IfOk result (λ form. option_map form_in form ≡ form_of (map string_bytes words.now)) }
    ensures some { IfOk result (λ form. IfSome form has_sections) }
{
    match command(alloc, &ROWS)?.try_get_matches_from(words) {
        Ok(matches) => Ok(form_of_matches(&matches)),
        Err(error) => match error.kind() {
            ErrorKind::OutOfMemory => Err(AllocError),
            _ => unreachable!(),
        },
    }
}

/// The form that the words are, if they are one. Memory runs out only where they are.
pub fn form_of<'a>(alloc: Global, words: &'a [String]) -> Result<Option<Form<'a>>, AllocError>
    ensures form { IfOk result (λ form. option_map form_in form ≡ form_of (map string_bytes words.now)) }
    ensures some { IfOk result (λ form. IfSome form has_sections) }
    ensures err { OnErr result (is_some (form_of (map string_bytes words.now)) ≡ true) }
{
    if is_form(words) {
        taken_apart(alloc, words)
    } else {
        Ok(None)
    }
}
