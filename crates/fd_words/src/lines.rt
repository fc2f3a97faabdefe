// The words of a form taken apart by a command of `clap`.
ghost use Rattle.std.specs.Prelude.{◌≡◌, ◌≤◌, ◌∷◌, [], IfOk, IfSome, codes, false, fold, length, map, option_and_then};
ghost use Rattle.std.specs.Option.{option_map};
ghost use Rattle.clap.specs.declared.builder.command.Command.TheViews.{out-Command};
ghost use Rattle.clap.specs.Simple.{new_shape};
ghost use Rattle.clap.specs.Words.{all_of, app_of, found_of, rows_of, subcommand_rows_of};
ghost use Rattle.fd_words.specs.Lines.{form_of_rows, no_lines, with_line, words_rule};
ghost use Rattle.fd_words.specs.Words.{Bench, Gen, form_in, form_of, form_with, has_sections};
ghost use Rattle.fd_words.specs.declared.table.Kind.TheVariants.{Number, Sections};

use crate::numbers::{number_of, sections_of};
use crate::shorts::short_of;
use crate::table::{Kind, Row};
use crate::usage::{bus_of, file_of};
use crate::words::Form;
use clap::{Arg, ArgAction, ArgMatches, Command};
use std::alloc::{AllocError, Global};

// The subcommand of a row: a positional with as many values as words stand behind the first.
fn line<'a>(alloc: Global, word: &'a str, kinds: &[Kind]) -> Result<Command<'a>, AllocError>
    ensures app { IfOk result (λ command. (app_of command).top
        ≡ record (new_shape word.now) { rules = words_rule (length kinds.now) ∷ [] }) }
    ensures local { IfOk result (λ command. (out-Command command).has_globals ≡ false) }
{
    let words = Arg::new(alloc, "words")
        .required(true)
        .action(ArgAction::Set)
        .num_args(kinds.len());
    Command::new(alloc, word).arg(words)
}

/// The command with a subcommand for each row.
pub(crate) fn command<'a>(alloc: Global, rows: &[Row]) -> Result<Command<'a>, AllocError>
    ensures { IfOk result (λ command. app_of command
        ≡ fold (λ app row. with_line app row.0.now (length row.1.now)) no_lines rows.now) }
{
    let mut command = Command::new(alloc, "feeder")
        .no_binary_name(true)
        .disable_help_flag(true)
        .disable_help_subcommand(true);
    for row in rows {
        let (word, kinds) = *row;
        let line = line(alloc, word, kinds)?;
        command = command.subcommand(line)?;
    }
    Ok(command)
}

// The words of a line.
#[tactic(auto, using(crate::proofs::Taken::words_by))]
fn words_in<'m, 'a>(matches: &'m ArgMatches<'a>) -> Option<&'m [&'a str]>
    ensures { option_map (λ words. map (λ word. word.now) words.now) result
        ≡ all_of (codes "words") (rows_of (found_of matches.now)) }
{
    matches.get_raw("words")
}

// The number and the sections of a generated feeder.
fn size_of(words: &[&str]) -> Option<(u64, u32)>
    ensures made { option_map (λ size. Gen size.0 size.1) result
        ≡ form_with (Number ∷ Sections ∷ []) Gen (map (λ word. word.now) words.now) }
    ensures measured { option_map (λ size. Bench size.0 size.1) result
        ≡ form_with (Number ∷ Sections ∷ []) Bench (map (λ word. word.now) words.now) }
    ensures some { IfSome result (λ size. 1 ≤ size.1) }
{
    match words {
        [number, sections] => Some((number_of(number)?, sections_of(sections)?)),
        _ => None,
    }
}

// The form of a first word and the words behind it.
fn form_of_words<'a>(name: &str, words: &[&'a str]) -> Option<Form<'a>>
    ensures form { option_map form_in result ≡ form_of (name.now ∷ map (λ word. word.now) words.now) }
    ensures some { IfSome result has_sections }
{
    match name {
        "solve" => match words {
            [file] => Some(Form::Solve(file_of(file)?)),
            _ => None,
        },
        "cert" => match words {
            [file] => Some(Form::Cert(file_of(file)?)),
            _ => None,
        },
        "check" => match words {
            [script, certificate] => { Some(Form::Check(file_of(script)?, file_of(certificate)?)) }
            _ => None,
        },
        "gen" => {
            let (number, sections) = size_of(words)?;
            Some(Form::Gen { number, sections })
        }
        "bench" => {
            let (number, sections) = size_of(words)?;
            Some(Form::Bench { number, sections })
        }
        "upgrade" => match words {
            [certificate] => Some(Form::Upgrade(file_of(certificate)?)),
            _ => None,
        },
        "fault" => match words {
            [master, bus, kind] => Some(Form::Fault {
                master: file_of(master)?,
                bus: bus_of(bus)?,
                kind: short_of(kind)?,
            }),
            _ => None,
        },
        "ladder" => match words {
            [master] => Some(Form::Ladder(file_of(master)?)),
            _ => None,
        },
        _ => None,
    }
}

/// The form that the matches of the command are.
pub(crate) fn form_of_matches<'a>(matches: &ArgMatches<'a>) -> Option<Form<'a>>
    ensures form { option_map form_in result ≡
        option_and_then (λ line. form_of_rows line.0 line.1) (subcommand_rows_of matches.now) }
    ensures some { IfSome result has_sections }
{
    let (name, matches) = matches.subcommand()?;
    form_of_words(name, words_in(matches)?)
}
