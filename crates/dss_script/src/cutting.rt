// A line, cut into words and pairs.
ghost use Rattle.std.specs.Prelude.{◌≡◌, Some, None, Option, length, ◌≤◌, ◌==◌, true, Ok, Err, IfOk, if◌then◌else◌};
ghost use Rattle.std.specs.List.{position};
ghost use Rattle.std.specs.Str.{is_utf8};
ghost use Rattle.dss_model.specs.dss_lexer.Answers.{Gives};
ghost use Rattle.dss_model.specs.dss_lexer.Line.{skip_blanks};
ghost use Rattle.dss_script.specs.Cutting.{closer_of, starts_comment, ends_line, ends_word, word_len, group_at, value_at, item_at, items_of, pairs_of, is_group, skip_separators};

use dss_model::{LineError, LineFault, Pair, Text, characters_of};
use std::alloc::{AllocError, Global};

fn without_blanks(text: &[char]) -> &[char]
    ensures { result.now ≡ skip_blanks text.now }
{
    let mut rest = text;
    while let [' ' | '\t', tail @ ..] = rest {
        rest = tail;
    }
    rest
}

fn without_separators(text: &[char]) -> &[char]
    ensures { result.now ≡ skip_separators text.now }
{
    let mut rest = text;
    while let [' ' | '\t' | ',', tail @ ..] = rest {
        rest = tail;
    }
    rest
}

fn is_comment(text: &[char]) -> bool
    ensures { result ≡ starts_comment text.now }
{
    matches!(text, ['!', ..] | ['/', '/', ..])
}

fn closer(character: char) -> Option<char>
    ensures { result ≡ closer_of character }
{
    match character {
        '(' => Some(')'),
        '[' => Some(']'),
        '{' => Some('}'),
        '"' => Some('"'),
        '\'' => Some('\''),
        _ => None,
    }
}

// Whether a bare word ends before this text. A name ends at an equals sign too.
fn is_word_end(text: &[char], is_name: bool) -> bool
    ensures { result ≡ ends_word is_name text.now }
{
    match text {
        [] | [' ' | '\t' | ',', ..] => true,
        ['=', ..] => is_name,
        _ => is_comment(text),
    }
}

#[tactic(auto, using(crate::proofs::Words::word_ends, crate::proofs::Words::word_goes, crate::proofs::Words::word_over))]
fn length_of_word(text: &[char], is_name: bool) -> usize
    ensures length { result ≡ word_len is_name text.now }
    ensures within { result ≤ length text.now }
{
    for (i, _) in text.iter().enumerate() {
        if is_word_end(&text[i..], is_name) {
            return i;
        }
    }
    text.len()
}

// What stands before the end of a group, and what comes after it.
#[tactic(auto, unfolding(crate::specs::Cutting::group_at))]
fn group(text: &[char], closer: char) -> Result<(&[char], &[char]), LineError>
    ensures { Gives (λ x. (record { text = x.0.now; grouped = true }, x.1.now)) result (group_at closer text.now) }
{
    match find_closer(text, closer) {
        Some(end) => Ok((&text[..end], &text[end + 1..])),
        None => Err(LineError::Fault(LineFault::UnclosedGroup)),
    }
}

fn find_closer(text: &[char], closer: char) -> Option<usize>
    ensures { result ≡ position (λ c. c == closer) text.now }
{
    text.iter().position(|c| *c == closer)
}

/// A value, and whether it stood in a group.
#[derive(Clone, Copy)]
struct Found<'a> {
    text: &'a [char],
    grouped: bool,
}

#[tactic(auto, unfolding(crate::specs::Cutting::value_at))]
fn value(text: &[char]) -> Result<(Found<'_>, &[char]), LineError>
    ensures { Gives (λ x. (record { text = x.0.text.now; grouped = x.0.grouped }, x.1.now)) result (value_at text.now) }
{
    let Some(first) = text.first() else {
        return Ok((
            Found {
                text,
                grouped: false,
            },
            text,
        ));
    };
    match closer(*first) {
        Some(closer) => {
            let (inner, rest) = group(&text[1..], closer)?;
            Ok((
                Found {
                    text: inner,
                    grouped: true,
                },
                rest,
            ))
        }
        None => {
            let (word, rest) = text.split_at(length_of_word(text, false));
            Ok((
                Found {
                    text: word,
                    grouped: false,
                },
                rest,
            ))
        }
    }
}

// One word or pair, and the text after it.
#[tactic(auto, unfolding(crate::specs::Cutting::item_at))]
fn item(alloc: Global, text: &[char]) -> Result<(Pair, &[char]), LineError>
    ensures { Gives (λ x. (x.0, x.1.now)) result (item_at text.now) }
{
    if starts_group(text) {
        let (found, rest) = value(text)?;
        return Ok((make_pair(alloc, &[], found)?, rest));
    }
    let (name, rest) = text.split_at(length_of_word(text, true));
    match without_blanks(rest) {
        ['=', after @ ..] => {
            let (found, rest) = value(without_blanks(after))?;
            Ok((make_pair(alloc, name, found)?, rest))
        }
        _ => Ok((
            make_pair(
                alloc,
                &[],
                Found {
                    text: name,
                    grouped: false,
                },
            )?,
            rest,
        )),
    }
}

fn starts_group(text: &[char]) -> bool
    ensures { result ≡ is_group text.now }
{
    match text {
        [first, ..] => closer(*first).is_some(),
        [] => false,
    }
}

fn make_pair(alloc: Global, name: &[char], found: Found<'_>) -> Result<Pair, AllocError>
    ensures { IfOk result (λ p. p ≡ record { name = name.now; value = found.entry.text.now; grouped = found.entry.grouped }) }
{
    Ok(Pair {
        name: Text::of(alloc, name)?,
        value: Text::of(alloc, found.text)?,
        grouped: found.grouped,
    })
}

// Whether nothing is left but a comment.
fn is_line_end(text: &[char]) -> bool
    ensures { result ≡ ends_line text.now }
{
    match text {
        [] => true,
        _ => is_comment(text),
    }
}

// The words and pairs of a text.
fn items(alloc: Global, text: &[char]) -> Result<Vec<Pair>, LineError>
    ensures { Gives (λ v. v.items) result (items_of (length text.now) text.now) }
{
    let mut found = Vec::new(alloc);
    let mut rest = text;
    for _ in 0..text.len() {
        rest = without_separators(rest);
        if is_line_end(rest) {
            return Ok(found);
        }
        let (pair, after) = item(alloc, rest)?;
        found.push(pair)?;
        rest = after;
    }
    Ok(found)
}

#[tactic(auto, using(crate::proofs::Words::read_text, crate::proofs::Words::read_no_text))]
fn text_of(line: &[u8]) -> Result<&str, LineError>
    ensures { Gives (λ text. text.now) result (if is_utf8 line.now then Ok line.now else Err LineFault.NotText) }
{
    match str::from_utf8(line) {
        Ok(text) => Ok(text),
        Err(_) => Err(LineError::Fault(LineFault::NotText)),
    }
}

/// The words and pairs of one line, in order, as this profile cuts a line.
///
/// Blanks, tabs and commas part them; blanks and tabs round an equals sign belong to the pair. A value is a bare
/// word or a group in brackets or quotes, without nesting. Outside a group `!` and `//` begin a comment.
/// The length (65,536 bytes) is tested first, then that the line is UTF-8, then the line is cut.
/// Errors: LineTooLong, NotText, UnclosedGroup, NoMemory.
#[tactic(auto, unfolding(crate::specs::Cutting::pairs_of))]
pub fn pairs(alloc: Global, line: &[u8]) -> Result<Vec<Pair>, LineError>
    ensures { Gives (λ v. v.items) result (pairs_of line.now) }
{
    if line.len() > 65_536 {
        return Err(LineError::Fault(LineFault::LineTooLong));
    }
    let text = characters_of(alloc, text_of(line)?)?;
    items(alloc, &text)
}
