// The lines of a certificate.
ghost use Rattle.std.specs.Prelude.{◌≡◌};
ghost use Rattle.std.specs.Option.{option_map};
ghost use Rattle.fd_lines.specs.Cuts.{texts_of};
ghost use Rattle.fd_certfile.specs.Lines.{act_of, end_of, header_of, line_of, solution_of, state_of};
ghost use Rattle.fd_lines.specs.Numbers.{numbers_of, text_eq};
ghost use Rattle.fd_certfile.specs.Views.{line_by_fields, or_other, view};

use fd_lines::{Fields, four, one, parted, three};

/// A line of a certificate. The numbers of a row of an inverse are left to be read.
#[derive(Clone, Copy, Drop)]
pub(crate) enum Line<'a> {
    /// The version.
    Header(i128),
    /// The number of a solution, its hour, its round, and the number of its unknowns.
    Solution(i128, i128, i128, i128),
    /// The place of an unknown, its centre, its radius and its row's mismatch.
    State(i128, i128, i128, i128),
    /// The fields of a row of an inverse, the row's place first.
    Row(Fields<'a>),
    /// Milliseconds, the number of a control, and steps.
    Act(i128, i128, i128),
    End,
    /// A line of no such form.
    Other,
}

fn is_word(word: &[u8], name: &[u8]) -> bool
    ensures { result ≡ text_eq word.now name.now }
{
    word == name
}

fn header(fields: Fields<'_>) -> Line<'_>
    ensures { view result ≡ or_other header_of (numbers_of (texts_of (option_map (λ t. t.now) fields.entry))) }
{
    match one(fields) {
        Some(version) => Line::Header(version),
        None => Line::Other,
    }
}

fn solution(fields: Fields<'_>) -> Line<'_>
    ensures { view result ≡ or_other solution_of (numbers_of (texts_of (option_map (λ t. t.now) fields.entry))) }
{
    match four(fields) {
        Some((number, hour, round, size)) => Line::Solution(number, hour, round, size),
        None => Line::Other,
    }
}

fn state(fields: Fields<'_>) -> Line<'_>
    ensures { view result ≡ or_other state_of (numbers_of (texts_of (option_map (λ t. t.now) fields.entry))) }
{
    match four(fields) {
        Some((place, centre, radius, mismatch)) => Line::State(place, centre, radius, mismatch),
        None => Line::Other,
    }
}

fn act(fields: Fields<'_>) -> Line<'_>
    ensures { view result ≡ or_other act_of (numbers_of (texts_of (option_map (λ t. t.now) fields.entry))) }
{
    match three(fields) {
        Some((time, control, steps)) => Line::Act(time, control, steps),
        None => Line::Other,
    }
}

fn end(fields: Fields<'_>) -> Line<'_>
    ensures { view result ≡ or_other end_of (numbers_of (texts_of (option_map (λ t. t.now) fields.entry))) }
{
    match fields {
        Some(_) => Line::Other,
        None => Line::End,
    }
}

// The line of a word and the fields behind it.
#[tactic(auto, unfolding(crate::specs::Views::line_by_fields))]
fn by_word<'a>(word: &[u8], fields: Fields<'a>) -> Line<'a>
    ensures { view result ≡ line_by_fields word.now (numbers_of (texts_of (option_map (λ t. t.now) fields.entry))) }
{
    if is_word(word, b"cert") {
        return header(fields);
    }
    if is_word(word, b"solution") {
        return solution(fields);
    }
    if is_word(word, b"x") {
        return state(fields);
    }
    if is_word(word, b"c") {
        return Line::Row(fields);
    }
    if is_word(word, b"act") {
        return act(fields);
    }
    if is_word(word, b"end") {
        return end(fields);
    }
    Line::Other
}

/// The line of a text without its line feed.
#[tactic(auto, using(crate::proofs::Lines::line_parted))]
pub(crate) fn read_line(text: &[u8]) -> Line<'_>
    ensures { view result ≡ line_of text.now }
{
    let (word, fields) = parted(text);
    by_word(word, fields)
}
