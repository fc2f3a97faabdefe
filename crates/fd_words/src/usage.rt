// Whether words are a form, by the table alone.
ghost use Rattle.std.specs.Prelude.{◌≡◌, ◌∷◌, ◌==◌, ◌&&◌, find, is_some, length, map, nat_eq, string_bytes};
ghost use Rattle.std.specs.Cmp.Lexicographic.{pointwise};
ghost use Rattle.std.specs.List.{list_all, zip};
ghost use Rattle.std.specs.Option.{option_map};
ghost use Rattle.fd_words.specs.declared.table.Kind.TheVariants as Kind;
ghost use Rattle.fd_words.specs.Words.{IsTable, form_of, names_file, value_as};

use crate::numbers::{number_of, sections_of};
use crate::shorts::short_of;
use crate::table::{Kind, ROWS, Row};

fn names_file(word: &str) -> bool
    ensures { result ≡ names_file word.now }
{
    match word.as_bytes() {
        [] => false,
        [first, ..] => *first != b'-',
    }
}

// Whether a word is of a kind.
fn is_word(kind: Kind, word: &str) -> bool
    ensures { result ≡ is_some (value_as kind word.now) }
{
    match kind {
        Kind::File => file_of(word).is_some(),
        Kind::Number => number_of(word).is_some(),
        Kind::Sections => sections_of(word).is_some(),
        Kind::Bus => bus_of(word).is_some(),
        Kind::Short => short_of(word).is_some(),
    }
}

// Whether there is a word of each kind.
fn are_words(kinds: &[Kind], words: &[String]) -> bool
    ensures { result ≡ (length kinds.now == length words.now
        && list_all (λ pair. is_some (value_as pair.0 (string_bytes pair.1))) (zip kinds.now words.now)) }
{
    kinds.len() == words.len()
        && kinds
            .iter()
            .zip(words)
            .all(|(kind, word)| is_word(*kind, word.as_str()))
}

// The first row of this word.
fn row_of<'a>(rows: &'a [Row], word: &str) -> Option<&'a Row>
    ensures { option_map (λ row. row.now) result ≡ find (λ row. pointwise nat_eq row.0.now word.now) rows.now }
{
    rows.iter().find(|row| row.0 == word)
}

/// The file that a word names.
pub(crate) fn file_of<'a>(word: &'a str) -> Option<&'a str>
    ensures { option_map (λ file. file.now) result ≡ value_as Kind.File word.now }
{
    if names_file(word) { Some(word) } else { None }
}

/// The bus that a word names.
pub(crate) fn bus_of<'a>(word: &'a str) -> Option<&'a str>
    ensures { option_map (λ bus. bus.now) result ≡ value_as Kind.Bus word.now }
{
    if names_file(word) { Some(word) } else { None }
}

// Whether a first word and those behind it are a form.
fn is_form_by(table: &[Row], first: &str, others: &[String]) -> bool
    requires { IsTable table.now }
    ensures { result ≡ is_some (form_of (first.now ∷ map string_bytes others.now)) }
{
    match row_of(table, first) {
        Some(row) => are_words(row.1, others),
        None => false,
    }
}

/// Whether the words are a form.
pub(crate) fn is_form(words: &[String]) -> bool
    ensures { result ≡ is_some (form_of (map string_bytes words.now)) }
{
    match words {
        [] => false,
        [first, others @ ..] => is_form_by(&ROWS, first.as_str(), others),
    }
}
