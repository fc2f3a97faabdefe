// Words and rows of numbers within a group.
ghost use Rattle.std.specs.Prelude.{◌≡◌, ◌<◌, ◌++◌, IfOk, map};
ghost use Rattle.std.specs.List.{slice_split};
ghost use Rattle.std.specs.Str.{chars};
ghost use Rattle.std.specs.Int.RustNames.{unsigned_abs};
ghost use Rattle.dss_lexer.specs.Answers.{Gives, each};
ghost use Rattle.dss_lexer.specs.Line.{is_separator};
ghost use Rattle.dss_lexer.specs.Number.{number_of};
ghost use Rattle.dss_lexer.specs.Arrays.{words_of, word_in, is_bar, row_of, matrix_of};

use crate::text::characters_of;
use crate::{NumberError, Text, number};
use std::alloc::{AllocError, Global};
use std::marker::Model;

/// A row of a matrix as it is written: numbers in whole units of 10^-9. Contracts see it as a list.
#[derive(Drop, Debug)]
pub struct Row {
    /// The numbers in order.
    pub cells: Vec<i128>,
}

impl Model for Row {
    ghost use Rattle.std.specs.Prelude.{List, ℤ};

    ghost Value = { List ℤ };

    ghost view = { λ r. r.cells.items };
}

impl Row {
    /// The row of these numbers.
    pub fn new(cells: Vec<i128>) -> Self
        ensures { result ≡ cells.items }
    {
        Row { cells }
    }

    /// The numbers in order.
    pub fn as_slice(&self) -> &[i128]
        ensures { result.now ≡ self.now }
    {
        self.cells.as_slice()
    }
}

fn separates(character: char) -> bool
    ensures { result ≡ is_separator character }
{
    matches!(character, ' ' | '\t' | ',')
}

fn is_row_end(character: char) -> bool
    ensures { result ≡ is_bar character }
{
    character == '|'
}

// The parts between separators, empty ones too.
fn parts_of(alloc: Global, text: &[char]) -> Result<Vec<&[char]>, AllocError>
    ensures { IfOk result (λ v. map (λ part. part.now) v.items ≡ slice_split is_separator text.now) }
{
    text.split(|c| separates(*c)).collect(alloc)
}

// The parts between bars.
fn rows_of(alloc: Global, text: &[char]) -> Result<Vec<&[char]>, AllocError>
    ensures { IfOk result (λ v. map (λ part. part.now) v.items ≡ slice_split is_bar text.now) }
{
    text.split(|c| is_row_end(*c)).collect(alloc)
}

// Adds a part, unless it is empty.
fn push_word<'a>(words: &mut Vec<&'a [char]>, part: &'a [char]) -> Result<(), AllocError>
    ensures { IfOk result (λ _. map (λ word. word.now) words.new.items ≡ map (λ word. word.now) words.old.items ++ word_in part.now) }
{
    if !part.is_empty() {
        words.push(part)?;
    }
    Ok(())
}

/// The words of a text, as slices of its characters.
pub fn words(alloc: Global, text: &[char]) -> Result<Vec<&[char]>, AllocError>
    ensures { IfOk result (λ v. map (λ word. word.now) v.items ≡ words_of text.now) }
{
    let parts = parts_of(alloc, text)?;
    let mut words = Vec::new(alloc);
    for part in &parts {
        push_word(&mut words, part)?;
    }
    Ok(words)
}

fn texts(alloc: Global, words: &[&[char]]) -> Result<Vec<Text>, AllocError>
    ensures { IfOk result (λ v. v.items ≡ map (λ word. word.now) words.now) }
{
    let mut texts = Vec::new(alloc);
    for word in words {
        texts.push(Text::of(alloc, word)?)?;
    }
    Ok(texts)
}

/// The words of an array, in order and as they are written: blanks, tabs and commas part them.
pub fn cells(alloc: Global, text: &str) -> Result<Vec<Text>, AllocError>
    ensures { IfOk result (λ v. v.items ≡ words_of (chars text.now)) }
{
    let characters = characters_of(alloc, text)?;
    let words = words(alloc, &characters)?;
    texts(alloc, &words)
}

/// The number that a word spells.
pub fn number_of_word(alloc: Global, word: &[char]) -> Result<i128, NumberError>
    ensures value { Gives (λ n. n) result (number_of word.now) }
    ensures size { IfOk result (λ n. unsigned_abs n < 1_000_000_000_000_000_000) }
{
    let text = Text::of(alloc, word)?;
    Ok(number(text.as_str())?)
}

fn numbers(alloc: Global, words: &[&[char]]) -> Result<Vec<i128>, NumberError>
    ensures { Gives (λ v. v.items) result (each number_of (map (λ word. word.now) words.now)) }
{
    let mut numbers = Vec::new(alloc);
    for word in words {
        numbers.push(number_of_word(alloc, word)?)?;
    }
    Ok(numbers)
}

fn row_numbers(alloc: Global, text: &[char]) -> Result<Row, NumberError>
    ensures { Gives (λ row. row) result (row_of text.now) }
{
    let words = words(alloc, text)?;
    Ok(Row::new(numbers(alloc, &words)?))
}

fn rows(alloc: Global, parts: &[&[char]]) -> Result<Vec<Row>, NumberError>
    ensures { Gives (λ v. v.items) result (each row_of (map (λ part. part.now) parts.now)) }
{
    let mut rows = Vec::new(alloc);
    for part in parts {
        rows.push(row_numbers(alloc, part)?)?;
    }
    Ok(rows)
}

/// The rows of a matrix as they are written, which vertical bars part: a lower triangle stays one.
///
/// Each row holds its numbers in whole units of 10^-9, which blanks, tabs and commas part; an empty row holds none.
/// Errors: those of `number` for the first word that isn't one, NoMemory.
pub fn matrix(alloc: Global, text: &str) -> Result<Vec<Row>, NumberError>
    ensures { Gives (λ v. v.items) result (matrix_of (chars text.now)) }
{
    let characters = characters_of(alloc, text)?;
    let parts = rows_of(alloc, &characters)?;
    rows(alloc, &parts)
}
