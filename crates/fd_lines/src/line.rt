// Lines by their word and their fields.
ghost use Rattle.std.specs.Prelude.{◌≡◌, ◌∷◌, None, IfNone, IfSome};
ghost use Rattle.std.specs.Option.{option_map};
ghost use Rattle.fd_lines.specs.Numbers.{text_eq};
ghost use Rattle.fd_lines.specs.WordLines.{line_of, lines_of, numbers_by, numbers_in, rest_of, view};

use crate::cutting::cut;
use crate::field::{Fields, parted};

/// A line: its word, and its fields, which are left to be read.
#[derive(Clone, Copy, Drop)]
pub struct Line<'a> {
    pub word: &'a [u8],
    pub fields: Fields<'a>,
}

/// The line of a text without its line feed.
#[tactic(auto, using(crate::proofs::WordLines::line_parted))]
#[inline]
pub fn read_line(text: &[u8]) -> Line<'_>
    ensures { view result ≡ line_of text.now }
{
    let (word, fields) = parted(text);
    Line { word, fields }
}

/// The next line of bytes, and the bytes behind it; none, where no line feed is left.
#[tactic(auto, using(crate::proofs::WordLines::lines_cut, crate::proofs::WordLines::of_last))]
pub fn next_line(bytes: &[u8]) -> Option<(Line<'_>, &[u8])>
    ensures some { IfSome result (λ p. lines_of bytes.now ≡ view p.0 ∷ lines_of p.1.now) }
    ensures none { IfNone result (lines_of bytes.now ≡ rest_of bytes.now) }
{
    match cut(bytes, b'\n') {
        Some((text, more)) => Some((read_line(text), more)),
        None => None,
    }
}

fn is_word(word: &[u8], name: &[u8]) -> bool
    ensures { result ≡ text_eq word.now name.now }
{
    word == name
}

/// The fields of a line behind this word.
pub fn fields_by<'a>(line: &Line<'a>, word: &[u8]) -> Option<Fields<'a>>
    ensures some { IfSome result (λ fields. numbers_by word.now (view line.now) ≡ numbers_in (option_map (λ t. t.now) fields)) }
    ensures none { IfNone result (numbers_by word.now (view line.now) ≡ None) }
{
    if is_word(line.word, word) {
        Some(line.fields)
    } else {
        None
    }
}
