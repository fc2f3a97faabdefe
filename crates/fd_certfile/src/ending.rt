// How a certificate goes on: with its end, with a block, or otherwise.
ghost use Rattle.std.specs.Prelude.{◌≡◌};
ghost use Rattle.fd_certfile.specs.Lines.{lines_of};
ghost use Rattle.fd_certfile.specs.Reader.{is_end, is_solution, starts_with_end};
ghost use Rattle.fd_certfile.specs.Views.{view};

use crate::line::{Line, read_line};
use fd_lines::cut;

pub(crate) fn is_end(line: &Line<'_>) -> bool
    ensures { result ≡ is_end (view line.now) }
{
    match line {
        Line::End => true,
        _ => false,
    }
}

pub(crate) fn is_solution(line: &Line<'_>) -> bool
    ensures { result ≡ is_solution (view line.now) }
{
    match line {
        Line::Solution(..) => true,
        _ => false,
    }
}

/// Whether the next line is `end`.
pub(crate) fn is_ended(bytes: &[u8]) -> bool
    ensures { result ≡ starts_with_end (lines_of bytes.now) }
{
    match cut(bytes, b'\n') {
        Some((text, _)) => is_end(&read_line(text)),
        None => false,
    }
}
