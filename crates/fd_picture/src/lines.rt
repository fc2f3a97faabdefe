// The lines of a report.
ghost use Rattle.std.specs.Prelude.{◌≡◌, ◌<◌, ◌∷◌, ◌==◌, ◌&&◌, not, length, IfOk};
ghost use Rattle.fd_picture.specs.Lines.{is_at, is_quoted_after, is_unfit, lines_of, unfit_in};

use std::alloc::AllocError;

fn is_quoted_after(byte: u8, quoted: bool) -> bool
    ensures { result ≡ is_quoted_after byte quoted }
{
    if byte == b'"' { !quoted } else { quoted }
}

fn ends_line(byte: u8, quoted: bool) -> bool
    ensures { result ≡ ((byte == 10) && not quoted) }
{
    byte == b'\n' && !quoted
}

/// The first line of bytes of which there are some, and the bytes behind it and its line feed.
pub(crate) fn next_line(bytes: &[u8]) -> (&[u8], &[u8])
    requires { 0 < length bytes.now }
    ensures lines { lines_of bytes.now ≡ result.0.now ∷ lines_of result.1.now }
{
    let mut quoted = false;
    for i in 0..bytes.len() {
        if ends_line(bytes[i], quoted) {
            return (&bytes[..i], &bytes[i + 1..]);
        }
        quoted = is_quoted_after(bytes[i], quoted);
    }
    (bytes, &[])
}

// Whether a line can't be one record: it is empty, or a carriage return stands in it.
fn is_unfit(line: &[u8]) -> bool
    ensures { result ≡ is_unfit line.now }
{
    line.is_empty() || line.contains(&b'\r')
}

/// The number of the first line of a report that can't be one record, counted from 1. Takes no memory; the answer
/// `AllocError` is that of 2^64 lines, which no memory holds.
#[tactic(auto, unfolding(crate::specs::Lines::unfit_in))]
pub(crate) fn unfit_in(bytes: &[u8]) -> Result<Option<u64>, AllocError>
    ensures { IfOk result (λ unfit. unfit ≡ unfit_in bytes.now) }
{
    let mut rest = bytes;
    for number in 1..u64::MAX {
        if rest.is_empty() {
            return Ok(None);
        }
        let (line, behind) = next_line(rest);
        if is_unfit(line) {
            return Ok(Some(number));
        }
        rest = behind;
    }
    Err(AllocError)
}

/// Whether this is the number of the line.
pub(crate) fn is_at(unfit: Option<u64>, number: u64) -> bool
    ensures { result ≡ is_at unfit number }
{
    match unfit {
        Some(line) => line == number,
        None => false,
    }
}
