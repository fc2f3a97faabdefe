// Pieces of text.
ghost use Rattle.std.specs.Prelude.{◌≡◌, ◌++◌, OnOk, decimal};
ghost use Rattle.std.specs.List.{flat_map};
ghost use Rattle.fd_decimal.specs.Decimals.{size_text};
ghost use Rattle.fd_picture.specs.Texts.{attribute, between, escape, escaped};

use fd_decimal::size_text;
use itoa::Buffer;
use std::alloc::{AllocError, Global};
use std::slice;

/// Adds a piece as it is.
pub(crate) fn push(text: &mut Vec<u8>, piece: &[u8]) -> Result<(), AllocError>
    ensures { OnOk result (text.new.items ≡ text.old.items ++ piece.now) }
{
    text.extend_from_slice(piece)
}

/// Adds pieces in order.
pub(crate) fn push_all(text: &mut Vec<u8>, pieces: &[&[u8]]) -> Result<(), AllocError>
    ensures { OnOk result (text.new.items ≡ text.old.items ++ flat_map (λ piece. piece.now) pieces.now) }
{
    for piece in pieces {
        push(text, piece)?;
    }
    Ok(())
}

/// Adds a whole number.
pub(crate) fn push_number(text: &mut Vec<u8>, n: u128) -> Result<(), AllocError>
    ensures { OnOk result (text.new.items ≡ text.old.items ++ decimal n) }
{
    let mut digits = Buffer::new();
    push(text, digits.format(n).as_bytes())
}

/// Adds a size in units of 10^-6, with six decimals.
pub(crate) fn push_size(alloc: Global, text: &mut Vec<u8>, size: u64) -> Result<(), AllocError>
    ensures { OnOk result (text.new.items ≡ text.old.items ++ size_text size) }
{
    push(text, &size_text(alloc, u128::from(size))?)
}

/// Adds an attribute of a whole number: a blank, the name, and the number in quotes.
#[tactic(auto, unfolding(crate::specs::Texts::attribute))]
pub(crate) fn push_attribute(text: &mut Vec<u8>, name: &[u8], n: u128) -> Result<(), AllocError>
    ensures { OnOk result (text.new.items ≡ text.old.items ++ attribute name.now n) }
{
    push(text, b" ")?;
    push(text, name)?;
    push(text, b"='")?;
    push_number(text, n)?;
    push(text, b"'")
}

/// Adds a whole number between two pieces.
#[tactic(auto, unfolding(crate::specs::Texts::between))]
pub(crate) fn push_between(
    text: &mut Vec<u8>,
    before: &[u8],
    n: u64,
    after: &[u8],
) -> Result<(), AllocError>
    ensures { OnOk result (text.new.items ≡ text.old.items ++ between before.now n after.now) }
{
    push(text, before)?;
    push_number(text, u128::from(n))?;
    push(text, after)
}

// What stands for a byte within the text of an element.
fn escape(byte: &u8) -> &[u8]
    ensures { result.now ≡ escape byte.now }
{
    match *byte {
        b'&' => b"&amp;",
        b'<' => b"&lt;",
        b'>' => b"&gt;",
        0..32 => b" ",
        _ => slice::from_ref(byte),
    }
}

/// Adds bytes as the text of an element: marks of the language are written out, and a control character is a blank.
pub(crate) fn push_escaped(text: &mut Vec<u8>, bytes: &[u8]) -> Result<(), AllocError>
    ensures { OnOk result (text.new.items ≡ text.old.items ++ escaped bytes.now) }
{
    for byte in bytes {
        push(text, escape(byte))?;
    }
    Ok(())
}
