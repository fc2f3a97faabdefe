// The numbers of a load shape as a script writes them.
ghost use Rattle.std.specs.Prelude.{◌≡◌, ◌++◌, IfOk, OnOk};
ghost use Rattle.fd_shape.specs.Text.{behind_blanks, values_text};

use dss_lexer::Text;
use fd_decimal::nano_text;
use std::alloc::{AllocError, Global};

// Adds numbers, with a blank before each.
fn push_behind_blanks(alloc: Global, text: &mut Vec<u8>, values: &[i128]) -> Result<(), AllocError>
    ensures { OnOk result (text.new.items ≡ text.old.items ++ behind_blanks values.now) }
{
    for value in values {
        text.push(b' ')?;
        text.extend_from_slice(&nano_text(alloc, *value)?)?;
    }
    Ok(())
}

fn bytes_of(alloc: Global, values: &[i128]) -> Result<Vec<u8>, AllocError>
    ensures { IfOk result (λ v. v.items ≡ values_text values.now) }
{
    let Some((first, rest)) = values.split_first() else {
        return Ok(Vec::new(alloc));
    };
    let mut text = nano_text(alloc, *first)?;
    push_behind_blanks(alloc, &mut text, rest)?;
    Ok(text)
}

/// The text of numbers in whole units of 10^-9: each with nine decimals, a minus before what isn't zero alone, and one
/// blank between two. Of no numbers it is empty. It takes a time that is linear in its length.
pub fn values_text(alloc: Global, values: &[i128]) -> Result<Text, AllocError>
    ensures { IfOk result (λ text. text ≡ values_text values.now) }
{
    let bytes = bytes_of(alloc, values)?;
    let characters: Vec<char> = bytes.iter().map(|byte| char::from(*byte)).collect(alloc)?;
    Text::of(alloc, &characters)
}
