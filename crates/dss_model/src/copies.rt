// Values that may be absent, copied.
ghost use Rattle.std.specs.Prelude.{◌≡◌, IfOk};

use crate::{Bus, Numbers};
use dss_lexer::Text;
use std::alloc::AllocError;

/// The same bus, where there is one.
pub fn copied_bus(bus: &Option<Bus>) -> Result<Option<Bus>, AllocError>
    ensures { IfOk result (λ copy. copy ≡ bus.now) }
{
    match bus {
        Some(bus) => Ok(Some(bus.copied()?)),
        None => Ok(None),
    }
}

/// The same text, where there is one.
pub fn copied_text(text: &Option<Text>) -> Result<Option<Text>, AllocError>
    ensures { IfOk result (λ copy. copy ≡ text.now) }
{
    match text {
        Some(text) => Ok(Some(text.clone()?)),
        None => Ok(None),
    }
}

/// The same numbers, where there are any.
pub fn copied_numbers(numbers: &Option<Numbers>) -> Result<Option<Numbers>, AllocError>
    ensures { IfOk result (λ copy. copy ≡ numbers.now) }
{
    match numbers {
        Some(numbers) => Ok(Some(numbers.copied()?)),
        None => Ok(None),
    }
}
