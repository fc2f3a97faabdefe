// The element to blame.
ghost use Rattle.std.specs.Prelude.{◌≡◌, ◌<◌, IfOk, Some, length};
ghost use Rattle.dss_ready.specs.dss_model.declared.fault.ModelFault.TheVariants as cause;
ghost use Rattle.dss_ready.specs.Ready.{blame_at};

use dss_ready::{Blame, Element, ElementName, ModelFault};
use indexmap::IndexMap;
use std::alloc::AllocError;

/// The element at a place in order of definition, to blame for being out of range, by the place of its New.
pub fn blame_range(
    elements: &IndexMap<ElementName, Element>,
    place: usize,
) -> Result<Blame, AllocError>
    requires { place < length elements.now.entries }
    ensures { IfOk result (λ blame. blame_at cause.Range elements.now.entries place ≡ Some blame) }
{
    let (_, element) = elements.as_slice().get_index(place).unwrap();
    Ok(Blame {
        place: element.place().clone()?,
        cause: ModelFault::Range,
    })
}
