// The names of nodes and elements, as records have them.
ghost use Rattle.std.specs.Prelude.{◌≡◌, ◌∷◌, ◌++◌, IfOk};
ghost use Rattle.fd_report.specs.Names.{element_field, node_field};

use dss_script::ElementName;
use fd_sample::NodeName;
use itoa::Buffer;
use std::alloc::{AllocError, Global};

// Room for most names.
const USUAL_LENGTH: usize = 32;

/// `BUS.NUMBER`
pub(crate) fn node_field(alloc: Global, node: &NodeName) -> Result<Vec<u8>, AllocError>
    ensures { IfOk result (λ v. v.items ≡ node_field node.now) }
{
    let mut number = Buffer::new();
    with_dot(
        alloc,
        node.bus.as_str(),
        number.format(u32::from(node.number)),
    )
}

/// `CLASS.NAME`
pub(crate) fn element_field(alloc: Global, element: &ElementName) -> Result<Vec<u8>, AllocError>
    ensures { IfOk result (λ v. v.items ≡ element_field element.now) }
{
    with_dot(alloc, element.class.word(), element.name.as_str())
}

// Two texts, parted by a dot.
fn with_dot(alloc: Global, before: &str, after: &str) -> Result<Vec<u8>, AllocError>
    ensures { IfOk result (λ v. v.items ≡ before.now ++ 46 ∷ after.now) }
{
    let mut text = Vec::with_capacity(alloc, USUAL_LENGTH)?;
    text.extend_from_slice(before.as_bytes())?;
    text.push(b'.')?;
    text.extend_from_slice(after.as_bytes())?;
    Ok(text)
}
