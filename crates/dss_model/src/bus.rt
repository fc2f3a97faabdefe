// A bus as a property names it.
ghost use Rattle.std.specs.Prelude.{◌≡◌, IfOk};

use crate::Nodes;
use dss_lexer::Text;
use std::alloc::AllocError;

/// A bus's name, in lower case, and the node numbers that are written behind it: at most four, each from 0 to 9.
#[derive(Drop)]
pub struct Bus {
    pub name: Text,
    pub nodes: Nodes,
}

impl Bus {
    /// The same bus.
    pub fn copied(&self) -> Result<Bus, AllocError>
        ensures { IfOk result (λ bus. bus ≡ self.now) }
    {
        Ok(Bus {
            name: self.name.clone()?,
            nodes: self.nodes.copied()?,
        })
    }
}
