// Where the unknowns of a network stand.
ghost use Rattle.std.specs.Prelude.{◌≡◌, ◌+◌, ◌*◌, ◌<◌, ◌^◌};
ghost use Rattle.fd_pattern.specs.Views.{kind_in};

/// How many unknowns a network has. Complex unknown number k has its real part at place 2k and its imaginary part at 2k + 1: first
/// the nodes, then the branches. The magnitudes stand behind them, one place each.
#[derive(Clone, Copy, Debug, PartialEq, Eq)]
pub struct Layout {
    pub nodes: u32,
    pub branches: u32,
    pub magnitudes: u32,
}

/// What the unknown at a place is: a part of a node's voltage, a part of a branch's current, or a magnitude.
#[derive(Clone, Copy, Debug, PartialEq, Eq)]
pub enum PlaceKind {
    Node,
    Branch,
    Magnitude,
}

impl Layout {
    /// What the unknown at a place is.
    pub fn kind(&self, place: u32) -> PlaceKind
        requires { 2 * (self.now.nodes + self.now.branches) < 2 ^ 32 }
        ensures { result ≡ kind_in (2 * self.now.nodes) (2 * (self.now.nodes + self.now.branches)) place }
    {
        if place < 2 * self.nodes {
            PlaceKind::Node
        } else if place < 2 * (self.nodes + self.branches) {
            PlaceKind::Branch
        } else {
            PlaceKind::Magnitude
        }
    }
}
