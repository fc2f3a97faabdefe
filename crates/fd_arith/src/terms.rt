// The words in which the crates of the elements and of the network speak of contributions, of terminals and of loads.
ghost use Rattle.std.specs.Prelude.{◌≡◌};
ghost use Rattle.fd_arith.specs.LoadModels.{has_magnitude as model_has_magnitude, is_linear as is_linear_model};

use fd_items::Items;
use std::alloc::AllocError;

/// One linear contribution: the coefficient num / den, with 0 < den <= 10^32, of the unknown `col` in the row `row`.
#[derive(Clone, Copy, PartialEq, Eq, Debug)]
pub struct Term {
    pub row: u32,
    pub col: u32,
    pub num: i128,
    pub den: i128,
}

/// A node of a terminal: ground, or the node with this number among the complex unknowns.
#[derive(Clone, Copy, PartialEq, Eq, Debug)]
pub enum NodeAt {
    Ground,
    Node(u32),
}

/// The nodes of a terminal in order of its phases.
pub type NodesAt = Items<NodeAt>;

/// Where an element stands: the nodes of its first and of its second side, one for each phase, and the number of its
/// first branch among the complex unknowns.
#[derive(Drop, Debug)]
pub struct Ends {
    pub first: NodesAt,
    pub second: NodesAt,
    pub branch: u32,
}

/// The taps of a transformer's two windings, in whole 10^-5 (OpenDSS manual, property Tap).
#[derive(Clone, Copy, PartialEq, Eq, Debug)]
pub struct TapPair {
    pub first: u32,
    pub second: u32,
}

/// How the phases of a winding or a load are connected (OpenDSS manual, property Conn).
#[derive(Clone, Copy, PartialEq, Eq, Debug)]
pub enum Conn {
    Wye,
    Delta,
}

/// What a load draws at a voltage (OpenDSS manual, property Model: 1, 2, 5).
#[derive(Clone, Copy, PartialEq, Eq, Debug)]
pub enum LoadModel {
    ConstantPower,
    ConstantImpedance,
    ConstantCurrent,
}

impl LoadModel {
    /// Whether its current is linear in the voltage, as that of constant impedance alone is.
    pub fn is_linear(self) -> bool
        ensures { result ≡ is_linear_model self }
    {
        match self {
            LoadModel::ConstantPower | LoadModel::ConstantCurrent => false,
            LoadModel::ConstantImpedance => true,
        }
    }

    /// Whether each phase has a voltage magnitude among the unknowns, as those of constant current alone have.
    pub fn has_magnitude(self) -> bool
        ensures { result ≡ model_has_magnitude self }
    {
        match self {
            LoadModel::ConstantPower | LoadModel::ConstantImpedance => false,
            LoadModel::ConstantCurrent => true,
        }
    }
}

/// Why an element gives no contributions: a coefficient past 2^54, or want of memory.
#[derive(Clone, Copy, PartialEq, Eq, Debug)]
pub enum TermFault {
    Range,
    NoMemory,
}

impl From<AllocError> for TermFault {
    ghost use Rattle.std.specs.Prelude.{◌≡◌};
    ghost use Rattle.fd_arith.specs.declared.terms.TermFault.{TermFault};
    ghost use Rattle.fd_arith.specs.declared.terms.TermFault.TheVariants.{NoMemory};

    ghost from_gives = { λ error result. result ≡ NoMemory };

    fn from(_: AllocError) -> Self {
        TermFault::NoMemory
    }
}
