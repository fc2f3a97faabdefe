// The branches of a ladder, and what is drawn between them.
use dss_model::Items;
use fd_pattern::NodeAt;
use fd_xfmr::NodePair;

/// Whole numbers in order.
pub type Numbers = Items<i128>;

/// A phase of the source, of a Line or of a Transformer, seen from the source: its inner end is the nearer one. Voltages
/// are in whole microvolts, coefficients in whole 2^-40.
#[derive(Drop, Debug)]
pub struct Branch {
    /// The voltage of the source's phase, 0 at a Line or a Transformer.
    pub re: i128,
    pub im: i128,
    /// The terminal at its inner end; its voltage is that of the first node less that of the second.
    pub inner: NodePair,
    /// What its outer end has of that voltage, and its inner end of the current: 1 at a Line, the ratio at a Transformer.
    pub ratio: i128,
    /// The row of the series impedance at this phase: a resistance and a reactance for each phase of the element.
    pub r: Numbers,
    pub x: Numbers,
    /// The complex unknown of the first phase of the element: phase m has the m-th from there.
    pub from: u32,
    /// The complex unknown of this phase.
    pub own: u32,
    /// Whether its current runs outwards.
    pub outward: bool,
    /// The node at its outer end.
    pub outer: NodeAt,
}

/// The branches of an element, phase by phase.
#[derive(Drop, Debug)]
pub struct Rung {
    pub branches: Vec<Branch>,
}

/// An admittance j y: its current is j y times the voltage across one terminal, and leaves the first node of another,
/// to enter its second. A phase of a closed capacitor bank has one, and each pair of phases at each end of a line.
#[derive(Clone, Copy, Debug)]
pub struct Shunt {
    /// y in whole 2^-40 siemens.
    pub charge: i128,
    /// The terminal whose voltage counts.
    pub across: NodePair,
    /// The terminal that draws the current.
    pub into: NodePair,
}

/// The rungs of a radial feeder from the source outwards, and its shunts.
#[derive(Drop, Debug)]
pub struct Ladder {
    pub rungs: Vec<Rung>,
    pub shunts: Vec<Shunt>,
}
