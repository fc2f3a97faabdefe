// Part loads.
use fd_arith::{LoadModel, NodeAt};

/// A part load: powers in thousandths of a volt-ampere, the nominal voltage and its limits in microvolts.
#[derive(Clone, Copy)]
pub struct LoadPhase {
    pub model: LoadModel,
    pub p: i128,
    pub q: i128,
    pub vn: i128,
    pub vlo: i128,
    pub vhi: i128,
}

/// A part load at its terminal, and the place of its magnitude. It draws its current at `first` and gives it back at `second`.
#[derive(Clone, Copy)]
pub struct LoadAt {
    pub load: LoadPhase,
    pub first: NodeAt,
    pub second: NodeAt,
    pub magnitude: Option<u32>,
}
