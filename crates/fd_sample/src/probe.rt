// What is known of a control to sample it.
use fd_network::NodePair;
use fd_regctl::NodeAt;

/// A regulator's control, with what its samples need. Numbers are whole 10^-9 where nothing else is said.
#[derive(Clone, Copy, Debug)]
pub struct RegProbe {
    /// The number of the transformer among the transformers, in the script's order.
    pub transformer: u32,
    /// Whether it measures and moves winding 2.
    pub is_second: bool,
    /// The nodes that its phase joins at that winding, and the branch of the phase, whose current is that of winding 2.
    pub nodes: NodePair,
    pub branch: u32,
    /// The nominal voltages of winding 1 and of winding 2, in whole microvolts.
    pub first_volts: u128,
    pub second_volts: u128,
    /// One step of the winding's tap, and its range, in whole 10^-5.
    pub tap_step: u32,
    pub min_tap: u32,
    pub max_tap: u32,
    /// The voltage that is wanted and the width of the band, in volts at the relay.
    pub vreg: u128,
    pub band: u128,
    /// The ratio of the voltage transformer, and the rating of the current transformer in amperes.
    pub ptratio: u128,
    pub ctprim: u128,
    /// The settings of the line drop compensation, in volts.
    pub r: i128,
    pub x: i128,
    /// The most steps at once.
    pub maxtapchange: u32,
    /// The delays of the first act and of each further one, in milliseconds.
    pub delay: u64,
    pub tapdelay: u64,
}

/// A bank's control, with what its samples need. Numbers are whole 10^-9 where nothing else is said.
#[derive(Clone, Copy, Debug)]
pub struct CapProbe {
    /// The number of the bank among the banks, in the script's order.
    pub bank: u32,
    /// What it measures.
    pub measured: Measured,
    /// The values at which it closes and opens the bank: in volts or amperes at the relay, or in kvar.
    pub on: i128,
    pub off: i128,
    /// The delays before it closes and opens the bank, and the time for which an opened bank stays open, in
    /// milliseconds.
    pub delay: u64,
    pub delayoff: u64,
    pub deadtime: u64,
}

/// What a bank's control measures at its line.
#[derive(Clone, Copy, Debug)]
pub enum Measured {
    /// The voltage of a node, over the ratio of the voltage transformer.
    Voltage { node: NodeAt, ratio: u128 },
    /// The current of a branch, over the ratio of the current transformer.
    Current { branch: u32, ratio: u128 },
    /// The reactive power that enters the line at one of its ends.
    Kvar(LineEnd),
}

/// One end of a line.
#[derive(Clone, Copy, Debug)]
pub struct LineEnd {
    /// The number of phases, 1 to 3, and the nodes of these; the others do not count.
    pub phases: u32,
    pub nodes: [NodeAt; 3],
    /// The branch of the first phase. Its current enters the line at the first end.
    pub branch: u32,
    pub is_second: bool,
}

/// A control, with what its samples need: nothing of it grows with the circuit.
#[derive(Clone, Copy, Debug)]
pub enum Probe {
    Regulator(RegProbe),
    Bank(CapProbe),
}
