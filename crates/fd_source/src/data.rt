// The data of a source.
use fd_system::Term;

/// The positive and the zero sequence impedance of a source, in whole 10^-9 ohm (OpenDSS manual, Vsource, properties R1, X1, R0,
/// X0).
#[derive(Clone, Copy, PartialEq, Eq, Debug)]
pub struct Ohms {
    pub r1: i128,
    pub x1: i128,
    pub r0: i128,
    pub x0: i128,
}

/// A source behind its impedance: the number of its phases, the size of each phase's voltage in whole microvolts, the angle of
/// the first phase in degrees, a multiple of 30, and the sequence impedances.
#[derive(Clone, Copy, PartialEq, Eq, Debug)]
pub struct SourceData {
    pub phases: u32,
    pub volts: i128,
    pub angle: i32,
    pub ohms: Ohms,
}

/// A source by its short-circuit powers, all in whole 10^-9 (OpenDSS manual, Vsource): the base voltage in kilovolt (BasekV), the
/// three-phase and the one-phase power in megavolt-ampere (MVAsc3, MVAsc1), and the ratios of reactance to resistance of the positive
/// and the zero sequence (X1R1, X0R0), which this profile rounds to four decimals.
#[derive(Clone, Copy, PartialEq, Eq, Debug)]
pub struct ShortCircuit {
    pub basekv: i128,
    pub mvasc3: i128,
    pub mvasc1: i128,
    pub x1r1: i128,
    pub x0r0: i128,
}

/// What a source adds to the rows: its contributions, and for each phase the real and the imaginary part of its voltage in
/// whole microvolts, which are the constants of its branches' rows in order.
#[derive(Drop, Debug)]
pub struct SourceTerms {
    pub terms: Vec<Term>,
    pub constants: Vec<i128>,
}
