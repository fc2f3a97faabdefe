// The data of a transformer.
use fd_system::Conn;

/// A transformer of two windings (OpenDSS manual, Transformer). Each array has the value of winding 1 and then that of winding 2;
/// numbers are whole 10^-9.
#[derive(Clone, Copy, Debug)]
pub struct XfmrData {
    /// The number of phases, 1 or 3 (property Phases).
    pub phases: u32,
    /// The connections (Conn). With one phase they do not count.
    pub conn: [Conn; 2],
    /// The nominal voltages in kilovolt, which are whole microvolts (kV): between two phases with three phases, across
    /// the winding with one.
    pub kv: [i128; 2],
    /// The rated power of all phases in kilovolt-ampere (kVA).
    pub kva: i128,
    /// The resistances in percent of the rating (%R).
    pub pct_r: [i128; 2],
    /// The leakage reactance between the windings in percent of the rating (XHL).
    pub xhl: i128,
}
