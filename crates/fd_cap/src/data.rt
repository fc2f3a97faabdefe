// The data of a capacitor bank.
use fd_system::Conn;

/// A capacitor bank (OpenDSS manual, Capacitor). Numbers are whole 10^-9.
#[derive(Clone, Copy, Debug)]
pub struct CapData {
    /// The number of phases, 1 or 3 (property Phases).
    pub phases: u32,
    /// The connection (Conn). With one phase it does not count.
    pub conn: Conn,
    /// The rated reactive power of all phases in kvar, which each phase has an equal part of (kvar).
    pub kvar: i128,
    /// The nominal voltage in kilovolt, which are whole microvolts (kV): between two phases with three phases, across the
    /// bank with one.
    pub kv: i128,
}
