// The values that are words, and the choices that the last pair makes.

/// How the phases of a winding, a bank or a load are joined.
#[derive(Clone, Copy)]
pub enum Connection {
    Wye,
    Delta,
}

/// A unit of length.
#[derive(Clone, Copy)]
pub enum Units {
    /// Any length: the ratio to another unit is 1.
    None,
    Mile,
    Kilofoot,
    Kilometre,
    Metre,
    Foot,
    Inch,
    Centimetre,
}

/// Which data of a line hold, by the last pair that gave any: sequence values or matrices.
#[derive(Clone, Copy)]
pub enum DataForm {
    Sequence,
    Matrix,
}

/// Which data of a source hold, by the last pair that gave any.
#[derive(Clone, Copy)]
pub enum SourceForm {
    /// The short-circuit powers.
    ShortCircuit,
    /// The sequence impedances in ohms.
    Ohms,
}

/// What gives a load's reactive power, by the last pair of the two.
#[derive(Clone, Copy)]
pub enum ReactiveRule {
    PowerFactor,
    Kvar,
}

/// Whether a bank of capacitors is open or closed.
#[derive(Clone, Copy)]
pub enum BankState {
    Open,
    Closed,
}

/// What a capacitor control measures.
#[derive(Clone, Copy)]
pub enum ControlQuantity {
    Current,
    Voltage,
    Kvar,
}

/// The lower side of a delta-wye transformer lags by 30 degrees. Both words say so.
#[derive(Clone, Copy)]
pub enum LeadLag {
    Lag,
    Ansi,
}

/// What a Solve gives: one solution, or one for each hour.
#[derive(Clone, Copy)]
pub enum Mode {
    Snapshot,
    Daily,
}

/// Whether controls act, and how: in static mode the time stands still within a settle; in time mode it goes on with the
/// hours of a Solve, and an entry of the queue acts at the first hour that isn't before its time.
#[derive(Clone, Copy)]
pub enum ControlMode {
    Static,
    Off,
    Time,
}

/// A step of one hour, in the three ways in which it may be written.
#[derive(Clone, Copy)]
pub enum StepSize {
    /// `1h`
    Hour,
    /// `60m`
    Minutes,
    /// `3600`
    Seconds,
}
