// The values that are words of a table.
ghost use Rattle.dss_model.specs.declared.fault.ModelFault.TheVariants as fault;
ghost use Rattle.dss_model.specs.Answers.{Gives};
ghost use Rattle.dss_values.specs.Forms.{choice_in, two_choices_in};
ghost use Rattle.dss_values.specs.Words.{connections, units, truths, quantities, lead_lags, modes, control_modes, step_sizes};

use crate::arrays::two_choices;
use crate::forms::choice;
use dss_model::{
    Connection, ControlMode, ControlQuantity, LeadLag, Mode, ModelError, ModelFault, Pair,
    StepSize, Units,
};
use std::alloc::Global;

const CONNECTIONS: [(&str, Connection); 4] = [
    ("wye", Connection::Wye),
    ("ln", Connection::Wye),
    ("delta", Connection::Delta),
    ("ll", Connection::Delta),
];

const UNITS: [(&str, Units); 8] = [
    ("mi", Units::Mile),
    ("kft", Units::Kilofoot),
    ("km", Units::Kilometre),
    ("m", Units::Metre),
    ("ft", Units::Foot),
    ("in", Units::Inch),
    ("cm", Units::Centimetre),
    ("none", Units::None),
];

const TRUTHS: [(&str, bool); 8] = [
    ("y", true),
    ("n", false),
    ("yes", true),
    ("no", false),
    ("t", true),
    ("f", false),
    ("true", true),
    ("false", false),
];

const QUANTITIES: [(&str, ControlQuantity); 3] = [
    ("voltage", ControlQuantity::Voltage),
    ("current", ControlQuantity::Current),
    ("kvar", ControlQuantity::Kvar),
];

const LEAD_LAGS: [(&str, LeadLag); 2] = [("lag", LeadLag::Lag), ("ansi", LeadLag::Ansi)];

const MODES: [(&str, Mode); 3] = [
    ("snap", Mode::Snapshot),
    ("snapshot", Mode::Snapshot),
    ("daily", Mode::Daily),
];

const CONTROL_MODES: [(&str, ControlMode); 3] = [
    ("static", ControlMode::Static),
    ("off", ControlMode::Off),
    ("time", ControlMode::Time),
];

const STEP_SIZES: [(&str, StepSize); 3] = [
    ("1h", StepSize::Hour),
    ("60m", StepSize::Minutes),
    ("3600", StepSize::Seconds),
];

/// `wye` or `ln`, `delta` or `ll`.
pub fn connection(alloc: Global, pair: &Pair) -> Result<Connection, ModelError>
    ensures { Gives (λ c. c) result (choice_in fault.BadValue connections pair.now) }
{
    choice(alloc, &CONNECTIONS, ModelFault::BadValue, pair)
}

/// Two of the words `wye`, `ln`, `delta` and `ll`.
pub fn two_connections(alloc: Global, pair: &Pair) -> Result<(Connection, Connection), ModelError>
    ensures { Gives (λ c. c) result (two_choices_in connections pair.now) }
{
    two_choices(alloc, &CONNECTIONS, pair)
}

/// `mi`, `kft`, `km`, `m`, `ft`, `in`, `cm` or `none`.
pub fn length_unit(alloc: Global, pair: &Pair) -> Result<Units, ModelError>
    ensures { Gives (λ u. u) result (choice_in fault.BadValue units pair.now) }
{
    choice(alloc, &UNITS, ModelFault::BadValue, pair)
}

/// A truth value: `y`, `yes`, `t` or `true`, and `n`, `no`, `f` or `false`.
pub fn truth(alloc: Global, pair: &Pair) -> Result<bool, ModelError>
    ensures { Gives (λ on. on) result (choice_in fault.BadValue truths pair.now) }
{
    choice(alloc, &TRUTHS, ModelFault::BadValue, pair)
}

/// `voltage`, `current` or `kvar`; any other word is unsupported.
pub fn quantity(alloc: Global, pair: &Pair) -> Result<ControlQuantity, ModelError>
    ensures { Gives (λ q. q) result (choice_in fault.Unsupported quantities pair.now) }
{
    choice(alloc, &QUANTITIES, ModelFault::Unsupported, pair)
}

/// `lag` or `ansi`; any other word is unsupported.
pub fn lead_lag(alloc: Global, pair: &Pair) -> Result<LeadLag, ModelError>
    ensures { Gives (λ l. l) result (choice_in fault.Unsupported lead_lags pair.now) }
{
    choice(alloc, &LEAD_LAGS, ModelFault::Unsupported, pair)
}

/// `snap`, `snapshot` or `daily`.
pub fn solve_mode(alloc: Global, pair: &Pair) -> Result<Mode, ModelError>
    ensures { Gives (λ m. m) result (choice_in fault.BadValue modes pair.now) }
{
    choice(alloc, &MODES, ModelFault::BadValue, pair)
}

/// `static`, `off` or `time`; any other word is unsupported.
pub fn control_mode(alloc: Global, pair: &Pair) -> Result<ControlMode, ModelError>
    ensures { Gives (λ c. c) result (choice_in fault.Unsupported control_modes pair.now) }
{
    choice(alloc, &CONTROL_MODES, ModelFault::Unsupported, pair)
}

/// `1h`, `60m` or `3600`; any other word is unsupported.
pub fn step_size(alloc: Global, pair: &Pair) -> Result<StepSize, ModelError>
    ensures { Gives (λ s. s) result (choice_in fault.Unsupported step_sizes pair.now) }
{
    choice(alloc, &STEP_SIZES, ModelFault::Unsupported, pair)
}
