// The node numbers of one bus, with their defaults.
ghost use Rattle.std.specs.Prelude.{◌≡◌};
ghost use Rattle.dss_layout.specs.Numbers.{numbers_of, both_numbers, seen, Gives};
ghost use Rattle.dss_layout.specs.Terminals.{three_phase_numbers, one_phase_numbers, phase_numbers, one_source_number, source_numbers, line_numbers, bus_numbers, at_one_bus, at_two_buses};

use dss_model::{Bus, Connection};

/// Why the buses of an element are refused.
#[derive(Clone, Copy, Debug, PartialEq, Eq)]
pub enum TerminalFault {
    /// A bus isn't given, or has too few or too many nodes.
    WrongCount,
    /// A fourth number, or the second of a source of one phase, isn't 0.
    Unsupported,
}

/// At most three node numbers, in order.
#[derive(Clone, Copy)]
pub enum PhaseNumbers {
    Zero,
    One([u8; 1]),
    Two([u8; 2]),
    Three([u8; 3]),
}

/// The node numbers of an element at its first and at its second bus.
#[derive(Clone, Copy)]
pub struct TerminalNumbers {
    pub first: PhaseNumbers,
    pub second: PhaseNumbers,
}

impl PhaseNumbers {
    pub fn as_slice(&self) -> &[u8]
        ensures { result.now ≡ numbers_of self.now }
    {
        match self {
            PhaseNumbers::Zero => &[],
            PhaseNumbers::One(numbers) => numbers,
            PhaseNumbers::Two(numbers) => numbers,
            PhaseNumbers::Three(numbers) => numbers,
        }
    }
}

fn three_phases(given: &[u8]) -> Result<PhaseNumbers, TerminalFault>
    ensures { Gives numbers_of result (three_phase_numbers given.now) }
{
    match given {
        [] => Ok(PhaseNumbers::Three([1, 2, 3])),
        [a, b, c] => Ok(PhaseNumbers::Three([*a, *b, *c])),
        [a, b, c, 0] => Ok(PhaseNumbers::Three([*a, *b, *c])),
        [_, _, _, _] => Err(TerminalFault::Unsupported),
        _ => Err(TerminalFault::WrongCount),
    }
}

fn one_phase(connection: Connection, given: &[u8]) -> Result<PhaseNumbers, TerminalFault>
    ensures { Gives numbers_of result (one_phase_numbers connection given.now) }
{
    match (connection, given) {
        (Connection::Wye, []) => Ok(PhaseNumbers::Two([1, 0])),
        (Connection::Wye, [a]) => Ok(PhaseNumbers::Two([*a, 0])),
        (Connection::Delta, []) => Ok(PhaseNumbers::Two([1, 2])),
        (_, [a, b]) => Ok(PhaseNumbers::Two([*a, *b])),
        _ => Err(TerminalFault::WrongCount),
    }
}

/// The numbers of a bus of a transformer, a bank of capacitors or a load.
pub fn phases_at(
    phases: u32,
    connection: Connection,
    given: &[u8],
) -> Result<PhaseNumbers, TerminalFault>
    ensures { Gives numbers_of result (phase_numbers phases connection given.now) }
{
    if phases == 1 {
        one_phase(connection, given)
    } else {
        three_phases(given)
    }
}

fn one_source(given: &[u8]) -> Result<PhaseNumbers, TerminalFault>
    ensures { Gives numbers_of result (one_source_number given.now) }
{
    match given {
        [] => Ok(PhaseNumbers::One([1])),
        [a] => Ok(PhaseNumbers::One([*a])),
        [a, 0] => Ok(PhaseNumbers::One([*a])),
        [_, _] => Err(TerminalFault::Unsupported),
        _ => Err(TerminalFault::WrongCount),
    }
}

/// The numbers of a source's bus.
pub fn source_at(phases: u32, given: &[u8]) -> Result<PhaseNumbers, TerminalFault>
    ensures { Gives numbers_of result (source_numbers phases given.now) }
{
    if phases == 1 {
        one_source(given)
    } else {
        three_phases(given)
    }
}

/// The numbers of a bus of a line.
pub fn line_at(phases: u32, given: &[u8]) -> Result<PhaseNumbers, TerminalFault>
    ensures { Gives numbers_of result (line_numbers phases given.now) }
{
    match (phases, given) {
        (0, []) => Ok(PhaseNumbers::Zero),
        (1, []) => Ok(PhaseNumbers::One([1])),
        (2, []) => Ok(PhaseNumbers::Two([1, 2])),
        (_, []) => Ok(PhaseNumbers::Three([1, 2, 3])),
        (1, [a]) => Ok(PhaseNumbers::One([*a])),
        (2, [a, b]) => Ok(PhaseNumbers::Two([*a, *b])),
        (3, [a, b, c]) => Ok(PhaseNumbers::Three([*a, *b, *c])),
        _ => Err(TerminalFault::WrongCount),
    }
}

/// The numbers of an end of a line, whose bus is needed.
pub fn line_bus_at(phases: u32, bus: &Option<Bus>) -> Result<PhaseNumbers, TerminalFault>
    ensures { Gives numbers_of result (bus_numbers (line_numbers phases) bus.now) }
{
    match bus {
        Some(bus) => line_at(phases, bus.nodes.as_slice()),
        None => Err(TerminalFault::WrongCount),
    }
}

/// The numbers of a bus that is needed, of another element.
pub fn bus_at(
    phases: u32,
    connection: Connection,
    bus: &Option<Bus>,
) -> Result<PhaseNumbers, TerminalFault>
    ensures { Gives numbers_of result (bus_numbers (phase_numbers phases connection) bus.now) }
{
    match bus {
        Some(bus) => phases_at(phases, connection, bus.nodes.as_slice()),
        None => Err(TerminalFault::WrongCount),
    }
}

/// One bus.
pub fn one_bus(
    numbers: Result<PhaseNumbers, TerminalFault>,
) -> Result<TerminalNumbers, TerminalFault>
    ensures { Gives both_numbers result (at_one_bus (seen numbers_of numbers)) }
{
    match numbers {
        Ok(first) => Ok(TerminalNumbers {
            first,
            second: PhaseNumbers::Zero,
        }),
        Err(fault) => Err(fault),
    }
}

/// Two buses: a wrong count at either comes before a number that is unsupported.
pub fn two_buses(
    first: Result<PhaseNumbers, TerminalFault>,
    second: Result<PhaseNumbers, TerminalFault>,
) -> Result<TerminalNumbers, TerminalFault>
    ensures { Gives both_numbers result (at_two_buses (seen numbers_of first) (seen numbers_of second)) }
{
    match (first, second) {
        (Ok(first), Ok(second)) => Ok(TerminalNumbers { first, second }),
        (Err(TerminalFault::WrongCount), _) => Err(TerminalFault::WrongCount),
        (_, Err(TerminalFault::WrongCount)) => Err(TerminalFault::WrongCount),
        _ => Err(TerminalFault::Unsupported),
    }
}
