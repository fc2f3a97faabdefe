// The nodes of an element at its buses.
ghost use Rattle.std.specs.Prelude.{◌≡◌, IfOk, map};
ghost use Rattle.std.specs.Option.{option_copied};
ghost use Rattle.dss_layout.specs.Numbers.{numbers_of, both_numbers, Gives};
ghost use Rattle.dss_layout.specs.Terminals.{terminal_numbers, tested, first_bus, second_bus, named_at, terminals_of};

use crate::numbers::{
    PhaseNumbers, TerminalFault, TerminalNumbers, bus_at, line_bus_at, one_bus, source_at,
    two_buses,
};
use crate::{NodeName, NodeNames};
use dss_model::{Bus, Element};
use std::alloc::{AllocError, Global};

/// The nodes of an element at its first and at its second bus, ground included. At a bus of three phases and at an end of
/// a line there is one node for each phase. An element of one phase has both its nodes at its bus, but a source of one
/// phase only the one that isn't ground. An element that has one bus has no nodes at a second.
#[derive(Drop)]
pub struct Terminals {
    pub first: NodeNames,
    pub second: NodeNames,
}

fn numbers_at(element: &Element) -> Result<TerminalNumbers, TerminalFault>
    ensures { Gives both_numbers result (terminal_numbers element.now) }
{
    match element {
        Element::Vsource(v) => one_bus(source_at(v.phases, v.bus1.nodes.as_slice())),
        Element::Line(l) => two_buses(
            line_bus_at(l.phases, &l.bus1),
            line_bus_at(l.phases, &l.bus2),
        ),
        Element::Transformer(t) => two_buses(
            bus_at(t.phases, t.first.conn, &t.first.bus),
            bus_at(t.phases, t.second.conn, &t.second.bus),
        ),
        Element::Capacitor(c) => one_bus(bus_at(c.phases, c.conn, &c.bus1)),
        Element::Load(l) => one_bus(bus_at(l.phases, l.conn, &l.bus1)),
        _ => Ok(TerminalNumbers {
            first: PhaseNumbers::Zero,
            second: PhaseNumbers::Zero,
        }),
    }
}

/// The tests of an element's buses: a wrong count at any of them comes before a number that is unsupported.
pub fn check_terminals(element: &Element) -> Result<(), TerminalFault>
    ensures { result ≡ tested (terminal_numbers element.now) }
{
    match numbers_at(element) {
        Ok(_) => Ok(()),
        Err(fault) => Err(fault),
    }
}

fn bus_one(element: &Element) -> Option<&Bus>
    ensures { option_copied result ≡ first_bus element.now }
{
    match element {
        Element::Vsource(v) => Some(&v.bus1),
        Element::Line(l) => l.bus1.as_ref(),
        Element::Transformer(t) => t.first.bus.as_ref(),
        Element::Capacitor(c) => c.bus1.as_ref(),
        Element::Load(l) => l.bus1.as_ref(),
        _ => None,
    }
}

fn bus_two(element: &Element) -> Option<&Bus>
    ensures { option_copied result ≡ second_bus element.now }
{
    match element {
        Element::Line(l) => l.bus2.as_ref(),
        Element::Transformer(t) => t.second.bus.as_ref(),
        _ => None,
    }
}

fn names_at(alloc: Global, bus: &Bus, numbers: &[u8]) -> Result<Vec<NodeName>, AllocError>
    ensures { IfOk result (λ names. names.items ≡ map (λ n. record { bus = bus.now.name; number = n }) numbers.now) }
{
    let mut names = Vec::new(alloc);
    for number in numbers {
        names.push(NodeName {
            bus: bus.name.clone()?,
            number: *number,
        })?;
    }
    Ok(names)
}

fn named(alloc: Global, bus: Option<&Bus>, numbers: PhaseNumbers) -> Result<NodeNames, AllocError>
    ensures { IfOk result (λ names. names ≡ named_at (option_copied bus.entry) (numbers_of numbers)) }
{
    match bus {
        Some(bus) => Ok(NodeNames::new(names_at(alloc, bus, numbers.as_slice())?)),
        None => Ok(NodeNames::new(Vec::new(alloc))),
    }
}

/// The nodes of an element at its buses; none where its buses have a fault.
pub fn terminal_nodes(alloc: Global, element: &Element) -> Result<Terminals, AllocError>
    ensures { IfOk result (λ terminals. terminals ≡ terminals_of element.now) }
{
    match numbers_at(element) {
        Ok(numbers) => Ok(Terminals {
            first: named(alloc, bus_one(element), numbers.first)?,
            second: named(alloc, bus_two(element), numbers.second)?,
        }),
        Err(_) => Ok(Terminals {
            first: NodeNames::new(Vec::new(alloc)),
            second: NodeNames::new(Vec::new(alloc)),
        }),
    }
}
