// The first element that is to blame.
ghost use Rattle.std.specs.Prelude.{◌≡◌, ◌||◌, IfOk, []};
ghost use Rattle.dss_layout.specs.Terminals.{terminal_numbers, tested};
ghost use Rattle.dss_ready.specs.Noted.{Notes};
ghost use Rattle.dss_ready.specs.Counts.{is_count_fault, is_part_wrong};
ghost use Rattle.dss_ready.specs.Support.{is_support_fault, are_powers_unequal, differs_from, frequency_of};
ghost use Rattle.dss_circuit.specs.dss_model.Element.{place_of};
ghost use Rattle.dss_ready.specs.Walk.{Answers, cause_by, first_blame};

use crate::ReadyFault;
use crate::count::is_part_count_fault;
use crate::lookup::Elements;
use crate::mention::Mentions;
use crate::range::is_range_fault;
use crate::support::{has_no_impedance, has_other_frequency, has_unequal_powers};
use dss_circuit::{Blame, Element, ElementName, ModelFault};
use dss_layout::{TerminalFault, check_terminals};
use std::alloc::{AllocError, Global};

/// An element to blame for a cause, by the place of its New.
pub fn blame(element: &Element, cause: ModelFault) -> Result<Blame, AllocError>
    ensures { IfOk result (λ blame. blame ≡ record { place = place_of element.now; cause = cause }) }
{
    let place = element.place().clone()?;
    Ok(Blame { place, cause })
}

fn has_count_fault(terminals: Result<(), TerminalFault>) -> bool
    ensures { result ≡ is_count_fault terminals }
{
    matches!(terminals, Err(TerminalFault::WrongCount))
}

fn has_support_fault(terminals: Result<(), TerminalFault>) -> bool
    ensures { result ≡ is_support_fault terminals }
{
    matches!(terminals, Err(TerminalFault::Unsupported))
}

fn is_count_refused(
    elements: &Elements,
    mentions: &Mentions,
    name: &ElementName,
    element: &Element,
) -> Result<bool, AllocError>
    requires { Notes mentions.now elements.now.entries }
    ensures { IfOk result (λ wrong. wrong
        ≡ (is_count_fault (tested (terminal_numbers element.now))
        || is_part_wrong elements.now.entries name.now element.now)) }
{
    if has_count_fault(check_terminals(element)) {
        return Ok(true);
    }
    is_part_count_fault(elements, mentions, name, element)
}

fn is_support_refused(hertz: u32, element: &Element) -> bool
    ensures { result
        ≡ (is_support_fault (tested (terminal_numbers element.now))
        || (are_powers_unequal element.now || differs_from hertz (frequency_of element.now))) }
{
    has_support_fault(check_terminals(element))
        || has_unequal_powers(element)
        || has_other_frequency(hertz, element)
}

// Why an element is to blame. `second` says whether it is a second control of a winding or a bank.
fn cause(
    elements: &Elements,
    mentions: &Mentions,
    hertz: u32,
    second: bool,
    name: &ElementName,
    element: &Element,
) -> Result<Option<ModelFault>, AllocError>
    requires { Notes mentions.now elements.now.entries }
    ensures { IfOk result (λ cause. cause ≡ cause_by hertz elements.now.entries second name.now element.now) }
{
    if is_range_fault(elements, mentions, name, element)? {
        return Ok(Some(ModelFault::OutOfRange));
    }
    if is_count_refused(elements, mentions, name, element)? {
        return Ok(Some(ModelFault::WrongCount));
    }
    if is_support_refused(hertz, element) {
        return Ok(Some(ModelFault::Unsupported));
    }
    if second {
        return Ok(Some(ModelFault::Duplicate));
    }
    if has_no_impedance(element) {
        return Ok(Some(ModelFault::NoImpedance));
    }
    Ok(None)
}

/// The first element that is to blame by a cause of its own.
pub fn find_blame(
    alloc: Global,
    elements: &Elements,
    mentions: &Mentions,
    hertz: u32,
) -> Result<(), ReadyFault>
    requires { Notes mentions.now elements.now.entries }
    ensures { Answers result (first_blame hertz elements.now.entries [] elements.now.entries) }
{
    let mut seen = Mentions::new(alloc);
    for (name, element) in elements {
        let second = seen.note(element)?;
        if let Some(cause) = cause(elements, mentions, hertz, second, name, element)? {
            return Err(ReadyFault::Blame(blame(element, cause)?));
        }
    }
    Ok(())
}
