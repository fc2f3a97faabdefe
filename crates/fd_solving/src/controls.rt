// The fault of an undecided sample of a control of a circuit.
ghost use Rattle.std.specs.Prelude.{◌≡◌, None, IfOk};
ghost use Rattle.fd_solving.specs.Answered.{IsOfCommand};
ghost use Rattle.fd_solving.specs.Solving.{scale_of, undecided_at, undecided_by};

use dss_commands::{Circuit, Class, ControlQuantity, Element, ElementName, Text};
use fd_pages::{Fault, Scale, is_control};
use std::alloc::{AllocError, Global};

// The unit of the ends of a sample of this control.
fn scale_of(element: &Element) -> Scale
    ensures { result ≡ scale_of element.now }
{
    match element {
        Element::CapControl(control) => match control.kind {
            ControlQuantity::Kvar => Scale::Nano,
            ControlQuantity::Voltage | ControlQuantity::Current => Scale::Micro,
        },
        _ => Scale::Micro,
    }
}

/// The fault of an undecided sample of the control of this number, which counts the controls from 0 in the script's
/// order: the ends of the sample, and the least value between them at which what the control wants changes.
pub(crate) fn undecided(
    alloc: Global,
    circuit: &Circuit,
    number: u32,
    low: i128,
    high: i128,
    edge: i128,
) -> Result<Fault, AllocError>
    ensures fault { IfOk result (λ f. f ≡ undecided_at circuit.now number (record { low = low; high = high; edge = edge })) }
    ensures of_command { IfOk result (λ f. IsOfCommand f) }
{
    let mut left = number;
    for (name, element) in circuit.elements() {
        if is_control(element) {
            if left == 0 {
                let control = name.clone()?;
                let scale = scale_of(element);
                return Ok(Fault::Undecided {
                    control,
                    low,
                    high,
                    edge,
                    scale,
                });
            }
            left -= 1;
        }
    }
    Ok(undecided_nowhere(alloc, low, high, edge))
}

// The fault of an undecided sample of a control that isn't there.
fn undecided_nowhere(alloc: Global, low: i128, high: i128, edge: i128) -> Fault
    ensures fault { result ≡ undecided_by None (record { low = low; high = high; edge = edge }) }
    ensures of_command { IsOfCommand result }
{
    let control = ElementName {
        class: Class::RegControl,
        name: Text::new(String::new(alloc)),
    };
    Fault::Undecided {
        control,
        low,
        high,
        edge,
        scale: Scale::Micro,
    }
}
