// The controls of a circuit.
ghost use Rattle.std.specs.Prelude.{◌≡◌};
ghost use Rattle.fd_outcome.specs.Pages.{is_control};

use fd_bases::Element;

/// Whether an element is a control.
pub fn is_control(element: &Element) -> bool
    ensures { result ≡ is_control element.now }
{
    matches!(element, Element::RegControl(_) | Element::CapControl(_))
}
