// What is unsupported, and what an element lacks.
ghost use Rattle.std.specs.Prelude.{◌≡◌};
ghost use Rattle.dss_ready.specs.Support.{frequency_of, differs_from, are_powers_unequal, lacks_impedance};

use dss_circuit::Element;

fn frequency(element: &Element) -> Option<i128>
    ensures { result ≡ frequency_of element.now }
{
    match element {
        Element::Vsource(source) => source.basefreq,
        Element::Linecode(code) => code.basefreq,
        Element::Line(line) => line.basefreq,
        Element::Transformer(transformer) => transformer.basefreq,
        Element::Capacitor(capacitor) => capacitor.basefreq,
        Element::Load(load) => load.basefreq,
        _ => None,
    }
}

/// Whether a frequency is given that isn't that of the options, in hertz.
pub fn has_other_frequency(hertz: u32, element: &Element) -> bool
    ensures { result ≡ differs_from hertz (frequency_of element.now) }
{
    match frequency(element) {
        Some(frequency) => frequency != i128::from(hertz) * 1_000_000_000,
        None => false,
    }
}

/// Whether a Transformer's windings have different rated powers.
pub fn has_unequal_powers(element: &Element) -> bool
    ensures { result ≡ are_powers_unequal element.now }
{
    match element {
        Element::Transformer(transformer) => transformer.first.kva != transformer.second.kva,
        _ => false,
    }
}

/// Whether the element is a Line without an impedance.
pub fn has_no_impedance(element: &Element) -> bool
    ensures { result ≡ lacks_impedance element.now }
{
    match element {
        Element::Line(line) => line.constants.form.is_none(),
        _ => false,
    }
}
