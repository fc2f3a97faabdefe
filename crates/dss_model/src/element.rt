// Elements of all classes.
ghost use Rattle.std.specs.Prelude.{◌≡◌, IfOk};
ghost use Rattle.dss_model.specs.Element.{class_of, place_of, fresh};
ghost use Rattle.dss_model.specs.InRange.{ElementInRange};

use crate::{
    CapControl, Capacitor, Class, Line, Linecode, Load, Loadshape, Place, RegControl, Transformer,
    Vsource,
};
use std::alloc::{AllocError, Global};

/// An element of a circuit.
#[derive(Drop)]
pub enum Element {
    Vsource(Vsource),
    Linecode(Linecode),
    Line(Line),
    Transformer(Transformer),
    Capacitor(Capacitor),
    Load(Load),
    RegControl(RegControl),
    CapControl(CapControl),
    Loadshape(Loadshape),
}

impl Element {
    /// An element of a class with its defaults, `solves` being the number of Solves that were applied so far. Its values
    /// are in range.
    pub fn fresh(
        alloc: Global,
        class: Class,
        place: Place,
        solves: u32,
    ) -> Result<Element, AllocError>
        ensures value { IfOk result (λ element. element ≡ fresh solves class place) }
        ensures in_range { IfOk result ElementInRange }
    {
        match class {
            Class::Vsource => Ok(Element::Vsource(Vsource::fresh(alloc, place)?)),
            Class::Linecode => Ok(Element::Linecode(Linecode::fresh(place))),
            Class::Line => Ok(Element::Line(Line::fresh(place))),
            Class::Transformer => Ok(Element::Transformer(Transformer::fresh(place, solves))),
            Class::Capacitor => Ok(Element::Capacitor(Capacitor::fresh(place, solves))),
            Class::Load => Ok(Element::Load(Load::fresh(place))),
            Class::RegControl => Ok(Element::RegControl(RegControl::fresh(place))),
            Class::CapControl => Ok(Element::CapControl(CapControl::fresh(place))),
            Class::Loadshape => Ok(Element::Loadshape(Loadshape::fresh(alloc, place))),
        }
    }

    /// The class of the element.
    pub fn class(&self) -> Class
        ensures { result ≡ class_of self.now }
    {
        match self {
            Element::Vsource(_) => Class::Vsource,
            Element::Linecode(_) => Class::Linecode,
            Element::Line(_) => Class::Line,
            Element::Transformer(_) => Class::Transformer,
            Element::Capacitor(_) => Class::Capacitor,
            Element::Load(_) => Class::Load,
            Element::RegControl(_) => Class::RegControl,
            Element::CapControl(_) => Class::CapControl,
            Element::Loadshape(_) => Class::Loadshape,
        }
    }

    /// Where the element's New stands.
    pub fn place(&self) -> &Place
        ensures { result.now ≡ place_of self.now }
    {
        match self {
            Element::Vsource(source) => &source.place,
            Element::Linecode(code) => &code.place,
            Element::Line(line) => &line.place,
            Element::Transformer(transformer) => &transformer.place,
            Element::Capacitor(bank) => &bank.place,
            Element::Load(load) => &load.place,
            Element::RegControl(control) => &control.place,
            Element::CapControl(control) => &control.place,
            Element::Loadshape(shape) => &shape.place,
        }
    }

    /// The same element.
    pub fn copied(&self) -> Result<Element, AllocError>
        ensures { IfOk result (λ element. element ≡ self.now) }
    {
        match self {
            Element::Vsource(source) => Ok(Element::Vsource(source.copied()?)),
            Element::Linecode(code) => Ok(Element::Linecode(code.copied()?)),
            Element::Line(line) => Ok(Element::Line(line.copied()?)),
            Element::Transformer(transformer) => Ok(Element::Transformer(transformer.copied()?)),
            Element::Capacitor(bank) => Ok(Element::Capacitor(bank.copied()?)),
            Element::Load(load) => Ok(Element::Load(load.copied()?)),
            Element::RegControl(control) => Ok(Element::RegControl(control.copied()?)),
            Element::CapControl(control) => Ok(Element::CapControl(control.copied()?)),
            Element::Loadshape(shape) => Ok(Element::Loadshape(shape.copied()?)),
        }
    }
}
