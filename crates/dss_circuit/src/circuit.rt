// A circuit, and its changes.
ghost use Rattle.std.specs.Prelude.{◌≡◌, ◌≢◌, ◌+◌, ◌<◌, ◌≤◌, ◌^◌, ◌-◌, All, [], IfErr, IfOk, OnOk, false, length, map};
ghost use Rattle.std.specs.List.{IsDistinct};
ghost use Rattle.indexmap.specs.IndexMap.{insert_entry};
ghost use Rattle.dss_model.specs.declared.names.Class.TheVariants as class;
ghost use Rattle.dss_model.specs.Defaults.{default_options};
ghost use Rattle.dss_model.specs.Element.{class_of};
ghost use Rattle.dss_model.specs.InRange.{ElementInRange, OptionsInRange};
ghost use Rattle.dss_model.specs.SameElement.{same_element};
ghost use Rattle.dss_circuit.specs.Circuit.{empty_circuit, has_circuit, source_name};
ghost use Rattle.dss_circuit.specs.InRange.{AllInRange};
ghost use Rattle.dss_circuit.specs.Limits.{most_elements};
ghost use Rattle.dss_circuit.specs.WellFormed.{AllNamesAreThere, BeginsWithSource, IsEntry, IsKey, NamesAreThere};
ghost use Rattle.dss_circuit.specs.Without.{OthersNameNone, without};

use crate::elements::{Elements, copied_elements, drop_elements, insert_element, no_elements};
use dss_model::{Class, Element, ElementName, Options};
use std::alloc::{AllocError, Global};
use std::marker::Model;

/// A circuit as the commands so far have made it: its elements by name in order of definition, its options, and how
/// many Solves were applied. It has at most 2^17 elements, no two of them the same, each value of an element or an
/// option is in its range, and each element that one names is there.
#[derive(Drop)]
pub struct Circuit {
    elements: Elements,
    options: Options,
    solves: u32,
}

impl Model for Circuit {
    ghost use Rattle.dss_circuit.specs.Circuit.{CircuitView};
    ghost use Rattle.dss_circuit.specs.InRange.{IsWithinLimits};

    ghost Value = { CircuitView };

    ghost view = { λ c. record { elements = c.elements.entries; options = c.options; solves = c.solves } };

    ghost invariant = { λ c. IsWithinLimits c.elements.entries c.options };
}

impl Circuit {
    /// No circuit yet, and the options as they are when nothing is set. It takes no memory.
    pub fn empty(alloc: Global) -> Self
        ensures { result ≡ empty_circuit }
    {
        Circuit {
            elements: no_elements(alloc),
            options: Options::start(alloc),
            solves: 0,
        }
    }

    /// An element takes the place of the one of its name, or stands last. After an `Err` the circuit is as before.
    ///
    /// Its values are in range, it stands under a legal name in lower case with its own class, each element that it names is
    /// there, and the first is the source that New Circuit makes.
    pub fn put(&mut self, name: ElementName, element: Element) -> Result<(), AllocError>
        requires room { length self.old.elements < most_elements }
        requires in_range { ElementInRange element }
        requires key { IsKey name }
        requires class { name.class ≡ class_of element }
        requires source { has_circuit self.old.elements ≡ false → name ≡ source_name }
        requires named { NamesAreThere self.old.elements element }
        ensures put { OnOk result (self.new ≡ record self.old { elements = insert_entry same_element self.old.elements name element }) }
        ensures as_before { IfErr result (λ _. self.new ≡ self.old) }
    {
        insert_element(&mut self.elements, name, element)
    }

    /// Takes these options in place of its own.
    pub fn set_options(&mut self, options: Options)
        requires { OptionsInRange options }
        ensures { self.new ≡ record self.old { options = options } }
    {
        self.options = options;
    }

    /// Counts a Solve.
    pub fn count_solve(&mut self)
        requires { self.old.solves < 2 ^ 32 - 1 }
        ensures { self.new ≡ record self.old { solves = self.old.solves + 1 } }
    {
        self.solves += 1;
    }

    /// Goes back to no circuit and the options as they are when nothing is set. The Solves stay counted.
    pub fn clear(&mut self, alloc: Global)
        ensures { self.new ≡ record self.old { elements = []; options = default_options } }
    {
        self.elements = no_elements(alloc);
        self.options = Options::start(alloc);
    }

    /// Takes the elements of one class out. The rest keep their order. It takes no memory.
    ///
    /// No element that stays names one of the class, and it isn't that of sources: a circuit begins with its own.
    pub fn drop_class(&mut self, dropped: Class)
        requires source { dropped ≢ class.Vsource }
        requires named { OthersNameNone dropped self.old.elements }
        ensures { self.new ≡ record self.old { elements = without dropped self.old.elements } }
    {
        drop_elements(&mut self.elements, dropped);
    }

    /// The same circuit.
    pub fn copy(&self, alloc: Global) -> Result<Circuit, AllocError>
        ensures { IfOk result (λ copy. copy ≡ self.now) }
    {
        Ok(Circuit {
            elements: copied_elements(alloc, &self.elements)?,
            options: self.options.copied()?,
            solves: self.solves,
        })
    }

    /// The settings that Set and Solve gave. Their values are in range.
    pub fn options(&self) -> &Options
        ensures value { result.now ≡ self.now.options }
        ensures in_range { OptionsInRange self.now.options }
    {
        &self.options
    }

    /// The elements by name, in order of definition, no two of them the same. Each stands under a legal name in lower case
    /// with its own class, its values are in range, and each element that it names is there. The first is the source that
    /// New Circuit makes.
    pub fn elements(&self) -> &Elements
        ensures entries { result.now.entries ≡ self.now.elements }
        ensures few { length self.now.elements ≤ most_elements }
        ensures in_range { AllInRange self.now.elements }
        ensures distinct { IsDistinct same_element (map (λ entry. entry.0) self.now.elements) }
        ensures keys { All IsEntry self.now.elements }
        ensures source { BeginsWithSource self.now.elements }
        ensures named { AllNamesAreThere self.now.elements }
    {
        &self.elements
    }

    /// How many Solves were applied so far. Clear doesn't change it.
    pub fn solves(&self) -> u32
        ensures { result ≡ self.now.solves }
    {
        self.solves
    }
}
