// What elements name of one another.
ghost use Rattle.std.specs.Prelude.{◌≡◌, ◌||◌, false, not, [], IfOk, OnOk};
ghost use Rattle.std.specs.Option.{option_map_or};
ghost use Rattle.dss_circuit.specs.dss_model.declared.element.Element.TheVariants as the;
ghost use Rattle.dss_ready.specs.declared.mention.WindingName.{WindingName};
ghost use Rattle.dss_circuit.specs.Circuit.{Elements};
ghost use Rattle.dss_ready.specs.Mentions.{is_second_control};
ghost use Rattle.dss_ready.specs.Noted.{Notes, NotesToo, has_bank, has_shape, has_winding, is_among, same_winding};

use crate::lookup::Elements;
use dss_circuit::{CapControl, Element, Load, RegControl, Text};
use std::alloc::{AllocError, Global};
use std::collections::HashSet;
use std::marker::Model;

/// A winding of the Transformer of this name, from 1.
#[derive(Drop, PartialEq, Eq, Hash)]
pub struct WindingName {
    pub transformer: Text,
    pub winding: u32,
}

/// What elements name of one another, noted element by element: the windings that RegControls control, the Capacitors
/// that CapControls control, and the Loadshapes that Loads follow.
#[derive(Drop)]
pub struct Mentions {
    windings: HashSet<WindingName>,
    banks: HashSet<Text>,
    shapes: HashSet<Text>,
}

impl Model for Mentions {
    ghost use Rattle.dss_ready.specs.Noted.{Noted};

    ghost Value = { Noted };

    ghost view = { λ m. record { windings = m.windings.keys; banks = m.banks.keys; shapes = m.shapes.keys } };
}

// Notes a winding, and says whether it is new.
fn note_winding(windings: &mut HashSet<WindingName>, name: WindingName) -> Result<bool, AllocError>
    ensures is_new { IfOk result (λ is_new. is_new ≡ not (is_among windings.old.keys name)) }
    ensures noted { OnOk result ((w : WindingName) → is_among windings.new.keys w ≡ (same_winding name w || is_among windings.old.keys w)) }
{
    Ok(windings.insert(name)?)
}

impl Mentions {
    /// Nothing is noted. It takes no memory.
    pub fn new(alloc: Global) -> Self
        ensures { Notes result [] }
    {
        Mentions {
            windings: HashSet::new(alloc),
            banks: HashSet::new(alloc),
            shapes: HashSet::new(alloc),
        }
    }

    // Notes the winding of a control, and says whether it was noted.
    fn note_regcontrol(&mut self, control: &RegControl) -> Result<bool, AllocError>
        ensures again { IfOk result (λ again. again ≡ option_map_or (λ name. has_winding self.old name control.now.winding) control.now.transformer false) }
        ensures noted { OnOk result (NotesToo self.old self.new (the.RegControl control.now)) }
    {
        match &control.transformer {
            Some(name) => {
                let transformer = name.clone()?;
                let winding = control.winding;
                let name = WindingName {
                    transformer,
                    winding,
                };
                let is_new = note_winding(&mut self.windings, name)?;
                Ok(!is_new)
            }
            None => Ok(false),
        }
    }

    // Notes the bank of a control, and says whether it was noted.
    fn note_capcontrol(&mut self, control: &CapControl) -> Result<bool, AllocError>
        ensures again { IfOk result (λ again. again ≡ option_map_or (has_bank self.old) control.now.capacitor false) }
        ensures noted { OnOk result (NotesToo self.old self.new (the.CapControl control.now)) }
    {
        match &control.capacitor {
            Some(name) => {
                let is_new = self.banks.insert(name.clone()?)?;
                Ok(!is_new)
            }
            None => Ok(false),
        }
    }

    // Notes the shape that a load follows.
    fn note_load(&mut self, load: &Load) -> Result<(), AllocError>
        ensures { OnOk result (NotesToo self.old self.new (the.Load load.now)) }
    {
        if let Some(name) = &load.daily {
            let _is_new = self.shapes.insert(name.clone()?)?;
        }
        Ok(())
    }

    /// Notes what an element names, and says whether it is a second control of a winding or a bank.
    pub fn note(&mut self, element: &Element) -> Result<bool, AllocError>
        ensures second { IfOk result (λ second. (before : Elements) → Notes self.old before → second ≡ is_second_control before element.now) }
        ensures noted { OnOk result (NotesToo self.old self.new element.now) }
    {
        match element {
            Element::RegControl(control) => self.note_regcontrol(control),
            Element::CapControl(control) => self.note_capcontrol(control),
            Element::Load(load) => {
                self.note_load(load)?;
                Ok(false)
            }
            _ => Ok(false),
        }
    }

    /// Whether a RegControl controls this winding.
    pub fn has_winding(&self, transformer: &Text, winding: u32) -> Result<bool, AllocError>
        ensures { IfOk result (λ named. named ≡ has_winding self.now transformer.now winding) }
    {
        let transformer = transformer.clone()?;
        Ok(
            self.windings.contains(&WindingName {
                transformer,
                winding,
            }),
        )
    }

    /// Whether a Load names this Loadshape.
    pub fn has_shape(&self, loadshape: &Text) -> bool
        ensures { result ≡ has_shape self.now loadshape.now }
    {
        self.shapes.contains(loadshape)
    }
}

/// What the elements name of one another.
pub fn all_mentions(alloc: Global, elements: &Elements) -> Result<Mentions, AllocError>
    ensures { IfOk result (λ mentions. Notes mentions elements.now.entries) }
{
    let mut mentions = Mentions::new(alloc);
    for (_name, element) in elements {
        let _second = mentions.note(element)?;
    }
    Ok(mentions)
}
