// The settings of a circuit.
ghost use Rattle.std.specs.Prelude.{◌≡◌, IfOk};
ghost use Rattle.dss_model.specs.Defaults.{default_options};
ghost use Rattle.dss_model.specs.InRange.{OptionsInRange};

use crate::{ControlMode, Mode, Numbers, StepSize};
use std::alloc::{AllocError, Global};

/// The options that Set and Solve give. Numbers are whole 10^-9 where nothing else is said.
#[derive(Drop)]
pub struct Options {
    pub mode: Mode,
    /// The hours of a daily run, 1 to 8760.
    pub number: u32,
    pub stepsize: StepSize,
    /// The most steps of one solution, 1 to 1000.
    pub maxiterations: u32,
    /// The greatest update at which a solution ends, as a part of the weight of its place.
    pub tolerance: i128,
    /// The most acts of controls for one hour, 0 to 100.
    pub maxcontroliter: u32,
    pub controlmode: ControlMode,
    /// Nominal voltages in kV, between phases.
    pub voltagebases: Numbers,
    /// The frequency in hertz, 50 or 60.
    pub defaultbasefrequency: u32,
}

impl Options {
    /// The options as they are before any is set. Their values are in range.
    pub fn start(alloc: Global) -> Self
        ensures value { result ≡ default_options }
        ensures in_range { OptionsInRange result }
    {
        Options {
            mode: Mode::Snapshot,
            number: 1,
            stepsize: StepSize::Hour,
            maxiterations: 15,
            tolerance: 100_000,
            maxcontroliter: 10,
            controlmode: ControlMode::Static,
            voltagebases: Numbers::new(Vec::new(alloc)),
            defaultbasefrequency: 60,
        }
    }

    /// The same options.
    pub fn copied(&self) -> Result<Options, AllocError>
        ensures { IfOk result (λ copy. copy ≡ self.now) }
    {
        Ok(Options {
            mode: self.mode,
            number: self.number,
            stepsize: self.stepsize,
            maxiterations: self.maxiterations,
            tolerance: self.tolerance,
            maxcontroliter: self.maxcontroliter,
            controlmode: self.controlmode,
            voltagebases: self.voltagebases.copied()?,
            defaultbasefrequency: self.defaultbasefrequency,
        })
    }
}
