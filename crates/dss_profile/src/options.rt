// The options of a circuit that Set and Solve name.
ghost use Rattle.std.specs.Prelude.{◌≡◌, IfOk, OnOk};
ghost use Rattle.dss_values.specs.dss_model.Changes.{Becomes};
ghost use Rattle.dss_values.specs.dss_model.Names.{named};
ghost use Rattle.dss_profile.specs.Options.{option_names, in_mode, with_option, with_named_option, with_options};
ghost use Rattle.dss_values.specs.dss_model.Answers.{Gives, Makes};
ghost use Rattle.dss_values.specs.dss_model.InRange.{OptionsInRange};

use dss_values::{
    Mode, ModelError, ModelFault, ONE, Options, Pair, control_mode, find_named, number_within,
    numbers_within, solve_mode, step_size, supported_of, whole_within,
};
use std::alloc::Global;

/// An option.
#[derive(Clone, Copy)]
pub enum OptionName {
    Mode,
    Number,
    Stepsize,
    Maxiterations,
    Tolerance,
    Maxcontroliter,
    Controlmode,
    Voltagebases,
    Defaultbasefrequency,
}

const OPTION_NAMES: [(&str, OptionName); 9] = [
    ("mode", OptionName::Mode),
    ("number", OptionName::Number),
    ("stepsize", OptionName::Stepsize),
    ("maxiterations", OptionName::Maxiterations),
    ("tolerance", OptionName::Tolerance),
    ("maxcontroliter", OptionName::Maxcontroliter),
    ("controlmode", OptionName::Controlmode),
    ("voltagebases", OptionName::Voltagebases),
    ("defaultbasefrequency", OptionName::Defaultbasefrequency),
];

/// The option of a name in lower case.
pub fn option_named(name: &str) -> Option<OptionName>
    ensures { result ≡ named option_names name.now }
{
    find_named(&OPTION_NAMES, name)
}

// A daily run has 24 hours, until a later pair says otherwise.
fn set_mode(options: &mut Options, mode: Mode)
    ensures { options.new ≡ in_mode mode options.old }
{
    options.mode = mode;
    if let Mode::Daily = mode {
        options.number = 24;
    }
}

/// Sets one option. After an `Err` they are as before.
pub fn set_option(
    alloc: Global,
    options: &mut Options,
    option: OptionName,
    pair: &Pair,
) -> Result<(), ModelError>
    ensures { Becomes options.old options.new result (with_option option pair.now options.old) }
{
    match option {
        OptionName::Mode => {
            let mode = solve_mode(alloc, pair)?;
            set_mode(options, mode);
        }
        OptionName::Number => options.number = whole_within(alloc, pair, 1, 8760)?,
        OptionName::Stepsize => options.stepsize = step_size(alloc, pair)?,
        OptionName::Maxiterations => options.maxiterations = whole_within(alloc, pair, 1, 1000)?,
        OptionName::Tolerance => options.tolerance = number_within(alloc, pair, 1, 100_000_000)?,
        OptionName::Maxcontroliter => options.maxcontroliter = whole_within(alloc, pair, 0, 100)?,
        OptionName::Controlmode => options.controlmode = control_mode(alloc, pair)?,
        OptionName::Voltagebases => {
            options.voltagebases = numbers_within(alloc, pair, 1_000_000, 1000 * ONE)?;
        }
        OptionName::Defaultbasefrequency => {
            options.defaultbasefrequency = supported_of(alloc, pair, &[50, 60])?;
        }
    }
    Ok(())
}

#[tactic(auto, unfolding(crate::specs::Options::with_named_option))]
fn set_named(alloc: Global, options: &mut Options, pair: &Pair) -> Result<(), ModelError>
    ensures { Becomes options.old options.new result (with_named_option pair.now options.old) }
{
    let name = pair.name.lowered(alloc)?;
    let option = option_named(name.as_str()).ok_or(ModelFault::UnknownProperty)?;
    set_option(alloc, options, option, pair)
}

// Sets the pairs from left to right. After an `Err` those before the one that is refused are set.
fn set_each(alloc: Global, options: &mut Options, pairs: &[Pair]) -> Result<(), ModelError>
    ensures value { Makes options.new result (with_options pairs.now options.old) }
    ensures in_range { OptionsInRange options.old → OnOk result (OptionsInRange options.new) }
{
    for pair in pairs {
        set_named(alloc, options, pair)?;
    }
    Ok(())
}

/// The options with these pairs set from left to right, or the refusal of the first pair that is refused. The values stay
/// in range.
pub fn with_options(alloc: Global, options: &Options, pairs: &[Pair]) -> Result<Options, ModelError>
    ensures value { Gives (λ new. new) result (with_options pairs.now options.now) }
    ensures in_range { OptionsInRange options.now → IfOk result OptionsInRange }
{
    let mut draft = options.copied()?;
    set_each(alloc, &mut draft, pairs)?;
    Ok(draft)
}
