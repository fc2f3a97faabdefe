// Properties of transformers of two windings.
ghost use Rattle.std.specs.Prelude.{◌≡◌, ◌≤ℤ◌, pos};
ghost use Rattle.dss_values.specs.dss_model.Changes.{Becomes};
ghost use Rattle.dss_values.specs.dss_model.Names.{named};
ghost use Rattle.dss_profile.specs.Transformer.{transformer_properties, with_winding, with_chosen, with_kva, with_losses, with_taps, with_both, zero_in, with_transformer};
ghost use Rattle.dss_values.specs.dss_model.Answers.{Gives};

use dss_values::{
    ModelError, ONE, Pair, Transformer, Winding, bus_value, connection, find_named, half_of,
    lead_lag, number_value, number_within, supported_of, tap, two_buses, two_connections,
    two_numbers_within, two_taps, whole_of, whole_within,
};
use std::alloc::Global;

/// A property of one winding of a Transformer.
#[derive(Clone, Copy)]
pub enum WindingProperty {
    Bus,
    Conn,
    Kv,
    PctR,
    Tap,
    Mintap,
    Maxtap,
    Numtaps,
}

/// A property that gives one value for each winding of a Transformer.
#[derive(Clone, Copy)]
pub enum BothProperty {
    Buses,
    Conns,
    Kvs,
    Kvas,
    PctRs,
    Taps,
}

/// A property of a Transformer.
#[derive(Clone, Copy)]
pub enum TransformerProperty {
    Phases,
    Windings,
    Wdg,
    /// A property of the winding that wdg chose last.
    OfWinding(WindingProperty),
    Kva,
    Xhl,
    PctLoadloss,
    /// Two values, one for each winding.
    OfBoth(BothProperty),
    Leadlag,
    PctNoloadloss,
    PctImag,
    Basefreq,
    Ignored,
}

const TRANSFORMER_PROPERTIES: [(&str, TransformerProperty); 28] = [
    ("phases", TransformerProperty::Phases),
    ("windings", TransformerProperty::Windings),
    ("wdg", TransformerProperty::Wdg),
    ("bus", TransformerProperty::OfWinding(WindingProperty::Bus)),
    (
        "conn",
        TransformerProperty::OfWinding(WindingProperty::Conn),
    ),
    ("kv", TransformerProperty::OfWinding(WindingProperty::Kv)),
    ("%r", TransformerProperty::OfWinding(WindingProperty::PctR)),
    ("tap", TransformerProperty::OfWinding(WindingProperty::Tap)),
    (
        "mintap",
        TransformerProperty::OfWinding(WindingProperty::Mintap),
    ),
    (
        "maxtap",
        TransformerProperty::OfWinding(WindingProperty::Maxtap),
    ),
    (
        "numtaps",
        TransformerProperty::OfWinding(WindingProperty::Numtaps),
    ),
    ("kva", TransformerProperty::Kva),
    ("xhl", TransformerProperty::Xhl),
    ("%loadloss", TransformerProperty::PctLoadloss),
    ("buses", TransformerProperty::OfBoth(BothProperty::Buses)),
    ("conns", TransformerProperty::OfBoth(BothProperty::Conns)),
    ("kvs", TransformerProperty::OfBoth(BothProperty::Kvs)),
    ("kvas", TransformerProperty::OfBoth(BothProperty::Kvas)),
    ("%rs", TransformerProperty::OfBoth(BothProperty::PctRs)),
    ("taps", TransformerProperty::OfBoth(BothProperty::Taps)),
    ("leadlag", TransformerProperty::Leadlag),
    ("%noloadloss", TransformerProperty::PctNoloadloss),
    ("%imag", TransformerProperty::PctImag),
    ("basefreq", TransformerProperty::Basefreq),
    ("bank", TransformerProperty::Ignored),
    ("sub", TransformerProperty::Ignored),
    ("subname", TransformerProperty::Ignored),
    ("ppm_antifloat", TransformerProperty::Ignored),
];

/// The property of a name in lower case.
pub fn transformer_property(name: &str) -> Option<TransformerProperty>
    ensures { result ≡ named transformer_properties name.now }
{
    find_named(&TRANSFORMER_PROPERTIES, name)
}

// The number 0; any other is unsupported.
#[tactic(auto, unfolding(crate::specs::Transformer::zero_in))]
fn zero(alloc: Global, pair: &Pair) -> Result<i128, ModelError>
    ensures { Gives (λ n. n) result (zero_in pair.now) }
{
    supported_of(alloc, pair, &[0])?;
    Ok(0)
}

// Sets one property of a winding. After an `Err` it is as before.
// `solves` is the number of Solves that were applied so far.
fn set_winding(
    alloc: Global,
    winding: &mut Winding,
    property: WindingProperty,
    pair: &Pair,
    solves: u32,
) -> Result<(), ModelError>
    ensures { Becomes winding.old winding.new result (with_winding solves property pair.now winding.old) }
{
    match property {
        WindingProperty::Bus => winding.bus = Some(bus_value(alloc, pair)?),
        WindingProperty::Conn => winding.conn = connection(alloc, pair)?,
        WindingProperty::Kv => winding.kv = number_within(alloc, pair, ONE / 100, 1000 * ONE)?,
        WindingProperty::PctR => winding.pct_r = number_within(alloc, pair, 0, 100 * ONE)?,
        WindingProperty::Tap => {
            winding.tap = tap(alloc, pair)?;
            winding.set_at = solves;
        }
        WindingProperty::Mintap => winding.mintap = tap(alloc, pair)?,
        WindingProperty::Maxtap => winding.maxtap = tap(alloc, pair)?,
        WindingProperty::Numtaps => winding.numtaps = whole_within(alloc, pair, 1, 1000)?,
    }
    Ok(())
}

// Sets a property of the winding that wdg chose last.
fn set_chosen(
    alloc: Global,
    transformer: &mut Transformer,
    property: WindingProperty,
    pair: &Pair,
    solves: u32,
) -> Result<(), ModelError>
    ensures { Becomes transformer.old transformer.new result (with_chosen solves property pair.now transformer.old) }
{
    if transformer.wdg == 1 {
        set_winding(alloc, &mut transformer.first, property, pair, solves)
    } else {
        set_winding(alloc, &mut transformer.second, property, pair, solves)
    }
}

// The rated power of winding 1 is that of both.
fn set_kva(transformer: &mut Transformer, kva: i128)
    ensures { transformer.new ≡ with_kva kva transformer.old }
{
    if transformer.wdg == 1 {
        transformer.first.kva = kva;
    }
    transformer.second.kva = kva;
}

// Each winding has half of the losses at full load.
fn set_losses(transformer: &mut Transformer, losses: i128)
    requires low { pos 0 ≤ℤ losses }
    requires high { losses ≤ℤ pos 200_000_000_000 }
    ensures { transformer.new ≡ with_losses losses transformer.old }
{
    let half = half_of(losses);
    transformer.pct_loadloss = Some(losses);
    transformer.first.pct_r = half;
    transformer.second.pct_r = half;
}

fn set_taps(transformer: &mut Transformer, first: u32, second: u32, solves: u32)
    ensures { transformer.new ≡ with_taps solves first second transformer.old }
{
    transformer.first.tap = first;
    transformer.first.set_at = solves;
    transformer.second.tap = second;
    transformer.second.set_at = solves;
}

// Sets a property of both windings.
fn set_both(
    alloc: Global,
    transformer: &mut Transformer,
    property: BothProperty,
    pair: &Pair,
    solves: u32,
) -> Result<(), ModelError>
    ensures { Becomes transformer.old transformer.new result (with_both solves property pair.now transformer.old) }
{
    match property {
        BothProperty::Buses => {
            let (first, second) = two_buses(alloc, pair)?;
            transformer.first.bus = Some(first);
            transformer.second.bus = Some(second);
        }
        BothProperty::Conns => {
            let (first, second) = two_connections(alloc, pair)?;
            transformer.first.conn = first;
            transformer.second.conn = second;
        }
        BothProperty::Kvs => {
            let (first, second) = two_numbers_within(alloc, pair, ONE / 100, 1000 * ONE)?;
            transformer.first.kv = first;
            transformer.second.kv = second;
        }
        BothProperty::Kvas => {
            let (first, second) = two_numbers_within(alloc, pair, 1_000_000, 1_000_000 * ONE)?;
            transformer.first.kva = first;
            transformer.second.kva = second;
        }
        BothProperty::PctRs => {
            let (first, second) = two_numbers_within(alloc, pair, 0, 100 * ONE)?;
            transformer.first.pct_r = first;
            transformer.second.pct_r = second;
        }
        BothProperty::Taps => {
            let (first, second) = two_taps(alloc, pair)?;
            set_taps(transformer, first, second, solves);
        }
    }
    Ok(())
}

/// Sets one property of a transformer. After an `Err` it is as before.
/// `solves` is the number of Solves that were applied so far.
pub fn set_transformer(
    alloc: Global,
    transformer: &mut Transformer,
    property: TransformerProperty,
    pair: &Pair,
    solves: u32,
) -> Result<(), ModelError>
    ensures { Becomes transformer.old transformer.new result (with_transformer solves property pair.now transformer.old) }
{
    match property {
        TransformerProperty::Phases => transformer.phases = whole_of(alloc, pair, &[1, 3])?,
        TransformerProperty::Windings => transformer.windings = supported_of(alloc, pair, &[2])?,
        TransformerProperty::Wdg => transformer.wdg = whole_within(alloc, pair, 1, 2)?,
        TransformerProperty::OfWinding(property) => set_chosen(
            alloc,
            transformer,
            property,
            pair,
            solves,
        )?,
        TransformerProperty::Kva => {
            let kva = number_within(alloc, pair, 1_000_000, 1_000_000 * ONE)?;
            set_kva(transformer, kva);
        }
        TransformerProperty::Xhl => transformer.xhl = number_within(alloc, pair, 0, 100 * ONE)?,
        TransformerProperty::PctLoadloss => {
            let losses = number_within(alloc, pair, 0, 200 * ONE)?;
            set_losses(transformer, losses);
        }
        TransformerProperty::OfBoth(property) => set_both(
            alloc,
            transformer,
            property,
            pair,
            solves,
        )?,
        TransformerProperty::Leadlag => transformer.leadlag = lead_lag(alloc, pair)?,
        TransformerProperty::PctNoloadloss => transformer.pct_noloadloss = zero(alloc, pair)?,
        TransformerProperty::PctImag => transformer.pct_imag = zero(alloc, pair)?,
        TransformerProperty::Basefreq => transformer.basefreq = Some(number_value(alloc, pair)?),
        TransformerProperty::Ignored => {}
    }
    Ok(())
}
