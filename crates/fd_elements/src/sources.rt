// The data of sources.
ghost use Rattle.std.specs.Prelude.{◌≡◌, ◌*◌, ◌^◌, IfOk, IfErr, IsTrue, ◌↔◌};
ghost use Rattle.dss_model.specs.InRange.{VsourceInRange};
ghost use Rattle.dss_model.specs.Sound.{is_source_outside};
ghost use Rattle.dss_model.specs.fd_exact.Ranges.{UpTo};
ghost use Rattle.fd_source.specs.Powers.{AreWithin, IsShortCircuit};
ghost use Rattle.fd_source.specs.Equations.{IsSource};
ghost use Rattle.fd_elements.specs.Sources.{given_ohms as ohms_given, short_circuit_of, source_data_of, source_ohms_of, source_volts};

use crate::volts::{part_of, part_over_root_three};
use dss_model::{SourceForm, TermFault, Vsource};
use fd_source::{Ohms, ShortCircuit, SourceData, source_ohms};

/// The data of a source: the voltage of a phase in whole microvolts, the angle in degrees, and the impedances in 10^-9 ohm, by the form
/// that holds. Range exactly where the source is given by its short-circuit powers and the square of its voltage over one of
/// them is above 10^4 ohm, which the tests of Solve refuse; takes no memory.
pub fn source_data(source: &Vsource) -> Result<SourceData, TermFault>
    requires { VsourceInRange source.now }
    ensures value { IfOk result (λ d. d ≡ source_data_of source.now) }
    ensures within { IfOk result (λ d. IsSource d) }
    ensures range { result ≡ Err TermFault.Range ↔ IsTrue (is_source_outside source.now) }
    ensures takes_no_memory { IfErr result (λ e. e ≡ TermFault.Range) }
{
    Ok(SourceData {
        phases: source.phases,
        volts: volts(source),
        angle: source.angle,
        ohms: ohms(source)?,
    })
}

// The voltage of a phase.
fn volts(source: &Vsource) -> i128
    requires { VsourceInRange source.now }
    ensures value { result ≡ source_volts source.now }
    ensures within { UpTo (2 * 10 ^ 12) result }
{
    if source.phases == 1 {
        part_of(source.pu, source.basekv)
    } else {
        part_over_root_three(source.pu, source.basekv)
    }
}

fn ohms(source: &Vsource) -> Result<Ohms, TermFault>
    requires { VsourceInRange source.now }
    ensures ohms { IfOk result (λ o. o ≡ source_ohms_of source.now.form source.now) }
    ensures within { IfOk result (λ o. AreWithin o) }
    ensures range { result ≡ Err TermFault.Range ↔ IsTrue (is_source_outside source.now) }
    ensures takes_no_memory { IfErr result (λ e. e ≡ TermFault.Range) }
{
    match source.form {
        SourceForm::ShortCircuit => source_ohms(&short_circuit(source)),
        SourceForm::Ohms => Ok(given_ohms(source)),
    }
}

fn short_circuit(source: &Vsource) -> ShortCircuit
    requires { VsourceInRange source.now }
    ensures value { result ≡ short_circuit_of source.now }
    ensures within { IsShortCircuit result }
{
    ShortCircuit {
        basekv: source.basekv,
        mvasc3: source.mvasc3,
        mvasc1: source.mvasc1,
        x1r1: source.x1r1,
        x0r0: source.x0r0,
    }
}

fn given_ohms(source: &Vsource) -> Ohms
    requires { VsourceInRange source.now }
    ensures value { result ≡ ohms_given source.now }
    ensures r1 { UpTo (10 ^ 13) result.r1 }
    ensures x1 { UpTo (10 ^ 13) result.x1 }
    ensures r0 { UpTo (10 ^ 13) result.r0 }
    ensures x0 { UpTo (10 ^ 13) result.x0 }
{
    let r1 = source.r1.unwrap_or(0);
    let x1 = source.x1.unwrap_or(0);
    Ohms {
        r1,
        x1,
        r0: source.r0.unwrap_or(r1),
        x0: source.x0.unwrap_or(x1),
    }
}
