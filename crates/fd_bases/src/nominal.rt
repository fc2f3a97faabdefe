// The nominal voltages that sources and windings give to their buses.
ghost use Rattle.std.specs.Prelude.{◌≡◌};
ghost use Rattle.dss_layout.specs.dss_model.InRange.{VsourceInRange, WindingInRange};
ghost use Rattle.fd_bases.specs.Nominals.{source_nominal, has_ground, is_grounded, winding_nominal};

use dss_layout::{Vsource, Winding, bus_at};

/// The nominal voltage of a bus, in whole 10^-9 kV.
#[derive(Clone, Copy)]
pub enum Nominal {
    /// This many.
    Whole(i64),
    /// This many over root three.
    OverRootThree(i64),
}

/// The nominal voltage of a source's bus.
pub fn source_nominal(source: &Vsource) -> Nominal
    requires { VsourceInRange source.now }
    ensures { result ≡ source_nominal source.now }
{
    let kv = source.basekv as i64;
    if source.phases == 1 {
        Nominal::Whole(kv)
    } else {
        Nominal::OverRootThree(kv)
    }
}

fn has_ground(numbers: &[u8]) -> bool
    ensures { result ≡ has_ground numbers.now }
{
    match numbers {
        [] => false,
        [a] => *a == 0,
        [a, b, ..] => *a == 0 || *b == 0,
    }
}

// Whether a winding of one phase has one of its two nodes at ground. Where their count is another, none is.
fn is_grounded(winding: &Winding) -> bool
    ensures { result ≡ is_grounded winding.now }
{
    match bus_at(1, winding.conn, &winding.bus) {
        Ok(numbers) => has_ground(numbers.as_slice()),
        Err(_) => false,
    }
}

/// The nominal voltage of a winding's bus.
pub fn winding_nominal(phases: u32, winding: &Winding) -> Nominal
    requires { WindingInRange winding.now }
    ensures { result ≡ winding_nominal phases winding.now }
{
    let kv = winding.kv as i64;
    if phases == 1 && is_grounded(winding) {
        Nominal::Whole(kv)
    } else {
        Nominal::OverRootThree(kv)
    }
}
