// The voltage bases of a circuit's buses.
ghost use Rattle.std.specs.Prelude.{◌≡◌, ◌∷◌, All, pos, IfOk};
ghost use Rattle.dss_layout.specs.fd_exact.Ranges.{IsBetween};
ghost use Rattle.dss_layout.specs.dss_model.Ranges.{ones};
ghost use Rattle.fd_bases.specs.Bases.{based, bases_of};

use crate::nearest::nearest;
use crate::walk::{Reached, reached_in};
use dss_circuit::Circuit;
use dss_layout::Text;
use std::alloc::{AllocError, Global};

/// The voltage base of a bus.
#[derive(Drop)]
pub struct BusBase {
    /// The bus's name, in lower case.
    pub bus: Text,
    /// One of the values of the option voltagebases, in whole 10^-9 kV.
    pub kv: i128,
}

// The base of each bus that is reached, of these.
fn based(
    alloc: Global,
    reached: Reached,
    first: i128,
    others: &[i128],
) -> Result<Vec<BusBase>, AllocError>
    requires first_in_range { IsBetween (pos 1_000_000) (ones 1000) first }
    requires others_in_range { All (IsBetween (pos 1_000_000) (ones 1000)) others.now }
    ensures { IfOk result (λ bases. bases.items ≡ based (first ∷ others.now) reached.entries) }
{
    let mut bases = Vec::new(alloc);
    for (bus, nominal) in reached {
        bases.push(BusBase {
            bus,
            kv: nearest(nominal, first, others),
        })?;
    }
    Ok(bases)
}

/// The voltage bases of a circuit's buses, in the order in which the buses are reached from its sources (OpenDSS
/// manual, CalcVoltageBases). Each is a value of the option voltagebases, the one which over root three is nearest to
/// the bus's nominal voltage, the smaller where two are as near. Root three is the decimal 1.732050807568877; all else
/// is exact.
///
/// A source gives its bus the basekv over root three, or for one phase the basekv as it is. A line gives its other bus
/// the nominal voltage of the one that is reached, and a transformer gives its other bus the kv of the winding there
/// over root three, or for one phase with one of the winding's two nodes at ground the kv as it is. Elements are taken
/// in order of definition, again and again, until no bus is new; a bus keeps the nominal voltage with which it is
/// reached first. An element without a bus that it needs is passed over. A bus that isn't reached has no base, and
/// where voltagebases is empty none has.
///
/// The circuit may be any: it needn't pass the tests of Solve.
pub fn bases(alloc: Global, circuit: &Circuit) -> Result<Vec<BusBase>, AllocError>
    ensures { IfOk result (λ bases. bases.items ≡ bases_of circuit.now) }
{
    let Some((first, others)) = circuit.options().voltagebases.as_slice().split_first() else {
        return Ok(Vec::new(alloc));
    };
    let reached = reached_in(alloc, circuit.elements())?;
    based(alloc, reached, *first, others)
}
