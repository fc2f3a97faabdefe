// Worked sources.
ghost use Rattle.std.specs.Prelude.{◌≡◌, pos};

use crate::checks::{holds, same};
use crate::contributions::{GIGA, THREE, ends, numbers};
use fd_inverse::{NodeAt, TermFault};
use fd_source::{Ohms, ShortCircuit, SourceData, source_ohms, source_terms};
use std::test::Fail;

fn short_circuit(mvasc3: i128, mvasc1: i128) -> ShortCircuit
    ensures { result ≡ record {
      basekv = pos 115000000000;
      mvasc3 = mvasc3;
      mvasc1 = mvasc1;
      x1r1 = pos 4000000000;
      x0r0 = pos 3000000000;
    } }
{
    ShortCircuit {
        basekv: 115 * GIGA,
        mvasc3,
        mvasc1,
        x1r1: 4 * GIGA,
        x0r0: 3 * GIGA,
    }
}

// 115 kilovolt and 20,000 megavolt-ampere; with ten times the power to ground there is no zero sequence resistance; and
// below 1.3225 megavolt-ampere the impedance is above 10^4 ohm
#[test]
fn impedances(rt: HostRuntime) -> Result<(), Fail> {
    let ohms = source_ohms(&short_circuit(20_000 * GIGA, 21_000 * GIGA))?;
    let (r1, x1) = (160_376_682, 641_506_728);
    let (r0, x0) = (179_603_582, 538_810_746);
    same(&rt, ohms, Ohms { r1, x1, r0, x0 });
    let ohms = source_ohms(&short_circuit(20_000 * GIGA, 200_000 * GIGA))?;
    let (r0, x0) = (0, 0);
    same(&rt, ohms, Ohms { r1, x1, r0, x0 });
    let most = source_ohms(&short_circuit(1_322_500_000, 21_000 * GIGA));
    holds(&rt, most.is_ok());
    let past = source_ohms(&short_circuit(21_000 * GIGA, 1_322_499_999)).err();
    same(&rt, past, Some(TermFault::Range));
    Ok(())
}

// 1000 volt at 30, -90 and 150 degrees, behind 0.3 and 0.9 ohm
#[test]
fn three_phases(rt: HostRuntime) -> Result<(), Fail> {
    let alloc = rt.alloc();
    let at = ends(alloc, &THREE, &[], 3)?;
    let source = SourceData {
        phases: 3,
        volts: GIGA,
        angle: 30,
        ohms: Ohms {
            r1: 300_000_000,
            x1: 0,
            r0: 900_000_000,
            x0: 0,
        },
    };
    let added = source_terms(alloc, &source, &at)?;
    let half = 500_000_000;
    let voltages = [866_025_404, half, 0, -GIGA, -866_025_404, half];
    same(&rt, added.constants.as_slice(), voltages.as_slice());
    holds(&rt, added.terms.len() == 30);
    same(&rt, numbers(&added.terms[2]), (6, 6, -500_000_000_000));
    same(&rt, numbers(&added.terms[4]), (6, 8, -200_000_000_000));
    Ok(())
}

// 30,000 ohm are past 2^14
#[test]
fn out_of_range(rt: HostRuntime) -> Result<(), Fail> {
    let alloc = rt.alloc();
    let at = ends(alloc, &[NodeAt::Node(0)], &[], 1)?;
    let (r1, r0) = (30_000 * GIGA, 30_000 * GIGA);
    let source = SourceData {
        phases: 1,
        volts: GIGA,
        angle: 0,
        ohms: Ohms {
            r1,
            x1: 0,
            r0,
            x0: 0,
        },
    };
    let refused = source_terms(alloc, &source, &at).err();
    same(&rt, refused, Some(TermFault::Range));
    Ok(())
}
