// Worked radii of slopes.
ghost use Rattle.std.specs.Prelude.{◌≡◌, pos};

use crate::checks::same;
use fd_inverse::LoadModel;
use fd_slope::load_slope;
use fd_source::LoadPhase;

const VOLT: i128 = 1_000_000;

// 9 kilowatt and 3 kilovar at 1000 volt, with limits of 850 and 1100 volt
fn load(model: LoadModel) -> LoadPhase
    ensures { result ≡ record {
      model = model;
      p = pos 9000000;
      q = pos 3000000;
      vn = pos 1000000000;
      vlo = pos 850000000;
      vhi = pos 1100000000;
    } }
{
    LoadPhase {
        model,
        p: 9_000_000,
        q: 3_000_000,
        vn: 1_000 * VOLT,
        vlo: 850 * VOLT,
        vhi: 1_100 * VOLT,
    }
}

// half-widths of 5 volt
const WIDTH: u128 = 5_000_000;

// constant power: inside, across the lower limit, outside, and across the upper limit
const POWERS: [(i128, i128, u128); 4] = [
    (950, -40, 564_141_506),
    (852, 0, 36_846_337_805),
    (800, 10, 0),
    (-1_099, 30, 22_175_768_731),
];

#[test]
fn radii_of_power(rt: HostRuntime) {
    for (p, q, due) in &POWERS {
        let slope = load_slope(
            &load(LoadModel::ConstantPower),
            *p * VOLT,
            *q * VOLT,
            0,
            WIDTH,
            WIDTH,
            0,
        );
        let (real, imaginary) = (slope.radius.real, slope.radius.imaginary);
        same(&rt, (real.p, imaginary.q, real.m), (*due, *due, 0));
    }
}

// The parts of the voltage and its magnitude, the half-width of the magnitude, and the radii by voltage and by
// magnitude.
type Current = ((i128, i128, i128), u128, (u128, u128));

// constant current: inside, across the lower limit, outside, and a magnitude below 0 outside and across the lower limit
const CURRENTS: [Current; 5] = [
    ((950, -40, 951), WIDTH, (73_329_619, 73_252_511)),
    ((852, 0, 852), WIDTH, (91_094_584, 15_522_517_099)),
    ((840, 1, 840), WIDTH, (0, 0)),
    ((900, 0, -2), WIDTH, (0, 0)),
    ((900, 0, -2), 860_000_000, (15_705_134_948, 16_435_606_341)),
];

#[test]
fn radii_of_current(rt: HostRuntime) {
    for ((p, q, m), rm, due) in &CURRENTS {
        let (p, q, m) = (*p * VOLT, *q * VOLT, *m * VOLT);
        let radius = load_slope(
            &load(LoadModel::ConstantCurrent),
            p,
            q,
            m,
            WIDTH,
            WIDTH,
            *rm,
        )
        .radius;
        same(&rt, (radius.real.p, radius.imaginary.m), *due);
        same(&rt, radius.magnitude.p, 5_497_558_139);
    }
}
