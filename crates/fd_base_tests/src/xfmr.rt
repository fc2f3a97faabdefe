// Worked transformers.
use crate::checks::{holds, same};
use crate::contributions::{GIGA, THREE, ends, numbers};
use fd_inverse::{Conn, NodeAt, TapPair, TermFault};
use fd_xfmr::{XfmrData, xfmr_terms};
use std::test::Fail;

// One phase between a node and ground on each side.
const FIRST: [NodeAt; 2] = [NodeAt::Node(0), NodeAt::Ground];

const SECOND: [NodeAt; 2] = [NodeAt::Node(1), NodeAt::Ground];

const NOMINAL: TapPair = TapPair {
    first: 100_000,
    second: 100_000,
};

// 2.4 kilovolt, 1000 kilovolt-ampere, 0.4 + j 1 percent: 0.02304 + j 0.0576 ohm, times the square of the tap 1.0375
const RATIO: i128 = 249_000_000_000_000;

const RESISTANCE: i128 = 248_004_000_000_000_000_000;

const REACTANCE: i128 = 620_010_000_000_000_000_000;

const NUMBERS: [(u32, u32, i128); 12] = [
    (4, 0, RATIO),
    (5, 1, RATIO),
    (4, 2, -1),
    (5, 3, -1),
    (4, 4, -RESISTANCE),
    (4, 5, REACTANCE),
    (5, 4, -REACTANCE),
    (5, 5, -RESISTANCE),
    (0, 4, RATIO),
    (1, 5, RATIO),
    (2, 4, -1),
    (3, 5, -1),
];

#[test]
fn one_phase(rt: HostRuntime) -> Result<(), Fail> {
    let alloc = rt.alloc();
    let at = ends(alloc, &FIRST, &SECOND, 2)?;
    let xfmr = XfmrData {
        phases: 1,
        conn: [Conn::Wye, Conn::Wye],
        kv: [2_400_000_000, 2_400_000_000],
        kva: 1000 * GIGA,
        pct_r: [200_000_000, 200_000_000],
        xhl: GIGA,
    };
    let taps = TapPair {
        first: 100_000,
        second: 103_750,
    };
    let terms = xfmr_terms(alloc, &xfmr, taps, &at)?;
    holds(&rt, terms.len() == NUMBERS.len());
    for (term, due) in terms.iter().zip(&NUMBERS) {
        same(&rt, numbers(term), *due);
    }
    same(&rt, terms[0].den, 240_000_000_000_000);
    Ok(())
}

// 115 kilovolt in delta and 4.16 kilovolt in wye, 5000 kilovolt-ampere, 0.001 + j 0.008 percent: 2401.77712 volt and
// 0.0000346112 + j 0.0002768896 ohm in a phase, and phase 1 joins nodes 1 and 3 of the higher side
// The denominator of the ratio, and the numerator of the resistance
const DELTA_WYE: (i128, i128) = (11_500_000_000_000_000, -346_112_000_000_000_000);

#[test]
fn delta_wye(rt: HostRuntime) -> Result<(), Fail> {
    let alloc = rt.alloc();
    let second = [NodeAt::Node(3), NodeAt::Node(4), NodeAt::Node(5)];
    let at = ends(alloc, &THREE, &second, 6)?;
    let xfmr = XfmrData {
        phases: 3,
        conn: [Conn::Delta, Conn::Wye],
        kv: [115 * GIGA, 4_160_000_000],
        kva: 5000 * GIGA,
        pct_r: [500_000, 500_000],
        xhl: 8_000_000,
    };
    let terms = xfmr_terms(alloc, &xfmr, NOMINAL, &at)?;
    holds(&rt, terms.len() == 48);
    same(&rt, numbers(&terms[0]), (12, 0, 240_177_712_000_000));
    same(&rt, numbers(&terms[2]), (12, 4, -240_177_712_000_000));
    same(&rt, (terms[0].den, terms[6].num), DELTA_WYE);
    same(
        &rt,
        (terms[7].col, terms[7].num),
        (13, 2_768_896_000_000_000_000),
    );
    Ok(())
}

// 1000 kilovolt over 0.01 kilovolt is past 2^14
#[test]
fn out_of_range(rt: HostRuntime) -> Result<(), Fail> {
    let alloc = rt.alloc();
    let at = ends(alloc, &FIRST, &SECOND, 2)?;
    let xfmr = XfmrData {
        phases: 1,
        conn: [Conn::Wye, Conn::Wye],
        kv: [10_000_000, 1000 * GIGA],
        kva: 1000 * GIGA,
        pct_r: [0, 0],
        xhl: GIGA,
    };
    let fault = xfmr_terms(alloc, &xfmr, NOMINAL, &at).err();
    same(&rt, fault, Some(TermFault::Range));
    Ok(())
}
