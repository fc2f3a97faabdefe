// Worked banks.
ghost use Rattle.fd_source.specs.fd_system.Terminals.{IsSide, node_count};
ghost use Rattle.fd_cap.specs.Capacitor.{IsCap};

use crate::checks::same;
use crate::contributions::{GIGA, THREE, ends, numbers};
use fd_cap::{CapData, cap_draw, cap_terms};
use fd_inverse::{Conn, NodeAt, TermFault};
use std::alloc::Global;
use std::process::Abort;
use std::test::Fail;

const TWO: [NodeAt; 2] = [NodeAt::Node(0), NodeAt::Node(1)];

// Asserts the contributions of a closed bank at its nodes over a denominator; of some the first ones are left out.
fn check(
    rt: &impl Abort,
    alloc: Global,
    bank: &CapData,
    nodes: &[NodeAt],
    skipped: usize,
    due: &[(u32, u32, i128)],
    denominator: i128,
) -> Result<(), TermFault>
    requires bank { IsCap bank.now }
    requires nodes { IsSide (node_count bank.now.phases) nodes.now }
{
    let at = ends(alloc, nodes, &[], 0)?;
    let terms = cap_terms(alloc, bank, true, &at)?;
    same(rt, terms.len(), skipped.saturating_add(due.len()));
    for (term, due) in terms.iter().skip(skipped).zip(due) {
        same(rt, (numbers(term), term.den), (*due, denominator));
    }
    Ok(())
}

// 200 kvar a phase over the square of 2401.77712 volt: 0.034670857983 siemens, and 83.271673434878 ampere
const WYE_POWER: i128 = 600_000_000_000_000_000;

const WYE: [(u32, u32, i128); 6] = [
    (0, 1, -WYE_POWER),
    (1, 0, WYE_POWER),
    (2, 3, -WYE_POWER),
    (3, 2, WYE_POWER),
    (4, 5, -WYE_POWER),
    (5, 4, WYE_POWER),
];

#[test]
fn three_phases_in_wye(rt: HostRuntime) -> Result<(), Fail> {
    let bank = CapData {
        phases: 3,
        conn: Conn::Wye,
        kvar: 600 * GIGA,
        kv: 4_160_000_000,
    };
    let denominator = 17_305_600_002_466_483_200;
    check(&rt, rt.alloc(), &bank, &THREE, 0, &WYE, denominator)?;
    same(&rt, cap_draw(&bank, true), 249_815_022);
    Ok(())
}

// 200 kvar a phase over the square of 4160 volt: 0.011556952663 siemens, and 48.076923076923 ampere; phase 3 joins
// nodes 3 and 1
const DELTA_PHASE: [(u32, u32, i128); 8] = [
    (4, 5, -WYE_POWER),
    (5, 4, WYE_POWER),
    (4, 1, WYE_POWER),
    (5, 0, -WYE_POWER),
    (0, 5, WYE_POWER),
    (1, 4, -WYE_POWER),
    (0, 1, -WYE_POWER),
    (1, 0, WYE_POWER),
];

#[test]
fn three_phases_in_delta(rt: HostRuntime) -> Result<(), Fail> {
    let bank = CapData {
        phases: 3,
        conn: Conn::Delta,
        kvar: 600 * GIGA,
        kv: 4_160_000_000,
    };
    let denominator = 51_916_800_000_000_000_000;
    check(
        &rt,
        rt.alloc(),
        &bank,
        &THREE,
        16,
        &DELTA_PHASE,
        denominator,
    )?;
    same(&rt, cap_draw(&bank, true), 144_230_772);
    Ok(())
}

// 100 kvar over the square of 2400 volt: 0.017361111111 siemens, and 41.666666666667 ampere
const POWER: i128 = 100_000_000_000_000_000;

const ONE_PHASE: [(u32, u32, i128); 8] = [
    (0, 1, -POWER),
    (1, 0, POWER),
    (0, 3, POWER),
    (1, 2, -POWER),
    (2, 1, POWER),
    (3, 0, -POWER),
    (2, 3, -POWER),
    (3, 2, POWER),
];

#[test]
fn one_phase(rt: HostRuntime) -> Result<(), Fail> {
    let alloc = rt.alloc();
    let bank = CapData {
        phases: 1,
        conn: Conn::Wye,
        kvar: 100 * GIGA,
        kv: 2_400_000_000,
    };
    check(
        &rt,
        alloc,
        &bank,
        &TWO,
        0,
        &ONE_PHASE,
        5_760_000_000_000_000_000,
    )?;
    same(&rt, cap_draw(&bank, true), 41_666_667);
    let at = ends(alloc, &TWO, &[], 0)?;
    same(&rt, cap_terms(alloc, &bank, false, &at)?.len(), 0);
    same(&rt, cap_draw(&bank, false), 0);
    Ok(())
}

// 10^5 kvar at ten volt are 10^6 siemens, past 2^14
#[test]
fn out_of_range(rt: HostRuntime) -> Result<(), Fail> {
    let alloc = rt.alloc();
    let bank = CapData {
        phases: 1,
        conn: Conn::Delta,
        kvar: 100_000 * GIGA,
        kv: 10_000_000,
    };
    let at = ends(alloc, &TWO, &[], 0)?;
    let fault = cap_terms(alloc, &bank, true, &at).err();
    same(&rt, fault, Some(TermFault::Range));
    same(&rt, cap_draw(&bank, true), 10_000_000_000_000);
    Ok(())
}
