// Claims on the network of a siemens into which 100 ampere flow.
ghost use Rattle.std.specs.Prelude.{◌≡◌, [], IfOk};

use crate::checks::same;
use dss_script::Term;
use fd_cert::{Ball, NetworkRows, Rule, recheck};
use fd_inject::{Dense, Rows};
use fd_settings::{Constant, Layout};
use std::alloc::{AllocError, Global};
use std::process::Abort;
use std::test::Fail;

const INFLOW: [Constant; 1] = [Constant {
    row: 0,
    value: -100_000_000,
}];

fn siemens(alloc: Global) -> Result<Rows, AllocError>
    ensures size { IfOk result (λ r. r.size ≡ 2) }
    ensures loads { IfOk result (λ r. r.loads ≡ []) }
{
    let terms = vec![in alloc;
        Term {
            row: 0,
            col: 0,
            num: 1,
            den: 1
        },
        Term {
            row: 1,
            col: 1,
            num: 1,
            den: 1
        },
    ]?;
    Rows::of(alloc, 2, terms, Vec::new(alloc))
}

fn network<'a>(rt: &impl Abort, rows: &'a Rows) -> NetworkRows<'a>
    requires size { rows.now.size ≡ 2 }
    requires loads { rows.now.loads ≡ [] }
{
    assert!(rt; rows.are_within());
    let layout = Layout {
        nodes: 1,
        branches: 0,
        magnitudes: 0,
    };
    NetworkRows::new(layout, rows, &INFLOW, 0)
}

const ONE: i64 = 0x100_0000_0000;

const PAST_ENTRIES: i64 = 0x100_0000_0000_0001;

// So many mismatches, a radius, the first of the mismatches, the multiple of the unit matrix that is claimed as the inverse,
// and the rule that the claim breaks at the first place.
type Claim = (usize, u128, u128, i64, Option<Rule>);

// The point is 1,000 microvolts above the solution: its mismatch is 1,000, and so far off it can be twice that, and 1.
const CLAIMS: [Claim; 7] = [
    (2, 2_001, 1_000, ONE, None),
    (1, 2_001, 1_000, ONE, Some(Rule::Size)),
    (2, 2_001, 1_000, PAST_ENTRIES, Some(Rule::Range)),
    (2, 2_001, 999, ONE, Some(Rule::Mismatch)),
    (2, 2_001, 1_001, ONE, Some(Rule::Mismatch)),
    (2, 2_001, 1_000, 0, Some(Rule::Bound)),
    (2, 2_000, 1_000, ONE, Some(Rule::Radius)),
];

// A multiple of the unit matrix.
fn multiple(alloc: Global, diagonal: i64) -> Result<Dense, AllocError> {
    Ok(Dense::from_cells(2, vec![in alloc; diagonal, 0, 0, diagonal]?))
}

fn mismatches(alloc: Global, count: usize, first: u128) -> Result<Vec<u128>, AllocError> {
    let mut all = vec![in alloc; first]?;
    for _more in 1..count {
        all.push(0)?;
    }
    Ok(all)
}

#[test]
fn rechecked(rt: HostRuntime) -> Result<(), Fail> {
    let alloc = rt.alloc();
    let rows = siemens(alloc)?;
    let net = network(&rt, &rows);
    for claim in &CLAIMS {
        let (count, radius, mismatch, diagonal, broken) = *claim;
        let ball = Ball {
            centre: vec![in alloc; 100_001_000, 0]?,
            radius: vec![in alloc; radius, radius]?,
        };
        let inverse = multiple(alloc, diagonal)?;
        let mismatches = mismatches(alloc, count, mismatch)?;
        match recheck(alloc, &net, &ball, &mismatches, &inverse)? {
            Some(found) => same(&rt, (Some(found.rule), found.place), (broken, 0)),
            None => same(&rt, None, broken),
        }
    }
    Ok(())
}
