// The order in which the unknowns of a radial feeder are eliminated. Bus b is behind a by one phase and behind the source
// by another, so it has level 1, and c behind it level 2.

use crate::checks::{holds, same};
use crate::circuits::{Row, circuit};
use fd_levels::{OrderFault, order};
use fd_network::Layout;
use std::alloc::{AllocError, Global};
use std::test::Fail;

const FEEDER: [Row<'static>; 6] = [
    ("Circuit", "h", "basekv=1 phases=3 r1=1 x1=0 r0=1 x0=0"),
    (
        "Line",
        "long",
        "phases=1 bus1=sourcebus.1 bus2=a.1 r1=1 x1=0 r0=1 x0=0",
    ),
    (
        "Line",
        "on",
        "phases=1 bus1=b.1 bus2=a.1 r1=1 x1=0 r0=1 x0=0",
    ),
    (
        "Line",
        "behind",
        "phases=1 bus1=b.1 bus2=c.1 r1=1 x1=0 r0=1 x0=0",
    ),
    (
        "Line",
        "short",
        "phases=1 bus1=sourcebus.2 bus2=b.2 r1=1 x1=0 r0=1 x0=0",
    ),
    (
        "Load",
        "d",
        "phases=1 bus1=c.1 kv=1 kw=1 kvar=0 vminpu=0.85 model=5",
    ),
];

// The magnitude; c; a and b, whose currents come first; the source.
const UNKNOWNS: [usize; 29] = [
    28, 24, 25, 10, 11, 20, 21, 22, 23, 26, 27, 6, 7, 8, 9, 12, 13, 14, 15, 16, 17, 18, 19, 0, 1,
    2, 3, 4, 5,
];

const EQUATIONS: [usize; 29] = [
    28, 10, 11, 24, 25, 6, 7, 8, 9, 12, 13, 20, 21, 22, 23, 26, 27, 0, 1, 2, 3, 4, 5, 14, 15, 16,
    17, 18, 19,
];

fn unknowns_and_equations(alloc: Global, rows: &[Row]) -> Result<(Vec<usize>, Vec<usize>), Fail> {
    let circuit = circuit(alloc, rows)?;
    let layout = Layout::of(alloc, circuit.elements())?;
    let (mut unknowns, mut equations) = (Vec::new(alloc), Vec::new(alloc));
    for pair in &order(alloc, &circuit, &layout)? {
        unknowns.push(pair.unknown)?;
        equations.push(pair.equation)?;
    }
    Ok((unknowns, equations))
}

#[test]
fn levels_by_the_least_number_of_lines(rt: HostRuntime) -> Result<(), Fail> {
    let (unknowns, equations) = unknowns_and_equations(rt.alloc(), &FEEDER)?;
    same(&rt, unknowns.as_slice(), UNKNOWNS.as_slice());
    same(&rt, equations.as_slice(), EQUATIONS.as_slice());
    Ok(())
}
