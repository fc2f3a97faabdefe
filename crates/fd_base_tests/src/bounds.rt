// Three unknowns are eliminated in turn, and what comes of it: factors, how the unknowns move, heights and bounds, and
// what the checker says. The equations are 4 x + y, 8 x + 6 y + z, which may be off by |y|, and x + 8 y + 7 z, each at
// most 10. The numbers are those of docs/FACTORS.md, made apart from the program.
ghost use Rattle.std.specs.Prelude.{◌≡◌, IfOk};
ghost use Rattle.fd_base_tests.specs.InTurn.{in_turn};
ghost use Rattle.fd_bounds.specs.fd_triangles.Factors.{AreOrdered};

use crate::checks::same;
use fd_bounds::{
    BoundFault, Claim, Entry, Equation, Pair, Refusal, bound_rows, check, factors, in_order_law,
    step,
};
use std::alloc::{AllocError, Global};

// What each equation is to be, for the step.
const SIDE: i128 = 10_000_000;

// How the unknowns move, what is claimed, and the rule that the claim breaks.
#[derive(Drop)]
struct Outcome {
    moves: Vec<i64>,
    claim: Claim,
    refusal: Option<Refusal>,
}

// An unknown, by the equation of its number.
fn pair(number: usize) -> Pair
    ensures { result ≡ record { unknown = number; equation = number } }
{
    Pair {
        unknown: number,
        equation: number,
    }
}

fn at(place: usize, units: i64) -> Entry
    ensures { result ≡ record { place = place; units = units } }
{
    Entry { place, units }
}

fn equation(alloc: Global, coefficients: &[Entry], radii: &[Entry]) -> Result<Equation, AllocError>
    ensures { IfOk result (λ equation. equation.coefficients.items ≡ coefficients.now) }
{
    Ok(Equation {
        coefficients: Vec::from_slice(alloc, coefficients)?,
        radii: Vec::from_slice(alloc, radii)?,
        right_side: 10,
    })
}

// The equations, where the first may be off by so much of its unknowns.
fn three_equations(alloc: Global, radii: &[Entry]) -> Result<Vec<Equation>, AllocError>
    ensures { IfOk result (λ equations. AreOrdered equations.items in_turn) }
{
    let first = [at(0, 0x400_0000_0000), at(1, 0x100_0000_0000)];
    let second = [
        at(0, 0x800_0000_0000),
        at(1, 0x600_0000_0000),
        at(2, 0x100_0000_0000),
    ];
    let third = [
        at(0, 0x100_0000_0000),
        at(1, 0x800_0000_0000),
        at(2, 0x700_0000_0000),
    ];
    let mut equations = Vec::new(alloc);
    equations.push(equation(alloc, &first, radii)?)?;
    equations.push(equation(alloc, &second, &[at(1, 0x100_0000_0000)])?)?;
    equations.push(equation(alloc, &third, &[])?)?;
    Ok(equations)
}

// What comes of these equations, eliminated in turn.
fn eliminated(alloc: Global, equations: &[Equation]) -> Option<Outcome>
    requires { AreOrdered equations.now in_turn }
{
    let order = [pair(0), pair(1), pair(2)];
    let rows = match factors(alloc, equations, &order) {
        Ok(rows) => rows,
        Err(_) => return None,
    };
    let moves = match step(alloc, &rows, &order, &[SIDE; 3]) {
        Ok(moves) => moves,
        Err(_) => return None,
    };
    in_order_law();
    let found = match bound_rows(alloc, equations, &rows) {
        Ok(found) => found,
        Err(_) => return None,
    };
    let claim = Claim {
        rows,
        heights: found.heights,
        bounding: found.bounding,
        bounds: found.bounds,
    };
    match check(alloc, equations, &claim) {
        Ok(refusal) => Some(Outcome {
            moves,
            claim,
            refusal,
        }),
        Err(_) => None,
    }
}

// Why the unknowns of equations that are eliminated in turn aren't bounded.
fn unbounded(alloc: Global, equations: &[Equation]) -> Option<BoundFault>
    requires { AreOrdered equations.now in_turn }
{
    let order = [pair(0), pair(1), pair(2)];
    match factors(alloc, equations, &order) {
        Ok(rows) => {
            in_order_law();
            bound_rows(alloc, equations, &rows).err()
        }
        Err(_) => None,
    }
}

// The first three elements of a list.
fn three<T: Copy + Drop>(list: &[T]) -> (Option<T>, Option<T>, Option<T>) {
    (
        list.first().copied(),
        list.get(1).copied(),
        list.get(2).copied(),
    )
}

#[test]
fn an_elimination_moves_and_is_bounded(rt: HostRuntime) {
    let alloc = rt.alloc();
    let outcome = match three_equations(alloc, &[]) {
        Ok(equations) => eliminated(alloc, &equations),
        Err(_) => None,
    };
    same(&rt, outcome.is_some(), true);
    if let Some(outcome) = outcome {
        let claim = &outcome.claim;
        let pivot = claim.rows.last().and_then(|row| row.left.first());
        same(&rt, pivot.map(|entry| entry.units), Some(0x510_0000_0000));
        let moved = (Some(3_456_790), Some(-3_827_160), Some(5_308_642));
        same(&rt, three(&outcome.moves), moved);
        let heights = (
            Some(0xa00_0000_0001),
            Some(0x3100_0000_0003),
            Some(0x6b70_0000_0007),
        );
        same(&rt, three(&claim.heights), heights);
        same(&rt, three(&claim.bounding), (Some(0), Some(1), Some(2)));
        same(&rt, three(&claim.bounds), (Some(8), Some(18), Some(22)));
        same(&rt, outcome.refusal, None);
    }
}

// Where the first equation may be off by 4 |x| as well, bounds rise until a sum of the third row is too large.
#[test]
fn an_elimination_is_not_bounded(rt: HostRuntime) {
    let alloc = rt.alloc();
    let fault = match three_equations(alloc, &[at(0, 0x400_0000_0000)]) {
        Ok(equations) => unbounded(alloc, &equations),
        Err(_) => None,
    };
    same(&rt, fault, Some(BoundFault::Unbounded(2)));
}
