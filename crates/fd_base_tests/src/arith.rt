// Worked numbers, intervals and terminals.
ghost use Rattle.std.specs.Prelude.{◌≡◌, pos};
ghost use Rattle.std.specs.List.{fold};
ghost use Rattle.fd_inverse.specs.fd_exact.Fractions.{Fraction, ◌⊖◌, ◌⊗◌};

use crate::checks::{holds, same};
use crate::contributions::ends;
use fd_inverse::{
    Conn, Cx, Enclose, Fix, Interval, Micro, NodeAt, Square, TapPair, Term, TermFault, Wide,
    ceil_at, floor_at, isqrt, near_at,
};
use std::alloc::AllocError;
use std::test::Fail;

const MOST: i128 = 0x100_0000_0000_0000_0000_0000_0000_0000;

// The real part of a voltage drop times a coefficient, in either arithmetic.
fn current<T: Enclose>(from: Cx<T>, to: Cx<T>, re: T::Factor, im: T::Factor) -> T
    ensures value { result ≡ T.minus (T.scaled (T.minus from.re to.re) re) (T.scaled (T.minus from.im to.im) im) }
    ensures encloses { (a b c d g h : Fraction)
        → T.Encloses from.re a → T.Encloses to.re b → T.Encloses from.im c → T.Encloses to.im d
        → T.FactorEncloses re g → T.FactorEncloses im h
        → T.Encloses result (((a ⊖ b) ⊗ g) ⊖ ((c ⊖ d) ⊗ h)) }
{
    (from - to).times(re, im).re
}

// The sum of currents, in either arithmetic.
fn total<T: Enclose>(currents: &[T]) -> T
    ensures { result ≡ fold T.plus (T.exactly (pos 0)) currents.now }
{
    currents
        .iter()
        .fold(T::exact(0), |sum, current| sum + *current)
}

fn micro(lo: i128, hi: i128) -> Interval<Micro> {
    if lo <= hi {
        Interval::between(lo, hi)
    } else {
        Interval::all()
    }
}

// What is asked of two intervals, of which some take no heed of the second.
#[derive(Clone, Copy)]
enum Ask {
    Third,
    Square,
    Area,
    Over,
    Sum,
    Difference,
    Opposite,
    Clamped,
    Hull,
}

fn asked(ask: Ask, x: Interval<Micro>, y: Interval<Micro>) -> Option<(i128, i128)> {
    match ask {
        Ask::Third => (x * <Interval<Micro> as Enclose>::factor(1, 3)).ends(),
        Ask::Square => x.square().ends(),
        Ask::Area => x.area(y).ends(),
        Ask::Over => x.div_pos(y).ends(),
        Ask::Sum => (x + y).ends(),
        Ask::Difference => (x - y).ends(),
        Ask::Opposite => (-x).ends(),
        Ask::Clamped => x.clamp(-1, 1).ends(),
        Ask::Hull => x.hull(y).ends(),
    }
}

type Asked = (Ask, (i128, i128), (i128, i128), Option<(i128, i128)>);

const ASKED: [Asked; 12] = [
    (Ask::Third, (5, 5), (0, 0), Some((1, 2))),
    (Ask::Third, (-5, 7), (0, 0), Some((-2, 3))),
    (Ask::Third, (-MOST, MOST), (0, 0), Some((-LARGE, LARGE))),
    (Ask::Square, (-3, 2), (0, 0), Some((0, 9))),
    (Ask::Area, (-3, 2), (4, 5), Some((-15, 10))),
    (Ask::Over, (0, 2), (3, 4), Some((0, 733_007_751_851))),
    (Ask::Over, (0, 2), (0, 4), None),
    (Ask::Sum, (MOST, MOST), (1, 1), None),
    (Ask::Difference, (1, 2), (3, 5), Some((-4, -1))),
    (Ask::Opposite, (1, 2), (0, 0), Some((-2, -1))),
    (Ask::Clamped, (2, 1), (0, 0), Some((-1, 1))),
    (Ask::Hull, (1, 2), (4, 5), Some((1, 5))),
];

const LARGE: i128 = 443_075_998_595_777_908_181_012_106_209_918_976;

#[test]
fn intervals(rt: HostRuntime) {
    for (ask, (a, b), (c, d), due) in &ASKED {
        same(&rt, asked(*ask, micro(*a, *b), micro(*c, *d)), *due);
    }
    let third = <Interval<Micro> as Enclose>::factor(1, 3);
    same(&rt, third.ends(), Some((366_503_875_925, 366_503_875_926)));
    let squares: Interval<Square> = Interval::between(-4, 10);
    same(&rt, squares.root().ends(), Some((0, 4)));
}

#[test]
fn whole_numbers(rt: HostRuntime) {
    let thirds = (floor_at(-1, 3), ceil_at(-1, 3));
    same(
        &rt,
        thirds,
        (Some(-366_503_875_926), Some(-366_503_875_925)),
    );
    let near = (near_at(-1, 0x200_0000_0000), near_at(MOST, 1));
    same(&rt, near, (Some(-1), None));
    same(&rt, isqrt(99), 9);
}

const WIDE: [Option<i128>; 6] = [Some(5), Some(9), Some(-14), Some(2), Some(4), None];

#[test]
fn wide_numbers(rt: HostRuntime) {
    let (seven, two) = (Wide::of(7), Wide::of(-2));
    let found = [
        seven + two,
        seven - two,
        seven.times(two),
        two.size(),
        seven.over_up(2),
        Wide::of(MOST).times(seven),
    ];
    for (found, due) in found.iter().zip(&WIDE) {
        same(&rt, found.value(), *due);
    }
}

#[test]
fn in_intervals(rt: HostRuntime) {
    let (a, b) = (micro(7, 7), micro(2, 2));
    let (from, to) = (Cx { re: a, im: b }, Cx { re: b, im: a });
    let zero = <Interval<Micro> as Enclose>::factor(0, 1);
    let third = <Interval<Micro> as Enclose>::factor(1, 3);
    same(&rt, current(from, to, third, zero).ends(), Some((1, 2)));
    let currents = [a, b, <Interval<Micro> as Enclose>::ratio(1, 2)];
    same(&rt, total(&currents).ends(), Some((9, 10)));
}

#[test]
fn in_fixed_numbers(rt: HostRuntime) {
    let (a, b): (Fix<Micro>, Fix<Micro>) = (Fix::new(7), Fix::new(2));
    let (from, to) = (Cx { re: a, im: b }, Cx { re: b, im: -a });
    let zero = <Fix<Micro> as Enclose>::factor(0, 1);
    let third = <Fix<Micro> as Enclose>::factor(1, 3);
    same(&rt, current(from, to, third, zero).units(), Some(2));
    let currents = [a, b, <Fix<Micro> as Enclose>::ratio(1, 2)];
    same(&rt, total(&currents).units(), Some(10));
    let sum = Cx { re: a, im: b } + -Cx { re: b, im: -a };
    same(&rt, sum.im.units(), Some(9));
}

#[test]
fn terminals(rt: HostRuntime) -> Result<(), Fail> {
    let nodes = [NodeAt::Node(3), NodeAt::Ground];
    let at = ends(rt.alloc(), &nodes, &[], 4)?;
    holds(&rt, at.first.as_slice() == nodes.as_slice());
    same(&rt, at.second.into_vec().len(), 0);
    let term = Term {
        row: 1,
        col: 2,
        num: 3,
        den: 4,
    };
    holds(&rt, term == term);
    holds(&rt, Conn::Wye != Conn::Delta);
    same(&rt, TermFault::from(AllocError), TermFault::NoMemory);
    let taps = TapPair {
        first: 100_000,
        second: 97_500,
    };
    same(&rt, taps.second, 97_500);
    Ok(())
}
