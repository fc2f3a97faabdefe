// The rows of the residual in intervals.
ghost use Rattle.std.specs.Prelude.{◌≡◌, ℤ, pos, nat_abs, ◌≤ℤ◌, ◌^◌, IfSome, length};
ghost use Rattle.fd_arith.specs.fd_exact.Fractions.{Fraction, SizeWithin};
ghost use Rattle.fd_arith.specs.Interval.{Holds};
ghost use Rattle.fd_arith.specs.Limits.{Fits};
ghost use Rattle.fd_system.specs.Residual.{IsConstant, IsTerm, constant_added, greater_size as greater_end, term_added, term_interval};

use crate::Constant;
use fd_arith::{Enclose, Interval, Micro, Term};

/// Adds a constant to the interval of its row.
pub fn add_constant(rows: &mut [Interval<Micro>], constant: &Constant)
    requires { IsConstant (length rows.old) constant.now }
    ensures { rows.new ≡ constant_added rows.old constant.now }
{
    let row = constant.row as usize;
    rows[row] = rows[row] + Interval::point(constant.value);
}

/// Adds a contribution at the point x to the interval of its row: its factor, rounded outward, times the exact part of x.
pub fn add_term(rows: &mut [Interval<Micro>], term: &Term, x: &[i128])
    requires term { IsTerm (length rows.old) term.now }
    requires same_length { length rows.old ≡ length x.now }
    ensures { rows.new ≡ term_added x.now rows.old term.now }
{
    let row = term.row as usize;
    rows[row] = rows[row] + value_at(term, x);
}

// A contribution at the point x.
fn value_at(term: &Term, x: &[i128]) -> Interval<Micro>
    requires { IsTerm (length x.now) term.now }
    ensures { result ≡ term_interval term.now x.now }
{
    let at: Interval<Micro> = Interval::exact(x[term.col as usize]);
    at.times(<Interval<Micro> as Enclose>::factor(term.num, term.den))
}

/// The greater size of an interval's ends, in micro-units: the mismatch of a row whose residual it is. None exactly where
/// the interval is ALL.
pub fn greater_size(row: Interval<Micro>) -> Option<i128>
    ensures value { result ≡ greater_end row }
    ensures within { IfSome result (λ m. (f : Fraction) → Holds row f → SizeWithin f (nat_abs m)) }
{
    let (lo, hi) = row.ends()?;
    let (low, high) = (size(lo), size(hi));
    Some(if low < high { high } else { low })
}

fn size(x: i128) -> i128
    requires { Fits x }
    ensures size { result ≡ pos (nat_abs x) }
    ensures within { result ≤ℤ pos (2 ^ 120) }
{
    if x < 0 { -x } else { x }
}
