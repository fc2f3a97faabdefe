// The residual of the rows in intervals.
ghost use Rattle.std.specs.Prelude.{◌≡◌, ◌<◌, IfOk, pos, length, All};
ghost use Rattle.std.specs.List.{fold};
ghost use Rattle.fd_pattern.specs.fd_arith.Interval.{capped};
ghost use Rattle.fd_pattern.specs.fd_system.Residual.{IsConstant, IsTerm, constant_added, linear_interval, term_added};
ghost use Rattle.fd_equations.specs.Rounded.{list_of};

use fd_pattern::{Constant, Interval, Micro, Term, add_constant, add_term};
use std::alloc::{AllocError, Global};

/// The sum of the constants and contributions of each row at the point x, in intervals.
pub fn linear_rows(
    alloc: Global,
    constants: &[Constant],
    terms: &[Term],
    x: &[i128],
) -> Result<Vec<Interval<Micro>>, AllocError>
    requires constants { All (IsConstant (length x.now)) constants.now }
    requires terms { All (IsTerm (length x.now)) terms.now }
    ensures { IfOk result (λ rows. rows.items ≡ list_of (length x.now) (linear_interval constants.now terms.now x.now)) }
{
    let mut rows = zeros(alloc, x.len())?;
    add_linear(&mut rows, constants, terms, x);
    Ok(rows)
}

// Adds the constants, and the contributions at the point x, to the intervals of their rows.
fn add_linear(rows: &mut [Interval<Micro>], constants: &[Constant], terms: &[Term], x: &[i128])
    requires constants { All (IsConstant (length rows.old)) constants.now }
    requires terms { All (IsTerm (length rows.old)) terms.now }
    requires same_length { length rows.old ≡ length x.now }
    ensures { rows.new ≡ fold (term_added x.now) (fold constant_added rows.old constants.now) terms.now }
{
    add_constants(rows, constants);
    add_terms(rows, terms, x);
}

// Adds each constant to the interval of its row.
fn add_constants(rows: &mut [Interval<Micro>], constants: &[Constant])
    requires { All (IsConstant (length rows.old)) constants.now }
    ensures { rows.new ≡ fold constant_added rows.old constants.now }
{
    for constant in constants {
        add_constant(rows, constant);
    }
}

// Adds each contribution at the point x to the interval of its row.
fn add_terms(rows: &mut [Interval<Micro>], terms: &[Term], x: &[i128])
    requires terms { All (IsTerm (length rows.old)) terms.now }
    requires same_length { length rows.old ≡ length x.now }
    ensures { rows.new ≡ fold (term_added x.now) rows.old terms.now }
{
    for term in terms {
        add_term(rows, term, x);
    }
}

// An interval of 0 for each row.
fn zeros(alloc: Global, size: usize) -> Result<Vec<Interval<Micro>>, AllocError>
    ensures { IfOk result (λ rows. rows.items ≡ list_of size (λ _. capped (pos 0) (pos 0))) }
{
    let mut rows = Vec::with_capacity(alloc, size)?;
    for _row in 0..size {
        rows.push(Interval::point(0))?;
    }
    Ok(rows)
}
