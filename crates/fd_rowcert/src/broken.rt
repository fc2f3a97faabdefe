// The rules of claims by derived rows.

/// The first rule that a claim by derived rows breaks, with the unknown or the row at which it does, counted from 0.
/// The rules stand in their order; each is tested at all unknowns or rows before the next.
#[derive(Clone, Copy, PartialEq, Eq, Debug, Drop)]
pub enum BrokenRow {
    /// Centre, radii, mismatches, bounds or bounding rows aren't as many as the unknowns, or heights not as many as
    /// rows.
    Size,
    /// The box isn't that of 1/200, 1/2,000 or 1/20,000 of the weights.
    Box,
    /// The unknown's centre or its radius is above 2^40 in size.
    Range(usize),
    /// The row's height is 2^87 or more, or one of its multiples or entries above 2^62 in size.
    RowRange(usize),
    /// The unknown's bound is above 2^60.
    BoundRange(usize),
    /// The row's mismatch is below the state's own or above 1,000.
    Mismatch(usize),
    /// The entries of the Jacobian in this row, or the radii of its slopes in the box, add up to more than 2^62 in
    /// size: there are no equations.
    Slopes(usize),
    /// The row names an equation, a row or an unknown that doesn't exist, or one of them twice; the sizes of all that
    /// makes its defects add up to more than 2^120; or its height doesn't stand above it.
    Row(usize),
    /// The unknown's row doesn't exist or doesn't bound it.
    Bound(usize),
    /// The unknown's radius is below its bound.
    Radius(usize),
}
