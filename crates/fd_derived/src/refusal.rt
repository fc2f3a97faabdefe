// The rules that a claim may break.

/// The rule that a claim breaks first, with the derived row or the unknown at which it does, counted from 0.
///
/// The order is: `Size`; then row by row `Place`, `Range` and `Height`; then unknown by unknown `BoundRange` and `Bound`.
#[derive(Clone, Copy, PartialEq, Eq, Debug, Drop)]
pub enum Refusal {
    /// There aren't as many heights as rows, or not a bound and a row that bounds for each equation.
    Size,
    /// The row names an equation, a row or an unknown that doesn't exist, or one of them twice.
    Place(usize),
    /// The height is above 2^87, or the sizes of all that makes the row's defects add up to more than 2^120.
    Range(usize),
    /// The height doesn't stand above the row.
    Height(usize),
    /// The bound is above 2^60.
    BoundRange(usize),
    /// The row that is to bound the unknown doesn't exist, has its first entry elsewhere, or leaves too much beside it.
    Bound(usize),
}
