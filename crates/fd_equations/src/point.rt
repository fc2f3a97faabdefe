// A state with its inverse.
use fd_mat::Dense;

/// A state of a network as the solver hands it on: the parts of all unknowns in order, in whole microvolts and microamperes, and
/// the inverse of the rounded Jacobian with which it was reached, in units of 2^-40.
#[derive(Debug, Drop)]
pub struct Point {
    pub x: Vec<i128>,
    pub inverse: Dense,
}
