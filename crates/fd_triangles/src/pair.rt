// An order of unknowns, each with the equation that eliminates it.

/// An unknown and the equation that eliminates it, both counted from 0.
#[derive(Clone, Copy, Debug, Drop)]
pub struct Pair {
    pub unknown: usize,
    pub equation: usize,
}
