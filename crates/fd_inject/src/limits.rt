/// How long and how far the procedure iterates.
#[derive(Clone, Copy, Debug, PartialEq, Eq)]
pub struct Limits {
    /// The greatest number of steps with the first inverse: 1 to 1,000.
    pub max_iterations: u32,
    /// The part of its weight by which an unknown may still move in the last of them, in units of 10^-9: 1 to 10^8.
    pub tolerance: i128,
}
