// A constant of a row.

/// A constant of a row: microamperes in a node's row, microvolts in a branch's.
#[derive(Clone, Copy)]
pub struct Constant {
    pub row: u32,
    pub value: i128,
}
