// What a block has, as numbers.

/// What a certificate claims of an unknown and its row, in whole microvolts or microamperes.
#[derive(Clone, Copy, Debug, Drop)]
pub struct Part {
    pub centre: i128,
    pub radius: i128,
    pub mismatch: i128,
}

/// An act: milliseconds, the number of a control, and signed steps.
#[derive(Clone, Copy, Debug, Drop)]
pub struct Act {
    pub time: i128,
    pub control: i128,
    pub steps: i128,
}

/// The numbers of a solution line.
#[derive(Clone, Copy, Debug, Drop)]
pub struct Head {
    pub number: i128,
    pub hour: i128,
    pub round: i128,
    pub size: i128,
}

/// The number of the row that bounds an unknown, and the bound, in units of 2^-20 micro-units.
#[derive(Clone, Copy, Debug, Drop)]
pub struct Bound {
    pub row: i128,
    pub bound: i128,
}
