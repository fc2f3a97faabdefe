// Equations and derived rows, by their entries.

/// An entry of a row: its place, counted from 0, and the number there in units of 2^-40.
#[derive(Clone, Copy, Debug, Drop)]
pub struct Entry {
    pub place: usize,
    pub units: i64,
}

/// An equation at a centre: its coefficients at the unknowns, by how much each may be off anywhere in the box, and its
/// right side, which is twice its mismatch in the units of the bounds. Of radii the sizes count. A place may have several
/// entries and then counts with their sum; an entry at a place that isn't an unknown counts for nothing.
#[derive(Debug, Drop)]
pub struct Equation {
    pub coefficients: Vec<Entry>,
    pub radii: Vec<Entry>,
    pub right_side: u128,
}

/// A derived row: multiples of equations, less multiples of other derived rows, and what they leave at the unknowns.
#[derive(Debug, Drop)]
pub struct Row {
    pub equations: Vec<Entry>,
    pub others: Vec<Entry>,
    pub left: Vec<Entry>,
}

/// What is claimed: derived rows with a height for each, and for each unknown the row that bounds it and its bound.
#[derive(Debug, Drop)]
pub struct Claim {
    pub rows: Vec<Row>,
    pub heights: Vec<u128>,
    pub bounding: Vec<usize>,
    pub bounds: Vec<u128>,
}
