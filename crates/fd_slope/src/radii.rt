// The shape of radii.

/// The radii of the slopes of one row in the parts p and q of the terminal voltage and in the magnitude m, in whole 2^-40.
#[derive(Clone, Copy, PartialEq, Eq, Debug)]
pub struct RadiusRow {
    pub p: u128,
    pub q: u128,
    pub m: u128,
}

/// The radii of the slopes of a load phase: of the real and the imaginary part of its current, and of the row of its magnitude.
#[derive(Clone, Copy, PartialEq, Eq, Debug)]
pub struct Radii {
    pub real: RadiusRow,
    pub imaginary: RadiusRow,
    pub magnitude: RadiusRow,
}

/// A row without slopes.
pub const LEVEL: RadiusRow = RadiusRow { p: 0, q: 0, m: 0 };

/// No slopes at all.
pub const NO_RADII: Radii = Radii {
    real: LEVEL,
    imaginary: LEVEL,
    magnitude: LEVEL,
};
