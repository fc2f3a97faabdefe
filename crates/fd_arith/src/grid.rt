// The grids on which numbers lie.
ghost use Rattle.std.specs.Prelude.{◌≡◌, ℤ, pos, ◌<ℤ◌, ◌*ℤ◌, ◌^◌};

/// A grid of numbers: whole multiples of one unit.
pub trait Grid: Copy {
    /// The units per one.
    const PER_ONE: i128;

    ghost PER_ONE: { ℤ };

    ghost positive: { pos 0 <ℤ PER_ONE };
}

/// Whole microvolts or microamperes: 10^6 units per one.
#[derive(Clone, Copy, PartialEq, Eq, Debug)]
pub struct Micro;

impl Grid for Micro {
    const PER_ONE: i128 = 1_000_000;

    ghost PER_ONE = { pos 1_000_000 };

    ghost positive = { record { lt = tt } };
}

/// Products of two numbers on `Micro`: 10^12 units per one.
#[derive(Clone, Copy, PartialEq, Eq, Debug)]
pub struct Square;

impl Grid for Square {
    const PER_ONE: i128 = 1_000_000_000_000;

    ghost PER_ONE = { pos 1_000_000_000_000 };

    ghost positive = { record { lt = tt } };
}

/// Coefficients: whole numbers of 2^-40, so 2^40 units per one.
#[derive(Clone, Copy, PartialEq, Eq, Debug)]
pub struct Coef;

impl Grid for Coef {
    const PER_ONE: i128 = 0x100_0000_0000;

    ghost PER_ONE = { pos (2 ^ 40) };

    ghost positive = { record { lt = tt } };
}

/// The units per one. Since `Square` has as many as `Micro` has squared, the product of two numbers of `Micro` is a
/// number of `Square` (`area`, `square`) and the root of one of `Square` a number of `Micro` (`root`); `Coef` counts the
/// 2^-40 by which factors are scaled (`factor`, `times`, `div_pos`).
pub fn grid_law()
    ensures micro { ⟦<Micro as Grid>⟧.PER_ONE ≡ pos (10 ^ 6) }
    ensures square { ⟦<Square as Grid>⟧.PER_ONE ≡ ⟦<Micro as Grid>⟧.PER_ONE *ℤ ⟦<Micro as Grid>⟧.PER_ONE }
    ensures coef { ⟦<Coef as Grid>⟧.PER_ONE ≡ pos (2 ^ 40) }
{}
