// Certified states.
ghost use Rattle.std.specs.Prelude.{◌≡◌};
ghost use Rattle.fd_enclosure.specs.Sound.{IsByInverse, inverse_in};
ghost use Rattle.fd_cert.specs.Claims.{support_in};

use fd_derived::Claim;
use fd_enclosure::Dense;

/// A state and how far any other may be from it: for each unknown in order its centre and its radius, in whole microvolts and
/// microamperes.
#[derive(Debug, Drop)]
pub struct Ball {
    pub centre: Vec<i128>,
    pub radius: Vec<u128>,
}

/// Rows that are derived from those of the Jacobian, with their heights and the unknowns' bounds, in the box of `1 / parts` of the
/// weights. Rows are in units of 2^-40, bounds in 2^-20 of a whole microvolt or microampere, heights in 2^-40 of that.
#[derive(Debug, Drop)]
pub struct DerivedRows {
    pub parts: u32,
    pub claim: Claim,
}

/// What shows how far any other state may be.
#[derive(Debug, Drop)]
pub enum Support {
    /// An inverse of the Jacobian, a row for each unknown and a column for each row, in units of 2^-40. Its box is that of 1/200 of the
    /// weights.
    Inverse(Dense),
    /// Derived rows of the Jacobian.
    Rows(DerivedRows),
}

/// A state with what shows that it is good: for each row in order its mismatch, in whole microamperes and microvolts; for each unknown
/// in order the half-width of the box in which the ball holds every other solution, in whole microvolts, 0 at a branch; and the support of
/// its radii.
#[derive(Debug, Drop)]
pub struct Certified {
    pub ball: Ball,
    pub mismatch: Vec<u128>,
    pub boxes: Vec<u128>,
    pub support: Support,
}

impl Certified {
    /// The inverse of one that is shown by an inverse.
    pub fn inverse(&self) -> &Dense
        requires { IsByInverse (support_in self.now.support) }
        ensures { result.now ≡ inverse_in (support_in self.now.support) }
    {
        match &self.support {
            Support::Inverse(inverse) => inverse,
            Support::Rows(_) => unreachable!(),
        }
    }
}
