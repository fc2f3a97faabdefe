// Phasors in the interval operators.
ghost use Rattle.std.specs.Prelude.{◌≡◌, ◌≤◌, ◌^◌};
ghost use Rattle.fd_sample.specs.Phasors.{factor as factor_of, scaled_interval, square_interval};

use fd_regctl::{Coef, Cx, Enclose, Interval, Micro, Square};

/// n / d as a coefficient, rounded outward.
pub fn factor(n: i128, d: u128) -> Interval<Coef>
    requires positive { 1 ≤ d }
    requires most { d ≤ 10 ^ 32 }
    ensures { result ≡ factor_of n d }
{
    <Interval<Micro> as Enclose>::factor(n, d as i128)
}

/// A phasor times a real coefficient.
pub fn scaled(z: Cx<Interval<Micro>>, f: Interval<Coef>) -> Cx<Interval<Micro>>
    ensures { result ≡ scaled_interval z f }
{
    Cx {
        re: z.re * f,
        im: z.im * f,
    }
}

/// The square of a phasor's magnitude.
pub fn square_size(z: Cx<Interval<Micro>>) -> Interval<Square>
    ensures { result ≡ square_interval z }
{
    z.re.square() + z.im.square()
}
