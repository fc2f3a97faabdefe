// What slopes and radii say of every state in a box.
ghost use Rattle.fd_slope.specs.Changes.{ChangeLaw};

/// At every state in the box, of every denominator, the change of the real and of the imaginary part of a part load's current, and of the
/// row of its magnitude, differs from the slopes' sum by at most the radii's, with four units of 2^-40 more in each radius. Its places may
/// coincide or be ground, and a magnitude may be negative.
pub fn change_law()
    ensures { ChangeLaw }
{}
