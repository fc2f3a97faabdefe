// What the printed sizes say of other states.
ghost use Rattle.fd_report.specs.Enclosed.{SizeLaw};

/// A law: at every state whose parts of a phasor are within the radii of a solution's, the phasor's size is from the least
/// to the greatest one that is printed. Does nothing.
pub fn size_law()
    ensures { SizeLaw }
{}
