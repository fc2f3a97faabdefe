// What is true of a transformer's stated contributions.
ghost use Rattle.fd_xfmr.specs.Laws.{XfmrLaw};

/// The stated contributions of a transformer add up to its equations, have denominators from 1 to 10^32 and are at most 60; the numbers
/// that they come from are in range.
pub fn xfmr_law()
    ensures { XfmrLaw }
{}
