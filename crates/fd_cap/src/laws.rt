// What is true of a bank's stated contributions.
ghost use Rattle.fd_cap.specs.Laws.{CapLaw};

/// The stated contributions of a capacitor bank add up to its equations, have denominators from 1 to 10^32 and are at most 24.
pub fn cap_law()
    ensures { CapLaw }
{}
