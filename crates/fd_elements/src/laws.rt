// Laws of the elements' data.
ghost use Rattle.fd_elements.specs.Laws.{PowerLaw};

/// The contract of `load_power` allows one power for each load and point.
pub fn power_law()
    ensures { PowerLaw }
{}
