// The sizes of the powers of loads.
ghost use Rattle.fd_settings.specs.Modest.{ModestLaw};

/// A law: where the elements are in range, no power of a load's phase at any hour is past 10^17 thousandths of a
/// volt-ampere in size. Does nothing.
pub fn modest_law()
    ensures { ModestLaw }
{}
