// The two levels of devices.
ghost use Rattle.fd_devices.specs.Devices.{DeviceLaw};
ghost use Rattle.fd_devices.specs.Reach.{ReachLaw};

/// The system of a circuit's devices has the rows of their complex equations, at every state and in every row.
pub fn device_law()
    ensures { DeviceLaw }
{}

/// What a device adds stands at places that it can reach, whatever its taps, its state or its powers.
pub fn reach_law()
    ensures { ReachLaw }
{}
