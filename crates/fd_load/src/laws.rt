// The laws of a load's current, of the row of its magnitude and of its slopes.
ghost use Rattle.fd_load.specs.Current.{CurrentLaw, MagnitudeLaw};
ghost use Rattle.fd_load.specs.ExactSlopes.{SlopeLaw};

/// At every whole state the current of a load phase is that of the system's part load, as the same fractions.
pub fn current_law()
    ensures { CurrentLaw }
{}

/// At every whole state the row of a load phase's magnitude is that of the system's part load, as the same fraction.
pub fn magnitude_law()
    ensures { MagnitudeLaw }
{}

/// At every voltage and magnitude each rounded slope of constant power is at most two units of 2^-40 away from the exact one, and each of
/// constant current at most one.
pub fn slope_law()
    ensures { SlopeLaw }
{}
