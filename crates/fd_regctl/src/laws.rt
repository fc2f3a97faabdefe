// The laws of regulators, each the contract of one function.
ghost use Rattle.fd_regctl.specs.RegulatorLaws.{
  RegulatorDecidedLaw,
  RegulatorEdgeLaw,
  RegulatorLaw,
  SettingsLaw,
  StepsLaw,
  TapLaw,
};

/// From a low quantity to a high one a regulator's verdicts never go back.
pub fn regulator_law()
    ensures { RegulatorLaw }
{}

/// What a regulator decides over an interval, it decides at every quantity that the interval holds.
pub fn regulator_decided_law()
    ensures { RegulatorDecidedLaw }
{}

/// The edge of a regulator's undecided interval.
pub fn regulator_edge_law()
    ensures { RegulatorEdgeLaw }
{}

/// The steps of a verdict are those of the greatest number of steps that fits.
pub fn steps_law()
    ensures { StepsLaw }
{}

/// The edges of a regulator's settings are in order.
pub fn settings_law()
    ensures { SettingsLaw }
{}

/// A verdict moves a tap by no more steps than are allowed at once, and not past its end.
pub fn tap_law()
    ensures { TapLaw }
{}
