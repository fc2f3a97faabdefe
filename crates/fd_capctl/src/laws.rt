// The laws of banks, each the contract of one function.
ghost use Rattle.fd_capctl.specs.BankLaws.{AwayLaw, BankDecidedLaw, BankEdgeLaw, BankLaw};

/// From a low quantity to a high one a bank's verdicts never go back.
pub fn bank_law()
    ensures { BankLaw }
{}

/// What a bank decides over an interval, it decides at every quantity that the interval holds.
pub fn bank_decided_law()
    ensures { BankDecidedLaw }
{}

/// The edge of a bank's undecided interval.
pub fn bank_edge_law()
    ensures { BankEdgeLaw }
{}

/// An open bank never wants to open, nor a closed one to close.
pub fn away_law()
    ensures { AwayLaw }
{}
