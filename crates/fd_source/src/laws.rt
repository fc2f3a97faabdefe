// What is true of a source's stated constants and contributions, and of the impedances by its short-circuit powers.
ghost use Rattle.fd_source.specs.Laws.{OhmsLaw, SourceLaw};

/// The stated constants and contributions of a source add up to its equations, have denominators from 1 to 10^32 and are at most 16
/// a phase.
pub fn source_law()
    ensures { SourceLaw }
{}

/// The resistances by the short-circuit powers of a source are the greatest that keep the stated sizes.
pub fn ohms_law()
    ensures { OhmsLaw }
{}
