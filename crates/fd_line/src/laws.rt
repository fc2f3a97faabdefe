// What is true of a line's stated contributions.
ghost use Rattle.fd_line.specs.Laws.{LineLaw};

/// The stated contributions of a line add up to its equations, have denominators from 1 to 10^32 and are at most 32 a phase.
pub fn line_law()
    ensures { LineLaw }
{}
