// That a walk over a row's cells is a walk over all its columns.
ghost use Rattle.fd_equations.specs.Walks.{CountLaw, WalkLaw};

/// Where an entry of 0 adds nothing, a sum over the cells of a row is the sum over all its columns.
pub fn walk_law()
    ensures { WalkLaw }
{}

/// Where a count of 0 adds nothing, a sum over the counts in a row is the sum over all its columns.
pub fn count_law()
    ensures { CountLaw }
{}
