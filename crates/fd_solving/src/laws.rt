// Laws of the settles of a script.
ghost use Rattle.fd_solving.specs.SolvedLaw.{SolutionLaw, SolvedLaw};

use dss_commands::limits_law;
use fd_daily::{
    ball_law, certificate_law, enclosure_law, hours_law, kept_rounds_law, linear_law, modest_law,
    network_law, next_law, tie_law,
};
use fd_pages::said_room_law;

/// A law: every settle of a history of `solve` or `cert` is solved. Does nothing.
pub fn solved_law()
    ensures { SolvedLaw }
{
    limits_law();
    said_room_law();
    network_law();
    certificate_law();
    enclosure_law();
    linear_law();
    tie_law();
    ball_law();
    hours_law();
    modest_law();
    next_law();
    kept_rounds_law();
}

/// A law: every settle of a Solve of a circuit that has passed the tests is solved. Does nothing.
pub fn solution_law()
    ensures { SolutionLaw }
{
    limits_law();
    network_law();
    certificate_law();
    enclosure_law();
    linear_law();
    tie_law();
    ball_law();
    hours_law();
    modest_law();
    next_law();
    kept_rounds_law();
}
