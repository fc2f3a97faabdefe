// What `cert` writes is accepted.
ghost use Rattle.fd_app.specs.Accepted.{CertLaw};
ghost use Rattle.fd_app.specs.Written.{RoundTripLaw, WrittenLaw};

use crate::top::forms_law;
use fd_checking::{certificate_law, passed_law, read_law, rule_law, solved_law, status_law};

/// A law: where the history of a script's commands ends without a fault, the bytes that it is printed as in a certificate
/// are accepted for the Solves of that script, with a block for each round. Does nothing.
#[tactic(auto, using(crate::proofs::Scripts::cert_is_accepted))]
pub fn cert_law()
    ensures { CertLaw }
{
    rule_law();
    certificate_law();
    solved_law();
    passed_law();
}

/// A law: where a run of `cert` answers 0, what it wrote is accepted for the Solves of its script. Does nothing.
pub fn written_law()
    ensures { WrittenLaw }
{
    rule_law();
    certificate_law();
    solved_law();
    passed_law();
    forms_law();
    status_law();
    read_law();
}

/// A law: where a run of `cert` answers 0, `check` of the same script accepts what it wrote, with a block for each round.
/// Does nothing.
pub fn round_trip_law()
    ensures { RoundTripLaw }
{
    rule_law();
    certificate_law();
    solved_law();
    passed_law();
    forms_law();
    status_law();
    read_law();
}
