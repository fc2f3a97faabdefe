// The end of a certificate.
ghost use Rattle.std.specs.Prelude.{IfErr, IfOk};
ghost use Rattle.fd_certfile.specs.Verdict.{accepted};
ghost use Rattle.fd_check.specs.Checking.{done};
ghost use Rattle.fd_check.specs.Comes.{Comes, Refuses};

use crate::fault::CheckFault;
use fd_certfile::{CertReader, certificate_law};

/// How many blocks a certificate has, where no Solve is left and nothing but the line `end` is left of it. Takes no memory.
///
/// # Errors
/// `Refused` where a block or something else is left, with the line and the rule.
#[tactic(auto, using(crate::proofs::Judged::end_refused))]
pub(crate) fn check_end(reader: &CertReader<'_>) -> Result<u64, CheckFault>
    ensures accepted { IfOk result (λ count. Comes reader.now done (accepted count)) }
    ensures refused { IfErr result (λ fault. Refuses fault (Comes reader.now done)) }
{
    certificate_law();
    match reader.finish() {
        Ok(count) => Ok(count),
        Err(fault) => Err(CheckFault::from(fault)),
    }
}
