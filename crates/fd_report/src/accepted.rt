// The record of an accepted certificate.
ghost use Rattle.std.specs.Prelude.{◌≡◌, IfOk};
ghost use Rattle.fd_report.specs.Accepted.{accepted_fields};
ghost use Rattle.fd_report.specs.Lines.{line_of};

use crate::line::record_of;
use dss_script::Record;
use std::alloc::{AllocError, Global};

/// The record of a certificate of so many blocks that is accepted, as `certificate,accepted,24`.
pub fn accepted_record(alloc: Global, blocks: u64) -> Result<Record, AllocError>
    ensures { IfOk result (λ r. r.bytes ≡ line_of (accepted_fields blocks)) }
{
    let blocks = blocks.to_string(alloc)?;
    record_of(alloc, &[b"certificate", b"accepted", blocks.as_bytes()])
}
