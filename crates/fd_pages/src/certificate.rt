// Settles printed as the blocks of a certificate.
ghost use Rattle.std.specs.Prelude.{◌≡◌, ◌<◌, ◌^◌, [], IfOk, length};
ghost use Rattle.fd_bases.specs.dss_layout.Layout.{layout_of, size_of};
ghost use Rattle.fd_outcome.specs.fd_cert.Claims.{claim_in};
ghost use Rattle.fd_outcome.specs.fd_certfile.Rounds.{IsClaimOf, IsRoundOf};
ghost use Rattle.fd_outcome.specs.fd_network.Built.{IsBuiltOf};
ghost use Rattle.fd_outcome.specs.fd_outside.Emitted.{pieces_of};
ghost use Rattle.fd_outcome.specs.Calls.{certificate};
ghost use Rattle.fd_outcome.specs.Certificates.{block_in, block_texts};
ghost use Rattle.fd_outcome.specs.Settles.{Settle, round_of};
ghost use Rattle.fd_pages.specs.Hours.{IsSettleAt, round_in};
ghost use Rattle.fd_pages.specs.Rounds.{block_behind, round_block};

use crate::page::{Page, SolvedHour};
use fd_bases::Circuit;
use fd_outcome::{Certified, Entry, Record, Round, end_record, header_record, shared, write_block};
use fd_settings::Positions;
use std::alloc::{AllocError, Global};

/// A block for each certified state.
pub struct Certificate;

// The lines of the block of a round at this place in its settle.
fn block(
    alloc: Global,
    made: &SolvedHour<'_>,
    place: u32,
    round: &Round,
) -> Result<Vec<Record>, AllocError>
    requires network { IsBuiltOf made.now.net.now made.now.circuit.now }
    requires numbers { IsRoundOf (size_of (layout_of made.now.circuit.now.elements)) round.now }
    ensures { (s : Settle) → IsSettleAt made.now.circuit.now made.now.number made.now.hour s →
        IfOk result (λ r. pieces_of r.items ≡ block_texts (block_in s place (round_in round.now))) }
{
    // read for its size alone
    let _size = made.net.size();
    write_block(alloc, made.net, made.number, made.hour, place, round)
}

// The lines of the block of a state that has no certificate, behind the rounds.
fn last_block(
    alloc: Global,
    made: &SolvedHour<'_>,
    tried: Certified,
) -> Result<Vec<Record>, AllocError>
    requires network { IsBuiltOf made.now.net.now made.now.circuit.now }
    requires numbers { IsClaimOf (size_of (layout_of made.now.circuit.now.elements)) (claim_in tried) }
    requires few { length made.now.rounds.now < 2 ^ 32 }
    ensures { (s : Settle) → IsSettleAt made.now.circuit.now made.now.number made.now.hour s
        → IfOk result (λ r. pieces_of r.items
        ≡ block_texts (block_in s (length made.now.rounds.now) (round_of (claim_in tried) []))) }
{
    let round = Round {
        certified: shared(alloc, tried)?,
        acts: Vec::new(alloc),
    };
    block(alloc, made, made.rounds.len() as u32, &round)
}

impl Page for Certificate {
    ghost style = { certificate };

    ghost round_texts = { round_block };

    ghost last_texts = { λ s. block_behind s s.end };

    fn opening(alloc: Global) -> Result<Vec<Record>, AllocError> {
        let mut records = Vec::new(alloc);
        records.push(header_record(alloc)?)?;
        Ok(records)
    }

    fn closing(alloc: Global) -> Result<Vec<Record>, AllocError> {
        let mut records = Vec::new(alloc);
        records.push(end_record(alloc)?)?;
        Ok(records)
    }

    fn law() {}

    fn bases(alloc: Global, _circuit: &Circuit) -> Result<Vec<Record>, AllocError> {
        Ok(Vec::new(alloc))
    }

    fn pending(
        alloc: Global,
        _circuit: &Circuit,
        _entries: &[Entry],
    ) -> Result<Vec<Record>, AllocError> {
        Ok(Vec::new(alloc))
    }

    fn round(
        alloc: Global,
        made: &SolvedHour<'_>,
        place: u32,
        round: &Round,
    ) -> Result<Vec<Record>, AllocError> {
        block(alloc, made, place, round)
    }

    fn settled(
        alloc: Global,
        _made: &SolvedHour<'_>,
        _at: &Positions,
    ) -> Result<Vec<Record>, AllocError> {
        Ok(Vec::new(alloc))
    }

    fn failed(
        alloc: Global,
        made: &SolvedHour<'_>,
        tried: Option<Certified>,
        _at: &Positions,
    ) -> Result<Vec<Record>, AllocError> {
        match tried {
            Some(tried) => last_block(alloc, made, tried),
            None => Ok(Vec::new(alloc)),
        }
    }
}
