// Settles printed as a report.
ghost use Rattle.fd_outcome.specs.Calls.{report};
ghost use Rattle.fd_outcome.specs.Events.{settle};
ghost use Rattle.fd_pages.specs.Rounds.{no_texts};

use crate::page::{Page, SolvedHour};
use crate::pending::pending_records;
use crate::records::{base_records, failed_records, settled_records};
use fd_bases::Circuit;
use fd_outcome::{Certified, Entry, Record, Round};
use fd_settings::Positions;
use std::alloc::{AllocError, Global};

/// A record for each fact.
pub struct Report;

impl Page for Report {
    ghost style = { report };

    ghost round_texts = { no_texts };

    ghost last_texts = { λ s. report.texts_in (settle s) };

    fn opening(alloc: Global) -> Result<Vec<Record>, AllocError> {
        Ok(Vec::new(alloc))
    }

    fn closing(alloc: Global) -> Result<Vec<Record>, AllocError> {
        Ok(Vec::new(alloc))
    }

    fn law() {}

    fn bases(alloc: Global, circuit: &Circuit) -> Result<Vec<Record>, AllocError> {
        base_records(alloc, circuit)
    }

    fn pending(
        alloc: Global,
        circuit: &Circuit,
        entries: &[Entry],
    ) -> Result<Vec<Record>, AllocError> {
        pending_records(alloc, circuit, entries)
    }

    fn round(
        alloc: Global,
        _made: &SolvedHour<'_>,
        _place: u32,
        _round: &Round,
    ) -> Result<Vec<Record>, AllocError> {
        Ok(Vec::new(alloc))
    }

    fn settled(
        alloc: Global,
        made: &SolvedHour<'_>,
        at: &Positions,
    ) -> Result<Vec<Record>, AllocError> {
        settled_records(alloc, made, at)
    }

    fn failed(
        alloc: Global,
        made: &SolvedHour<'_>,
        _tried: Option<Certified>,
        _at: &Positions,
    ) -> Result<Vec<Record>, AllocError> {
        failed_records(alloc, made)
    }
}
