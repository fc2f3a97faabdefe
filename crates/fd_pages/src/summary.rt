// Settles of which nothing is printed.
ghost use Rattle.std.specs.Prelude.{[]};
ghost use Rattle.fd_pages.specs.Lines.{lines_of_text};
ghost use Rattle.fd_pages.specs.Rounds.{no_texts};

use crate::page::{Page, SolvedHour};
use fd_bases::Circuit;
use fd_outcome::{Certified, Entry, Record, Round};
use fd_settings::Positions;
use std::alloc::{AllocError, Global};

/// Lines of text alone: no text of a settle or of voltage bases.
pub struct Summary;

impl Page for Summary {
    ghost style = { lines_of_text };

    ghost round_texts = { no_texts };

    ghost last_texts = { λ s. [] };

    fn opening(alloc: Global) -> Result<Vec<Record>, AllocError> {
        Ok(Vec::new(alloc))
    }

    fn closing(alloc: Global) -> Result<Vec<Record>, AllocError> {
        Ok(Vec::new(alloc))
    }

    fn law() {}

    fn bases(alloc: Global, _circuit: &Circuit) -> Result<Vec<Record>, AllocError> {
        Ok(Vec::new(alloc))
    }

    fn pending(
        alloc: Global,
        _circuit: &Circuit,
        _entries: &[Entry],
    ) -> Result<Vec<Record>, AllocError> {
        Ok(Vec::new(alloc))
    }

    fn round(
        alloc: Global,
        _made: &SolvedHour<'_>,
        _place: u32,
        _round: &Round,
    ) -> Result<Vec<Record>, AllocError> {
        Ok(Vec::new(alloc))
    }

    fn settled(
        alloc: Global,
        _made: &SolvedHour<'_>,
        _at: &Positions,
    ) -> Result<Vec<Record>, AllocError> {
        Ok(Vec::new(alloc))
    }

    fn failed(
        alloc: Global,
        _made: &SolvedHour<'_>,
        _tried: Option<Certified>,
        _at: &Positions,
    ) -> Result<Vec<Record>, AllocError> {
        Ok(Vec::new(alloc))
    }
}
