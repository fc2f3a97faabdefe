// The laws.
ghost use Rattle.std.specs.Prelude.{Bool, List, ℕ, Option};
ghost use Rattle.fd_report.specs.dss_model.declared.command.Command.{Command};
ghost use Rattle.fd_outcome.specs.Calls.{Style};
ghost use Rattle.fd_outcome.specs.Events.{History};
ghost use Rattle.fd_outcome.specs.History.{Point};
ghost use Rattle.fd_outcome.specs.Laws.{CutLaw, DueLaw, HistoryLaw, NamesLaw, ReadLaw, StatusLaw};
ghost use Rattle.fd_outcome.specs.Work.{Step};

use fd_certfile::{Library, Sink};

/// A command line, with T between its commands. (A clause can't range over relations, so
/// a law that speaks of any takes them from a bound.)
pub trait Work<T> {
    ghost is_step: { Command → T → Step T → Type 0 };

    ghost last_name: { T → Option (List ℕ) };

    ghost is_last: { T → Option (List ℕ) → History → Type 0 };
}

/// A law: no fault has the status of done, of want of memory or of a failed write. Does nothing.
#[tactic(auto, using(crate::proofs::Histories::statuses))]
pub fn status_law()
    ensures { StatusLaw }
{}

/// A law: where each command comes to exactly one thing, there is exactly one history. Does nothing.
pub fn history_law<T, W: Work<T>>()
    ensures { HistoryLaw W.is_step W.last_name W.is_last }
{}

/// A law: the names that a report's calls ask for are those of its events. Does nothing.
#[tactic(auto, using(crate::proofs::Printing::names_are))]
pub fn names_law()
    ensures { NamesLaw }
{}

/// A law: where a read fails, the calls up to it are made, and then its fault is written. Does nothing.
#[tactic(auto, using(crate::proofs::Printing::read_is))]
pub fn read_law()
    ensures { ReadLaw }
{}

/// A law: what was written of a run that was cut short is a front of its texts, and the names asked are a front of its
/// names; and where all is made and its last text tells the end, the status is the end's. Does nothing.
#[tactic(auto, using(crate::proofs::Printing::cut_is))]
pub fn cut_law()
    ensures { CutLaw }
{}

/// A law: the status of a run is that of its history's end, but for want of memory, a failed write or a failed read.
/// Does nothing.
pub fn due_law<T, W: Work<T>, L: Library, S: Sink>()
    ensures { (held : List ℕ → Option (List ℕ)) (style : Style) (tells : Bool) (p : Point T) (lib_old lib_new : L) (old new : S) (code : ℕ) →
        DueLaw W.is_step W.last_name W.is_last L.answers S.taken S.calls held style tells p lib_old lib_new old new code }
{}
