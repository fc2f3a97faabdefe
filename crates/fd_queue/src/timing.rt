// Which entries are due, and when they act.
ghost use Rattle.std.specs.Prelude.{◌≡◌};
ghost use Rattle.fd_queue.specs.Machine.{rule_of};

use crate::entry::Entry;

/// How the time goes with the queue: in static mode it stands still within a settle, so that each entry is due, and acts
/// at its own time; by the clock it goes on with the hours of a Solve, so that an entry is due from its time on, and acts
/// at the time of the hour. (OpenDSS's `controlmode`.)
#[derive(Clone, Copy, PartialEq, Eq, Debug, Drop)]
pub enum Timing {
    Static,
    Clock,
}

impl Timing {
    /// Whether an entry is due at this time, in milliseconds.
    pub fn is_due(self, now: u64, entry: &Entry) -> bool
        ensures { result ≡ (rule_of self).is_due now entry.now }
    {
        match self {
            Timing::Static => true,
            Timing::Clock => entry.time <= now,
        }
    }

    /// The time at which an entry acts that is due at this time, in milliseconds.
    pub fn acts_at(self, now: u64, entry: &Entry) -> u64
        ensures { result ≡ (rule_of self).acts_at now entry.now }
    {
        match self {
            Timing::Static => entry.time,
            Timing::Clock => now,
        }
    }
}
