// The verdict of a sample.
ghost use Rattle.std.specs.Prelude.{◌≡◌};
ghost use Rattle.fd_queue.specs.Decisions.{way_of};
ghost use Rattle.fd_queue.specs.Verdicts.{decision};

/// What a control wants by its sample: to go up or down this many steps, or to stay; or that the least and the greatest
/// value of the sample's interval want different things. Then `low` and `high` are the ends of the interval and `edge`
/// the least value at which the verdict changes, in whole microvolts or microamperes, or in 10^-9 kvar.
#[derive(Clone, Copy, PartialEq, Eq, Debug)]
pub enum Verdict {
    Raise { steps: u32 },
    Hold,
    Lower { steps: u32 },
    Undecided { low: i128, high: i128, edge: i128 },
}

impl Verdict {
    /// The way of a verdict with at least one step: up or down. None for the others.
    pub fn way(self) -> Option<bool>
        ensures { result ≡ way_of (decision self) }
    {
        match self {
            Verdict::Raise { steps } if steps > 0 => Some(true),
            Verdict::Lower { steps } if steps > 0 => Some(false),
            _ => None,
        }
    }
}
