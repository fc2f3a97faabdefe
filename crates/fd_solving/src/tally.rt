// What the rounds of a run come to.
ghost use Rattle.std.specs.Prelude.{◌≡◌, ◌+◌, ◌<◌, ◌^◌, length, max};
ghost use Rattle.std.specs.List.{fold};
ghost use Rattle.fd_pages.specs.dss_layout.Layout.{complex_count};
ghost use Rattle.fd_pages.specs.Hours.{rounds_in};
ghost use Rattle.fd_solving.specs.Tallies.{no_rounds, with_greatest, with_rounds};

use fd_daily::Round;
use fd_pages::Layout;

/// What the rounds so far come to: the number of complex unknowns of the circuit that was solved last, how many rounds
/// there were, and the greatest of their mismatches, in whole microamperes and microvolts.
#[derive(Drop)]
pub struct Tally {
    pub unknowns: usize,
    pub solutions: u64,
    pub greatest: u128,
}

fn complex_count(layout: &Layout) -> usize
    ensures { result ≡ complex_count layout.now }
{
    layout.nodes().len() + layout.branches().len()
}

// The greatest of these mismatches and what was so far.
fn greatest_of(so_far: u128, mismatches: &[u128]) -> u128
    ensures { result ≡ fold max so_far mismatches.now }
{
    let mut greatest = so_far;
    for mismatch in mismatches {
        greatest = greatest.max(*mismatch);
    }
    greatest
}

// The greatest mismatch of these rounds and what was so far.
fn greatest_in(so_far: u128, rounds: &[Round]) -> u128
    ensures { result ≡ fold with_greatest so_far (rounds_in rounds.now) }
{
    let mut greatest = so_far;
    for round in rounds {
        greatest = greatest_of(greatest, round.certified.as_ref().mismatch.as_slice());
    }
    greatest
}

impl Tally {
    /// No round.
    pub fn none() -> Tally
        ensures { result ≡ no_rounds }
    {
        Tally {
            unknowns: 0,
            solutions: 0,
            greatest: 0,
        }
    }

    /// Adds the rounds of a settle of a circuit with this layout.
    pub(crate) fn add(&mut self, layout: &Layout, rounds: &[Round])
        requires { self.old.solutions + length rounds.now < 2 ^ 64 }
        ensures { self.new ≡ with_rounds self.old (complex_count layout.now) (rounds_in rounds.now) }
    {
        self.unknowns = complex_count(layout);
        self.solutions += rounds.len() as u64;
        self.greatest = greatest_in(self.greatest, rounds);
    }
}
