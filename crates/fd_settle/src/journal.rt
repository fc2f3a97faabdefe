// What is kept of the rounds of a settle.
ghost use Rattle.std.specs.Prelude.{◌≡◌, ◌++◌, ◌∷◌, ◌<◌, List, OnOk, [], vec_capacity, vec_len};
ghost use Rattle.fd_settle.specs.Journals.{HoldsActs, HoldsAll};
ghost use Rattle.fd_settle.specs.declared.round.Round.{Round};

use crate::round::{Act, Round};
use std::alloc::{AllocError, Global};

/// What is kept of solved rounds, in order.
pub trait Journal {
    /// Whether what is kept is that of these rounds.
    ghost holds: { Self → List Round → Type 0 };

    /// Whether there is room for what is kept of one round more.
    ghost has_room: { Self → Type 0 };

    /// The journal of no round. It takes no memory.
    fn empty(alloc: Global) -> Self
        ensures { holds result [] };

    /// Makes room for one round more.
    ///
    /// # Errors
    /// `AllocError` where the memory is refused. What is kept stays as it was.
    fn make_room(&mut self) -> Result<(), AllocError>
        ensures as_before { (rounds : List Round) → holds self.old rounds → holds self.new rounds }
        ensures room { OnOk result (has_room self.new) };

    /// Keeps what it keeps of a round, behind the others. It takes no memory.
    fn keep(&mut self, round: Round)
        requires { has_room self.old }
        ensures { (rounds : List Round) → holds self.old rounds → holds self.new (rounds ++ round ∷ []) };

    /// Forgets all rounds.
    fn forget(&mut self)
        ensures { holds self.new [] };
}

impl Journal for Vec<Round> {
    ghost holds = { HoldsAll };

    ghost has_room = { λ rounds. vec_len rounds < vec_capacity rounds };

    fn empty(alloc: Global) -> Vec<Round> {
        Vec::new(alloc)
    }

    fn make_room(&mut self) -> Result<(), AllocError> {
        self.reserve(1)
    }

    fn keep(&mut self, round: Round) {
        let _ = self.push(round);
    }

    fn forget(&mut self) {
        self.clear();
    }
}

/// The acts of rounds alone. The certified state of a round is dropped when it is kept.
#[derive(Drop)]
pub struct ActJournal {
    pub acts: Vec<Vec<Act>>,
}

impl Journal for ActJournal {
    ghost holds = { HoldsActs };

    ghost has_room = { λ journal. vec_len journal.acts < vec_capacity journal.acts };

    fn empty(alloc: Global) -> ActJournal {
        ActJournal {
            acts: Vec::new(alloc),
        }
    }

    fn make_room(&mut self) -> Result<(), AllocError> {
        self.acts.reserve(1)
    }

    fn keep(&mut self, round: Round) {
        let Round { certified, acts } = round;
        drop(certified);
        let _ = self.acts.push(acts);
    }

    fn forget(&mut self) {
        self.acts.clear();
    }
}
