// The tape of a library's answers.
ghost use Rattle.std.specs.Prelude.{◌≡◌, [], ◌++◌};
ghost use Rattle.std.proofs.lemmas.List.{map-append};
ghost use Rattle.fd_outside.specs.Answers.{answered};

use crate::{Found, LibFault};
use fd_tape::Tape;

/// The answers of a library so far, which only proofs read. It takes no memory.
#[derive(Drop)]
pub(crate) struct AnswerTape {
    tape: Tape,
}

impl AnswerTape {
    ghost use Rattle.fd_outside.specs.Told.{answers_on};

    /// Has no answer yet.
    pub(crate) fn new() -> Self
        ensures { answers_on result ≡ [] }
    {
        AnswerTape { tape: Tape::new() }
    }

    /// One more answer. Does nothing at run time.
    pub(crate) fn add(&mut self, name: &str, read: &Result<Found, LibFault>)
        ensures { answers_on self.new ≡ answers_on self.old ++ answered name.now read.now }
    {
        match read {
            Ok(Found::Bytes(bytes)) => {
                self.tape.note(&[0], name.as_bytes(), bytes.as_slice());
            }
            Ok(Found::Absent) => self.tape.note(&[1], name.as_bytes(), &[]),
            Err(LibFault::Failed) => self.tape.note(&[2], name.as_bytes(), &[]),
            Err(LibFault::NoMemory) => {}
        }
    }
}
