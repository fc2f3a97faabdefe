// The tape of what the system answered.
ghost use Rattle.std.specs.Prelude.{◌≡◌, [], ◌∷◌, ◌++◌};
ghost use Rattle.std.specs.IoError.{error_kind};
ghost use Rattle.std.specs.Io.{WritesAtMost};
ghost use Rattle.fd_outside.specs.Troubles.{is_fatal, trouble_at, trouble_in, untroubled};
ghost use Rattle.fd_outside.specs.System.{Stores, opening, turn_of};

use fd_tape::Tape;
use std::io;
use std::io::ErrorKind;

/// What an error of the system comes to.
#[derive(Clone, Copy, Debug, PartialEq, Eq)]
pub enum Trouble {
    Interrupted,
    Missing,
    NoMemory,
    Other,
}

fn trouble_of(e: &io::Error) -> Trouble
    ensures { result ≡ trouble_in (error_kind e.now) }
{
    match e.kind() {
        ErrorKind::Interrupted => Trouble::Interrupted,
        ErrorKind::NotFound => Trouble::Missing,
        ErrorKind::OutOfMemory => Trouble::NoMemory,
        _ => Trouble::Other,
    }
}

/// Whether a read or a write that met with this is given up. One that was interrupted is tried again.
pub(crate) fn is_fatal(trouble: Trouble) -> bool
    ensures { result ≡ is_fatal trouble }
{
    match trouble {
        Trouble::Interrupted => false,
        Trouble::Missing | Trouble::NoMemory | Trouble::Other => true,
    }
}

fn code_of(trouble: Trouble) -> u64
    ensures { trouble_at result ≡ trouble }
{
    match trouble {
        Trouble::Interrupted => 0,
        Trouble::Missing => 1,
        Trouble::NoMemory => 2,
        Trouble::Other => 3,
    }
}

/// What the system answered so far, which only proofs read. Each method stands round one call of the system, and does nothing else at
/// run time than to hand its answer on.
#[derive(Drop)]
pub struct SystemTape {
    tape: Tape,
}

impl SystemTape {
    ghost use Rattle.fd_outside.specs.Told.{events_on};

    pub fn new() -> Self
        ensures { events_on result ≡ [] }
    {
        SystemTape { tape: Tape::new() }
    }

    /// The answer to opening a file by its name.
    pub fn opening<F: Drop>(&mut self, name: &str, answer: io::Result<F>) -> Result<F, Trouble>
        ensures answer { result ≡ untroubled answer }
        ensures noted { events_on self.new ≡ events_on self.old ++ opening name.now result ∷ [] }
    {
        match answer {
            Ok(file) => {
                self.tape.note(&[0], name.as_bytes(), &[]);
                Ok(file)
            }
            Err(e) => {
                let trouble = trouble_of(&e);
                self.tape.note(&[1, code_of(trouble)], name.as_bytes(), &[]);
                Err(trouble)
            }
        }
    }

    /// The answer to a read into these bytes or a write of these bytes: so many of the first.
    pub fn turn(&mut self, answer: io::Result<usize>, bytes: &[u8]) -> Result<usize, Trouble>
        requires { WritesAtMost answer bytes.now }
        ensures answer { result ≡ untroubled answer }
        ensures noted { events_on self.new ≡ events_on self.old ++ turn_of result bytes.now ∷ [] }
        ensures bound { WritesAtMost result bytes.now }
    {
        match answer {
            Ok(count) => {
                self.tape.note(&[2], &[], &bytes[..count]);
                Ok(count)
            }
            Err(e) => {
                let trouble = trouble_of(&e);
                self.tape.note(&[3, code_of(trouble)], &[], &[]);
                Err(trouble)
            }
        }
    }

    /// These bytes behind the others. An allocation that is refused is noted, and the bytes are as before.
    pub fn room(&mut self, bytes: &mut Vec<u8>, more: &[u8]) -> Result<(), Trouble>
        ensures { Stores bytes.old.items bytes.new.items more.now (events_on self.old) (events_on self.new) result }
    {
        match bytes.extend_from_slice(more) {
            Ok(()) => Ok(()),
            Err(_) => {
                self.tape.note(&[4], &[], &[]);
                Err(Trouble::NoMemory)
            }
        }
    }
}
