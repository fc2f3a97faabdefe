// A writer as a sink, as standard output is.
ghost use Rattle.std.specs.Prelude.{◌≡◌, ◌≢◌, [], Err};
ghost use Rattle.fd_outside.specs.declared.sink.SinkFault.TheVariants.{NoMemory};
ghost use Rattle.fd_outside.specs.Causes.{HasCause};
ghost use Rattle.fd_outside.specs.Pieces.{WritesPiece, WritesTold, calls_after};
ghost use Rattle.fd_outside.specs.Told.{events_on};
ghost use Rattle.fd_outside.specs.Reading.{Grows};
ghost use Rattle.fd_outside.specs.Writing.{IsWriting};

use crate::system::is_fatal;
use crate::{Sink, SinkFault, SystemTape};
use fd_tape::Tape;
use std::alloc::Global;
use std::io::Write;

/// Hands each piece to a writer until all of it is taken.
#[derive(Drop)]
pub struct StdSink<W: Write> {
    writer: W,
    system: SystemTape,
    pieces: Tape,
    faults: u64,
}

impl<W: Write> StdSink<W> {
    ghost use Rattle.fd_outside.specs.Writer.{asked_of_system, writer_of};

    /// Has handed nothing on yet.
    pub fn new(writer: W) -> Self
        ensures taken { ⟦<StdSink<W> as Sink>⟧.taken result ≡ [] }
        ensures calls { ⟦<StdSink<W> as Sink>⟧.calls result ≡ 0 }
        ensures faults { ⟦<StdSink<W> as Sink>⟧.faults result ≡ 0 }
        ensures system { asked_of_system result ≡ [] }
        ensures writer { writer_of result ≡ writer }
    {
        StdSink {
            writer,
            system: SystemTape::new(),
            pieces: Tape::new(),
            faults: 0,
        }
    }
}

// Writes these bytes, a part at a time. An interrupted write is tried again, and one that takes nothing has failed.
fn write_whole<W: Write>(
    system: &mut SystemTape,
    writer: &mut W,
    bytes: &[u8],
) -> Result<(), SinkFault>
    ensures system { Grows (events_on system.old) (events_on system.new) (λ made. IsWriting bytes.now made result) }
    ensures told { WritesTold (W.contents writer.old) (W.contents writer.new) bytes.now result }
    ensures failed { result ≢ Err NoMemory }
{
    let mut rest = bytes;
    for _turn in 0..u64::MAX {
        if rest.is_empty() {
            return Ok(());
        }
        let answer = writer.write(rest);
        match system.turn(answer, rest) {
            Ok(0) => return Err(SinkFault::Failed),
            Ok(count) => rest = &rest[count..],
            Err(trouble) => {
                if is_fatal(trouble) {
                    return Err(SinkFault::Failed);
                }
            }
        }
    }
    if rest.is_empty() {
        Ok(())
    } else {
        Err(SinkFault::Failed)
    }
}

impl<W: Write> Sink for StdSink<W> {
    ghost use Rattle.fd_outside.specs.Writer.{asked_of_system, taken_of, writer_of};
    ghost use Rattle.std.specs.Prelude.{length};

    ghost taken = { λ m. taken_of m };

    ghost calls = { λ m. length m.pieces.notes };

    ghost faults = { λ m. m.faults };

    fn write(&mut self, _alloc: Global, bytes: &[u8]) -> Result<(), SinkFault>
        ensures taken { WritesPiece (⟦<StdSink<W> as Sink>⟧.taken self.old) (⟦<StdSink<W> as Sink>⟧.taken self.new) bytes.now result }
        ensures calls { ⟦<StdSink<W> as Sink>⟧.calls self.new ≡ calls_after (⟦<StdSink<W> as Sink>⟧.calls self.old) result }
        ensures cause { HasCause (⟦<StdSink<W> as Sink>⟧.faults self.old) (⟦<StdSink<W> as Sink>⟧.faults self.new) SinkFault.Failed result }

        // What is taken and how the write ends is what the system answered.
        ensures system { Grows (asked_of_system self.old) (asked_of_system self.new) (λ made. IsWriting bytes.now made result) }

        // And where the writer tells what it holds, it has taken that.
        ensures told { WritesTold (W.contents (writer_of self.old)) (W.contents (writer_of self.new)) bytes.now result }
    {
        self.pieces.note(&[], &[], bytes);
        let written = write_whole(&mut self.system, &mut self.writer, bytes);
        if written.is_err() {
            self.faults = self.faults.saturating_add(1);
        }
        written
    }
}
