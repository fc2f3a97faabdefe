// A script, a command at a time.
ghost use Rattle.std.specs.Prelude.{◌≡◌, ◌+◌, ◌*◌, ◌<◌, ◌≤◌, ◌==◌, nat_lt, length, IfOk, IsSome, ◌↔◌, OnErr, OnOk, false, true, None, Some, Err};
ghost use Rattle.std.specs.Str.{chars};
ghost use Rattle.fd_outside.specs.Answers.{AgreesSince, IsLater, names_asked};
ghost use Rattle.fd_outside.specs.Files.{Files, held};
ghost use Rattle.dss_model.specs.Names.{bytes};
ghost use Rattle.dss_script.specs.Script.{script_of, names_first, after_names};
ghost use Rattle.dss_script.specs.Sessions.{start, remaining, remaining_by, remaining_with, Steps, Enters, Tells, Spends, found_bytes, room, left, IsRead, pays, closes, price, taken_says, opened, EnterAsks, Asks, ReadsLast, Pays, IsNotEnded, IsReadOf, cost};
ghost use Rattle.dss_script.specs.Fills.{FillsBy};
ghost use Rattle.dss_script.specs.Shapes.{verb_filled};
ghost use Rattle.dss_script.specs.declared.meaning.Meaning.TheVariants.{Reads};

use crate::meaning::{Meaning, Target, meaning_for, target_then};
use crate::path::{folder, name_within};
use crate::reading::{Frame, Taken, push_frame, take_line};
use crate::shapes::fill;
use crate::{ScriptCause, SessionFault};
use dss_model::{Command, Place, Text, Verb};
use fd_outside::{Found, LibFault, Library};
use std::alloc::{AllocError, Global};
use std::marker::Model;

const MOST_BYTES: usize = 1_048_576;

const MOST_DEPTH: usize = 8;

/// What one step within the open files comes to.
#[derive(Drop)]
pub enum Turn {
    Gives(Command),
    Goes,
    Reads(Place, Text),
    Ends,
}

/// A script that is being read. Contracts see what is left of it.
#[derive(Drop)]
pub struct Session {
    waiting: Option<Text>,
    folder: Text,
    frames: Vec<Frame>,
    read: usize,
    target: Option<Target>,
    ended: bool,
}

impl Model for Session {
    ghost use Rattle.std.specs.Prelude.{reverse, ◌≤◌, IsTrue};
    ghost use Rattle.dss_script.specs.Sessions.{State, is_fresh};

    ghost Value = { State };

    ghost view = { λ s. record {
      waiting = s.waiting;
      folder = s.folder;
      files = reverse s.frames.items;
      standing = record { target = s.target; read = s.read };
      ended = s.ended;
    } };

    ghost invariant = { λ s. (s.read ≤ 1_048_576) × IsTrue (is_fresh s.waiting s.frames.items) };
}

impl Session {
    /// A session before MASTER is read. All of the script is left, whatever files there are.
    #[tactic(auto, using(crate::proofs::Steps::start_says))]
    pub fn open(alloc: Global, master: &str) -> Result<Session, AllocError>
        ensures start { IfOk result (λ s. s ≡ start (chars master.now)) }
        ensures script { IfOk result (λ s. (files : Files) → remaining files s ≡ script_of files (chars master.now)) }
    {
        let master = Text::new(String::from_str(alloc, master)?);
        Ok(Session {
            folder: folder(alloc, &master)?,
            waiting: Some(master),
            frames: Vec::new(alloc),
            read: 0,
            target: None,
            ended: false,
        })
    }

    /// The next command, with its place, and with the numbers of the files that a load shape names in place of their
    /// names. At the end of MASTER there is none, nor at any later call.
    ///
    /// Errors: `Script` exactly where the script is refused there, `Read` where the last answer of this call is
    /// a failed read, with its name, which is the next of those that the script asks for, `Ended` exactly where
    /// an earlier call gave a fault, `NoMemory`.
    #[tactic(auto, using(fd_outside::proofs::CallerLemmas::later_same))]
    pub fn next<L: Library>(
        &mut self,
        alloc: Global,
        lib: &mut L,
    ) -> Result<Option<Command>, SessionFault>
        // Over all files that agree with what the library answered in this call, the next command or the end is the one
        // that the script says.
        ensures told { (files : Files) → AgreesSince files (L.answers lib.old) (L.answers lib.new) →
            Tells files (after_names (remaining files self.old)) self.new result }
        // And the names that are asked are those that the script asks for before it, up to the one whose read failed.
        ensures asked { (files : Files) → AgreesSince files (L.answers lib.old) (L.answers lib.new) →
            Asks (names_asked (L.answers lib.old)) (names_asked (L.answers lib.new)) (names_first (remaining files self.old)) result }
        // Answers are only added, and those of a library that tells what it holds agree with that. A failed read is the
        // last of them.
        ensures later { IsLater L.answers L.holds lib.old lib.new }
        ensures last { ReadsLast (L.answers lib.old) (L.answers lib.new) result }
        ensures ended { (result ≡ Err SessionFault.Ended) ↔ (self.old.ended ≡ true) }
        ensures over { OnErr result (self.new.ended ≡ true) }
        ensures lasting { OnOk result (self.new.ended ≡ false) }
        // Whatever the library answers, a command takes its room.
        ensures room { Pays self.old self.new result }
    {
        if self.ended {
            return Err(SessionFault::Ended);
        }
        let result = self.go_on(alloc, lib);
        self.ended = result.is_err();
        result
    }

    // Steps to the next command.
    fn go_on<L: Library>(
        &mut self,
        alloc: Global,
        lib: &mut L,
    ) -> Result<Option<Command>, SessionFault>
        ensures told { (files : Files) → AgreesSince files (L.answers lib.old) (L.answers lib.new) →
            Tells files (after_names (remaining files self.old)) self.new result }
        ensures asked { (files : Files) → AgreesSince files (L.answers lib.old) (L.answers lib.new) →
            Asks (names_asked (L.answers lib.old)) (names_asked (L.answers lib.new)) (names_first (remaining files self.old)) result }
        ensures later { IsLater L.answers L.holds lib.old lib.new }
        ensures last { ReadsLast (L.answers lib.old) (L.answers lib.new) result }
        ensures goes { IsNotEnded result }
        ensures room { Pays self.old self.new result }
    {
        loop {
            match self.step(alloc) {
                Ok(Turn::Gives(Command { place, verb })) => match self.fill(
                    alloc, lib, &place, verb,
                ) {
                    Ok(verb) => return Ok(Some(Command { place, verb })),
                    Err(e) => return Err(e),
                },
                Ok(Turn::Goes) => {}
                Ok(Turn::Reads(place, name)) => match self.enter(alloc, lib, place, name) {
                    Ok(()) => {}
                    Err(e) => return Err(e),
                },
                Ok(Turn::Ends) => return Ok(None),
                Err(e) => return Err(e),
            }
        }
    }

    // What a command does, with the numbers of the files that it names.
    fn fill<L: Library>(
        &self,
        alloc: Global,
        lib: &mut L,
        place: &Place,
        verb: Verb,
    ) -> Result<Verb, SessionFault>
        ensures fills { FillsBy place.now (λ files. verb_filled files self.now.folder verb) (L.answers lib.old) (L.answers lib.new) result }
        ensures later { IsLater L.answers L.holds lib.old lib.new }
        ensures last { ReadsLast (L.answers lib.old) (L.answers lib.new) result }
        ensures goes { IsNotEnded result }
        ensures cost { IfOk result (λ filled. cost filled ≡ cost verb) }
    {
        fill(alloc, lib, &self.folder, place, verb)
    }

    // The next step within the open files: MASTER's read, a line, or the end of a file.
    fn step(&mut self, alloc: Global) -> Result<Turn, SessionFault>
        ensures steps { (files : Files) → Steps files (remaining files self.old) self.new result }
        ensures room { Spends (room self.old) (left self.old) self.new result }
        ensures open { self.new.waiting ≡ None }
        ensures reads_nothing { IsRead result → ⊥ }
        ensures goes { IsNotEnded result }
    {
        match self.take_master() {
            Some(master) => {
                let place = Place {
                    file: master.clone()?,
                    line: 0,
                };
                Ok(Turn::Reads(place, master))
            }
            None => self.line_step(alloc),
        }
    }

    // MASTER's name, the first time.
    #[tactic(auto, using(crate::proofs::Steps::reversed_length, crate::proofs::Steps::fresh_files))]
    fn take_master(&mut self) -> Option<Text>
        ensures master { result ≡ self.old.waiting }
        ensures opened { self.new ≡ opened self.old }
        ensures fresh { IsSome result → length self.old.files ≡ 0 }
    {
        self.waiting.take()
    }

    fn line_step(&mut self, alloc: Global) -> Result<Turn, SessionFault>
        requires { self.old.waiting ≡ None }
        ensures steps { (files : Files) → Steps files (remaining files self.old) self.new result }
        ensures room { Spends (room self.old) (left self.old) self.new result }
        ensures open { self.new.waiting ≡ None }
        ensures reads_nothing { IsRead result → ⊥ }
        ensures goes { IsNotEnded result }
    {
        if self.is_over() {
            return Ok(Turn::Ends);
        }
        let taken = take_line(alloc, &mut self.frames)?;
        self.finish(alloc, taken)
    }

    // Whether no file is open.
    #[tactic(auto, using(crate::proofs::Steps::reversed_length))]
    fn is_over(&self) -> bool
        ensures { result ≡ (length self.now.files == 0) }
    {
        self.frames.len() == 0
    }

    // Whether no file may be open within those that are.
    #[tactic(auto, using(crate::proofs::Steps::reversed_length))]
    fn is_deepest(&self) -> bool
        ensures { result ≡ nat_lt 8 (length self.now.files) }
    {
        self.frames.len() > MOST_DEPTH
    }

    fn finish(&mut self, alloc: Global, taken: Taken) -> Result<Turn, SessionFault>
        requires { self.old.waiting ≡ None }
        ensures steps { (files : Files) → Steps files (taken_says files taken self.old) self.new result }
        ensures room { Spends (room self.old + pays taken) (left self.old + 2 * pays taken + closes taken) self.new result }
        ensures open { self.new.waiting ≡ None }
        ensures reads_nothing { IsRead result → ⊥ }
        ensures goes { IsNotEnded result }
    {
        match taken {
            Taken::Closed => Ok(Turn::Goes),
            Taken::Refused(place, cause) => Err(script_fault(place, cause)),
            Taken::Cut(place, pairs) => {
                let meaning = meaning_for(alloc, &self.target, pairs.into_vec())?;
                self.mean(alloc, place, meaning)
            }
        }
    }

    // Does what a line asks for.
    #[tactic(auto, using(crate::proofs::Steps::says_nothing, crate::proofs::Steps::says_refused, crate::proofs::Steps::says_command))]
    fn mean(&mut self, alloc: Global, place: Place, meaning: Meaning) -> Result<Turn, SessionFault>
        requires { self.old.waiting ≡ None }
        ensures steps { (files : Files) → Steps files (remaining_by files place meaning self.old) self.new result }
        ensures room { Spends (room self.old + price meaning) (left self.old + 2 * price meaning) self.new result }
        ensures open { self.new.waiting ≡ None }
        ensures reads_nothing { IsRead result → ⊥ }
        ensures goes { IsNotEnded result }
    {
        match meaning {
            Meaning::Nothing => Ok(Turn::Goes),
            Meaning::Refused(cause) => Err(script_fault(place, cause)),
            Meaning::Reads(name) => self.redirect(alloc, place, name),
            Meaning::Does(verb, change) => {
                self.target = target_then(self.target.take(), change);
                Ok(Turn::Gives(Command { place, verb }))
            }
        }
    }

    fn redirect(&mut self, alloc: Global, place: Place, name: Text) -> Result<Turn, SessionFault>
        requires { self.old.waiting ≡ None }
        ensures steps { (files : Files) → Steps files (remaining_by files place (Reads name) self.old) self.new result }
        ensures room { Spends (room self.old + 2) (left self.old + 4) self.new result }
        ensures open { self.new.waiting ≡ None }
        ensures reads_nothing { IsRead result → ⊥ }
        ensures goes { IsNotEnded result }
    {
        if self.is_deepest() {
            return Err(script_fault(place, ScriptCause::TooDeep));
        }
        Ok(Turn::Reads(place, name_within(alloc, &self.folder, &name)?))
    }

    // Reads a file, and stands at its first line.
    #[tactic(auto, using(crate::proofs::Entering::told_by))]
    fn enter<L: Library>(
        &mut self,
        alloc: Global,
        lib: &mut L,
        place: Place,
        name: Text,
    ) -> Result<(), SessionFault>
        requires { self.old.waiting ≡ None }
        ensures told { (files : Files) → AgreesSince files (L.answers lib.old) (L.answers lib.new) →
            Enters files (remaining_with files (held files (bytes name)) place name self.old) self.new result }
        ensures room { OnOk result ((room self.new ≤ room self.old + 1) × (left self.new ≤ left self.old + 3)) }
        ensures open { self.new.waiting ≡ None }
        ensures later { IsLater L.answers L.holds lib.old lib.new }
        ensures last { ReadsLast (L.answers lib.old) (L.answers lib.new) result }
        ensures asked { EnterAsks (names_asked (L.answers lib.old)) (names_asked (L.answers lib.new)) name result }
        ensures named { IsReadOf name result }
        ensures goes { IsNotEnded result }
    {
        match lib.read(alloc, name.as_str()) {
            Ok(found) => self.supply(place, name, found),
            Err(LibFault::Failed) => Err(SessionFault::Read { name }),
            Err(LibFault::NoMemory) => Err(SessionFault::NoMemory),
        }
    }

    // A file was found, or isn't there. Needs no library.
    fn supply(&mut self, place: Place, name: Text, found: Found) -> Result<(), SessionFault>
        requires { self.old.waiting ≡ None }
        ensures enters { (files : Files) →
            Enters files (remaining_with files (found_bytes found) place name self.old) self.new result }
        ensures room { OnOk result ((room self.new ≤ room self.old + 1) × (left self.new ≤ left self.old + 3)) }
        ensures open { self.new.waiting ≡ None }
        ensures reads_nothing { IsRead result → ⊥ }
        ensures goes { IsNotEnded result }
    {
        match found {
            Found::Absent => Err(script_fault(place, ScriptCause::AbsentFile)),
            Found::Bytes(bytes) => self.stand_at(place, name, bytes),
        }
    }

    #[tactic(auto, using(crate::proofs::Steps::file_room))]
    fn stand_at(&mut self, place: Place, name: Text, bytes: Vec<u8>) -> Result<(), SessionFault>
        requires { self.old.waiting ≡ None }
        ensures enters { (files : Files) →
            Enters files (remaining_with files (Some bytes.items) place name self.old) self.new result }
        ensures room { OnOk result ((room self.new ≤ room self.old + 1) × (left self.new ≤ left self.old + 3)) }
        ensures open { self.new.waiting ≡ None }
        ensures reads_nothing { IsRead result → ⊥ }
        ensures goes { IsNotEnded result }
    {
        if self.read + bytes.len() > MOST_BYTES {
            return Err(script_fault(place, ScriptCause::TooLong));
        }
        let count = bytes.len();
        push_frame(&mut self.frames, Frame::new(name, bytes))?;
        self.read += count;
        Ok(())
    }
}

fn script_fault(place: Place, cause: ScriptCause) -> SessionFault
    ensures { result ≡ SessionFault.Script place cause }
{
    SessionFault::Script { place, cause }
}
