// A file that is being read, line by line.
ghost use Rattle.std.specs.Prelude.{◌≡◌, ◌+◌, ◌<◌, ◌≤◌, ◌==◌, ◌∷◌, [], length, drop, reverse, IfOk, OnOk, Option, MatchOption};
ghost use Rattle.std.specs.List.{position, after_first};
ghost use Rattle.std.specs.Str.Lines.{lines, strip_carriage_return};
ghost use Rattle.dss_model.specs.dss_lexer.Answers.{Gives};
ghost use Rattle.dss_script.specs.Cutting.{pairs_of};
ghost use Rattle.dss_script.specs.Lines.{is_line_feed, first_line};
ghost use Rattle.dss_script.specs.Readings.{advanced, next_line};
ghost use Rattle.dss_script.specs.Sessions.{next_place, taken_of, files_after};

use crate::ScriptCause;
use crate::cutting::pairs;
use crate::meaning::line_cause;
use dss_model::{LineError, Pair, PairList, Place, Text};
use std::alloc::{AllocError, Global};
use std::marker::Model;

/// A file that is being read: its bytes, those before `at` taken as `line` lines.
#[derive(Drop)]
pub struct Frame {
    file: Text,
    bytes: Vec<u8>,
    at: usize,
    line: u32,
}

impl Model for Frame {
    ghost use Rattle.std.specs.Prelude.{◌≤◌, length, drop};
    ghost use Rattle.std.specs.Str.Lines.{lines};
    ghost use Rattle.dss_script.specs.Readings.{Reading};

    ghost Value = { Reading };

    ghost view = { λ f. record { file = f.file; line = f.line; lines = lines (drop f.at f.bytes.items) } };

    ghost invariant = { λ f. (f.at ≤ length f.bytes.items) × (f.line ≤ f.at) × (length f.bytes.items ≤ 1_048_576) };
}

fn find_line_feed(bytes: &[u8]) -> Option<usize>
    ensures { result ≡ position is_line_feed bytes.now }
{
    bytes.iter().position(|b| *b == b'\n')
}

fn trimmed(line: &[u8]) -> &[u8]
    ensures { result.now ≡ strip_carriage_return line.now }
{
    match line {
        [front @ .., b'\r'] => front,
        _ => line,
    }
}

fn line_of(bytes: &[u8]) -> &[u8]
    ensures { result.now ≡ first_line bytes.now }
{
    match find_line_feed(bytes) {
        Some(end) => trimmed(&bytes[..end]),
        None => bytes,
    }
}

// The bytes after the first line.
fn after_line(bytes: &[u8]) -> &[u8]
    requires { 0 < length bytes.now }
    ensures rest { result.now ≡ after_first is_line_feed bytes.now }
    ensures shorter { length result.now < length bytes.now }
{
    match find_line_feed(bytes) {
        Some(end) => &bytes[end + 1..],
        None => &[],
    }
}

impl Frame {
    /// A file before its first line.
    pub fn new(file: Text, bytes: Vec<u8>) -> Self
        requires { length bytes.items ≤ 1_048_576 }
        ensures { result ≡ record { file = file; line = 0; lines = lines bytes.items } }
    {
        Frame {
            file,
            bytes,
            at: 0,
            line: 0,
        }
    }

    // The bytes that are left.
    fn rest(&self) -> &[u8]
        ensures { lines result.now ≡ self.now.lines }
    {
        &self.bytes[self.at..]
    }

    /// Whether no line is left.
    #[tactic(auto, using(crate::proofs::Lines::no_line, crate::proofs::Lines::some_line))]
    pub fn is_done(&self) -> bool
        ensures { result ≡ (length self.now.lines == 0) }
    {
        self.rest().is_empty()
    }

    /// The words and pairs of the next line.
    #[tactic(auto, using(crate::proofs::Lines::next_is))]
    pub fn pairs(&self, alloc: Global) -> Result<Vec<Pair>, LineError>
        requires { 0 < length self.now.lines }
        ensures { Gives (λ v. v.items) result (pairs_of (next_line self.now)) }
    {
        pairs(alloc, line_of(self.rest()))
    }

    /// The place of the next line.
    pub fn place(&self) -> Result<Place, AllocError>
        ensures { IfOk result (λ p. p ≡ next_place self.now) }
    {
        Ok(Place {
            file: self.file.clone()?,
            line: self.line + 1,
        })
    }

    /// Goes on to the line after the next one.
    pub fn advance(&mut self)
        requires { 0 < length self.old.lines }
        ensures { self.new ≡ advanced self.old }
    {
        let left = after_line(&self.bytes[self.at..]).len();
        self.at = self.bytes.len() - left;
        self.line += 1;
    }
}

/// What the next line is.
#[derive(Drop)]
pub enum Taken {
    /// The innermost file has ended, or none is open.
    Closed,
    /// The line is refused.
    Refused(Place, ScriptCause),
    /// The words and pairs of the line.
    Cut(Place, PairList),
}

fn pop_frame(frames: &mut Vec<Frame>) -> Option<Frame>
    ensures { MatchOption result ((reverse frames.old.items ≡ []) × (reverse frames.new.items ≡ []))
        (λ f. reverse frames.old.items ≡ f ∷ reverse frames.new.items) }
{
    frames.pop()
}

/// Opens a file within those that are open.
pub fn push_frame(frames: &mut Vec<Frame>, frame: Frame) -> Result<(), AllocError>
    ensures { OnOk result (reverse frames.new.items ≡ frame ∷ reverse frames.old.items) }
{
    frames.push(frame)?;
    Ok(())
}

/// Takes the next line of the innermost file, or closes it. After an `Err` the files are thrown away.
pub fn take_line(alloc: Global, frames: &mut Vec<Frame>) -> Result<Taken, AllocError>
    ensures taken { IfOk result (λ t. t ≡ taken_of (reverse frames.old.items)) }
    ensures files { OnOk result (reverse frames.new.items ≡ files_after (reverse frames.old.items)) }
{
    let Some(mut frame) = pop_frame(frames) else {
        return Ok(Taken::Closed);
    };
    if frame.is_done() {
        return Ok(Taken::Closed);
    }
    let place = frame.place()?;
    let pairs = frame.pairs(alloc);
    frame.advance();
    push_frame(frames, frame)?;
    match pairs {
        Ok(pairs) => Ok(Taken::Cut(place, PairList::new(pairs))),
        Err(LineError::Fault(fault)) => Ok(Taken::Refused(place, line_cause(fault))),
        Err(LineError::NoMemory) => Err(AllocError),
    }
}
