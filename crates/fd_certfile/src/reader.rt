// A reader of a certificate, block by block.
ghost use Rattle.std.specs.Prelude.{◌≡◌, ◌+◌, ◌<◌, ◌^◌, ◌&&◌, ◌∷◌, [], length, map};
ghost use Rattle.std.specs.Cmp.Lexicographic.{pointwise};
ghost use Rattle.fd_certfile.specs.Blocks.{acts_at, is_place};
ghost use Rattle.fd_certfile.specs.Certificates.{behind_first, version_in};
ghost use Rattle.fd_certfile.specs.Lines.{lines_of};
ghost use Rattle.fd_certfile.specs.Reader.{FindsAhead, GivesNext, IsAheadOf, IsFinished, IsOpened, Passes, finish_of, given_at, is_headed};
ghost use Rattle.fd_certfile.specs.Rounds.{act_of};
ghost use Rattle.fd_certfile.specs.Rules.{same_act};

use crate::ahead::{Ahead, Head, read_block};
use crate::block::Part;
use crate::claim::claimed;
use crate::claimed_acts::acts_are;
use crate::ending::{is_end, is_ended, is_solution};
use crate::fault::{CertFileFault, Stop};
use crate::line::read_line;
use crate::row::is_place;
use crate::version::{Version, version_named};
use fd_lines::cut;
use fd_settle::{Act, Certified, Limits, NetworkRows, Rule, Solver, shared};
use std::alloc::{AllocError, Global};
use std::marker::Model;
use std::rc::Rc;

/// What a block claims: of each unknown and its row in order, and the entries of an inverse, a row for each unknown and a
/// column for each row, row by row, in units of 2^-40. Nothing is said of their range.
#[derive(Debug, Drop)]
pub struct Claimed {
    pub parts: Vec<Part>,
    pub cells: Vec<i128>,
}

// A block that was given: the bytes from its acts on, and the number of the line behind its inverse.
#[derive(Clone, Copy, Debug, Drop)]
struct Given<'a> {
    acts: &'a [u8],
    rule_line: u64,
}

/// Reads a certificate of either version block by block. It holds the bytes by reference, and of a block that was given only where its
/// acts stand. Contracts see the version, the lines that are left, the number of the next one, the numbers of the block that is due,
/// and of each block that was given its acts and the line behind its inverse.
#[derive(Debug, Drop)]
pub struct CertReader<'a> {
    version: Version,
    rest: &'a [u8],
    line: u64,
    number: u32,
    hour: u32,
    round: u64,
    given: Vec<Given<'a>>,
}

impl<'a> Model for CertReader<'a> {
    ghost use Rattle.std.specs.Prelude.{◌+◌, ◌^◌, ◌≤◌, length, map};
    ghost use Rattle.fd_certfile.specs.Lines.{lines_of};
    ghost use Rattle.fd_certfile.specs.Reader.{ReaderView, viewed};

    ghost Value = { ReaderView };

    ghost view = { λ r. viewed r.version (lines_of r.rest.now) r.line r.number r.hour r.round r.given.items };

    ghost invariant = { λ r. (r.line + length (lines_of r.rest.now) ≤ 2 ^ 63 + 1) × (r.round ≤ r.line) };
}

impl<'a> CertReader<'a> {
    /// A reader behind the first line, which expects solution 1 of hour 0. Takes no memory.
    ///
    /// # Errors
    /// `Refused` as grammar at line 1 exactly where the first line names no version.
    pub fn open(alloc: Global, bytes: &'a [u8]) -> Result<CertReader<'a>, CertFileFault>
        ensures { IsOpened result (version_in (lines_of bytes.now)) (behind_first (lines_of bytes.now)) }
    {
        // read for its length alone, which bounds the number of lines
        let _length = bytes.len();
        match cut(bytes, b'\n') {
            Some((text, rest)) => {
                let Some(version) = version_named(&read_line(text)) else {
                    return Err(CertFileFault::Refused {
                        line: 1,
                        rule: Rule::Grammar,
                    });
                };
                Ok(CertReader {
                    version,
                    rest,
                    line: 2,
                    number: 1,
                    hour: 0,
                    round: 0,
                    given: Vec::new(alloc),
                })
            }
            None => Err(CertFileFault::Refused {
                line: 1,
                rule: Rule::Grammar,
            }),
        }
    }

    /// Tells which settle comes next. Its rounds count from 0.
    pub fn begin(&mut self, number: u32, hour: u32)
        ensures { self.new ≡ record self.old { number = number; hour = hour; round = 0 } }
    {
        self.number = number;
        self.hour = hour;
        self.round = 0;
    }

    // Whether these are the numbers of the block that is due.
    fn is_due(&self, size: u32, head: &Head) -> bool
        ensures { result ≡ is_headed self.now size head.now }
    {
        is_place(u128::from(self.number), head.number)
            && is_place(u128::from(self.hour), head.hour)
            && is_place(u128::from(self.round), head.round)
            && is_place(u128::from(size), head.size)
    }

    // What stands next, where it is a block with the numbers that are due; else the line and the rule that is broken.
    fn ahead(&self, alloc: Global, size: u32) -> Result<Ahead<'a>, CertFileFault>
        ensures { FindsAhead self.now size result }
    {
        // read for its length alone, which bounds the number of lines
        let _length = self.rest.len();
        if is_ended(self.rest) {
            return Err(CertFileFault::Refused {
                line: self.line,
                rule: Rule::Count,
            });
        }
        match read_block(alloc, self.version, size, self.rest) {
            Ok(ahead) => {
                if self.is_due(size, &ahead.head) {
                    return Ok(ahead);
                }
                Err(CertFileFault::Refused {
                    line: self.line,
                    rule: Rule::Size,
                })
            }
            Err(Stop::Refused { behind }) => Err(CertFileFault::Refused {
                line: self.line + behind as u64,
                rule: Rule::Grammar,
            }),
            Err(Stop::NoMemory) => Err(CertFileFault::NoMemory),
        }
    }

    // Moves behind the next block, which has so many unknowns and so many lines: the bytes from its acts on, and those
    // behind it.
    fn pass(
        &mut self,
        size: u32,
        acts: &'a [u8],
        rest: &'a [u8],
        lines: u128,
    ) -> Result<(), AllocError>
        requires { IsAheadOf self.old size (acts_at (lines_of acts.now)).0 (lines_of rest.now) lines }
        ensures { Passes self.old size result self.new }
    {
        self.given.push(Given {
            acts,
            rule_line: self.line + 1 + 2 * u64::from(size),
        })?;
        self.rest = rest;
        self.line += lines as u64;
        self.round += 1;
        Ok(())
    }

    /// The next block, which has so many unknowns, and behind it the reader expects the next round.
    ///
    /// # Errors
    /// `Refused` as count at the line `end`, where that comes next; else as grammar at the first line that the grammar
    /// refuses or misses; else as size at the solution line, where it has other numbers than those that are due. It and
    /// `NoMemory` leave the reader as it was. Storage is taken only for the size that is due.
    pub fn next_block(&mut self, alloc: Global, size: u32) -> Result<Claimed, CertFileFault>
        ensures { GivesNext self.old size result self.new }
    {
        let ahead = self.ahead(alloc, size)?;
        let cells = ahead.cells.to_numbers(alloc)?;
        self.pass(size, ahead.acts, ahead.rest, ahead.lines)?;
        Ok(Claimed {
            parts: ahead.parts,
            cells,
        })
    }

    /// How many blocks were given.
    pub fn given(&self) -> u64
        ensures { result ≡ length self.now.given }
    {
        self.given.len() as u64
    }

    /// Whether the acts of a block that was given, counted from 0, have the times, controls and steps of these, in
    /// order. Takes no memory.
    pub fn acts_hold(&self, block: u64, acts: &[Act]) -> bool
        requires { block < length self.now.given }
        ensures { result ≡ pointwise same_act (map act_of acts.now) (given_at self.now block).acts }
    {
        acts_are(self.given[block as usize].acts, acts)
    }

    /// The line behind the inverse of a block that was given, counted from 0. The rules on its acts name it.
    pub fn rule_line(&self, block: u64) -> u64
        requires { block < length self.now.given }
        ensures { result ≡ (given_at self.now block).rule_line }
    {
        self.given[block as usize].rule_line
    }

    /// How many blocks were given, where nothing but the line `end` is left. Takes no memory.
    ///
    /// # Errors
    /// `Refused` as grammar at the line behind `end`, where one follows it; as count at a solution line, which begins a
    /// block that is left; as grammar at any other line, or where none is left.
    pub fn finish(&self) -> Result<u64, CertFileFault>
        ensures { IsFinished result (finish_of self.now) }
    {
        let Some((text, rest)) = cut(self.rest, b'\n') else {
            return Err(CertFileFault::Refused {
                line: self.line,
                rule: Rule::Grammar,
            });
        };
        let line = read_line(text);
        if is_end(&line) {
            if rest.is_empty() {
                return Ok(self.given.len() as u64);
            }
            return Err(CertFileFault::Refused {
                line: self.line + 1,
                rule: Rule::Grammar,
            });
        }
        if is_solution(&line) {
            return Err(CertFileFault::Refused {
                line: self.line,
                rule: Rule::Count,
            });
        }
        Err(CertFileFault::Refused {
            line: self.line,
            rule: Rule::Grammar,
        })
    }
}

impl<'a> Solver for CertReader<'a> {
    type Fault = CertFileFault;

    ghost use Rattle.fd_certfile.specs.Solving.{GivesSolved};

    ghost gives = { λ before limits v answer after. GivesSolved v before answer after };

    /// What the next block claims, where it has the network's size and the rules on what it claims hold; behind it the
    /// reader expects the next round. The limits are not looked at. The claim and its boxes are tested before the reader
    /// moves on.
    ///
    /// # Errors
    /// `Refused` as `next_block` refuses; else as range, mismatch, bound or radius at the line of the first unknown that
    /// breaks the rule. It and `NoMemory` leave the reader as it was.
    fn solve(
        &mut self,
        alloc: Global,
        net: &NetworkRows,
        _limits: &Limits,
    ) -> Result<Rc<Certified>, CertFileFault> {
        let size = net.size();
        let ahead = match self.ahead(alloc, size) {
            Ok(ahead) => ahead,
            Err(fault) => return Err(fault),
        };
        let cells = ahead.cells;
        match claimed(alloc, net, size, &ahead.parts, cells)? {
            Ok(certified) => {
                let state = shared(alloc, certified)?;
                self.pass(size, ahead.acts, ahead.rest, ahead.lines)?;
                Ok(state)
            }
            Err(broken) => Err(CertFileFault::Refused {
                line: self.line + 1 + u64::from(broken.place),
                rule: broken.rule,
            }),
        }
    }
}
