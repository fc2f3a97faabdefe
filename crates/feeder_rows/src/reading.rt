// The text form of cases.
//
// Each line is one of these; empty lines and lines that start with `#` say nothing:
//
//     case NAME       a case begins
//     word WORD       a word behind those before
//     file NAME       a file that the library holds; what follows is its text
//     read NUMBER     the read of this number fails
//     write NUMBER    the write of this number fails
//     status NUMBER   the exit status; what follows is the text that the sink must have taken
//     each write      besides, each write fails in a run of its own: status 5 and the lines before it are due
//     asks NUMBER NAME    besides, the next read, which asks for this file when so many lines are written, fails in a run of
//                     its own: status 4, those lines and the record of the failed read are due; behind the last none comes
//     length NAME     besides, this file, which stands before, has each shorter length in a run of its own
//     from NUMBER     the status behind this is due where that file has so many bytes or more
//     repeat NUMBER   the next piece of text stands so often, each time with its number from 1 in place of each `#`
//     |TEXT           this text, and the end of a line
//     >TEXT           this text
//     byte NUMBER     this byte
use crate::case::{Ask, Case, Due, HeldFile, Outcome};
use std::alloc::{AllocError, AllocFailed, Global};
use std::fmt::{Display, Formatter};
use std::{fmt, io};

/// Why cases weren't run.
#[derive(Drop)]
pub enum RowsFault {
    NoMemory,
    Io(io::Error),
    /// A line isn't in the form of cases.
    BadLine(usize),
}

impl Display for RowsFault {
    fn fmt<W: fmt::Write>(&self, f: &mut Formatter<W>) -> fmt::Result {
        match self {
            RowsFault::NoMemory => f.write_str("memory ran out"),
            RowsFault::Io(e) => write!(f, "{e}"),
            RowsFault::BadLine(number) => write!(f, "line {number} is not in the form of cases"),
        }
    }
}

impl From<AllocError> for RowsFault {
    fn from(_: AllocError) -> Self {
        RowsFault::NoMemory
    }
}

impl<T: Drop> From<AllocFailed<T>> for RowsFault {
    fn from(_: AllocFailed<T>) -> Self {
        RowsFault::NoMemory
    }
}

impl From<io::Error> for RowsFault {
    fn from(e: io::Error) -> Self {
        RowsFault::Io(e)
    }
}

// The case that is read, and what the next text belongs to.
#[derive(Drop)]
struct Reader {
    case: Case,
    in_file: bool,
    repeat: u32,
    from: usize,
}

// Text with a number in place of each `#`.
fn push_numbered(
    alloc: Global,
    into: &mut Vec<u8>,
    text: &[u8],
    number: u32,
) -> Result<(), AllocError> {
    for byte in text {
        if *byte == b'#' {
            let digits = format!(in alloc; "{number}")?;
            into.extend_from_slice(digits.as_bytes())?;
        } else {
            into.push(*byte)?;
        }
    }
    Ok(())
}

// Text with the end of its line, as often as it is to stand. What stands once keeps each `#`.
fn push_to(
    alloc: Global,
    into: &mut Vec<u8>,
    text: &[u8],
    end: &[u8],
    repeat: u32,
) -> Result<(), AllocError> {
    if repeat == 1 {
        into.extend_from_slice(text)?;
        return into.extend_from_slice(end);
    }
    for number in 0..repeat {
        push_numbered(alloc, into, text, number.saturating_add(1))?;
        into.extend_from_slice(end)?;
    }
    Ok(())
}

impl Reader {
    // Text with the end of its line, in the last file or in what the sink must take.
    fn push(&mut self, alloc: Global, text: &[u8], end: &[u8]) -> Result<(), AllocError> {
        let repeat = self.repeat;
        self.repeat = 1;
        if self.in_file {
            if let Some(file) = self.case.files.last_mut() {
                push_to(alloc, &mut file.bytes, text, end, repeat)?;
            }
        } else if let Some(due) = self.case.due.last_mut() {
            push_to(alloc, &mut due.outcome.text, text, end, repeat)?;
        }
        Ok(())
    }

    // What is due from a length of the cut file on begins.
    fn push_due(&mut self, alloc: Global, status: u8) -> Result<(), AllocError> {
        self.in_file = false;
        self.case.due.push(Due {
            from: self.from,
            outcome: Outcome {
                text: Vec::new(alloc),
                status,
            },
        })?;
        Ok(())
    }

    // What a line with a word and its value says. None where there is no such word, file or number.
    fn set(&mut self, alloc: Global, word: &str, value: &str) -> Result<Option<()>, AllocError> {
        match word {
            "word" => self.case.words.push(value.to_string(alloc)?)?,
            "length" if self.case.holds_file(value) => {
                self.case.cut_file = Some(value.to_string(alloc)?);
            }
            "each" if value == "write" => self.case.has_each_write = true,
            "asks" => return self.push_ask(alloc, value),
            "file" => {
                self.in_file = true;
                self.case.files.push(HeldFile {
                    name: value.to_string(alloc)?,
                    bytes: Vec::new(alloc),
                })?;
            }
            _ => return self.set_number(alloc, word, value),
        }
        Ok(Some(()))
    }

    fn push_ask(&mut self, alloc: Global, value: &str) -> Result<Option<()>, AllocError> {
        let Some((lines, name)) = value.split_once(' ') else {
            return Ok(None);
        };
        let Ok(lines) = lines.parse::<u32>() else {
            return Ok(None);
        };
        let name = name.to_string(alloc)?;
        self.case.asks.push(Ask { lines, name })?;
        Ok(Some(()))
    }

    fn set_number(
        &mut self,
        alloc: Global,
        word: &str,
        value: &str,
    ) -> Result<Option<()>, AllocError> {
        let Ok(number) = value.parse::<u32>() else {
            return Ok(None);
        };
        match word {
            "read" => self.case.failing_reads.push(number)?,
            "write" => self.case.failing_writes.push(number)?,
            "repeat" => self.repeat = number,
            "from" => self.from = number as usize,
            "status" => self.push_due(alloc, (number % 256) as u8)?,
            "byte" => self.push(alloc, &[(number % 256) as u8], b"")?,
            _ => return Ok(None),
        }
        Ok(Some(()))
    }

    fn take_line(&mut self, alloc: Global, line: &str) -> Result<Option<()>, AllocError> {
        if line.is_empty() || line.starts_with('#') {
            return Ok(Some(()));
        }
        if let Some(text) = line.strip_prefix('|') {
            self.push(alloc, text.as_bytes(), b"\n")?;
            return Ok(Some(()));
        }
        if let Some(text) = line.strip_prefix('>') {
            self.push(alloc, text.as_bytes(), b"")?;
            return Ok(Some(()));
        }
        match line.split_once(' ') {
            Some((word, value)) => self.set(alloc, word, value),
            None => Ok(None),
        }
    }
}

/// The cases of a text, in order.
pub(crate) fn cases_of(alloc: Global, text: &str) -> Result<Vec<Case>, RowsFault> {
    let mut cases = Vec::new(alloc);
    let mut reader: Option<Reader> = None;
    let mut number = 0usize;
    for line in text.lines() {
        number = number.saturating_add(1);
        if let Some(name) = line.strip_prefix("case ") {
            let next = Reader {
                case: Case::named(alloc, name.to_string(alloc)?),
                in_file: false,
                repeat: 1,
                from: 0,
            };
            if let Some(done) = reader.replace(next) {
                cases.push(done.case)?;
            }
        } else if let Some(reader) = &mut reader {
            if reader.take_line(alloc, line)?.is_none() {
                return Err(RowsFault::BadLine(number));
            }
        }
    }
    if let Some(done) = reader {
        cases.push(done.case)?;
    }
    Ok(cases)
}
