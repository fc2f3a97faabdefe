// A case, and how it is run.
use fd_app::{Bytes, FileEntry, MemLibrary, MemSink, run};
use std::alloc::{AllocError, Global};
use std::fmt;
use std::fmt::{Display, Formatter};

/// A file that the library of a case holds.
#[derive(Drop)]
pub struct HeldFile {
    pub name: String,
    pub bytes: Vec<u8>,
}

/// What a run comes to: the bytes that the sink takes, and the exit status.
#[derive(Drop)]
pub struct Outcome {
    pub text: Vec<u8>,
    pub status: u8,
}

/// What is due where the file that a case cuts has this length or more.
#[derive(Drop)]
pub struct Due {
    pub from: usize,
    pub outcome: Outcome,
}

/// A read that fails in a run of its own.
#[derive(Drop)]
pub struct Ask {
    /// How many lines that are due stand before it.
    pub lines: u32,
    /// The file that it asks for.
    pub name: String,
}

/// What a run is given, and what it must come to.
#[derive(Drop)]
pub struct Case {
    pub name: String,
    pub words: Vec<String>,
    pub files: Vec<HeldFile>,
    /// The numbers of the reads that fail, from 1.
    pub failing_reads: Vec<u32>,
    /// The numbers of the writes that fail, from 1.
    pub failing_writes: Vec<u32>,
    /// All reads in order, where each fails too, in a run of its own.
    pub asks: Vec<Ask>,
    /// The file that has each shorter length too, in a run of its own.
    pub cut_file: Option<String>,
    /// Whether each write fails too, in a run of its own.
    pub has_each_write: bool,
    /// What is due; for the lengths of the file that is cut, by rising lengths.
    pub due: Vec<Due>,
}

impl Case {
    /// A case that gives and expects nothing.
    pub(crate) fn named(alloc: Global, name: String) -> Self {
        Case {
            name,
            words: Vec::new(alloc),
            files: Vec::new(alloc),
            failing_reads: Vec::new(alloc),
            failing_writes: Vec::new(alloc),
            asks: Vec::new(alloc),
            cut_file: None,
            has_each_write: false,
            due: Vec::new(alloc),
        }
    }

    /// Whether a file of this name is held.
    pub(crate) fn holds_file(&self, name: &str) -> bool {
        let mut holds = false;
        for file in &self.files {
            holds = holds || file.name.as_str() == name;
        }
        holds
    }

    fn is_cut(&self, file: &HeldFile) -> bool {
        match &self.cut_file {
            Some(name) => *name == file.name,
            None => false,
        }
    }

    /// The lengths that the file which is cut has besides its own: as many, from 0.
    pub(crate) fn shorter_lengths(&self) -> usize {
        let mut length = 0;
        for file in &self.files {
            if self.is_cut(file) {
                length = file.bytes.len();
            }
        }
        length
    }

    /// How many writes fail in runs of their own: as many as lines are due.
    pub(crate) fn writes(&self) -> usize {
        match self.due_at(usize::MAX) {
            Some(due) if self.has_each_write => line_feeds(due.text.as_slice()),
            _ => 0,
        }
    }

    /// How many reads fail in runs of their own: each that the case names, and one more, which doesn't come.
    pub(crate) fn reads(&self) -> usize {
        match self.asks.len() {
            0 => 0,
            count => count.saturating_add(1),
        }
    }

    /// How many runs the case has: as it stands, with each shorter length, with each write and with each read failing.
    pub(crate) fn runs(&self) -> usize {
        self.shorter_lengths()
            .saturating_add(self.writes())
            .saturating_add(self.reads())
            .saturating_add(1)
    }

    // The read of this number, from 1.
    fn ask_at(&self, number: u32) -> Option<&Ask> {
        self.asks.get((number as usize).checked_sub(1)?)
    }

    fn due_at(&self, length: usize) -> Option<&Outcome> {
        let mut found = None;
        for due in &self.due {
            if due.from <= length {
                found = Some(&due.outcome);
            }
        }
        found
    }

    /// Whether an outcome is the one that is due in a run.
    pub(crate) fn is_due(&self, how: How, outcome: &Outcome) -> bool {
        let Some(due) = self.due_at(how.length) else {
            return false;
        };
        if let Some(number) = how.failing_write {
            return outcome.status == 5
                && outcome.text.as_slice() == lines_before(&due.text, number);
        }
        match self.ask_at(how.failing_read.unwrap_or(0)) {
            Some(ask) => {
                let front = lines_before(&due.text, ask.lines.saturating_add(1));
                outcome.status == 4 && is_failed_read(&outcome.text, front, ask.name.as_bytes())
            }
            None => outcome.status == due.status && outcome.text == due.text,
        }
    }
}

// Whether a text is these lines and the record of a read of this name that failed.
fn is_failed_read(text: &[u8], front: &[u8], name: &[u8]) -> bool {
    let Some(record) = text.strip_prefix(front) else {
        return false;
    };
    let Some(rest) = record.strip_prefix(b"fault,read,") else {
        return false;
    };
    match rest.strip_prefix(name) {
        Some(end) => end == b"\n".as_slice(),
        None => false,
    }
}

fn line_feeds(text: &[u8]) -> usize {
    let mut count = 0usize;
    for byte in text {
        if *byte == b'\n' {
            count = count.saturating_add(1);
        }
    }
    count
}

// The lines of a text before the one of this number, from 1.
fn lines_before(text: &[u8], number: u32) -> &[u8] {
    let mut line = 1u32;
    let mut length = 0usize;
    for byte in text {
        if line >= number {
            break;
        }
        length = length.saturating_add(1);
        if *byte == b'\n' {
            line = line.saturating_add(1);
        }
    }
    text.get(..length).unwrap_or(text)
}

/// How a case is run.
#[derive(Clone, Copy)]
pub struct How {
    /// The file that is cut has at most this length.
    pub length: usize,
    /// The read that fails in place of those that the case names.
    pub failing_read: Option<u32>,
    /// The write that fails in place of those that the case names.
    pub failing_write: Option<u32>,
}

impl How {
    /// As the case stands.
    pub(crate) fn whole() -> Self {
        How {
            length: usize::MAX,
            failing_read: None,
            failing_write: None,
        }
    }
}

impl Display for How {
    fn fmt<W: fmt::Write>(&self, f: &mut Formatter<W>) -> fmt::Result {
        if let Some(number) = self.failing_write {
            return write!(f, "write {number}");
        }
        match self.failing_read {
            Some(number) => write!(f, "read {number}"),
            None if self.length == usize::MAX => f.write_str("whole"),
            None => write!(f, "length {}", self.length),
        }
    }
}

// The files, that which is cut with at most this length.
fn entries_of(alloc: Global, case: &Case, length: usize) -> Result<Vec<FileEntry>, AllocError> {
    let mut entries = Vec::new(alloc);
    for file in &case.files {
        let name = file.name.as_bytes().to_vec(alloc)?;
        let mut bytes = file.bytes.as_slice().to_vec(alloc)?;
        if case.is_cut(file) {
            bytes.truncate(length);
        }
        entries.push(FileEntry {
            name: Bytes::new(name),
            bytes: Bytes::new(bytes),
        })?;
    }
    Ok(entries)
}

// The numbers of the calls that fail: these, or the one in their place.
fn failing(alloc: Global, named: &[u32], one: Option<u32>) -> Result<Vec<u32>, AllocError> {
    let Some(number) = one else {
        return named.to_vec(alloc);
    };
    let mut numbers = Vec::new(alloc);
    numbers.push(number)?;
    Ok(numbers)
}

/// Runs a case over memory.
pub(crate) fn outcome_of(alloc: Global, case: &Case, how: How) -> Result<Outcome, AllocError> {
    let entries = entries_of(alloc, case, how.length)?;
    let failing_reads = failing(alloc, &case.failing_reads, how.failing_read)?;
    let failing_writes = failing(alloc, &case.failing_writes, how.failing_write)?;
    let mut lib = MemLibrary::new(alloc, entries, failing_reads);
    let mut out = MemSink::new(alloc, failing_writes);
    let status = run(alloc, case.words.as_slice(), &mut lib, &mut out);
    let text = out.bytes().to_vec(alloc)?;
    Ok(Outcome { text, status })
}
