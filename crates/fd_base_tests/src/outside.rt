// Files, readers, writers and records in memory.
use crate::checks::{same, same_at};
use dss_script::{
    Bytes, FileEntry, FolderLibrary, Found, LibFault, MemLibrary, MemSink, NeverFails, Record,
    SinkFault, StdSink, SystemTape, emit, read_opened,
};
use fd_gen::{Library, Sink};
use std::alloc::{AllocError, Global};
use std::io::{ErrorKind, Read, Write};
use std::process::Abort;
use std::test::Fail;
use std::{fs, io};

fn entry(alloc: Global, name: &[u8], text: &[u8]) -> Result<FileEntry, AllocError> {
    Ok(FileEntry {
        name: Bytes::new(name.to_vec(alloc)?),
        bytes: Bytes::new(text.to_vec(alloc)?),
    })
}

// Asserts what a library answers of a name: bytes, none, or a fault.
fn check_answer(
    rt: &impl Abort,
    name: &str,
    answer: Result<Found, LibFault>,
    due: Result<Option<&[u8]>, LibFault>,
) {
    let found = match &answer {
        Ok(Found::Bytes(bytes)) => Ok(Some(bytes.as_slice())),
        Ok(Found::Absent) => Ok(None),
        Err(fault) => Err(*fault),
    };
    same_at(rt, name, found, due);
}

const TEXT: &[u8] = b"New Circuit.c basekv=1";

// Gives one byte of TEXT at a time. Every second read is interrupted, and the read of this number fails.
#[derive(Drop)]
struct Drip {
    given: usize,
    reads: u32,
    failing: u32,
}

impl Read for Drip {
    fn read(&mut self, buf: &mut [u8]) -> io::Result<usize> {
        self.reads = self.reads.wrapping_add(1);
        if self.reads == self.failing {
            return Err(io::Error::from(ErrorKind::BrokenPipe));
        }
        if self.reads % 2 == 0 {
            return Err(io::Error::from(ErrorKind::Interrupted));
        }
        if buf.is_empty() || self.given >= TEXT.len() {
            return Ok(0);
        }
        buf[0] = TEXT[self.given];
        self.given += 1;
        Ok(1)
    }
}

fn drip_until(failing: u32) -> Drip {
    Drip {
        given: 0,
        reads: 0,
        failing,
    }
}

// Takes three bytes at most. Every second write is interrupted, and the write of this number fails.
#[derive(Drop)]
struct Sip {
    taken: Vec<u8>,
    writes: u32,
    failing: u32,
}

impl Write for Sip {
    fn write(&mut self, buf: &[u8]) -> io::Result<usize> {
        self.writes = self.writes.wrapping_add(1);
        if self.writes == self.failing {
            return Err(io::Error::from(ErrorKind::BrokenPipe));
        }
        if self.writes % 2 == 0 {
            return Err(io::Error::from(ErrorKind::Interrupted));
        }
        let count = buf.len().min(3);
        self.taken.extend_from_slice(&buf[..count])?;
        Ok(count)
    }

    fn flush(&mut self) -> io::Result<()> {
        Ok(())
    }
}

#[test]
fn a_folder_gives_its_files_whole(rt: HostRuntime) -> Result<(), Fail> {
    let alloc = rt.alloc();
    let mut text = Vec::new(alloc);
    for i in 0..10_000u32 {
        text.push((i % 251) as u8)?;
    }
    fs::write(&rt, "m.dss", text.as_slice())?;
    let mut lib = FolderLibrary::new(rt);
    check_answer(&rt, "m.dss", lib.read(alloc, "m.dss"), Ok(Some(&text)));
    check_answer(&rt, "n.dss", lib.read(alloc, "n.dss"), Ok(None));
    for name in [".", "m.dss/x"] {
        check_answer(&rt, name, lib.read(alloc, name), Err(LibFault::Failed));
    }
    Ok(())
}

#[test]
fn readers_go_on_in_parts(rt: HostRuntime) {
    let mut system = SystemTape::new();
    let whole = read_opened(rt.alloc(), &mut system, "whole", Ok(drip_until(0)));
    check_answer(&rt, "the whole", whole, Ok(Some(TEXT)));
    let part = read_opened(rt.alloc(), &mut system, "part", Ok(drip_until(9)));
    check_answer(&rt, "a part", part, Err(LibFault::Failed));
}

// What a Sip whose write of this number fails answers to TEXT, and what it has taken.
fn sipped(alloc: Global, failing: u32) -> (Result<(), SinkFault>, Vec<u8>) {
    let mut sip = Sip {
        taken: Vec::new(alloc),
        writes: 0,
        failing,
    };
    let answer = StdSink::new(&mut sip).write(alloc, TEXT);
    (answer, sip.taken)
}

#[test]
fn writers_go_on_in_parts(rt: HostRuntime) {
    let alloc = rt.alloc();
    let (whole, taken) = sipped(alloc, 0);
    same(&rt, whole, Ok(()));
    same(&rt, taken.as_slice(), TEXT);
    let (part, taken) = sipped(alloc, 5);
    same(&rt, part, Err(SinkFault::Failed));
    same(&rt, taken.as_slice(), &TEXT[..6]);
    same(&rt, StdSink::new(rt.stdout()).write(alloc, b""), Ok(()));
}

#[test]
fn reads_fail_where_they_are_told(rt: HostRuntime) -> Result<(), Fail> {
    let alloc = rt.alloc();
    let mut plain = NeverFails::new(vec![in alloc; entry(alloc, b"m.dss", b"Clear\n")?]?);
    check_answer(
        &rt,
        "m.dss",
        plain.read(alloc, "m.dss"),
        Ok(Some(b"Clear\n")),
    );
    let files = vec![in alloc;
        entry(alloc, b"a", b"first")?,
        entry(alloc, b"a", b"second")?,
    ]?;
    let mut lib = MemLibrary::new(alloc, files, vec![in alloc; 2]?);
    check_answer(&rt, "a", lib.read(alloc, "a"), Ok(Some(b"first")));
    check_answer(&rt, "a", lib.read(alloc, "a"), Err(LibFault::Failed));
    Ok(())
}

fn record(alloc: Global, text: &[u8]) -> Result<Record, AllocError> {
    Ok(Record {
        bytes: Bytes::new(text.to_vec(alloc)?),
    })
}

#[test]
fn writes_fail_where_they_are_told(rt: HostRuntime) -> Result<(), Fail> {
    let alloc = rt.alloc();
    let records = vec![in alloc; record(alloc, b"one")?, record(alloc, b"two")?]?;
    let mut out = MemSink::new(alloc, vec![in alloc; 4]?);
    same(&rt, emit(alloc, &records, &mut out), Ok(()));
    same(&rt, emit(alloc, &records, &mut out), Err(SinkFault::Failed));
    same(&rt, out.bytes(), b"onetwoone".as_slice());
    same(&rt, out.ends(), &[3, 6, 9, 9]);
    Ok(())
}
