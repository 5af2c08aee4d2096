//! Runs of `syned` over readers and writers that fail at one place, and over a reader without end.
ghost use Rattle.std.specs.Prelude.{◌≡◌, IfOk};

use std::alloc::{AllocError, Global};
use std::io::{self, ErrorKind, Read, Write};
use syned_run::run;

// How many bytes one read gives at most, and one write takes.
const SHORT: usize = 7;

// What a reader or a writer does at the place where it fails.
#[derive(Clone, Copy, Debug)]
enum Fault {
    Failing,
    Interrupted,
    Empty,
}

impl Fault {
    fn count(self) -> io::Result<usize>
        ensures { IfOk result (λ n. n ≡ 0) }
    {
        match self {
            Fault::Failing => Err(io::Error::from(ErrorKind::Other)),
            Fault::Interrupted => Err(io::Error::from(ErrorKind::Interrupted)),
            Fault::Empty => Ok(0),
        }
    }
}

// Gives a text in short reads, again and again if it is endless, and fails once it gave as many as it is to.
#[derive(Drop)]
struct Reader<'a> {
    text: &'a [u8],
    rest: &'a [u8],
    is_endless: bool,
    reads: usize,
    fault: Fault,
    given: usize,
}

impl<'a> Reader<'a> {
    fn new(text: &'a str, reads: usize, fault: Fault) -> Reader<'a> {
        Reader {
            text: text.as_bytes(),
            rest: text.as_bytes(),
            is_endless: false,
            reads,
            fault,
            given: 0,
        }
    }
}

impl Read for Reader<'_> {
    fn read(&mut self, buf: &mut [u8]) -> io::Result<usize> {
        if self.reads == 0 {
            return self.fault.count();
        }
        self.reads -= 1;
        if self.is_endless && self.rest.is_empty() {
            self.rest = self.text;
        }
        let count = self.rest.len().min(buf.len()).min(SHORT);
        buf[..count].copy_from_slice(&self.rest[..count]);
        self.rest = &self.rest[count..];
        self.given = self.given.saturating_add(count);
        Ok(count)
    }
}

// Takes bytes in short writes, up to a limit.
#[derive(Drop)]
struct Writer {
    taken: Vec<u8>,
    limit: usize,
    fault: Fault,
}

impl Write for Writer {
    fn write(&mut self, buf: &[u8]) -> io::Result<usize> {
        let room = self.limit.saturating_sub(self.taken.len());
        let count = room.min(buf.len()).min(SHORT);
        if count == 0 {
            return self.fault.count();
        }
        self.taken.extend_from_slice(&buf[..count])?;
        Ok(count)
    }

    fn flush(&mut self) -> io::Result<()> {
        Ok(())
    }
}

/// How a run ended: its exit status, and what it wrote.
#[derive(Drop)]
pub struct Ended {
    pub status: u8,
    written: Vec<u8>,
}

impl Ended {
    // Over a writer that fails where so many bytes are taken.
    fn of(alloc: Global, reader: &mut Reader<'_>, limit: usize, fault: Fault) -> Ended {
        let mut writer = Writer {
            taken: Vec::new(alloc),
            limit,
            fault,
        };
        let status = run(alloc, reader, &mut writer);
        Ended {
            status,
            written: writer.taken,
        }
    }

    /// A run without a failure. Its reader fails if more is read than up to its end.
    pub fn of_script(alloc: Global, script: &str) -> Ended {
        let mut reader = Reader::new(script, reads_of(script), Fault::Failing);
        Ended::of(alloc, &mut reader, usize::MAX, Fault::Failing)
    }

    /// The status, and what was written, each line after `> `.
    pub fn push(&self, alloc: Global, out: &mut String) -> Result<(), AllocError> {
        writeln!(out, "status {}", self.status)?;
        for line in String::from_utf8_lossy(alloc, &self.written)?.lines() {
            writeln!(out, "> {line}")?;
        }
        Ok(())
    }

    fn failed_with(&self, written: &[u8]) -> bool {
        self.status == 3 && self.written.as_slice() == written
    }
}

// The reads that a whole script takes, the one that finds its end among them.
fn reads_of(script: &str) -> usize {
    script.len().div_ceil(SHORT).saturating_add(1)
}

/// Lets each read and each write of a run fail in turn. Printed is how many of these runs ended as they must, with status 3 and nothing written,
/// or the beginning that the writer took.
pub fn push_ends(alloc: Global, out: &mut String, script: &str) -> Result<(), AllocError> {
    for fault in [Fault::Failing, Fault::Interrupted] {
        push_reads(alloc, out, script, fault)?;
    }
    let answer = Ended::of_script(alloc, script).written;
    for fault in [Fault::Failing, Fault::Interrupted, Fault::Empty] {
        push_writes(alloc, out, script, &answer, fault)?;
    }
    Ok(())
}

fn push_reads(
    alloc: Global,
    out: &mut String,
    script: &str,
    fault: Fault,
) -> Result<(), AllocError> {
    let needed = reads_of(script);
    let mut right = 0usize;
    for reads in 0..needed {
        let mut reader = Reader::new(script, reads, fault);
        if Ended::of(alloc, &mut reader, usize::MAX, fault).failed_with(&[]) {
            right = right.saturating_add(1);
        }
    }
    writeln!(out, "{fault:?} reads: {right} of {needed}")
}

fn push_writes(
    alloc: Global,
    out: &mut String,
    script: &str,
    answer: &[u8],
    fault: Fault,
) -> Result<(), AllocError> {
    let mut right = 0usize;
    for limit in 0..answer.len() {
        let mut reader = Reader::new(script, usize::MAX, fault);
        if Ended::of(alloc, &mut reader, limit, fault).failed_with(&answer[..limit]) {
            right = right.saturating_add(1);
        }
    }
    writeln!(out, "{fault:?} writes: {right} of {}", answer.len())
}

/// A run over the text again and again, which is no script: it is too long. One byte past the limit is taken, and no more.
pub fn push_endless(alloc: Global, out: &mut String, text: &str) -> Result<(), AllocError> {
    let mut reader = Reader::new(text, usize::MAX, Fault::Failing);
    reader.is_endless = true;
    let ended = Ended::of(alloc, &mut reader, usize::MAX, Fault::Failing);
    writeln!(out, "endless: {} bytes are read", reader.given)?;
    ended.push(alloc, out)
}
