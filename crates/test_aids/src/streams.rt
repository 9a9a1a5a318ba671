// Readers and writers that give or take few bytes at once, fail once, and tell their bytes.
ghost use Rattle.std.specs.Prelude.{◌≡◌, ◌-◌, ◌↔◌, [], Some, IsTrue, IsErr, IsOk};
ghost use Rattle.std.specs.Io.{ReadsAtMost, WritesAtMost};
ghost use Rattle.std.specs.Io.KnownBytes.{Keeps, ReadConsumes, WriteAppends};
ghost use Rattle.test_aids.specs.Streams.{bytes_left, bytes_taken, FailsNext, IsFaultNext};

use std::alloc::Global;
use std::io;
use std::io::{Read, Write};

// Counts down to what happens once, and says whether it is now. At 0 it is over, or never was to
// come.
fn is_now(left: &mut u32) -> bool
    ensures now { IsTrue result ↔ (left.old ≡ 1) }
    ensures left { left.new ≡ left.old - 1 }
{
    let is_now = *left == 1;
    *left = left.saturating_sub(1);
    is_now
}

/// Gives at most `step` of its bytes a read, and one at least while there is one: a step of 0 is
/// taken for 1. Reads are counted from 1; the one with the number `fails_at` fails and gives
/// nothing, and those behind it go on. No read has the number 0.
///
/// It tells the bytes that are left, so that a theorem about a reader that tells its bytes has an
/// instance in which a read fails.
#[derive(Drop)]
pub struct SlowReader<'a> {
    bytes: &'a [u8],
    step: usize,
    reads: u32,
    until_fault: u32,
    kind: io::ErrorKind,
}

impl<'a> SlowReader<'a> {
    /// A reader that never fails.
    pub fn new(bytes: &'a [u8], step: usize) -> SlowReader<'a>
        ensures { bytes_left result ≡ bytes.now }
    {
        SlowReader::failing(bytes, step, 0, io::ErrorKind::Other)
    }

    /// A reader whose read with the number `fails_at` fails with an error of this kind.
    pub fn failing(
        bytes: &'a [u8],
        step: usize,
        fails_at: u32,
        kind: io::ErrorKind,
    ) -> SlowReader<'a>
        ensures { bytes_left result ≡ bytes.now }
    {
        SlowReader {
            bytes,
            step,
            reads: 0,
            until_fault: fails_at,
            kind,
        }
    }

    /// How many reads there were, the failed one with them.
    pub fn reads(&self) -> u32 {
        self.reads
    }

    /// How many bytes are left.
    pub fn left(&self) -> usize {
        self.bytes.len()
    }
}

impl Read for SlowReader<'_> {
    ghost remaining = { λ reader. Some (bytes_left reader) };

    fn read(&mut self, buf: &mut [u8]) -> io::Result<usize>
        ensures bound { ReadsAtMost result buf.new }
        ensures bytes { ReadConsumes (Some (bytes_left self.old)) (Some (bytes_left self.new)) result buf.new }
        ensures fails { IsErr result ↔ FailsNext self.old }
    {
        self.reads = self.reads.saturating_add(1);
        if is_now(&mut self.until_fault) {
            return Err(io::Error::from(self.kind));
        }
        let count = self.step.max(1).min(buf.len());
        self.bytes.read(&mut buf[..count])
    }
}

/// How a write fails.
#[derive(Clone, Copy)]
pub enum Fault {
    Error(io::ErrorKind),
    TakesNothing,
}

/// Takes at most `step` bytes a write, and one at least. Writes are counted from 1; the one with
/// the number `fails_at` meets the fault and takes nothing, and those behind it go on. No write has
/// the number 0.
///
/// It tells the bytes that it took.
#[derive(Drop)]
pub struct SlowWriter {
    bytes: Vec<u8>,
    step: usize,
    writes: u32,
    until_fault: u32,
    fault: Fault,
}

impl SlowWriter {
    /// A writer that meets the fault at the write with this number.
    pub fn failing(alloc: Global, step: usize, fails_at: u32, fault: Fault) -> SlowWriter
        ensures { bytes_taken result ≡ [] }
    {
        SlowWriter {
            bytes: Vec::new(alloc),
            step,
            writes: 0,
            until_fault: fails_at,
            fault,
        }
    }

    /// The bytes that it took.
    pub fn bytes(&self) -> &[u8]
        ensures { result.now ≡ bytes_taken self.now }
    {
        self.bytes.as_slice()
    }

    /// How many writes there were, the failed one with them.
    pub fn writes(&self) -> u32 {
        self.writes
    }
}

impl Write for SlowWriter {
    ghost contents = { λ writer. Some (bytes_taken writer) };

    fn write(&mut self, buf: &[u8]) -> io::Result<usize>
        ensures bound { WritesAtMost result buf.now }
        ensures bytes { WriteAppends (Some (bytes_taken self.old)) (Some (bytes_taken self.new)) result buf.now }
        ensures fails { IsFaultNext self.old → bytes_taken self.new ≡ bytes_taken self.old }
    {
        self.writes = self.writes.saturating_add(1);
        if is_now(&mut self.until_fault) {
            return match self.fault {
                Fault::Error(kind) => Err(io::Error::from(kind)),
                Fault::TakesNothing => Ok(0),
            };
        }
        let count = self.step.max(1).min(buf.len());
        self.bytes.write(&buf[..count])
    }

    fn flush(&mut self) -> io::Result<()>
        ensures bytes { Keeps (Some (bytes_taken self.old)) (Some (bytes_taken self.new)) }
        ensures ok { IsOk result }
    {
        Ok(())
    }
}
