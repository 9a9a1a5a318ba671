// Writes the journal of a queue down while it runs, by one of its members.
ghost use Rattle.std.specs.Prelude.{◌≡◌, ◌≤◌, ◌^◌, length, drop, true, IfOk, IfSome};
ghost use Rattle.queue_texts.specs.LineText.{journal_text};
ghost use Rattle.queue_load.specs.JournalWriter.{Begins, EndsSo, GoesOn, HasPut, StaysIdle};

use byte_writer::write_bytes;
use flat_queue::{Member, Queue};
use leftist_heap::Store;
use pq_book::Entry;
use pq_types::{GREATEST_NUMBER, Line, Part};
use queue_texts::append_line;
use std::alloc::{AllocError, Global};
use std::io::Write;

/// How many lines are written at once at most. No journal has so many that are not written yet.
const MOST_AT_ONCE: usize = 1 << 30;

/// How many lines of a journal are written down, until that failed.
#[derive(Clone, Copy)]
pub struct JournalWriter {
    pub written: u64,
    pub failed: bool,
}

// The text of these lines, of which the first has this number.
fn text_of_lines<P: Part>(
    alloc: Global,
    number: u64,
    lines: &[Line<P>],
) -> Result<Vec<u8>, AllocError>
    requires number { number ≤ 2 ^ 60 }
    requires few { length lines.now ≤ 2 ^ 60 }
    ensures { IfOk result (λ text. text.items ≡ journal_text number lines.now) }
{
    let mut text = Vec::new(alloc);
    let mut next = number;
    for line in lines {
        append_line(next, line, &mut text)?;
        next += 1;
    }
    Ok(text)
}

// Writes these lines behind those that are written; with them there are so many.
fn put<W: Write, P: Part>(
    alloc: Global,
    written: u64,
    page: &[Line<P>],
    lines: u64,
    writer: &mut W,
) -> JournalWriter
    requires { written ≤ 2 ^ 56 }
    ensures { HasPut result.failed (W.contents writer.old) (W.contents writer.new) written lines page.now result }
{
    let failed = JournalWriter {
        written,
        failed: true,
    };
    if page.len() > MOST_AT_ONCE {
        return failed;
    }
    let Ok(text) = text_of_lines(alloc, written + 1, page) else {
        return failed;
    };
    match write_bytes(writer, text.as_slice()) {
        Ok(()) => JournalWriter {
            written: lines,
            failed: false,
        },
        Err(_) => failed,
    }
}

// The lines of the journal behind the first so many, and how many there are in all: the member leads,
// copies them, and releases. None where the lock is held, or a line is forgotten, or memory refused.
fn lines_behind<S: Store<Entry<P>>, P: Part>(
    alloc: Global,
    queue: &Queue<S, P>,
    member: &mut Member<S, P>,
    written: u64,
) -> Option<(Vec<Line<P>>, u64)>
    requires queue { member.old.queue ≡ queue.now }
    ensures stays { StaysIdle member.old member.new }
    ensures some { IfSome result (λ found.
        (found.0.items ≡ drop written member.new.pen.known) × (found.1 ≡ length member.new.pen.known)) }
{
    let mut page = Vec::new(alloc);
    match queue.archive(member, written, &mut page) {
        Some(Ok(lines)) => Some((page, lines)),
        Some(Err(_)) => None,
        None => None,
    }
}

/// Writes down what the journal has behind the lines that are written. It fails where the lock is held,
/// where such a line is forgotten, and where memory or a write is refused; then no more is written.
pub fn write_down<S: Store<Entry<P>>, W: Write, P: Part>(
    alloc: Global,
    queue: &Queue<S, P>,
    member: &mut Member<S, P>,
    writing: JournalWriter,
    writer: &mut W,
) -> JournalWriter
    requires queue { member.old.queue ≡ queue.now }
    ensures stays { StaysIdle member.old member.new }
    ensures writes { GoesOn writing result (W.contents writer.old)
        (W.contents writer.new) member.old.pen.known member.new.pen.known }
{
    if writing.failed {
        return writing;
    }
    let Some((page, lines)) = lines_behind(alloc, queue, member, writing.written) else {
        return writing.stopped();
    };
    if writing.written > GREATEST_NUMBER {
        return writing.stopped();
    }
    put(alloc, writing.written, page.as_slice(), lines, writer)
}

impl JournalWriter {
    // The same, who writes no more.
    fn stopped(self) -> JournalWriter
        ensures failed { result.failed ≡ true }
        ensures written { result.written ≡ self.written }
    {
        JournalWriter {
            written: self.written,
            failed: true,
        }
    }

    /// One that has written nothing yet; or none, where no journal is to be written.
    #[tactic(auto, using(crate::proofs::JournalWriting::begins_so))]
    pub(crate) fn begins(is_asked: bool) -> JournalWriter
        ensures { Begins result }
    {
        JournalWriter {
            written: 0,
            failed: !is_asked,
        }
    }

    /// Whether the whole journal is written, which has so many lines in the end.
    #[tactic(auto, using(crate::proofs::JournalWriting::whole_if, crate::proofs::JournalWriting::part_if))]
    pub(crate) fn is_whole(&self, lines: u64) -> bool
        ensures { EndsSo self.now lines result }
    {
        if !self.failed && self.written == lines {
            return true;
        }
        false
    }
}
