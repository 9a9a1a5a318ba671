// Text out: the lines of answers.
ghost use Rattle.std.specs.Prelude.{◌≡◌, OnOk, OnErr, length, ◌≤◌, ◌+◌, ◌++◌, decimal};
ghost use Rattle.std.specs.Io.KnownBytes.{Appends};
ghost use Rattle.byte_writer.specs.Bytes.{AppendsPart};
ghost use Rattle.queue_texts.specs.Text.{answer_text, reply_text};

use crate::item_text::text_of_item;
use arrayvec::ArrayVec;
use byte_writer::write_bytes;
use itoa::Buffer;
use pq_types::{Answer, Item, Part, Refusal, Reply};
use std::io;
use std::io::Write;

// Room for the line of an answer, of which the longest has 69 bytes, and for a journal line.
pub(crate) const LONGEST: usize = 160;

// Puts the bytes behind the line so far.
pub(crate) fn append(line: &mut ArrayVec<u8, LONGEST>, bytes: &[u8])
    requires { length line.old.items + length bytes.now ≤ LONGEST }
    ensures { line.new.items ≡ line.old.items ++ bytes.now }
{
    line.try_extend_from_slice(bytes).unwrap();
}

// Puts the number behind the line so far, in decimal digits.
pub(crate) fn append_number(line: &mut ArrayVec<u8, LONGEST>, number: u64)
    requires { length line.old.items + 20 ≤ LONGEST }
    ensures text { line.new.items ≡ line.old.items ++ decimal number }
    ensures room { length line.new.items ≤ length line.old.items + 20 }
{
    append(line, Buffer::new().format(number).as_bytes());
}

// Puts the reply behind the line so far.
pub(crate) fn append_reply<P: Part>(line: &mut ArrayVec<u8, LONGEST>, reply: &Reply<Item<P>>)
    requires { length line.old.items + 47 ≤ LONGEST }
    ensures text { line.new.items ≡ line.old.items ++ reply_text reply.now }
    ensures room { length line.new.items ≤ length line.old.items + 47 }
{
    match reply {
        Reply::Pushed => append(line, b"pushed"),
        Reply::Got(item) => {
            append(line, b"got ");
            append(line, text_of_item(item).as_slice());
        }
        Reply::Least(item) => {
            append(line, b"least ");
            append(line, text_of_item(item).as_slice());
        }
        Reply::Empty => append(line, b"empty"),
    }
}

// The line of an answer.
fn line_of<P: Part>(answer: &Answer<Item<P>>) -> ArrayVec<u8, LONGEST>
    ensures { result.items ≡ answer_text answer.now }
{
    let mut line = ArrayVec::new();
    match answer {
        Answer::Entered(number, reply) => {
            append_number(&mut line, *number);
            append(&mut line, b" ");
            append_reply(&mut line, reply);
            append(&mut line, b"\n");
        }
        Answer::BookFull => append(&mut line, b"book full\n"),
        Answer::NoMemory => append(&mut line, b"no memory\n"),
        Answer::Refused(refusal) => match refusal.why() {
            Refusal::Shut => append(&mut line, b"queue shut\n"),
            Refusal::Unarchived => append(&mut line, b"unarchived\n"),
            Refusal::Full => append(&mut line, b"queue full\n"),
        },
    }
    line
}

/// Writes the line of an answer, ended by a line feed: `L pushed`, `L got P V`, `L least P V`, `L
/// empty`, `book full`, `no memory`, `queue shut`, `unarchived` or `queue full`, where L is the journal line, P the item's
/// priority and V its value. After a fault the writer holds a beginning of that line.
pub fn write_answer<P: Part, W: Write>(answer: &Answer<Item<P>>, writer: &mut W) -> io::Result<()>
    ensures ok { OnOk result (Appends (W.contents writer.old) (W.contents writer.new) (answer_text answer.now)) }
    ensures err { OnErr result (AppendsPart (W.contents writer.old) (W.contents writer.new) (answer_text answer.now)) }
{
    write_bytes(writer, line_of(answer).as_slice())
}
