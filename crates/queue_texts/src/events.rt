// The line of text of an event of a walk.
ghost use Rattle.std.specs.Prelude.{◌≡◌, ◌≤◌, ◌+◌, ◌++◌, length, decimal, codes, if◌then◌else◌};
ghost use Rattle.queue_texts.specs.EventText.{seen_text, event_text};

use arrayvec::ArrayVec;
use itoa::Buffer;
use split_core::seen::Seen;

/// Room for the line of an event, of which the longest has 66 bytes.
const LINE_ROOM: usize = 96;

/// A line of text, kept on the stack.
pub type EventLine = ArrayVec<u8, LINE_ROOM>;

// Puts the bytes behind the line so far.
fn append(line: &mut EventLine, bytes: &[u8])
    requires { length line.old.items + length bytes.now ≤ LINE_ROOM }
    ensures { line.new.items ≡ line.old.items ++ bytes.now }
{
    line.try_extend_from_slice(bytes).unwrap();
}

// Puts the number behind the line so far, in decimal digits.
fn append_number(line: &mut EventLine, number: u64)
    requires { length line.old.items + 20 ≤ LINE_ROOM }
    ensures text { line.new.items ≡ line.old.items ++ decimal number }
    ensures room { length line.new.items ≤ length line.old.items + 20 }
{
    append(line, Buffer::new().format(number).as_bytes());
}

// Puts the place's number behind the line so far, after a word.
fn append_place(line: &mut EventLine, word: &[u8], place: u16)
    requires { length line.old.items + length word.now + 5 ≤ LINE_ROOM }
    ensures text { line.new.items ≡ line.old.items ++ word.now ++ decimal place }
    ensures room { length line.new.items ≤ length line.old.items + length word.now + 5 }
{
    append(line, word);
    append(line, Buffer::new().format(place).as_bytes());
}

// Puts what the comer did behind the line so far.
fn append_seen(line: &mut EventLine, seen: Seen)
    requires { length line.old.items + 60 ≤ LINE_ROOM }
    ensures text { line.new.items ≡ line.old.items ++ seen_text seen }
    ensures room { length line.new.items ≤ length line.old.items + 60 }
{
    match seen {
        Seen::Wrote(place) => append_place(line, b"writes ", place),
        Seen::SawOpen(place) => append_place(line, b"sees open ", place),
        Seen::Right(place, next) => {
            append_place(line, b"sees closed ", place);
            append_place(line, b" right ", next);
        }
        Seen::Closed(place) => append_place(line, b"closes ", place),
        Seen::Stopped(place) => append_place(line, b"stops ", place),
        Seen::Down(place, other, next) => {
            append(line, b"reads ");
            append_number(line, other);
            append_place(line, b" at ", place);
            append_place(line, b" down ", next);
        }
        Seen::Door {
            place,
            closed,
            over,
        } => {
            append_place(line, b"scans ", place);
            append(line, if closed { b" closed" } else { b" open" });
            append(line, if over { b" end" } else { b"" });
        }
    }
}

/// The line of an event that the comer of this id made: its id, what it did, and a line feed.
pub fn event_line(id: u64, seen: Seen) -> EventLine
    ensures { result.items ≡ event_text id seen }
{
    let mut line = ArrayVec::new();
    append_number(&mut line, id);
    append(&mut line, b" ");
    append_seen(&mut line, seen);
    append(&mut line, b"\n");
    line
}
