// The text of a journal line.
ghost use Rattle.std.specs.Prelude.{◌≡◌, ◌≤◌, ◌+◌, ◌++◌, codes, length, OnOk, OnErr};
ghost use Rattle.queue_texts.specs.LineText.{line_text, operation_text, told_text};

use crate::answer_text::{LONGEST, append, append_number, append_reply};
use crate::item_text::text_of_item;
use arrayvec::ArrayVec;
use pq_types::{Done, Item, Line, Operation, Part, Reply};
use std::alloc::{AllocError, Allocator};

/// The longest line of a journal, without its line feed.
pub const LONGEST_ENTRY: usize = 160;

// Puts what the line did behind the line so far: a request, a removal, a move or a shut.
fn append_operation<P: Part>(line: &mut ArrayVec<u8, LONGEST>, operation: &Operation<P>)
    requires { length line.old.items + 46 ≤ LONGEST }
    ensures text { line.new.items ≡ line.old.items ++ operation_text operation.now }
    ensures room { length line.new.items ≤ length line.old.items + 46 }
{
    match &operation.done {
        Done::Push(item) => {
            append(line, b"push ");
            append(line, text_of_item(item).as_slice());
        }
        Done::Pop => append(line, b"pop"),
        Done::Least => append(line, b"least"),
        Done::Remove(ticket) => {
            append(line, b"remove ");
            append_number(line, *ticket);
        }
        Done::Move(priority, ticket) => {
            append(line, b"move ");
            append_number(line, *ticket);
            append(line, b" ");
            append_number(line, priority.as_u64());
        }
        Done::Shut => append(line, b"shut"),
    }
}

// Puts a space and the reply to it behind the line so far; of a shut it puts nothing.
fn append_told<P: Part>(
    line: &mut ArrayVec<u8, LONGEST>,
    operation: &Operation<P>,
    reply: &Reply<Item<P>>,
)
    requires { length line.old.items + 48 ≤ LONGEST }
    ensures text { line.new.items ≡ line.old.items ++ told_text operation.now reply.now }
    ensures room { length line.new.items ≤ length line.old.items + 48 }
{
    if matches!(&operation.done, Done::Shut) {
        return;
    }
    append(line, b" ");
    append_reply(line, reply);
}

// The text of the line with this number, and a line feed.
pub(crate) fn text_of<P: Part>(number: u64, line: &Line<P>) -> ArrayVec<u8, LONGEST>
    ensures { result.items ≡ line_text number line.now ++ codes "\n" }
{
    let mut text = ArrayVec::new();
    append_number(&mut text, number);
    append(&mut text, b" ");
    append_number(&mut text, u64::from(line.place));
    append(&mut text, b" ");
    append_number(&mut text, line.serial);
    append(&mut text, b" ");
    append_operation(&mut text, &line.operation);
    append_told(&mut text, &line.operation, &line.reply);
    append(&mut text, b"\n");
    text
}

/// Puts the text of the journal line with this number behind what is there, ended by a line feed:
/// number, place, serial, operation and reply, with one space between, as `7 3 2 push 5 1 pushed`,
/// `9 0 5 pop empty`, `12 0 6 remove 7 got 5 1`, `13 0 7 move 8 9 got 5 1` or `14 0 8 shut`. The move gives the item with
/// ticket 8, of priority 5 so far, priority 9. A shut has no reply. Where memory for it is refused, nothing is put there.
pub fn append_line<P: Part, A: Allocator>(
    number: u64,
    line: &Line<P>,
    text: &mut Vec<u8, A>,
) -> Result<(), AllocError>
    ensures ok { OnOk result (text.new.items ≡ text.old.items ++ (line_text number line.now ++ codes "\n")) }
    ensures err { OnErr result (text.new.items ≡ text.old.items) }
{
    text.extend_from_slice(text_of(number, line).as_slice())
}
