// The structs that a C program reads, and its numbers.
ghost use Rattle.std.specs.Prelude.{◌≡◌, ℕ};
ghost use Rattle.pq_types.specs.Item.{item};
ghost use Rattle.pq_types.specs.Control.{reply_item};
ghost use Rattle.queue_c.specs.Plain.{request_of, reply_number, operation_number, operation_item, operation_ticket};
ghost use Rattle.queue_c.specs.Plain.{or_zeros, told, told_item, told_answer, told_line, refusal_number};

use pq_types::{Answer, Done, Item, Line, Operation, Refusal, Reply, Request};

/// An item.
#[repr(C)]
#[derive(Clone, Copy)]
pub struct PlainItem {
    pub priority: u64,
    pub value: u64,
}

/// An answer. The kinds: 0 pushed, 1 got, 2 found, 3 empty, 4 book full, 5 no memory left; and the refusals by the queue's rules:
/// 6 it is shut, 7 memory would forget a line that is not archived, 8 it has as many items as its bound. The line counts from 1,
/// and is 0 where the request has none; priority and value are 0 where no item is told. A call that carried requests out, and
/// owes a wake behind them to one who waits for an item, says so by 1.
#[repr(C)]
#[derive(Clone, Copy)]
pub struct PlainAnswer {
    pub kind: u32,
    pub owes_wake: u32,
    pub line: u64,
    pub priority: u64,
    pub value: u64,
}

/// A line of the journal. The requests: 0 push, 1 pop, 2 least, 3 the removal of the item with this ticket, which is 0 else, 4
/// its move to this priority, with 0 for a value, 5 the shut of the queue, to which the reply is that of an empty one; the
/// replies are the first four kinds of answers.
#[repr(C)]
#[derive(Clone, Copy)]
pub struct PlainLine {
    pub serial: u64,
    pub place: u32,
    pub request: u32,
    pub priority: u64,
    pub value: u64,
    pub reply: u32,
    pub reply_priority: u64,
    pub reply_value: u64,
    pub ticket: u64,
}

/// What is told where there is no item.
pub fn no_item() -> Item<u64>
    ensures { result ≡ item 0 0 }
{
    Item::of_parts(0, 0)
}

/// The kind of a reply, and its item, or zeros.
pub fn told_reply(reply: Reply<Item<u64>>) -> (u32, Item<u64>)
    ensures number { result.0 ≡ reply_number reply }
    ensures item { result.1 ≡ or_zeros (reply_item reply) }
{
    match reply {
        Reply::Pushed => (0, no_item()),
        Reply::Got(item) => (1, item),
        Reply::Least(item) => (2, item),
        Reply::Empty => (3, no_item()),
    }
}

/// The kind of an operation, its item and its ticket, or zeros.
pub fn told_operation(operation: &Operation<u64>) -> (u32, Item<u64>, u64)
    ensures number { result.0 ≡ operation_number operation.now }
    ensures item { result.1 ≡ or_zeros (operation_item operation.now) }
    ensures ticket { result.2 ≡ operation_ticket operation.now }
{
    match &operation.done {
        Done::Push(item) => (0, *item, 0),
        Done::Pop => (1, no_item(), 0),
        Done::Least => (2, no_item(), 0),
        Done::Remove(ticket) => (3, no_item(), *ticket),
        Done::Move(priority, ticket) => (4, Item::of_parts(*priority, 0), *ticket),
        Done::Shut => (5, no_item(), 0),
    }
}

/// The kind of an answer, its line and its item, or zeros.
pub fn answer_parts(answer: Answer<Item<u64>>) -> (u32, u64, Item<u64>)
    ensures { (wake : ℕ) → told wake result.0 result.1 result.2 ≡ told_answer wake answer }
{
    match answer {
        Answer::Entered(line, reply) => {
            let (kind, item) = told_reply(reply);
            (kind, line, item)
        }
        Answer::BookFull => (4, 0, no_item()),
        Answer::NoMemory => (5, 0, no_item()),
        Answer::Refused(refusal) => (refusal_number(refusal.why()), 0, no_item()),
    }
}

// The kind of an answer by which the queue's rules refuse.
fn refusal_number(refusal: Refusal) -> u32
    ensures { result ≡ refusal_number refusal }
{
    match refusal {
        Refusal::Shut => 6,
        Refusal::Unarchived => 7,
        Refusal::Full => 8,
    }
}

/// The request of this number that a C program may post, with this item where it is a push.
pub fn request_of(number: u32, item: Item<u64>) -> Option<Request<Item<u64>>>
    ensures { result ≡ request_of number item }
{
    match number {
        0 => Some(Request::Push(item)),
        1 => Some(Request::Pop),
        _ => None,
    }
}

/// The item for C.
pub fn tell_item(item: &Item<u64>) -> PlainItem
    ensures { result ≡ told_item item.now }
{
    PlainItem {
        priority: item.priority,
        value: item.value,
    }
}

/// The answer for C, with this word on whether a wake is owed.
pub fn tell_answer(answer: &Answer<Item<u64>>, owes_wake: u32) -> PlainAnswer
    ensures { result ≡ told_answer owes_wake answer.now }
{
    let (kind, line, item) = answer_parts(*answer);
    PlainAnswer {
        kind,
        owes_wake,
        line,
        priority: item.priority,
        value: item.value,
    }
}

/// The line of a journal for C.
pub fn tell_line(line: &Line<u64>) -> PlainLine
    ensures { result ≡ told_line line.now }
{
    let (request, item, ticket) = told_operation(&line.operation);
    let (reply, told) = told_reply(line.reply);
    PlainLine {
        serial: line.serial,
        place: u32::from(line.place),
        request,
        priority: item.priority,
        value: item.value,
        reply,
        reply_priority: told.priority,
        reply_value: told.value,
        ticket,
    }
}
