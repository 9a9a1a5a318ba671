// A replay: each text is read as a journal line, and what it did is carried out on a Book.
ghost use Rattle.std.specs.Prelude.{◌≡◌, ◌+◌, ◌<◌, ◌++◌, ◌∷◌, ◌==◌, [], length, true, IfOk, IfErr, IfSome, IfNone, OnOk, OnErr, IsSome, IsTrue, IsFalse};
ghost use Rattle.pq_types.specs.Entry.{item_at, taken, reply_by};
ghost use Rattle.pq_types.specs.History.{entries_of, last_serial, journal_by, is_shut, EndsAtShut, IsHeard, MayDo, PutsIn};
ghost use Rattle.pq_book.specs.Book.{limits_of, KeepsTerms};
ghost use Rattle.pq_types.specs.declared.journal.TheConstants.{GREATEST_NUMBER};
ghost use Rattle.queue_texts.specs.Audit.{Breaks, IsLawful, breach_by};
ghost use Rattle.queue_texts.specs.LineText.{HasReplyOfItsKind};
ghost use Rattle.queue_texts.specs.Replay.{AreLastSerials, Follows, IsReplayed, Leaves, MayFollow, RefusesText, TakesText};

use crate::line_reading::{NumberedLine, read_line};
use crate::owned::Owned;
use crate::refusal::{Breach, Unlawful, widened};
use leftist_heap::TicketStore;
use pq_book::{Book, Entry};
use pq_types::laws::{law_one_more_line, law_shut};
use pq_types::{
    Answer, Done, GREATEST_NUMBER, Item, Line, Operation, Part, Reply, Request, Ticketed,
};
use std::alloc::{AllocError, Allocator};
use std::marker::Model;
use thiserror::Error;

/// How many places a journal may name: 0 to 65,535.
pub const PLACES: usize = 65_536;

/// Why a line was not replayed.
#[derive(Clone, Copy, Debug, PartialEq, Eq, Error)]
pub enum ReplayError {
    /// It is no line that may come next.
    #[error("{0}")]
    Unlawful(Unlawful),
    /// Memory for its item was refused.
    #[error("no memory")]
    NoMemory,
}

/// A line that was replayed, and whether its place had none before.
#[derive(Clone, Copy)]
pub(crate) struct PlayedLine<P: Part> {
    pub line: Line<P>,
    pub is_new_place: bool,
}

/// A journal that is read back from its text: what the lines so far did was carried out on an empty queue, removals, moves and
/// a shut too. A contract sees them all as a journal, which is a lawful one. Memory has the items that they leave, the last
/// 65,536 lines, and one serial for each of 65,536 places.
#[derive(Drop)]
pub struct Replay<S: TicketStore<Entry<P>>, A: Allocator, P: Part = u32> {
    book: Owned<Book<S, A, P>>,
    last: Vec<u64, A>,
}

impl<S: TicketStore<Entry<P>>, A: Allocator, P: Part> Model for Replay<S, A, P> {
    ghost use Rattle.queue_texts.specs.Replay.{IsReplayed, Replayed};

    ghost Value = { Replayed };

    ghost view = { λ r. record { journal = r.book.value.journal } };

    ghost invariant = { λ r. IsReplayed r.book.value r.last.items };
}

// The reply that the queue of one thread gives to the use of this ticket, behind the lines of the book.
fn due_by_ticket<S: TicketStore<Entry<P>>, A: Allocator, P: Part>(
    book: &Book<S, A, P>,
    ticket: u64,
) -> Reply<Item<P>>
    ensures { result ≡ taken (item_at ticket (entries_of book.now.journal)) }
{
    match book.item_at(ticket) {
        Some(item) => Reply::Got(item),
        None => Reply::Empty,
    }
}

// The reply that it gives to this operation.
fn due_reply<S: TicketStore<Entry<P>>, A: Allocator, P: Part>(
    book: &Book<S, A, P>,
    operation: &Operation<P>,
) -> Reply<Item<P>>
    ensures { result ≡ reply_by (entries_of book.now.journal) operation.now }
{
    match (&operation.done, book.first()) {
        (Done::Push(_), _) => Reply::Pushed,
        (Done::Pop, Some(first)) => Reply::Got(first),
        (Done::Least, Some(first)) => Reply::Least(first),
        (Done::Pop | Done::Least, None) => Reply::Empty,
        (Done::Remove(ticket) | Done::Move(_, ticket), _) => due_by_ticket(book, *ticket),
        (Done::Shut, _) => Reply::Empty,
    }
}

// How the line breaks the law where this reply is due, and it has another.
fn wrong_reply<P: Part>(line: &Line<P>, due: Reply<Item<P>>) -> Breach
    ensures { result ≡ breach_by line.now.operation line.now.reply due }
{
    let told = widened(line.reply);
    let due = widened(due);
    match line.operation.done {
        Done::Remove(ticket) => Breach::WrongRemoval { ticket, told, due },
        Done::Move(priority, ticket) => Breach::WrongMove {
            ticket,
            priority: priority.as_u64(),
            told,
            due,
        },
        _ => Breach::WrongReply { told, due },
    }
}

// Whether a shut refuses the operation behind the lines of the book.
fn is_barred<S: TicketStore<Entry<P>>, A: Allocator, P: Part>(
    book: &Book<S, A, P>,
    operation: &Operation<P>,
) -> bool
    ensures barred { IsTrue result → EndsAtShut operation.now × (is_shut book.now.journal ≡ true) }
    ensures heard { IsFalse result → IsHeard book.now.journal operation.now }
{
    book.is_shut() && operation.ends_at_shut()
}

// How the line breaks the law by its reply, where nothing else about it does.
fn reply_breach<S: TicketStore<Entry<P>>, A: Allocator, P: Part>(
    book: &Book<S, A, P>,
    found: &NumberedLine<P>,
) -> Option<Breach>
    requires kind { HasReplyOfItsKind found.now.line }
    requires due { found.now.number ≡ length book.now.journal + 1 }
    requires serial { last_serial found.now.line.place book.now.journal < found.now.line.serial }
    ensures some { IfSome result (λ breach. Breaks book.now.journal found.now.number found.now.line breach) }
    ensures none { IfNone result (found.now.line.reply ≡ reply_by (entries_of book.now.journal) found.now.line.operation) }
{
    let line = &found.line;
    let reply = due_reply(book, &line.operation);
    if line.reply != reply {
        return Some(wrong_reply(line, reply));
    }
    None
}

// How the line breaks the law behind the lines of the book.
fn breach_of<S: TicketStore<Entry<P>>, A: Allocator, P: Part>(
    book: &Book<S, A, P>,
    last: &[u64],
    found: &NumberedLine<P>,
) -> Option<Breach>
    requires serials { AreLastSerials last.now book.now.journal }
    requires kind { HasReplyOfItsKind found.now.line }
    ensures some { IfSome result (λ breach. Breaks book.now.journal found.now.number found.now.line breach) }
    ensures none { IfNone result (Follows book.now.journal found.now.number found.now.line) }
{
    let due = book.len() + 1;
    if found.number != due {
        return Some(Breach::WrongNumber {
            told: found.number,
            due,
        });
    }
    let line = &found.line;
    let before = last[usize::from(line.place)];
    if line.serial <= before {
        return Some(Breach::SerialFalls {
            place: line.place,
            serial: line.serial,
            last: before,
        });
    }
    if is_barred(book, &line.operation) {
        return Some(Breach::BehindShut {
            again: matches!(&line.operation.done, Done::Shut),
        });
    }
    reply_breach(book, found)
}

// Carries out what a line did, for its place and under its serial.
fn carried_out<S: TicketStore<Entry<P>>, A: Allocator, P: Part>(
    book: &mut Book<S, A, P>,
    place: u16,
    serial: u64,
    operation: &Operation<P>,
) -> Answer<Item<P>>
    requires { last_serial place book.old.journal < serial }
    ensures answer { MayDo (limits_of book.old) book.old.journal operation.now result }
    ensures journal { book.new.journal ≡ journal_by book.old.journal place serial operation.now result }
    ensures terms { KeepsTerms book.old book.new }
    ensures allowed { book.new.allowed ≡ book.old.allowed }
{
    match &operation.done {
        Done::Push(item) => book.apply(place, serial, Request::Push(*item)),
        Done::Pop => book.apply(place, serial, Request::Pop),
        Done::Least => book.apply(place, serial, Request::Least),
        Done::Remove(ticket) => book.apply_by_ticket(place, serial, Ticketed::remove(*ticket)),
        Done::Move(priority, ticket) => {
            book.apply_by_ticket(place, serial, Ticketed::reschedule(*ticket, *priority))
        }
        Done::Shut => book.apply_shut(place, serial),
    }
}

// Carries out what a line did that may come next, and so enters the line; where memory for its item is refused, nothing changes.
fn entered<S: TicketStore<Entry<P>>, A: Allocator, P: Part>(
    book: &mut Book<S, A, P>,
    last: &mut Vec<u64, A>,
    line: &Line<P>,
) -> Result<(), AllocError>
    requires kept { IsReplayed book.old last.old.items }
    requires next { Follows book.old.journal (length book.old.journal + 1) line.now }
    requires room { length book.old.journal < GREATEST_NUMBER }
    ensures kept { IsReplayed book.new last.new.items }
    ensures ok { OnOk result (book.new.journal ≡ book.old.journal ++ line.now ∷ []) }
    ensures err { OnErr result (book.new.journal ≡ book.old.journal) }
    ensures refused { OnErr result (PutsIn line.now.operation) }
{
    law_one_more_line();
    law_shut();
    match carried_out(book, line.place, line.serial, &line.operation) {
        Answer::Entered(_, _) => {}
        Answer::BookFull | Answer::Refused(_) => unreachable!(),
        Answer::NoMemory => return Err(AllocError),
    }
    last[usize::from(line.place)] = line.serial;
    Ok(())
}

// Reads the text as the line that comes next, and enters it.
fn played<S: TicketStore<Entry<P>>, A: Allocator, P: Part>(
    book: &mut Book<S, A, P>,
    last: &mut Vec<u64, A>,
    text: &[u8],
) -> Result<PlayedLine<P>, ReplayError>
    requires { IsReplayed book.old last.old.items }
    ensures kept { IsReplayed book.new last.new.items }
    ensures ok { IfOk result (λ played. MayFollow P.wide book.old.journal text.now played.line
        × (book.new.journal ≡ book.old.journal ++ played.line ∷ [])
        × (played.is_new_place ≡ (last_serial played.line.place book.old.journal == 0))) }
    ensures err { IfErr result (λ error. RefusesText P.wide book.old.journal text.now error) }
    ensures same { OnErr result (book.new.journal ≡ book.old.journal) }
{
    let found = match read_line::<P>(text) {
        Ok(found) => found,
        Err(error) => return Err(ReplayError::Unlawful(Unlawful::NoLine(error))),
    };
    if let Some(breach) = breach_of(book, last.as_slice(), &found) {
        return Err(ReplayError::Unlawful(Unlawful::Broken(breach)));
    }
    let is_new_place = last[usize::from(found.line.place)] == 0;
    match entered(book, last, &found.line) {
        Ok(()) => Ok(PlayedLine {
            line: found.line,
            is_new_place,
        }),
        Err(AllocError) => Err(ReplayError::NoMemory),
    }
}

impl<S: TicketStore<Entry<P>>, A: Allocator + Clone, P: Part> Replay<S, A, P> {
    /// A replay of no lines, over an empty store. All memory but the store's is taken here: 40 bytes for each of 65,536 lines, 64
    /// where items are wide, and 8 for each place.
    pub fn new(alloc: &A, store: S) -> Result<Self, AllocError>
        requires { S.content store ≡ [] }
        ensures { IfOk result (λ replay. replay.journal ≡ []) }
    {
        let Ok(book) = Book::lasting(alloc.clone()?, store, GREATEST_NUMBER) else {
            return Err(AllocError);
        };
        let last = vec![in alloc.clone()?; 0u64; PLACES]?;
        Ok(Replay {
            book: Owned { value: book },
            last,
        })
    }
}

impl<S: TicketStore<Entry<P>>, A: Allocator, P: Part> Replay<S, A, P> {
    /// Reads a text without its line feed as the line that comes next, and carries out what it did. The journal gains that line,
    /// and stays a lawful one; where the text is refused, it is as it was. `Unlawful` says why the text is no line that may
    /// come next: no line; or one whose number isn't due, whose serial isn't above the last of its place, or whose reply isn't that of
    /// the queue of one thread; or a push, or another shut, where the queue is shut. `NoMemory` refuses one that may, a push or a move.
    pub fn play_line(&mut self, text: &[u8]) -> Result<(), ReplayError>
        ensures ok { OnOk result (TakesText P.wide self.old.journal text.now self.new.journal) }
        ensures err { IfErr result (λ error. RefusesText P.wide self.old.journal text.now error) }
        ensures same { OnErr result (self.new ≡ self.old) }
        ensures lawful { IsLawful self.new.journal }
    {
        match self.play(text) {
            Ok(_) => Ok(()),
            Err(error) => Err(error),
        }
    }

    // The same, with the line that was read.
    pub(crate) fn play(&mut self, text: &[u8]) -> Result<PlayedLine<P>, ReplayError>
        ensures ok { IfOk result (λ played. MayFollow P.wide self.old.journal text.now played.line
            × (self.new.journal ≡ self.old.journal ++ played.line ∷ [])
            × (played.is_new_place ≡ (last_serial played.line.place self.old.journal == 0))) }
        ensures err { IfErr result (λ error. RefusesText P.wide self.old.journal text.now error) }
        ensures same { OnErr result (self.new ≡ self.old) }
        ensures lawful { IsLawful self.new.journal }
    {
        let Replay { book, last } = self;
        played(&mut book.value, last, text)
    }

    /// How many lines were replayed.
    pub fn len(&self) -> u64
        ensures { result ≡ length self.now.journal }
    {
        self.book.value.len()
    }

    /// What the lines leave: the store, which holds the items that are in the queue then, how many lines came before those that
    /// are kept, and these, the last 65,536. The replay is handed over in a place, which is empty then, as a Book is.
    #[tactic(auto, unfolding(pq_book::specs::Pages::long_page))]
    pub fn take_parts(place: &mut Option<Self>) -> (S, u64, Vec<Line<P>, A>)
        requires { IsSome place.old }
        ensures { IfSome place.old (λ replay. Leaves replay.journal (S.content result.0) result.1 result.2.items) }
    {
        let Some(replay) = place.take() else {
            unreachable!()
        };
        let Replay { book, last: _ } = replay;
        Book::take_parts(&mut Some(book.value))
    }
}
