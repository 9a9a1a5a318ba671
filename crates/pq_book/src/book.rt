// A store of items with the journal of what was done on it: memory holds the last lines of the journal, all
// of a short one, and a contract sees all of every one.
ghost use Rattle.std.specs.Prelude.{◌≡◌, ◌+◌, ◌-◌, ◌≢◌, ◌<◌, ◌≤◌, ◌↔◌, ◌⊎◌, [], ◌∷◌, ◌++◌, length};
ghost use Rattle.std.specs.Prelude.{map, drop, max, min, OnErr, OnOk, OnSome, IfOk, IfSome, IfNone, IsSome, IsErrOf};
ghost use Rattle.std.specs.List.{AllByRecursion};
ghost use Rattle.pq_types.specs.Queue.{IsPush, reply_to};
ghost use Rattle.pq_types.specs.Mail.{IsProperAnswerOf};
ghost use Rattle.pq_types.specs.History.{left, is_shut, IsLegal, SerialsRise, HeedsShut, IsAdmitted, MayDo, last_serial, journal_after, MayAnswer};
ghost use Rattle.pq_types.specs.Operation.{Asked};
ghost use Rattle.pq_book.specs.Book.{Volume, limits_of, IsPlain, KeepsTerms, IsBar, IsRoom, IsLongRoom, IsAnswerWithin, AllHaveRoom, MayDeal, dealing, book_code};
ghost use Rattle.pq_book.specs.Peak.{IsPeak, IsPeakWith, KeepsBound};
ghost use Rattle.pq_book.specs.Parts.{AreParts};
ghost use Rattle.pq_types.specs.Entry.{item_of, entries_after};
ghost use Rattle.pq_book.specs.Pages.{page_of, AreLast};
ghost use Rattle.leftist_heap.specs.Store.{first_of};

use crate::entry::Entry;
use crate::limit::page_of;
use crate::lines::{LastLines, LinesError};
use crate::pages::Journal;
use leftist_heap::{MOST_ITEMS, Store};
use pq_types::laws::{law_items_stay_in_range, law_one_more_line, law_request_is_proper, law_shut};
use pq_types::{
    Answer, GREATEST_NUMBER, Item, Line, MOST_LINES, Operation, Part, Refusal, Reply, Request,
};
use std::alloc::{AllocError, Allocator};
use std::marker::Model;
use thiserror::Error;
use wait_list::WaitList;

pub mod by_ticket;
pub mod shutting;
pub mod waiters;

/// Why there is no Book.
#[derive(Clone, Copy, Debug, PartialEq, Eq, Error)]
pub enum BookError {
    /// A journal that is kept whole has room for 1 to 1,048,576 lines, any other for 1 to 2^56.
    #[error("lines out of range")]
    LinesOutOfRange,
    /// Memory for the journal was refused.
    #[error("no memory")]
    NoMemory,
}

impl BookError {
    /// The number of this refusal: 5 or 6.
    pub fn code(&self) -> u32
        ensures { result ≡ book_code self.now }
    {
        match self {
            BookError::LinesOutOfRange => 5,
            BookError::NoMemory => 6,
        }
    }
}

/// A store of items and the journal of the operations that were carried out on it. Its store always holds
/// what the journal leaves on the empty queue, each item with the journal line that put it in; each line
/// has the reply of that queue, and the serials of each place rise strictly. No push stands after a shut,
/// and no beginning of the journal leaves more items than the bound. In memory is a page of the journal:
/// all lines of one with room for 1,048,576 at most, else the last 65,536. Beside it stands the list of
/// those who wait. A contract sees the limits, the whole journal and that list.
#[derive(Drop)]
pub struct Book<S: Store<Entry<P>>, A: Allocator, P: Part = u32> {
    store: S,
    journal: Journal<A, P>,
    room: u64,
    bound: u64,
    allowed: u64,
    // The lesser of `room` and `allowed`: with so many lines the journal takes no other.
    line_limit: u64,
    // The bound, or 0 where the queue is shut: with so many items it takes no push.
    push_limit: u64,
    shut: bool,
    peak: u64,
    waiters: WaitList,
}

impl<S: Store<Entry<P>>, A: Allocator, P: Part> Model for Book<S, A, P> {
    ghost use Rattle.std.specs.Prelude.{◌≡◌, min, if◌then◌else◌};
    ghost use Rattle.pq_book.specs.Book.{Volume, limits};
    ghost use Rattle.pq_types.specs.History.{is_shut};
    ghost use Rattle.pq_book.specs.Kept.{Kept};
    ghost use Rattle.pq_book.specs.Pages.{all, IsPaged};
    ghost use Rattle.pq_book.specs.Peak.{IsPeak};

    ghost Value = { Volume };

    ghost view = { λ b. record { room = b.room; bound = b.bound; allowed = b.allowed; journal = all b.journal; waiters = b.waiters } };

    ghost invariant = { λ b. Kept P.wide (S.content b.store) (all b.journal) (limits b.room b.bound b.allowed)
        × IsPaged b.room b.journal × IsPeak (all b.journal) b.peak × (b.shut ≡ is_shut (all b.journal))
        × (b.line_limit ≡ min b.room b.allowed) × (b.push_limit ≡ (if b.shut then 0 else b.bound)) };
}

impl<S: Store<Entry<P>>, A: Allocator, P: Part> Book<S, A, P> {
    /// A Book without lines over an empty store, with room for so many lines, 1 to 1,048,576, else
    /// `LinesOutOfRange`; its journal is kept whole. Else as `lasting`.
    pub fn new(alloc: A, store: S, lines: u32) -> Result<Self, BookError>
        requires { S.content store ≡ [] }
        ensures ok { IfOk result (λ book. (book.room ≡ lines) × (book.journal ≡ [])) }
        ensures plain { IfOk result IsPlain }
        ensures waiters { IfOk result (λ book. book.waiters ≡ []) }
        ensures in_range { IfOk result (λ _. IsRoom lines) }
        ensures out_of_range { IsErrOf result BookError.LinesOutOfRange ↔ (¬ (IsRoom lines)) }
    {
        if u64::from(lines) > MOST_LINES {
            return Err(BookError::LinesOutOfRange);
        }
        Book::lasting(alloc, store, u64::from(lines))
    }

    /// A Book without lines over an empty store, with room for so many lines, 1 to
    /// 72,057,594,037,927,936, else `LinesOutOfRange`; then `NoMemory` where memory was refused. All
    /// memory that the journal will ever need is taken and touched here: 40 bytes for each line that
    /// it keeps, 64 for one of wide items. Where there is no Book, the store is dropped.
    pub fn lasting(alloc: A, store: S, room: u64) -> Result<Self, BookError>
        requires { S.content store ≡ [] }
        ensures ok { IfOk result (λ book. (book.room ≡ room) × (book.journal ≡ [])) }
        ensures plain { IfOk result IsPlain }
        ensures waiters { IfOk result (λ book. book.waiters ≡ []) }
        ensures in_range { IfOk result (λ _. IsLongRoom room) }
        ensures out_of_range { IsErrOf result BookError.LinesOutOfRange ↔ (¬ (IsLongRoom room)) }
    {
        Book::limited(alloc, store, room, room.saturating_add(1), room)
    }

    /// As `lasting`, with a bound, the most items that pushes may leave; and with the number of lines that
    /// the journal may have until more are archived. That is `page_of` the room where the Book refuses rather
    /// than forget, the room where it forgets.
    pub fn limited(
        alloc: A,
        store: S,
        room: u64,
        bound: u64,
        allowed: u64,
    ) -> Result<Self, BookError>
        requires { S.content store ≡ [] }
        ensures ok { IfOk result (λ book. (book.room ≡ room) × (book.bound ≡ bound) × (book.allowed ≡ allowed) × (book.journal ≡ [])) }
        ensures waiters { IfOk result (λ book. book.waiters ≡ []) }
        ensures in_range { IfOk result (λ _. IsLongRoom room) }
        ensures out_of_range { IsErrOf result BookError.LinesOutOfRange ↔ (¬ (IsLongRoom room)) }
    {
        if room == 0 || room > GREATEST_NUMBER {
            return Err(BookError::LinesOutOfRange);
        }
        let Ok(journal) = Journal::new(alloc, page_of(room)) else {
            return Err(BookError::NoMemory);
        };
        Ok(Book {
            store,
            journal,
            room,
            bound,
            allowed,
            line_limit: room.min(allowed),
            push_limit: bound,
            shut: false,
            peak: 0,
            waiters: WaitList::new(),
        })
    }

    /// Carries a request out and enters it in the journal; where the page is full, its oldest line is
    /// forgotten. Journal and limits decide whether it is refused, and why: `MayDo` has the order. Else it answers NoMemory only
    /// to a push: one for which the store could not grow, or which found 4,294,967,295 items in it. After
    /// a refusal nothing has changed. Over stores that all have room for as many items as the
    /// journal has lines, as `ReservedHeap`, it never answers NoMemory; nor, in a lasting journal too,
    /// while they all have room for one item more than the journal leaves. It takes no memory but the
    /// store's. The serial is above each one that the place has in the journal.
    #[inline(always)]
    pub fn apply(&mut self, place: u16, serial: u64, request: Request<Item<P>>) -> Answer<Item<P>>
        requires { last_serial place self.old.journal < serial }
        ensures answer { MayAnswer (limits_of self.old) self.old.journal request result }
        ensures journal { self.new.journal ≡ journal_after self.old.journal place serial request result }
        ensures terms { KeepsTerms self.old self.new }
        ensures allowed { self.new.allowed ≡ self.old.allowed }
        ensures proper { IsProperAnswerOf P.wide result }
        ensures within { IsAnswerWithin P.wide self.old.room result }
        ensures memory { AllHaveRoom S.room self.old.room → result ≢ Answer.NoMemory }
        ensures spare { AllHaveRoom S.room (length (left self.old.journal) + 1) → result ≢ Answer.NoMemory }
        // A run of one dealing, of those that `law_every_run` speaks of.
        ensures run { MayDeal self.old.room self.old.bound self.old.journal
            (dealing self.old.allowed place serial request result ∷ []) self.new.journal }
    {
        law_one_more_line();
        law_shut();
        law_items_stay_in_range();
        law_request_is_proper(&request);
        if let Some(refused) = self.bar(&Operation::asked(request)) {
            return refused;
        }
        let number = self.journal.len() + 1;
        let asked = request;
        let Some(reply) = carried_out_within(&mut self.store, number, asked) else {
            return Answer::NoMemory;
        };
        let told = reply;
        self.journal.add(Line {
            serial,
            operation: Operation::asked(request),
            reply: told,
            place,
        });
        self.peak = peak_with(self.peak, self.store.len() as u64);
        Answer::Entered(number, reply)
    }

    // What refuses the operation, but for memory. Where nothing does, two comparisons say so, but of a shut.
    #[inline(always)]
    fn bar(&self, operation: &Operation<P>) -> Option<Answer<Item<P>>>
        ensures refused { IfSome result (λ answer. MayDo (limits_of self.now) self.now.journal operation.now answer × IsBar answer) }
        ensures admitted { IfNone result (IsAdmitted (limits_of self.now) self.now.journal operation.now) }
    {
        if self.journal.len() < self.line_limit {
            if operation.adds() {
                if (self.store.len() as u64) < self.push_limit {
                    return None;
                }
            } else if !operation.ends_at_shut() {
                return None;
            }
        }
        self.first_bar(operation)
    }

    // The same, by the first of these that is true.
    #[inline(always)]
    fn first_bar(&self, operation: &Operation<P>) -> Option<Answer<Item<P>>>
        ensures refused { IfSome result (λ answer. MayDo (limits_of self.now) self.now.journal operation.now answer × IsBar answer) }
        ensures admitted { IfNone result (IsAdmitted (limits_of self.now) self.now.journal operation.now) }
    {
        let lines = self.journal.len();
        if lines >= self.room {
            return Some(Answer::BookFull);
        }
        if self.shut && operation.ends_at_shut() {
            return Some(Answer::Refused(Refusal::Shut.padded()));
        }
        if lines >= self.allowed {
            return Some(Answer::Refused(Refusal::Unarchived.padded()));
        }
        if operation.adds() && self.store.len() as u64 >= self.bound {
            return Some(Answer::Refused(Refusal::Full.padded()));
        }
        None
    }

    /// The first so many lines are archived, or all where there are fewer. From now on the journal may have
    /// as many more as memory keeps. Enters nothing, and takes no memory.
    pub fn archived(&mut self, lines: u64)
        ensures allowed { self.new.allowed ≡ max self.old.allowed (min lines (length self.old.journal) + page_of self.old.room) }
        ensures journal { self.new.journal ≡ self.old.journal }
        ensures terms { KeepsTerms self.old self.new }
    {
        let archived = lines.min(self.journal.len());
        self.allowed = self.allowed.max(archived + page_of(self.room) as u64);
        self.line_limit = self.room.min(self.allowed);
    }

    /// Whether the queue is shut: whether the journal has a shut line. Enters nothing, and takes no memory.
    pub fn is_shut(&self) -> bool
        ensures shut { result ≡ is_shut self.now.journal }
        ensures heeds { HeedsShut self.now.journal }
    {
        self.shut
    }

    /// The most items that pushes may leave: none of its journal's beginnings leaves more. Enters nothing, and takes no memory.
    pub fn bound(&self) -> u64
        ensures bound { result ≡ self.now.bound }
        ensures kept { KeepsBound result self.now.journal }
    {
        self.bound
    }

    /// How many lines the journal may have until more are archived. Enters nothing, and takes no memory.
    pub fn allowed(&self) -> u64
        ensures allowed { result ≡ self.now.allowed }
        ensures kept { length self.now.journal ≤ result }
    {
        self.allowed
    }

    /// The first item that the journal leaves in the queue, where there is one: what a pop would take
    /// out. Enters nothing, and takes no memory.
    pub fn first(&self) -> Option<Item<P>>
        ensures { result ≡ first_of (left self.now.journal) }
    {
        match self.store.least() {
            Some(entry) => Some(entry.item()),
            None => None,
        }
    }

    /// How many items the journal leaves in the queue. Enters nothing, and takes no memory.
    pub fn items(&self) -> u64
        ensures { result ≡ length (left self.now.journal) }
    {
        self.store.len() as u64
    }

    /// The most items that waited at once: the greatest number that the journal, or any beginning of it, leaves in the queue.
    /// Enters nothing, and takes no memory.
    pub fn peak_items(&self) -> u64
        ensures { IsPeak self.now.journal result }
    {
        self.peak
    }

    /// How many lines the journal may have in all.
    pub fn room(&self) -> u64
        ensures { result ≡ self.now.room }
    {
        self.room
    }

    /// How many lines the journal has in all.
    pub fn len(&self) -> u64
        ensures count { result ≡ length self.now.journal }
        ensures room { result ≤ self.now.room }
        ensures in_range { IsLongRoom self.now.room }
    {
        self.journal.len()
    }

    /// The greatest serial that the place has in the journal, or 0 where it has no line. `None` where
    /// the journal is not kept whole.
    pub fn last_serial(&self, place: u16) -> Option<u64>
        ensures value { IfSome result (λ serial. serial ≡ last_serial place self.now.journal) }
        ensures none { IfNone result (MOST_LINES < self.now.room) }
    {
        if self.room > MOST_LINES {
            return None;
        }
        let lines = self.lines();
        Some(last_serial_in(lines.older, place))
    }

    /// The last lines of the journal, which is a legal history of the queue of one thread: all that
    /// are in memory. Takes no memory.
    pub fn lines(&self) -> LastLines<'_, P>
        ensures last { AreLast (result.older.now ++ result.newer.now) result.forgotten self.now.journal }
        ensures page { result.forgotten ≡ length self.now.journal - page_of self.now.room }
        ensures whole { self.now.room ≤ MOST_LINES → result.older.now ≡ self.now.journal }
        ensures none_before { self.now.room ≤ MOST_LINES → result.forgotten ≡ 0 }
        ensures legal { IsLegal self.now.journal }
        ensures rise { SerialsRise self.now.journal }
        ensures room { length self.now.journal ≤ self.now.room }
        ensures in_range { IsLongRoom self.now.room }
    {
        let forgotten = self.journal.forgotten();
        let (older, newer) = self.journal.kept();
        LastLines {
            forgotten,
            older,
            newer,
        }
    }

    /// Copies the lines behind the first so many, which the archive has already, to its end; none
    /// where there are no more. Where the first of them is forgotten, or memory for them is refused,
    /// the archive is as it was. One that is brought up to date at least once in each 65,536 lines
    /// loses none.
    pub fn lines_from<B: Allocator>(
        &self,
        archived: u64,
        archive: &mut Vec<Line<P>, B>,
    ) -> Result<(), LinesError>
        ensures ok { OnOk result (archive.new.items ≡ archive.old.items ++ drop archived self.now.journal) }
        ensures err { OnErr result (archive.new.items ≡ archive.old.items) }
        ensures forgotten { IsErrOf result LinesError.Forgotten ↔ archived + page_of self.now.room < length self.now.journal }
        // An archive with as many lines as the Book takes for archived loses none.
        ensures kept { self.now.allowed ≤ archived + page_of self.now.room → IsErrOf result LinesError.Forgotten → ⊥ }
    {
        if archived < self.journal.forgotten() {
            return Err(LinesError::Forgotten);
        }
        let behind = archived.min(self.journal.len());
        match self.journal.copy_from(behind, archive) {
            Ok(()) => Ok(()),
            Err(AllocError) => Err(LinesError::NoMemory),
        }
    }

    /// What `into_parts` gives of the Book in this place, which is empty then. It is handed over in a place, since the borrow
    /// checker covers no call that takes a Book whose width is a parameter of what is called.
    pub fn take_parts(place: &mut Option<Self>) -> (S, u64, Vec<Line<P>, A>)
        requires { IsSome place.old }
        ensures { IfSome place.old (λ book. AreParts book (S.content result.0) result.1 result.2.items) }
    {
        let Some(book) = place.take() else {
            unreachable!()
        };
        let Book {
            store,
            journal,
            room: _,
            bound: _,
            allowed: _,
            line_limit: _,
            push_limit: _,
            shut: _,
            peak: _,
            waiters: _,
        } = book;
        let forgotten = journal.forgotten();
        (store, forgotten, journal.into_kept())
    }
}

impl<S: Store<Entry>, A: Allocator> Book<S, A> {
    /// The store, how many lines are forgotten, and the others. The store holds what the journal
    /// leaves: the items that are in the queue, each with the line that put it in. Takes no memory.
    pub fn into_parts(self) -> (S, u64, Vec<Line, A>)
        ensures { AreParts self (S.content result.0) result.1 result.2.items }
    {
        let Book {
            store,
            journal,
            room: _,
            bound: _,
            allowed: _,
            line_limit: _,
            push_limit: _,
            shut: _,
            peak: _,
            waiters: _,
        } = self;
        let forgotten = journal.forgotten();
        (store, forgotten, journal.into_kept())
    }
}

// The most items that waited at once, where a line more leaves so many: `before` is that without the line.
#[tactic(auto, using(crate::proofs::Peak::peak_is_the_greater))]
fn peak_with(before: u64, items: u64) -> u64
    ensures { IsPeakWith before items result }
{
    before.max(items)
}

// The reply of the store to a request, as `carried_out`; a store that is full refuses a push.
#[inline(always)]
fn carried_out_within<S: Store<Entry<P>>, P: Part>(
    store: &mut S,
    line: u64,
    request: Request<Item<P>>,
) -> Option<Reply<Item<P>>>
    requires lines { AllByRecursion (λ e. e.line < line) (S.content store.old) }
    ensures reply { IfSome result (λ reply. reply ≡ reply_to (map item_of (S.content store.old)) request) }
    ensures entries { OnSome result (S.content store.new ≡ entries_after (S.content store.old) line (Asked request)) }
    ensures none { IfNone result (IsPush request × (S.content store.new ≡ S.content store.old)) }
    ensures full { IfNone result (S.room store.old ≤ length (S.content store.old) ⊎ MOST_ITEMS ≤ length (S.content store.old)) }
{
    if matches!(&request, Request::Push(_)) && store.len() >= MOST_ITEMS as usize {
        return None;
    }
    carried_out(store, line, request)
}

// The reply of the store to a request, whose journal line has this number, and None where memory
// for a push was refused.
#[inline(always)]
fn carried_out<S: Store<Entry<P>>, P: Part>(
    store: &mut S,
    line: u64,
    request: Request<Item<P>>,
) -> Option<Reply<Item<P>>>
    requires room { IsPush request → length (S.content store.old) < MOST_ITEMS }
    requires lines { AllByRecursion (λ e. e.line < line) (S.content store.old) }
    ensures reply { IfSome result (λ reply. reply ≡ reply_to (map item_of (S.content store.old)) request) }
    ensures entries { OnSome result (S.content store.new ≡ entries_after (S.content store.old) line (Asked request)) }
    ensures none { IfNone result (IsPush request × (S.content store.new ≡ S.content store.old)) }
    ensures full { IfNone result (S.room store.old ≤ length (S.content store.old)) }
{
    match request {
        Request::Push(item) => match store.push(Entry::of(item, line)) {
            Ok(()) => Some(Reply::Pushed),
            Err(_) => None,
        },
        Request::Pop => match store.pop() {
            Some(entry) => Some(Reply::Got(entry.item())),
            None => Some(Reply::Empty),
        },
        Request::Least => match store.least() {
            Some(entry) => Some(Reply::Least(entry.item())),
            None => Some(Reply::Empty),
        },
    }
}

// The last line of a place has its greatest serial.
fn last_serial_in<P: Part>(lines: &[Line<P>], place: u16) -> u64
    requires { SerialsRise lines.now }
    ensures { result ≡ last_serial place lines.now }
{
    law_one_more_line();
    let mut rest = lines;
    while let Some((line, earlier)) = rest.split_last() {
        if line.place == place {
            return line.serial;
        }
        rest = earlier;
    }
    0
}
