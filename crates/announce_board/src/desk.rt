// The running desk.
ghost use Rattle.std.specs.Prelude.{◌≡◌, ◌≢◌, ℕ, ◌+◌, ◌<◌, true, false, length, Some, IfSome, IfNone, MatchOption};
ghost use Rattle.pq_types.specs.declared.journal.TheConstants.{GREATEST_NUMBER};
ghost use Rattle.pq_types.specs.History.{left};
ghost use Rattle.pq_book.specs.Book.{AllHaveRoom, limits_of};
ghost use Rattle.pq_book.specs.Stock.{IsSettledBook};
ghost use Rattle.desk_core.specs.Knows.{NoneAbove};
ghost use Rattle.desk_core.specs.Pen.{after_miss, after_release};
ghost use Rattle.desk_core.specs.Words.{word_number};
ghost use Rattle.announce_board.specs.ItemWords.{drafted_by};
ghost use Rattle.announce_board.specs.Slots.{MeetsTerms};
ghost use Rattle.announce_board.specs.Tokens.{IsLeadOf, is_idle};
ghost use Rattle.announce_board.specs.Asking.{asked_by, Waits, LooksBy};
ghost use Rattle.announce_board.specs.Serving.{Wins, ServesWhereBy, ServesOtherThanBy};

use crate::asking::{look_at_record, post_request, store_item};
use crate::locking::{put_home, win_book};
use crate::rule::DeskTable;
use crate::serving::serve_place;
use crate::terms::Terms;
use crate::tokens::{Lead, Pen};
use leftist_heap::Store;
use pq_book::Entry;
use pq_types::{Answer, Item, Part, Request};
use std::alloc::Global;
use std::marker::Model;
use std::snapshot::Snapshot;

/// A desk that threads share through a `&`: a lock, a publication record for each place, and a
/// Book. A contract sees of it its table, the number of its places, the room of its journal, and its terms.
#[derive(Drop)]
pub struct Desk<S: Store<Entry<P>>, P: Part = u32> {
    pub(crate) table: DeskTable<S, Global, P>,
    pub(crate) places: u16,
    pub(crate) room: u64,
    pub(crate) terms: Terms,
}

impl<S: Store<Entry<P>>, P: Part> Model for Desk<S, P> {
    ghost use Rattle.announce_board.specs.Tokens.{Running, IsDesk};

    ghost Value = { Running };

    ghost view = { λ d. record { table = d.table.shared.table_id; places = d.places; room = d.room; terms = d.terms } };

    ghost invariant = { λ d. IsDesk d.table.shared.table_id d.table.shared.key.places d.table.shared.key.room d.table.shared.key.terms
        d.places d.room d.terms };
}

impl<S: Store<Entry<P>>, P: Part> Desk<S, P> {
    /// The number of its places.
    pub fn places(&self) -> u16
        ensures { result ≡ self.now.places }
    {
        self.places
    }

    /// How many lines its journal has room for.
    pub fn room(&self) -> u64
        ensures { result ≡ self.now.room }
    {
        self.room
    }

    /// The terms of its queue.
    pub fn terms(&self) -> Terms
        ensures { result ≡ self.now.terms }
    {
        self.terms
    }

    /// The idle pen stores an item in its cell, a step for each of its words. A post that follows
    /// stores its own anew.
    pub fn draft(&self, pen: &mut Pen<S, P>, item: Item<P>)
        requires table { pen.old.table ≡ self.now.table }
        requires idle { is_idle pen.old.state.standing ≡ true }
        ensures { pen.new ≡ record pen.old { state = drafted_by (word_number P.wide) pen.old.state item } }
    {
        store_item(&self.table.shared, &mut pen.seat, pen.place, item);
    }

    /// The idle pen posts a request, in one step, and a push in one more for each word of its item,
    /// which stands in its cell before the post does in the control. What the pen knew of the journal
    /// has no line of its place above its last serial. The pen keeps the position of the post in the history.
    pub fn post(&self, pen: &mut Pen<S, P>, request: Request<Item<P>>)
        requires table { pen.old.table ≡ self.now.table }
        requires idle { is_idle pen.old.state.standing ≡ true }
        requires few { pen.old.state.posts < GREATEST_NUMBER }
        ensures asks { (now : ℕ)
            × (pen.new ≡ record pen.old { state = asked_by (word_number P.wide) pen.old.state request now }) }
        ensures unknown { NoneAbove pen.old.state.place pen.old.state.posts pen.old.state.known }
    {
        let serial = pen.posts + 1;
        post_request(
            &self.table.shared,
            &mut pen.seat,
            pen.place,
            serial,
            request,
        );
        pen.posts = serial;
        pen.idle = false;
    }

    /// The waiting pen looks at its record, in one step, and where an answer with an item stands there
    /// in one more for each word of the item: at the control first, and at the cell then. Over stores
    /// that all have room for as many items as the journal has lines, it never finds NoMemory.
    pub fn look(&self, pen: &mut Pen<S, P>) -> Option<Answer<Item<P>>>
        requires table { pen.old.table ≡ self.now.table }
        requires waits { is_idle pen.old.state.standing ≡ false }
        ensures table { pen.new.table ≡ pen.old.table }
        ensures looks { LooksBy (word_number P.wide) pen.old.state result pen.new.state }
        ensures memory { AllHaveRoom S.room pen.old.state.room → result ≢ Some Answer.NoMemory }
    {
        let answer = look_at_record(&self.table.shared, &mut pen.seat, pen.place);
        pen.idle = answer.is_some();
        answer
    }

    /// The pen tries the lock, in one step of the machine: a load that reads it held, or else a compare_exchange behind the load.
    /// `None` where another pen leads. The Book of the lead meets the desk's terms. Nobody who waits at it sleeps beside what it
    /// could take, unless one that could was woken and has not come back.
    pub fn try_lead(&self, pen: &mut Pen<S, P>) -> Option<Lead<S, P>>
        requires table { pen.old.table ≡ self.now.table }
        ensures table { pen.new.table ≡ pen.old.table }
        ensures lead { IfSome result (λ lead. IsLeadOf pen.new lead) }
        ensures wins { IfSome result (λ lead. Wins pen.old.state lead.book pen.new.state) }
        ensures terms { IfSome result (λ lead. MeetsTerms self.now.terms lead.book) }
        ensures settled { IfSome result (λ lead. IsSettledBook lead.book) }
        ensures misses { IfNone result (pen.new.state ≡ after_miss pen.old.state) }
    {
        let book = win_book(&self.table.shared, &mut pen.seat, self.terms)?;
        let seat = Snapshot::of(&pen.seat);
        Some(Lead { book, seat })
    }

    /// The leader serves a place, in one to three steps, or four where items have two words: it reads
    /// the mail there, has the Book carry out a request that stands posted, and stores the answer. Over
    /// stores that all have room for as many items as the journal has lines, that is never NoMemory;
    /// nor is it while they all have room for one item more than the journal in hand leaves.
    pub fn serve(&self, pen: &mut Pen<S, P>, lead: &mut Lead<S, P>, place: u16) -> bool
        requires table { pen.old.table ≡ self.now.table }
        requires lead { IsLeadOf pen.old lead.old }
        requires place { place < self.now.places }
        ensures table { pen.new.table ≡ pen.old.table }
        ensures lead { IsLeadOf pen.new lead.new }
        ensures limits { limits_of lead.new.book ≡ limits_of lead.old.book }
        ensures serves { ServesWhereBy (word_number P.wide) result place pen.old.state pen.new.state lead.new.book }
        ensures memory { AllHaveRoom S.room pen.old.state.room
            → ServesOtherThanBy (word_number P.wide) Answer.NoMemory place pen.old.state pen.new.state lead.new.book }
        ensures spare { AllHaveRoom S.room (length (left pen.old.state.hand) + 1)
            → ServesOtherThanBy (word_number P.wide) Answer.NoMemory place pen.old.state pen.new.state lead.new.book }
    {
        serve_place(
            &self.table.shared,
            &mut pen.seat,
            place,
            &mut *lead.book.boxed,
        )
    }

    /// The leader has the Book wake whom it is to wake, puts it home and then frees the lock, in one step. The pen owes the wakes
    /// from then on: `take_wakes` hands them out.
    pub fn release(&self, pen: &mut Pen<S, P>, lead: Lead<S, P>)
        requires table { pen.old.table ≡ self.now.table }
        requires lead { IsLeadOf pen.old lead }
        ensures { pen.new ≡ record pen.old { state = after_release pen.old.state } }
    {
        let wakes = put_home(&self.table.shared, &mut pen.seat, lead.into_boxed());
        pen.wakes |= wakes;
    }
}
