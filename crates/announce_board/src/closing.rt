// How a desk is closed.
ghost use Rattle.std.specs.Prelude.{◌≡◌, ◌≢◌, true, false, IfOk, IfErr};
ghost use Rattle.pq_book.specs.Book.{Volume};
ghost use Rattle.desk_core.specs.Knows.{Knows};
ghost use Rattle.announce_board.specs.Slots.{MeetsTerms, with_book};
ghost use Rattle.announce_board.specs.Opening.{IsHomeBook, IsHomeWith, IsHeld, IsHeldWith};
ghost use Rattle.announce_board.specs.Opening.{HasAll, IsHomeWithAll, AllKnow, LinesAreOfThese, HavePlaces};

use crate::desk::Desk;
use crate::error::LockHeld;
use crate::laws::law_opening_and_end;
use crate::rule::Slot;
use crate::testimony::Testimony;
use crate::tokens::Pen;
use crate::words::LOCK;
use leftist_heap::Store;
use pq_book::{Book, Entry};
use pq_types::Part;
use std::alloc::Global;

// The Book that lay in its slot, where this was the lock word.
fn book_of<S: Store<Entry<P>>, P: Part>(
    lock: u64,
    slot: Slot<S, P>,
) -> Result<Book<S, Global, P>, LockHeld>
    requires home { lock ≡ 0 → (book : Volume) × (slot ≡ with_book book) }
    ensures ok { IfOk result (λ book. (lock ≡ 0) × (slot ≡ with_book book)) }
    ensures err { IfErr result (λ _. lock ≢ 0) }
{
    if lock != 0 {
        return Err(LockHeld);
    }
    Ok(slot.into_inner().unwrap().into_book())
}

impl<S: Store<Entry<P>>, P: Part> Desk<S, P> {
    /// Closes the desk, which no thread shares any more: the Book, if it is at home. `LockHeld`
    /// only where a pen leads, or kept the Book for good.
    pub fn close(self) -> Result<Book<S, Global, P>, LockHeld>
        ensures ok { IfOk result (λ book. IsHomeBook self.room self.terms book) }
        ensures terms { IfOk result (λ book. MeetsTerms self.terms book) }
        ensures err { IfErr result (λ _. IsHeld self.room self.terms) }
    {
        law_opening_and_end::<S, P>();
        let Desk {
            table,
            places: _,
            room: _,
            terms: _,
        } = self;
        let mut closed = table.close();
        let lock = closed.word(LOCK);
        let slot = closed.take(0);
        closed.free();
        book_of(lock, slot)
    }

    /// The same, with a pen of the desk: the Book's journal begins with the one of the pen's last
    /// release, and has the pen's calls; and what the pen last saw in its record still stood there
    /// at the end. A pen that leads gets none; and the pen of a desk with one
    /// place gets it wherever it doesn't lead.
    pub fn close_with(self, pen: Pen<S, P>) -> Result<Book<S, Global, P>, LockHeld>
        requires table { pen.table ≡ self.table }
        ensures ok { IfOk result (λ book. IsHomeWith self.room self.terms pen.state book) }
        ensures terms { IfOk result (λ book. MeetsTerms self.terms book) }
        ensures knows { IfOk result (λ book. Knows pen.state.room pen.state book.journal) }
        ensures led_not { IfOk result (λ _. pen.state.leading ≡ false) }
        ensures err { IfErr result (λ _. IsHeldWith self.room self.terms pen.state) }
        ensures alone { IfErr result (λ _. self.places ≡ 1 → pen.state.leading ≡ true) }
    {
        law_opening_and_end::<S, P>();
        let Desk {
            table,
            places: _,
            room: _,
            terms: _,
        } = self;
        let Pen { seat, .. } = pen;
        let mut closed = table.close_with(seat);
        let lock = closed.word(LOCK);
        let slot = closed.take(0);
        closed.free();
        book_of(lock, slot)
    }

    /// Closes the desk with a testimony of pens that have retired, which has a licence for each other pen: so none acts and
    /// none leads, and the Book is at home. Of each of these pens its journal has the calls that the pen has read, and at most
    /// the entered answer for which it waits; of an idle pen exactly its calls; and it has no line of another place. What each
    /// last saw in its record still stood there at the end.
    pub fn close_all(self, testimony: Testimony) -> Book<S, Global, P>
        requires table { testimony.table ≡ self.table }
        requires all { HasAll self.places testimony.pens testimony.licences }
        ensures home { IsHomeWithAll self.room self.terms testimony.pens result }
        ensures terms { MeetsTerms self.terms result }
        ensures knows { AllKnow testimony.pens result }
        ensures only { LinesAreOfThese testimony.pens result.journal }
        ensures placed { HavePlaces self.places testimony.pens }
    {
        law_opening_and_end::<S, P>();
        let Desk {
            table,
            places: _,
            room: _,
            terms: _,
        } = self;
        let Testimony { badge } = testimony;
        let mut closed = table.close_with(badge.into_seat());
        let slot = closed.take(0);
        closed.free();
        slot.into_inner().unwrap().into_book()
    }
}
