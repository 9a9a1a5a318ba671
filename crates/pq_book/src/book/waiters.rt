// Those who wait at a Book.
ghost use Rattle.std.specs.Prelude.{◌≡◌, ◌<◌, ◌↔◌, ℕ, [], ◌∷◌, ◌++◌, true, false, IsTrue};
ghost use Rattle.std.specs.Int.{bit_at};
ghost use Rattle.pq_types.specs.History.{left};
ghost use Rattle.wait_list.specs.Settled.{is_watched};
ghost use Rattle.wait_list.specs.Waiters.{has_number, is_woken_at, without, without_all, asleep};
ghost use Rattle.pq_book.specs.Stock.{first_priority, stock_of, with_waiters, settled_book, IsSettledBook};

use crate::book::Book;
use crate::entry::Entry;
use leftist_heap::Store;
use pq_types::Part;
use std::alloc::Allocator;
use wait_list::{Stock, Wants};

impl<S: Store<Entry<P>>, A: Allocator, P: Part> Book<S, A, P> {
    /// Whether nobody is in the list: nobody waits, and all who were woken have come back.
    pub fn has_no_waiters(&self) -> bool
        ensures { IsTrue result ↔ self.now.waiters ≡ [] }
    {
        self.waiters.is_empty()
    }

    /// Whether one with this number is in the list.
    pub fn has_waiter(&self, number: u8) -> bool
        ensures { result ≡ has_number number self.now.waiters }
    {
        self.waiters.has(number)
    }

    /// Whether an item of this priority is taken when it is due: by a thread that was woken, or by one of those who take what is due
    /// and sleep until then at most.
    pub fn is_watched(&self, first: u64) -> bool
        ensures { result ≡ is_watched first self.now.waiters }
    {
        self.waiters.is_watched(first)
    }

    /// One with this number, which nobody in the list has, waits for this from now on. Enters nothing, and takes no memory.
    pub fn wait(&mut self, number: u8, wants: Wants)
        requires below { number < 64 }
        requires apart { has_number number self.old.waiters ≡ false }
        ensures { self.new ≡ with_waiters self.old (self.old.waiters ++ asleep number wants ∷ []) }
    {
        self.waiters.wait(number, wants);
    }

    /// The one with this number comes back, or gives up, where there is one: it is in the list no more. The result says
    /// whether it was woken. Enters nothing, and takes no memory.
    pub fn leave(&mut self, number: u8) -> bool
        ensures was_woken { result ≡ is_woken_at number self.old.waiters }
        ensures book { self.new ≡ with_waiters self.old (without number self.old.waiters) }
        ensures gone { has_number number self.new.waiters ≡ false }
    {
        self.waiters.leave(number)
    }

    /// Those whose bits are set in the mask come back, or give up. Enters nothing, and takes no memory.
    pub fn leave_all(&mut self, mask: u64)
        ensures { self.new ≡ with_waiters self.old (without_all mask self.old.waiters) }
    {
        self.waiters.leave_all(mask);
    }

    /// Wakes those who are to be woken, by what the Book has, and no others: no thread sleeps then beside an item that it
    /// could take, unless one that could was woken and has not come back. The bit of each number whose waiter was woken is set
    /// in the result. Enters nothing, and takes no memory.
    #[inline(always)]
    #[tactic(auto, using(crate::proofs::NoneWait::settled_none))]
    pub fn settle(&mut self) -> u64
        ensures book { self.new ≡ settled_book self.old }
        ensures settled { IsSettledBook self.new }
        ensures wakes { (number : ℕ) → (bit_at result number ≡ 1)
            ↔ ((is_woken_at number self.old.waiters ≡ false) × (is_woken_at number self.new.waiters ≡ true)) }
    {
        if self.waiters.is_empty() {
            return 0;
        }
        let stock = self.stock();
        self.waiters.settle(stock)
    }

    // What those who wait depend on.
    fn stock(&self) -> Stock
        ensures { result ≡ stock_of self.now }
    {
        Stock {
            first: self.first_priority(),
            items: self.store.len() as u64,
            bound: self.bound,
            is_shut: self.shut,
            is_spent: self.room <= self.journal.len(),
        }
    }

    // The priority of the first item, where there is one.
    fn first_priority(&self) -> Option<u64>
        ensures { result ≡ first_priority (left self.now.journal) }
    {
        match self.store.least() {
            Some(entry) => Some(entry.priority.as_u64()),
            None => None,
        }
    }
}
