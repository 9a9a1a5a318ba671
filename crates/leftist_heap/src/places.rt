// Where the items of a heap in an array lie, by their tickets.
ghost use Rattle.std.specs.Prelude.{◌≡◌, ◌+◌, ◌^◌, ◌<◌, true, IsTrue};
ghost use Rattle.leftist_heap.specs.Places.{Table, bare_table, IsMarked, StillKeeps, StillKeepsBut};

/// The place of each ticket, as far as it is kept.
pub trait Places: Drop {
    /// The places, and whose are kept.
    ghost table: { Self → Table };

    /// Keeps the place of this ticket from now on, where it can, and returns whether it does.
    fn open(&mut self, ticket: u64) -> bool
        ensures kept { IsTrue result → (table self.new).keeps ticket ≡ true }
        ensures others { StillKeeps (table self.old) (table self.new) };

    /// The place of this ticket. Takes no memory. Of a ticket that isn't kept it is any number.
    fn place_of(&self, ticket: u64) -> usize
        ensures { (table self.now).keeps ticket ≡ true → result ≡ (table self.now).place_of ticket };

    /// Makes this the place of this ticket, where that is kept. Takes no memory.
    fn mark(&mut self, ticket: u64, place: usize)
        requires { place + 1 < 2 ^ 32 }
        ensures { IsMarked (table self.old) (table self.new) ticket place };

    /// Keeps the place of this ticket no longer. Takes no memory, and may give some back.
    fn close(&mut self, ticket: u64)
        ensures { StillKeepsBut (table self.old) (table self.new) ticket };
}

/// A table that keeps the place of no ticket.
#[derive(Drop)]
pub struct NoPlaces;

impl Places for NoPlaces {
    ghost table = { λ _. bare_table };

    #[inline(always)]
    fn open(&mut self, _ticket: u64) -> bool {
        false
    }

    #[inline(always)]
    fn place_of(&self, _ticket: u64) -> usize {
        0
    }

    #[inline(always)]
    fn mark(&mut self, _ticket: u64, _place: usize) {}

    #[inline(always)]
    fn close(&mut self, _ticket: u64) {}
}
