// How a member stands in the list of those who wait at its queue: its caller sleeps, and wakes whom its calls have woken.
ghost use Rattle.std.specs.Prelude.{◌≡◌, ◌≢◌, ◌<◌, Ok};
ghost use Rattle.pq_types.specs.declared.answer.Answer.TheVariants.{NoMemory, Refused};
ghost use Rattle.pq_types.specs.declared.answer.Refusal.TheVariants.{Full};
ghost use Rattle.desk_core.specs.Pen.{after_hand_out};
ghost use Rattle.desk_core.specs.Words.{word_number};
ghost use Rattle.announce_board.specs.Waking.{IsMaskOf, owes_any};
ghost use Rattle.flat_queue.specs.Members.{HasRoomForAll};
ghost use Rattle.flat_queue.specs.Memory.{HasSpareRoom};
ghost use Rattle.flat_queue.specs.declared.wait_steps.PushedOr.TheVariants.{Answered};
ghost use Rattle.queue_pool.specs.Waiting.{TriesTakeOrWaitBy, TriesPushOrWaitBy, TriesLeaveBy};

use crate::shared::{SharedHandle, Undone};
use flat_queue::{Entry, Looked, Patience, PushedOr, RoomWait, Wanted};
use leftist_heap::Store;
use pq_book::Entry as StoreEntry;
use pq_types::{Item, Part};

impl<S: Store<StoreEntry<P>>, P: Part> SharedHandle<S, P> {
    /// Takes whoever waits under this number, below 64, out of the list, looks at the first item, and takes that out where it is
    /// wanted, or has the number wait again, as the patience says, where the last request is answered, not all serials are spent,
    /// and it finds the lock free, as `Queue::take_or_wait` does. Takes memory for the pushes of others alone, and never waits.
    pub fn take_or_wait(
        &mut self,
        number: u8,
        wanted: Wanted,
        patience: Patience,
    ) -> Result<(Looked<Item<P>>, Entry), Undone>
        requires below { number < 64 }
        ensures { TriesTakeOrWaitBy (word_number P.wide) number wanted patience self.old result self.new }
    {
        if let Err(why) = self.may_call() {
            return Err(why);
        }
        let told = self
            .queue
            .take_or_wait(&mut self.member, number, wanted, patience);
        let Some(told) = told else {
            return Err(Undone::LockHeld);
        };
        Ok(told)
    }

    /// Takes whoever waits under this number, below 64, out of the list, and pushes the item, or has the number wait for room
    /// where nothing but the bound refuses the push, where the last request is answered, not all serials are spent, and it finds
    /// the lock free, as `Queue::push_or_wait` does. So no push is refused as `Full`. Takes memory for pushes alone, and never
    /// waits.
    pub fn push_or_wait(
        &mut self,
        number: u8,
        item: Item<P>,
        wait: RoomWait,
    ) -> Result<PushedOr<Item<P>>, Undone>
        requires below { number < 64 }
        ensures tries { TriesPushOrWaitBy (word_number P.wide) number item wait self.old result self.new }
        ensures never_full { result ≢ Ok (Answered (Refused Full)) }
        ensures memory { HasRoomForAll S.room self.old.queue → result ≢ Ok (Answered NoMemory) }
        ensures spare { HasSpareRoom S.room self.new.pen.known → result ≢ Ok (Answered NoMemory) }
    {
        if let Err(why) = self.may_call() {
            return Err(why);
        }
        if let Some(told) = self
            .queue
            .push_or_wait(&mut self.member, number, item, wait)
        {
            return Ok(told);
        }
        Err(Undone::LockHeld)
    }

    /// Takes those who wait under these numbers, the bits of a mask, out of the list, where it finds the lock free: whether it
    /// did. It answers nobody. Takes no memory, and never waits.
    pub fn leave(&mut self, numbers: u64) -> bool
        ensures { TriesLeaveBy numbers self.old result self.new }
    {
        self.queue.leave(&mut self.member, numbers)
    }

    /// Whether its calls have woken one whom `take_wakes` has not handed out.
    #[inline(always)]
    pub fn owes_wakes(&self) -> bool
        ensures { result ≡ owes_any self.now.pen.owed }
    {
        self.member.owes_wakes()
    }

    /// Hands out the numbers of those whom its calls have woken, as the bits of a mask: its caller wakes them, and it owes nobody
    /// a wake from then on. Takes no memory, and never waits.
    #[inline(always)]
    pub fn take_wakes(&mut self) -> u64
        ensures wakes { IsMaskOf result self.old.pen.owed }
        ensures after { self.new ≡ record self.old { pen = after_hand_out self.old.pen } }
    {
        self.queue.take_wakes(&mut self.member)
    }
}
