// Takes that are told the end of their queue.
ghost use Rattle.std.specs.Prelude.{◌≡◌, true};
ghost use Rattle.desk_core.specs.Words.{word_number};
ghost use Rattle.announce_board.specs.Tokens.{is_idle};
ghost use Rattle.flat_queue.specs.declared.event_count.Wakes.TheVariants.{EventOrEnd};
ghost use Rattle.flat_queue.specs.Taking.{OrEndsBy, TakesOneBy, TakesUntilBy, AddsPops, awaited_item, item_or_end, told_item};

use crate::error::CallError;
use crate::event_count::Wakes;
use crate::handle::Handle;
use crate::member::Member;
use crate::queue::Queue;
use crate::taking::Awaited;
use crate::time_source::TimeSource;
use leftist_heap::Store;
use pq_book::Entry;
use pq_types::{Item, Part};
use std::sync::Wait;
use std::time::Instant;

impl<S: Store<Entry<P>>, P: Part> Queue<S, P> {
    /// Takes the first item out of the queue, and waits for one, as `take` does, but no longer than to the end of the queue:
    /// `None` exactly where a look, behind a pop in vain, found the queue shut, and no item. So it has one line then. It passes no
    /// wake on: one that was woken for an item has looked since, and found that another took it.
    pub fn take_or_end<R: Wait>(
        &self,
        rt: &R,
        member: &mut Member<S, P>,
    ) -> Result<Option<(u64, Item<P>)>, CallError>
        requires queue { member.old.queue ≡ self.now }
        requires idle { is_idle member.old.pen.standing ≡ true }
        ensures takes { OrEndsBy (word_number P.wide) EventOrEnd (TakesOneBy (word_number P.wide) EventOrEnd)
            member.old result member.new }
        ensures adds { AddsPops member.old (item_or_end told_item result) member.new }
    {
        self.take_waking(rt, member, Wakes::EventOrEnd)
    }

    /// The same until a deadline, as `take_until` does: where that came before a look, this is told and not the end.
    pub fn take_until_or_end<R: Wait + TimeSource>(
        &self,
        rt: &R,
        member: &mut Member<S, P>,
        deadline: Instant,
    ) -> Result<Option<Awaited<Item<P>>>, CallError>
        requires queue { member.old.queue ≡ self.now }
        requires idle { is_idle member.old.pen.standing ≡ true }
        ensures takes { OrEndsBy (word_number P.wide) EventOrEnd
            (TakesUntilBy (word_number P.wide) EventOrEnd (R.may_tell rt.now) deadline) member.old result member.new }
        ensures adds { AddsPops member.old (item_or_end awaited_item result) member.new }
    {
        self.take_waking_until(rt, member, deadline, Wakes::EventOrEnd)
    }
}

impl<'q, S: Store<Entry<P>>, P: Part> Handle<'q, S, P> {
    /// Takes the first item out of the queue, and waits for one until the end of the queue, as `Queue::take_or_end` does: the
    /// number of the pop's journal line, and the item; `None` at the end. Refusals: `BookFull` (10), `Spent` (11).
    pub fn take_or_end<R: Wait>(&mut self, rt: &R) -> Result<Option<(u64, Item<P>)>, CallError>
        ensures takes { OrEndsBy (word_number P.wide) EventOrEnd (TakesOneBy (word_number P.wide) EventOrEnd)
            self.old result self.new }
        ensures adds { AddsPops self.old (item_or_end told_item result) self.new }
    {
        self.queue.take_or_end(rt, &mut self.member)
    }

    /// The same until a deadline, as `Queue::take_until_or_end` does.
    pub fn take_until_or_end<R: Wait + TimeSource>(
        &mut self,
        rt: &R,
        deadline: Instant,
    ) -> Result<Option<Awaited<Item<P>>>, CallError>
        ensures takes { OrEndsBy (word_number P.wide) EventOrEnd
            (TakesUntilBy (word_number P.wide) EventOrEnd (R.may_tell rt.now) deadline) self.old result self.new }
        ensures adds { AddsPops self.old (item_or_end awaited_item result) self.new }
    {
        self.queue.take_until_or_end(rt, &mut self.member, deadline)
    }
}
