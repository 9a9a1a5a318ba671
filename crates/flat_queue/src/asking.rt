// What a member does at its own place, and how it leads.
ghost use Rattle.std.specs.Prelude.{◌≡◌, ◌≢◌, ℕ, ◌<◌, true, false, Some, IfSome, IfNone, IsSome};
ghost use Rattle.pq_types.specs.declared.journal.TheConstants.{GREATEST_NUMBER};
ghost use Rattle.pq_types.specs.Control.{is_answer};
ghost use Rattle.desk_core.specs.Knows.{NoneAbove};
ghost use Rattle.desk_core.specs.Pen.{after_miss, after_release};
ghost use Rattle.desk_core.specs.Words.{word_number};
ghost use Rattle.announce_board.specs.ItemWords.{drafted_by};
ghost use Rattle.announce_board.specs.Tokens.{IsLeadOf, is_idle};
ghost use Rattle.announce_board.specs.Asking.{asked_by, LooksBy};
ghost use Rattle.announce_board.specs.Serving.{Wins};
ghost use Rattle.announce_board.specs.Slots.{MeetsTerms};
ghost use Rattle.flat_queue.specs.Members.{HasRoomForAll, StaysAtPlace, pen_of};

use crate::member::Member;
use crate::queue::Queue;
use announce_board::Lead;
use leftist_heap::Store;
use pq_book::Entry;
use pq_types::{Answer, Item, Part, Request};

impl<S: Store<Entry<P>>, P: Part> Queue<S, P> {
    /// The idle member stores an item in its cell, a step for each of its words. A post that follows
    /// stores its own anew.
    pub fn draft(&self, member: &mut Member<S, P>, item: Item<P>)
        requires queue { member.old.queue ≡ self.now }
        requires idle { is_idle member.old.pen.standing ≡ true }
        ensures { member.new ≡ record member.old { pen = drafted_by (word_number P.wide) member.old.pen item } }
    {
        self.desk.draft(&mut member.pen, item);
    }

    /// The idle member posts a request, in one step, and a push in one more for each word of its item. Behind
    /// them, and beside the rule, it sets the hint that somebody has posted. It may post 2^56 times, whatever the room of the
    /// journal: that a member of a short queue calls no more than `most_posts` times is said of its calls.
    #[tactic(auto, using(crate::proofs::Stays::asked_place, crate::proofs::Stays::asked_room))]
    pub fn post(&self, member: &mut Member<S, P>, request: Request<Item<P>>)
        requires queue { member.old.queue ≡ self.now }
        requires idle { is_idle member.old.pen.standing ≡ true }
        requires few { member.old.pen.posts < GREATEST_NUMBER }
        ensures asks { (now : ℕ)
            × (member.new ≡ record member.old { pen = asked_by (word_number P.wide) member.old.pen request now }) }
        ensures unknown { NoneAbove member.old.pen.place member.old.pen.posts member.old.pen.known }
    {
        self.desk.post(&mut member.pen, request);
        self.hint.set(member);
    }

    /// The waiting member looks at its record, in one step, and where an answer with an item stands there
    /// in one more for each word of the item. Where it knows that it has an answer, as after a round of its own, it gets it.
    /// The number of a line is not above the room of the journal.
    /// Over stores that all have room for as many items as the journal has lines, as
    /// `ReservedHeap`, it never finds NoMemory.
    #[tactic(auto, using(crate::proofs::Stays::looks_place, crate::proofs::Stays::looks_room))]
    pub fn look(&self, member: &mut Member<S, P>) -> Option<Answer<Item<P>>>
        requires queue { member.old.queue ≡ self.now }
        requires waits { is_idle member.old.pen.standing ≡ false }
        ensures stays { StaysAtPlace member.old member.new }
        ensures looks { LooksBy (word_number P.wide) member.old.pen result member.new.pen }
        ensures room { member.old.pen.room ≡ self.now.room }
        ensures answered { is_answer member.old.pen.own ≡ true → IsSome result }
        ensures memory { HasRoomForAll S.room self.now → result ≢ Some Answer.NoMemory }
    {
        self.desk.look(&mut member.pen)
    }

    /// The member tries the lock, in one step. `None` where another leads. The Book of the lead meets the queue's terms.
    pub fn lead(&self, member: &mut Member<S, P>) -> Option<Lead<S, P>>
        requires queue { member.old.queue ≡ self.now }
        ensures stays { StaysAtPlace member.old member.new }
        ensures lead { IfSome result (λ lead. IsLeadOf (pen_of member.new) lead) }
        ensures wins { IfSome result (λ lead. Wins member.old.pen lead.book member.new.pen) }
        ensures terms { IfSome result (λ lead. MeetsTerms self.now.terms lead.book) }
        ensures misses { IfNone result (member.new.pen ≡ after_miss member.old.pen) }
    {
        self.desk.try_lead(&mut member.pen)
    }

    /// The leader puts the Book home and then frees the lock, in one step.
    pub fn release(&self, member: &mut Member<S, P>, lead: Lead<S, P>)
        requires queue { member.old.queue ≡ self.now }
        requires lead { IsLeadOf (pen_of member.old) lead }
        ensures { member.new ≡ record member.old { pen = after_release member.old.pen } }
    {
        self.desk.release(&mut member.pen, lead);
    }
}
