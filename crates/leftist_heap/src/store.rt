// What every store of the priority queue does, however it keeps its items.
ghost use Rattle.std.specs.Prelude.{◌≡◌, ℕ, ◌<◌, ◌≤◌, ◌↔◌, List, length, None, OnOk, OnErr, IfErr, IsTrue};
ghost use Rattle.std.specs.Option.{MatchOption};
ghost use Rattle.leftist_heap.specs.Order.{IsAscendingBy, with_item_by};
ghost use Rattle.leftist_heap.specs.Store.{first_of, rest_of};
ghost use Rattle.leftist_heap.specs.Order.{not_above_by, IsRankedAmong};

use crate::exact::Exact;

/// The most items that a store holds.
pub const MOST_ITEMS: u32 = 4_294_967_295;

/// A store of items. Contracts see it as the ascending list of its items, repeats kept, and as the
/// number of items that it surely has room for. No call makes the room smaller.
pub trait Store<T: Exact>: Drop {
    /// The ascending list of its items.
    ghost content: { Self → List T };

    /// How many items it surely has room for: no push is refused while there are fewer. A store
    /// that may refuse any push has room for 0.
    ghost room: { Self → ℕ } = { λ _. 0 };

    /// Puts an item behind every item not above it. Where there is no room and memory for the item
    /// is refused, it comes back and the store has the items that it had. A store holds at most
    /// 4,294,967,295 items, which their ranks put in their order.
    fn push(&mut self, item: T) -> Result<(), T>
        requires room { length (content self.old) < MOST_ITEMS }
        requires ranked { IsRankedAmong T.cmp T.rank_of item (content self.old) }
        ensures ok { OnOk result (content self.new ≡ with_item_by (not_above_by T.cmp) item (content self.old)) }
        ensures err { OnErr result (content self.new ≡ content self.old) }
        ensures handed_back { IfErr result (λ back. back ≡ item) }
        ensures full { OnErr result (room self.old ≤ length (content self.old)) }
        ensures room { room self.old ≤ room self.new };

    /// Takes the first item out, where there is one. Takes no memory.
    fn pop(&mut self) -> Option<T>
        ensures item { result ≡ first_of (content self.old) }
        ensures rest { content self.new ≡ rest_of (content self.old) }
        ensures room { room self.old ≤ room self.new };

    /// The first item, where there is one. Takes no memory.
    fn least(&self) -> Option<&T>
        ensures { MatchOption result (first_of (content self.now) ≡ None) (λ x. first_of (content self.now) ≡ Some x.now) };

    /// How many items there are. Takes no memory.
    fn len(&self) -> usize
        ensures len { result ≡ length (content self.now) }
        ensures ascending { IsAscendingBy (not_above_by T.cmp) (content self.now) };

    /// Whether there is no item. Takes no memory.
    fn is_empty(&self) -> bool
        ensures { IsTrue result ↔ (length (content self.now) ≡ 0) };
}
