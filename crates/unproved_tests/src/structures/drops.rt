// Items that count their drops are dropped once, whichever store has them.
ghost use Rattle.std.specs.Prelude.{◌≡◌, nat_eq};
ghost use Rattle.std.specs.Ordering.{nat_cmp, as_partial_cmp};
ghost use Rattle.std.specs.Cmp.Rules.{comparing};
ghost use Rattle.std.specs.Cmp.{partial_order_from_own_ties};
ghost use Rattle.std.proofs.Common.{rules};
ghost use Rattle.std.proofs.lemmas.Map.Lookups.{exact_unsigned};

use leftist_heap::{AnyStore, Exact, HasTicket, MOST_ITEMS, ReservedHeap, Store, StoreKind};
use std::alloc::Global;
use std::cell::Cell;
use std::cmp::Ordering;
use std::marker::Model;
use test_aids::{Counted, Refusing};

// A number whose drops are counted.
#[derive(Drop)]
struct Tallied<'a> {
    number: u32,
    drops: Counted<'a>,
}

impl<'a> Model for Tallied<'a> {
    ghost use Rattle.std.specs.Prelude.{ℕ};

    ghost Value = { ℕ };

    ghost view = { λ t. t.number };
}

impl PartialEq for Tallied<'_> {
    ghost eq = { nat_eq };

    ghost laws = { Prim.search (comparing, rules) };

    fn eq(&self, other: &Self) -> bool {
        self.number == other.number
    }
}

impl Eq for Tallied<'_> {
    ghost laws = { Prim.search (comparing, rules) };
}

impl Ord for Tallied<'_> {
    ghost cmp = { nat_cmp };

    ghost total = { Prim.search (comparing, rules) };

    ghost matches_partial_cmp = { Prim.search (comparing, rules) };

    ghost matches_eq = { Prim.search (comparing, rules) };

    fn cmp(&self, other: &Self) -> Ordering {
        self.number.cmp(&other.number)
    }
}

impl PartialOrd for Tallied<'_> {
    ghost partial_cmp = { as_partial_cmp nat_cmp };

    ghost laws = { partial_order_from_own_ties (Prim.search (comparing, rules)) (Prim.search (comparing, rules)) };

    fn partial_cmp(&self, other: &Self) -> Option<Ordering> {
        Some(self.cmp(other))
    }
}

impl Exact for Tallied<'_> {
    ghost equal_is_same = { exact_unsigned };

    ghost rank_of = { λ n. n };

    fn rank(&self) -> u128 {
        u128::from(self.number)
    }
}

impl HasTicket for Tallied<'_> {
    ghost ticket_of = { λ n. n };

    fn ticket(&self) -> u64 {
        u64::from(self.number)
    }
}

// Whether the first item comes out, alive.
fn gives_one<'a, S: Store<Tallied<'a>>>(store: &mut S, drops: &'a Cell<u32>) -> bool {
    let before = drops.get();
    let Some(first) = store.pop() else {
        return false;
    };
    first.number == 1 && drops.get() == before
}

// Whether this item comes back alive, and is dropped when it goes.
fn comes_back<'a>(back: Tallied<'a>, number: u32, drops: &'a Cell<u32>) -> bool {
    let is_back = back.number == number && drops.get() == 0;
    drop(back);
    is_back && drops.get() == 1
}

// Pushes until one push is refused: the number of its item, where that comes back alive and no other
// item was dropped.
fn refused_at<'a, S: Store<Tallied<'a>>>(store: &mut S, drops: &'a Cell<u32>) -> Option<u32> {
    for number in 1..100 {
        if store.len() >= MOST_ITEMS as usize {
            return None;
        }
        if let Err(back) = store.push(Tallied {
            number,
            drops: Counted::new(drops),
        }) {
            return comes_back(back, number, drops).then_some(number);
        }
    }
    None
}

// Whether pushes go well until one is refused. Each item is dropped when it has come out and goes, and
// those that are left are dropped with the store.
fn drops_once<'a, S: Store<Tallied<'a>>>(mut store: S, drops: &'a Cell<u32>) -> bool {
    drops.set(0);
    let refused = refused_at(&mut store, drops);
    let is_first = gives_one(&mut store, drops) && drops.get() == 2;
    drop(store);
    is_first && refused == Some(drops.get())
}

// A heap with room for six items, whose memory is granted at its opening alone.
fn reserved_drops_once(alloc: Global, drops: &Cell<u32>) -> bool {
    let refusing = Refusing::onwards(alloc, 2);
    match ReservedHeap::<_, _, 6>::new(&refusing) {
        Ok(heap) => drops_once(heap, drops),
        Err(_) => false,
    }
}

// The request for memory at which each kind of store is refused.
const REFUSED: [(StoreKind, u64); 3] = [
    (StoreKind::Sorted, 2),
    (StoreKind::Leftist, 4),
    (StoreKind::Array, 2),
];

#[test]
fn each_store_drops_each_item_once(rt: HostRuntime) {
    let drops = Cell::new(0);
    for &(kind, number) in &REFUSED {
        let refusing = Refusing::nth(rt.alloc(), number);
        let are_dropped = drops_once(AnyStore::new(&refusing, kind), &drops);
        assert!(rt; are_dropped, "{kind:?}");
    }
    assert!(rt; reserved_drops_once(rt.alloc(), &drops));
}
