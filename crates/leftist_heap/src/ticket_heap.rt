// A heap in one array from which an item can be removed by its ticket.
ghost use Rattle.std.specs.Prelude.{◌≡◌, ◌+◌, ◌-◌, ◌*◌, ◌^◌, ◌<◌, ◌≤◌, ◌∷◌, [], true, length, vec_capacity, slice_index_or, IsTrue, OnOk, OnErr, IfOk, IfErr, IfSome};
ghost use Rattle.std.specs.List.Sorted.{IsPermutation};
ghost use Rattle.leftist_heap.specs.Order.{not_above_by, by_rank, with_item_by, IsRankedAmong};
ghost use Rattle.leftist_heap.specs.Sifting.{IsHeapBy};
ghost use Rattle.leftist_heap.specs.Depth.{depth_at};
ghost use Rattle.leftist_heap.specs.Store.{first_of, rest_of};
ghost use Rattle.leftist_heap.specs.Tickets.{item_with, without_ticket};
ghost use Rattle.leftist_heap.specs.Places.{IsPlaced, IsTicketHeap, HasNone, Finds, IsLowerThanFound, StillKeeps};

use crate::exact::Exact;
use crate::places::Places;
use crate::placing::{rise, settle};
use crate::steps::Steps;
use crate::store::{MOST_ITEMS, Store};
use crate::ticket_store::{HasTicket, TicketStore};
use std::alloc::{AllocError, Allocator};
use std::marker::{Brand, Model};
use std::sync::ledger::{Blank, Ledger};

/// A heap in one array that keeps the place of each ticket, so that a removal looks for nothing.
/// Contracts see it as the ascending list of its items, and as the number of items that the array
/// has room for.
///
/// Where two items have one ticket, or the place of a ticket can't be kept, each removal looks at
/// every item until the heap is empty. A push is never refused for want of memory for places.
///
/// A push, a pop and a removal that count are lent the `steps` of their comparisons of items, and
/// hand them back.
#[derive(Drop)]
pub struct TicketHeap<T: HasTicket, P: Places, A: Allocator> {
    heap: Vec<T, A>,
    places: P,
    is_placed: bool,
}

impl<T: HasTicket, P: Places, A: Allocator> Model for TicketHeap<T, P, A> {
    ghost use Rattle.std.specs.Prelude.{vec_capacity};
    ghost use Rattle.leftist_heap.specs.Order.{not_above_by, by_rank};
    ghost use Rattle.leftist_heap.specs.Holding.{Holding, holding};
    ghost use Rattle.leftist_heap.specs.Places.{IsTicketHeap};

    ghost Value = { Holding T };

    ghost view = { λ h. holding (not_above_by T.cmp) h.heap.items (vec_capacity h.heap) };

    ghost invariant = { λ h. IsTicketHeap T.ticket_of T.cmp T.rank_of (P.table h.places) h.heap.items h.is_placed };
}

// Whether the item at this place is lower than the one that was found, if any.
fn is_lower_than_found<T: HasTicket, L: Ledger>(
    items: &[T],
    at: usize,
    found: Option<usize>,
    steps: &mut Steps<L>,
) -> bool
    requires within { at < length items.now }
    requires found { IfSome found (λ low. low < length items.now) }
    ensures lower { IsLowerThanFound (not_above_by T.cmp) items.now at found result }
    ensures counted { steps.new ≤ steps.old + 1 }
{
    match found {
        Some(low) => {
            steps.tick();
            items[at].cmp(&items[low]).is_lt()
        }
        None => true,
    }
}

// The place of the first of the items with this ticket up to this place, of which the first before it was found.
fn first_up_to<T: HasTicket, L: Ledger>(
    items: &[T],
    at: usize,
    ticket: u64,
    found: Option<usize>,
    steps: &mut Steps<L>,
) -> Option<usize>
    requires within { at < length items.now }
    requires found { Finds T.ticket_of (not_above_by T.cmp) items.now at ticket found }
    ensures found { Finds T.ticket_of (not_above_by T.cmp) items.now (at + 1) ticket result }
    ensures counted { steps.new ≤ steps.old + 1 }
{
    if items[at].ticket() == ticket && is_lower_than_found(items, at, found, steps) {
        Some(at)
    } else {
        found
    }
}

// The place of the first of the items with this ticket, found by a look at every item.
fn scan<T: HasTicket, L: Ledger>(items: &[T], ticket: u64, steps: &mut Steps<L>) -> Option<usize>
    ensures found { Finds T.ticket_of (not_above_by T.cmp) items.now (length items.now) ticket result }
    ensures counted { steps.new ≤ steps.old + length items.now }
{
    let mut found = None;
    for at in 0..items.len() {
        found = first_up_to(items, at, ticket, found, steps);
    }
    found
}

// The place of the item with this ticket, where places are kept.
fn find_placed<T: HasTicket, P: Places>(items: &[T], places: &P, ticket: u64) -> Option<usize>
    requires { IsPlaced T.ticket_of (P.table places.now) items.now }
    ensures { Finds T.ticket_of (not_above_by T.cmp) items.now (length items.now) ticket result }
{
    let place = places.place_of(ticket);
    if place < items.len() && items[place].ticket() == ticket {
        Some(place)
    } else {
        None
    }
}

// The place of the first of the items with this ticket.
fn find<T: HasTicket, P: Places, L: Ledger>(
    items: &[T],
    places: &P,
    is_placed: bool,
    ticket: u64,
    steps: &mut Steps<L>,
) -> Option<usize>
    requires { is_placed ≡ true → IsPlaced T.ticket_of (P.table places.now) items.now }
    ensures found { Finds T.ticket_of (not_above_by T.cmp) items.now (length items.now) ticket result }
    ensures counted { steps.new ≤ steps.old + length items.now }
{
    if is_placed {
        find_placed(items, places, ticket)
    } else {
        scan(items, ticket, steps)
    }
}

// Whether places are kept, and that of this ticket is from now on: no item has it yet. Those of no items are.
fn opens<T: HasTicket, P: Places>(items: &[T], places: &mut P, is_placed: bool, ticket: u64) -> bool
    requires { is_placed ≡ true → IsPlaced T.ticket_of (P.table places.old) items.now }
    ensures placed { result ≡ true → IsPlaced T.ticket_of (P.table places.old) items.now }
    ensures free { result ≡ true → HasNone T.ticket_of items.now (length items.now) ticket }
    ensures kept { result ≡ true → (P.table places.new).keeps ticket ≡ true }
    ensures others { StillKeeps (P.table places.old) (P.table places.new) }
{
    (is_placed || items.is_empty())
        && find_placed(items, places, ticket).is_none()
        && places.open(ticket)
}

// Puts the item behind all others and lets it rise.
#[inline(always)]
fn put_in<T: HasTicket, P: Places, A: Allocator, L: Ledger>(
    heap: &mut Vec<T, A>,
    places: &mut P,
    item: T,
    steps: Steps<L>,
) -> Result<Steps<L>, (T, Steps<L>)>
    requires few { length heap.old.items + 1 < 2 ^ 32 }
    requires heap { IsHeapBy (by_rank T.rank_of) heap.old.items }
    ensures permutation { OnOk result (IsPermutation (item ∷ heap.old.items) heap.new.items) }
    ensures heap { IsHeapBy (by_rank T.rank_of) heap.new.items }
    ensures placed { OnOk result ((P.table places.old).keeps (T.ticket_of item) ≡ true → HasNone T.ticket_of heap.old.items (length heap.old.items) (T.ticket_of item)
        → IsPlaced T.ticket_of (P.table places.old) heap.old.items → IsPlaced T.ticket_of (P.table places.new) heap.new.items) }
    ensures err { OnErr result ((heap.new.items ≡ heap.old.items) × (P.table places.new ≡ P.table places.old)) }
    ensures handed_back { IfErr result (λ back. back.0 ≡ item) }
    ensures full { OnErr result (vec_capacity heap.old ≤ length heap.old.items) }
    ensures room { vec_capacity heap.old ≤ vec_capacity heap.new }
    ensures counted { IfOk result (λ after. after ≤ steps + depth_at (length heap.old.items)) }
    ensures uncounted { IfErr result (λ back. back.1 ≡ steps) }
{
    let at = heap.len();
    if let Err(refused) = heap.push(item) {
        return Err((refused.value, steps));
    }
    Ok(rise(heap, places, at, steps))
}

// Takes the item at this place out. The last item takes its place, and settles.
#[inline(always)]
fn take_out<T: HasTicket, P: Places, A: Allocator, L: Ledger>(
    heap: &mut Vec<T, A>,
    places: &mut P,
    at: usize,
    steps: Steps<L>,
) -> (T, Steps<L>)
    requires within { at < length heap.old.items }
    requires few { length heap.old.items < 2 ^ 32 }
    requires heap { IsHeapBy (by_rank T.rank_of) heap.old.items }
    ensures value { result.0 ≡ slice_index_or heap.old.items at result.0 }
    ensures permutation { IsPermutation heap.old.items (result.0 ∷ heap.new.items) }
    ensures heap { IsHeapBy (by_rank T.rank_of) heap.new.items }
    ensures placed { IsPlaced T.ticket_of (P.table places.old) heap.old.items → IsPlaced T.ticket_of (P.table places.new) heap.new.items }
    ensures room { vec_capacity heap.new ≡ vec_capacity heap.old }
    ensures counted { result.1 ≤ steps + 8 * depth_at (length heap.old.items - 1) }
{
    let item = heap.swap_remove(at);
    places.close(item.ticket());
    if at < heap.len() {
        let steps = settle(heap, places, at, steps);
        return (item, steps);
    }
    (item, steps)
}

impl<T: HasTicket, P: Places, A: Allocator> TicketHeap<T, P, A> {
    /// A heap with no items that keeps their places in this table. Takes no memory.
    pub fn new(alloc: A, places: P) -> Self
        ensures { result.items ≡ [] }
    {
        TicketHeap {
            heap: Vec::new(alloc),
            places,
            is_placed: true,
        }
    }

    /// A heap with no items and room for so many, so that no push is refused while there are fewer.
    pub fn with_capacity(alloc: A, places: P, capacity: usize) -> Result<Self, AllocError>
        ensures items { IfOk result (λ heap. heap.items ≡ []) }
        ensures room { IfOk result (λ heap. heap.room ≡ capacity) }
    {
        let heap = Vec::with_capacity(alloc, capacity)?;
        Ok(TicketHeap {
            heap,
            places,
            is_placed: true,
        })
    }

    /// How many items there is room for. Takes no memory.
    pub fn capacity(&self) -> usize
        ensures { result ≡ self.now.room }
    {
        self.heap.capacity()
    }

    /// Puts an item in as a push does, by at most as many comparisons as places are above the one
    /// behind all items, and so by 12 or fewer.
    #[inline(always)]
    pub fn push_counted<L: Ledger>(&mut self, item: T, steps: Steps<L>) -> (Result<(), T>, Steps<L>)
        requires room { length self.old.items < MOST_ITEMS }
        requires ranked { IsRankedAmong T.cmp T.rank_of item self.old.items }
        ensures ok { OnOk result.0 (self.new.items ≡ with_item_by (not_above_by T.cmp) item self.old.items) }
        ensures err { OnErr result.0 (self.new.items ≡ self.old.items) }
        ensures handed_back { IfErr result.0 (λ back. back ≡ item) }
        ensures full { OnErr result.0 (self.old.room ≤ length self.old.items) }
        ensures room { self.old.room ≤ self.new.room }
        ensures counted { result.1 ≤ steps + depth_at (length self.old.items) }
        ensures few { result.1 ≤ steps + 12 }
    {
        let is_kept = opens(&self.heap, &mut self.places, self.is_placed, item.ticket());
        match put_in(&mut self.heap, &mut self.places, item, steps) {
            Err((refused, steps)) => (Err(refused), steps),
            Ok(steps) => {
                self.is_placed = is_kept;
                (Ok(()), steps)
            }
        }
    }

    /// Takes the lowest item out, where there is one, by at most eight times as many comparisons as
    /// places are above the last item, and so by 96 or fewer. Takes no memory, and the room stays.
    #[inline(always)]
    pub fn pop_counted<L: Ledger>(&mut self, steps: Steps<L>) -> (Option<T>, Steps<L>)
        ensures item { result.0 ≡ first_of self.old.items }
        ensures rest { self.new.items ≡ rest_of self.old.items }
        ensures room { self.new.room ≡ self.old.room }
        ensures counted { result.1 ≤ steps + 8 * depth_at (length self.old.items - 1) }
        ensures few { result.1 ≤ steps + 96 }
    {
        if self.heap.is_empty() {
            return (None, steps);
        }
        let (item, steps) = take_out(&mut self.heap, &mut self.places, 0, steps);
        (Some(item), steps)
    }

    /// Takes out the first item with this ticket, where there is one, by at most as many comparisons
    /// as a pop and, where places are not kept, one of each item besides. Takes no memory, and the
    /// room stays.
    pub fn remove_counted<L: Ledger>(
        &mut self,
        ticket: u64,
        mut steps: Steps<L>,
    ) -> (Option<T>, Steps<L>)
        ensures item { result.0 ≡ item_with T.ticket_of ticket self.old.items }
        ensures rest { self.new.items ≡ without_ticket T.ticket_of ticket self.old.items }
        ensures room { self.new.room ≡ self.old.room }
        ensures counted { result.1 ≤ steps + (length self.old.items + 8 * depth_at (length self.old.items - 1)) }
    {
        let found = find(&self.heap, &self.places, self.is_placed, ticket, &mut steps);
        let Some(place) = found else {
            return (None, steps);
        };
        let (item, steps) = take_out(&mut self.heap, &mut self.places, place, steps);
        (Some(item), steps)
    }
}

// A push that counts for itself.
#[inline(always)]
fn push_counting<T: HasTicket, P: Places, A: Allocator, L: Ledger>(
    heap: &mut TicketHeap<T, P, A>,
    item: T,
    blank: Blank,
) -> Result<(), T>
    requires name { blank.name ≡ L.name }
    requires parts { blank.parts ≡ L.parts }
    requires shared { 0 < L.parts }
    requires room { length heap.old.items < MOST_ITEMS }
    requires ranked { IsRankedAmong T.cmp T.rank_of item heap.old.items }
    ensures ok { OnOk result (heap.new.items ≡ with_item_by (not_above_by T.cmp) item heap.old.items) }
    ensures err { OnErr result (heap.new.items ≡ heap.old.items) }
    ensures handed_back { IfErr result (λ back. back ≡ item) }
    ensures full { OnErr result (heap.old.room ≤ length heap.old.items) }
    ensures room { heap.old.room ≤ heap.new.room }
{
    let (put, _steps) = heap.push_counted(item, Steps::<L>::new(blank));
    put
}

// A pop that counts for itself.
#[inline(always)]
fn pop_counting<T: HasTicket, P: Places, A: Allocator, L: Ledger>(
    heap: &mut TicketHeap<T, P, A>,
    blank: Blank,
) -> Option<T>
    requires name { blank.name ≡ L.name }
    requires parts { blank.parts ≡ L.parts }
    requires shared { 0 < L.parts }
    ensures item { result ≡ first_of heap.old.items }
    ensures rest { heap.new.items ≡ rest_of heap.old.items }
    ensures room { heap.new.room ≡ heap.old.room }
{
    let (item, _steps) = heap.pop_counted(Steps::<L>::new(blank));
    item
}

// A removal that counts for itself.
fn remove_counting<T: HasTicket, P: Places, A: Allocator, L: Ledger>(
    heap: &mut TicketHeap<T, P, A>,
    ticket: u64,
    blank: Blank,
) -> Option<T>
    requires name { blank.name ≡ L.name }
    requires parts { blank.parts ≡ L.parts }
    requires shared { 0 < L.parts }
    ensures item { result ≡ item_with T.ticket_of ticket heap.old.items }
    ensures rest { heap.new.items ≡ without_ticket T.ticket_of ticket heap.old.items }
    ensures room { heap.new.room ≡ heap.old.room }
{
    let (item, _steps) = heap.remove_counted(ticket, Steps::<L>::new(blank));
    item
}

// What is found, by a count of its own.
fn find_counting<T: HasTicket, P: Places, L: Ledger>(
    items: &[T],
    places: &P,
    is_placed: bool,
    ticket: u64,
    blank: Blank,
) -> Option<usize>
    requires name { blank.name ≡ L.name }
    requires parts { blank.parts ≡ L.parts }
    requires shared { 0 < L.parts }
    requires placed { is_placed ≡ true → IsPlaced T.ticket_of (P.table places.now) items.now }
    ensures { Finds T.ticket_of (not_above_by T.cmp) items.now (length items.now) ticket result }
{
    find(
        items,
        places,
        is_placed,
        ticket,
        &mut Steps::<L>::new(blank),
    )
}

impl<T: HasTicket, P: Places, A: Allocator> Store<T> for TicketHeap<T, P, A> {
    ghost content = { λ h. h.items };

    ghost room = { λ h. h.room };

    #[inline(always)]
    fn push(&mut self, item: T) -> Result<(), T> {
        push_counting::<T, P, A, Brand>(self, item, Blank::new(1))
    }

    #[inline(always)]
    fn pop(&mut self) -> Option<T> {
        pop_counting::<T, P, A, Brand>(self, Blank::new(1))
    }

    fn least(&self) -> Option<&T> {
        self.heap.first()
    }

    fn len(&self) -> usize {
        self.heap.len()
    }

    fn is_empty(&self) -> bool {
        self.len() == 0
    }
}

impl<T: HasTicket, P: Places, A: Allocator> TicketStore<T> for TicketHeap<T, P, A> {
    fn remove(&mut self, ticket: u64) -> Option<T> {
        remove_counting::<T, P, A, Brand>(self, ticket, Blank::new(1))
    }

    fn find(&self, ticket: u64) -> Option<&T> {
        let found = find_counting::<T, P, Brand>(
            &self.heap,
            &self.places,
            self.is_placed,
            ticket,
            Blank::new(1),
        );
        let Some(place) = found else {
            return None;
        };
        Some(&self.heap[place])
    }
}
