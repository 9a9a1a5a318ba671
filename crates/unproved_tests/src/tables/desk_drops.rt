// A desk that is not made drops its store, and the Book of one is dropped once, whoever has it at the end.
ghost use Rattle.std.specs.Prelude.{◌≡◌, []};
ghost use Rattle.std.specs.List.{All};

use announce_board::{Desk, DeskError, Pen};
use leftist_heap::{SortedVec, Store};
use pq_book::{Book, Entry};
use std::alloc::Global;
use std::cell::Cell;
use test_aids::WatchedStore;

// A store whose drop is counted.
fn watched(alloc: Global, drops: &Cell<u32>) -> WatchedStore<'_, SortedVec<Entry, Global>>
    ensures { result.inner ≡ [] }
{
    WatchedStore::new(SortedVec::new(alloc), drops)
}

// Why there is no desk over this store with so many lines.
fn refusal<S: Store<Entry>>(alloc: Global, store: S, lines: u32) -> Option<DeskError>
    requires { S.content store ≡ [] }
{
    Desk::with_store(alloc, store, 2, lines).err()
}

#[test]
fn a_desk_that_is_not_made_drops_its_store(rt: HostRuntime) {
    const LINES: [(u32, u32); 3] = [(1, 0), (2, 1_048_577), (3, u32::MAX)];
    let drops = Cell::new(0);
    for &(count, lines) in &LINES {
        let error = refusal(rt.alloc(), watched(rt.alloc(), &drops), lines);
        assert!(rt; error == Some(DeskError::LinesOutOfRange) && drops.get() == count);
    }
}

// Whether the Book is dropped with what goes here, and not before.
fn goes_here<T: Drop>(drops: &Cell<u32>, holder: T) -> bool {
    let before = drops.get();
    drop(holder);
    before == 0 && drops.get() == 1
}

// The Book that the last of these pens of the desk keeps for good, where the lock is free.
fn kept_by_last<S: Store<Entry>>(desk: &Desk<S>, mut pens: Vec<Pen<S>>) -> Option<Book<S, Global>>
    requires { All (λ p. p.table ≡ desk.now.table) pens.items }
{
    let mut last = pens.pop()?;
    let lead = desk.try_lead(&mut last)?;
    Some(lead.into_book())
}

// Who has the Book of a desk at the end.
#[derive(Clone, Copy)]
enum End {
    Desk,
    Closer,
    Leader,
}

// Whether the Book of this desk goes once, where this one has it.
fn goes_once<S: Store<Entry>>(drops: &Cell<u32>, desk: Desk<S>, pens: Vec<Pen<S>>, end: End) -> bool
    requires { All (λ p. p.table ≡ desk.table) pens.items }
{
    match end {
        End::Desk => {
            drop(pens);
            goes_here(drops, desk)
        }
        End::Closer => goes_here(drops, desk.close()),
        End::Leader => {
            let kept = kept_by_last(&desk, pens);
            let is_held = desk.close().is_err();
            goes_here(drops, kept) && is_held
        }
    }
}

// Whether that of a new desk of so many places over this store does.
fn ends_over<S: Store<Entry>>(
    alloc: Global,
    drops: &Cell<u32>,
    store: S,
    places: u16,
    end: End,
) -> bool
    requires { S.content store ≡ [] }
{
    match Desk::with_store(alloc, store, places, 4) {
        Ok((desk, pens)) => goes_once(drops, desk, pens, end),
        Err(_) => false,
    }
}

#[test]
fn the_book_of_a_desk_is_dropped_once(rt: HostRuntime) {
    for &end in &[End::Desk, End::Closer, End::Leader] {
        let drops = Cell::new(0);
        let store = watched(rt.alloc(), &drops);
        assert!(rt; ends_over(rt.alloc(), &drops, store, 2, end));
    }
}
