// A journal that is full stays full. Whoever runs for long then moves what is left into a new Book,
// or a new queue, in which the journal begins anew.
ghost use Rattle.std.specs.Prelude.{◌≡◌, ◌<◌, ◌++◌, ◌∷◌, length, map, IfOk, IfErr, OnOk};
ghost use Rattle.pq_types.specs.History.{left};
ghost use Rattle.pq_types.specs.Entry.{item_of};
ghost use Rattle.readme_examples.specs.Epochs.{items_of, pushed_by};

use crate::agenda::{Agenda, Heap, Refused};
use flat_queue::{CallError, Handle};
use leftist_heap::Store;
use pq_book::Book;
use pq_types::Item;
use pq_types::laws::law_one_more_line;
use std::alloc::Global;
use std::sync::Wait;

/// The items that a move was to take along, where it was refused: no item is lost.
#[derive(Drop)]
pub enum Unmoved {
    /// Nothing was moved: the old Book as it was.
    Old(Book<Heap, Global>),
    /// Some were moved: the new agenda with these, the item that was refused, and the store with
    /// those behind it.
    Between(Agenda, Item, Heap),
}

/// A new agenda that holds exactly what the old Book held, in the same order, with room for so many
/// lines, of which each item takes one.
///
/// `LinesOutOfRange` where no journal has so many lines, `BookFull` only where they are fewer than
/// the items, `NoMemory` where memory was refused.
pub fn new_epoch(
    alloc: Global,
    old: Book<Heap, Global>,
    lines: u32,
) -> Result<Agenda, (Refused, Unmoved)>
    ensures same { IfOk result (λ agenda. agenda.items ≡ left old.journal) }
    ensures room { IfOk result (λ agenda. (agenda.lines ≡ length agenda.items) × (agenda.room ≡ lines)) }
    ensures kept { IfErr result (λ refused. items_of refused.1 ≡ left old.journal) }
    ensures full { IfErr result (λ refused. refused.0 ≡ Refused.BookFull → lines < length (left old.journal)) }
{
    let mut agenda = match Agenda::new(alloc, lines) {
        Ok(agenda) => agenda,
        Err(error) => return Err((error, Unmoved::Old(old))),
    };
    law_one_more_line();
    let (mut store, _, _) = old.into_parts();
    while let Some(entry) = Store::pop(&mut store) {
        let item = entry.item();
        if let Err(error) = agenda.push(item) {
            return Err((error, Unmoved::Between(agenda, item, store)));
        }
    }
    Ok(agenda)
}

/// Pushes all items of a store into a queue, in the order in which they come out of it: what a
/// closed queue held, into the next one. Where a push is refused its item comes back, and the store
/// has those behind it.
pub fn restock<R: Wait>(
    rt: &R,
    handle: &mut Handle<'_, Heap>,
    store: &mut Heap,
) -> Result<(), (CallError, Item)>
    ensures same { OnOk result (pushed_by handle.new.pen.mine ≡ pushed_by handle.old.pen.mine ++ map item_of store.old.items) }
    ensures kept { IfErr result (λ refused. pushed_by handle.new.pen.mine ++ refused.1 ∷ map item_of store.new.items
        ≡ pushed_by handle.old.pen.mine ++ map item_of store.old.items) }
    ensures queue { handle.new.queue ≡ handle.old.queue }
{
    while let Some(entry) = Store::pop(store) {
        let item = entry.item();
        if let Err(error) = handle.push(rt, item) {
            return Err((error, item));
        }
    }
    Ok(())
}
