// Two threads, of which one tells the other by a note what it has done.
ghost use Rattle.std.specs.Prelude.{◌≡◌, ◌<◌, ◌≤◌, length, IfOk};

use flat_queue::{CallError, Handle, Newcomer, Note, Queue};
use leftist_heap::Leftist;
use pq_book::Entry;
use pq_types::Item;
use std::alloc::Global;
use std::sync::Wait;
use std::thread;
use std::thread::Threads;

type Heap = Leftist<Entry, Global>;

/// What the one does: it pushes an item, and writes a note, which has the push. The number of the push's
/// journal line, and the note.
pub fn push_and_note<R: Wait>(
    rt: &R,
    handle: &mut Handle<'_, Heap>,
    item: Item,
) -> Result<(u64, Note), CallError>
    ensures queue { IfOk result (λ told. told.1.table ≡ handle.old.queue.desk) }
    ensures noted { IfOk result (λ told. told.0 ≤ length told.1.told) }
{
    let number = handle.push(rt, item)?;
    let note = handle.note();
    Ok((number, note))
}

/// What the other does: it hears the note, and takes the first item out, behind all that the note tells. The number of
/// the pop's journal line, and the item, none where the queue was empty.
#[tactic(auto, using(crate::proofs::Behind::lines_behind))]
pub fn hear_and_pop<R: Wait>(
    rt: &R,
    handle: &mut Handle<'_, Heap>,
    note: Note,
) -> Result<(u64, Option<Item>), CallError>
    requires note { note.table ≡ handle.old.queue.desk }
    ensures behind { IfOk result (λ popped. length note.told < popped.0) }
{
    handle.hear(note);
    handle.pop(rt)
}

/// One thread pushes an item and writes a note, while another joins; this one hears the note, and pops. The numbers
/// of both lines: that of the push is the less.
pub fn hand_over<R: Threads + Wait + Sync>(
    rt: &R,
    queue: &Queue<Heap>,
    newcomers: (Newcomer, Newcomer),
    item: Item,
) -> Result<(u64, u64), CallError>
    requires first { newcomers.0.queue ≡ queue.now }
    requires second { newcomers.1.queue ≡ queue.now }
    ensures { IfOk result (λ lines. lines.0 < lines.1) }
{
    let (first, second) = newcomers;
    let (pushed, mut other) = thread::join(
        rt,
        move || -> Result<(u64, Note), CallError>
            requires { first.queue ≡ queue.now }
            ensures queue { IfOk result (λ told. told.1.table ≡ queue.entry.now.desk) }
            ensures noted { IfOk result (λ told. told.0 ≤ length told.1.told) }
        {
            let mut handle = queue.enter(first);
            push_and_note(rt, &mut handle, item)
        },
        || queue.enter(second),
    );
    let (push, note) = pushed?;
    let (pop, _) = hear_and_pop(rt, &mut other, note)?;
    Ok((push, pop))
}
