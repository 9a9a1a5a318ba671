// Two threads share a queue: each pushes three items, and takes three out.
ghost use Rattle.std.specs.Prelude.{◌≡◌, IfOk};
ghost use Rattle.std.specs.List.{All};
ghost use Rattle.readme_examples.specs.Workers.{taken_out};

use crate::workers::WorkError;
use flat_queue::{Handle, Member, Newcomer, Queue};
use leftist_heap::Leftist;
use pq_book::Entry;
use pq_types::Item;
use std::alloc::{AllocError, Global};
use std::marker::Model;
use std::sync::Wait;
use std::thread;
use std::thread::Threads;

type Heap = Leftist<Entry, Global>;

/// A handle, and the items that its pops took out of the queue, in their order.
#[derive(Drop)]
pub struct Taker<'q> {
    handle: Handle<'q, Heap>,
    taken: Vec<Item>,
}

impl<'q> Model for Taker<'q> {
    ghost use Rattle.std.specs.Prelude.{◌≡◌};
    ghost use Rattle.flat_queue.specs.Members.{Joined};
    ghost use Rattle.readme_examples.specs.Workers.{taken_out};

    ghost Value = { Joined };

    ghost view = { λ t. t.handle };

    ghost invariant = { λ t. t.taken.items ≡ taken_out t.handle.pen.mine };
}

impl<'q> Taker<'q> {
    /// The newcomer joins, and has taken nothing out yet.
    pub fn enter(alloc: Global, queue: &'q Queue<Heap>, newcomer: Newcomer) -> Taker<'q>
        requires { newcomer.queue ≡ queue.now }
        ensures { result.queue ≡ queue.now }
    {
        Taker {
            handle: queue.enter(newcomer),
            taken: Vec::new(alloc),
        }
    }

    /// Pushes an item: the number of its journal line.
    #[tactic(auto, using(crate::proofs::TakenOut::after_push, crate::proofs::TakenOut::after_refusal))]
    pub fn push<R: Wait>(&mut self, rt: &R, item: Item) -> Result<u64, WorkError> {
        let number = self.handle.push(rt, item)?;
        Ok(number)
    }

    /// Takes the first item out, where there is one: the number of the pop's journal line.
    #[tactic(auto, using(crate::proofs::TakenOut::after_pop, crate::proofs::TakenOut::after_empty_pop, crate::proofs::TakenOut::after_refusal))]
    pub fn take<R: Wait>(&mut self, rt: &R) -> Result<u64, WorkError> {
        if self.taken.reserve(1).is_err() {
            return Err(WorkError::NoMemory);
        }
        let (number, item) = self.handle.pop(rt)?;
        if let Some(item) = item {
            self.taken.push_reserved(item);
        }
        Ok(number)
    }

    /// The member, and the items that its pops took out of the queue.
    pub fn end(self) -> (Member<Heap>, Vec<Item>)
        ensures { result.1.items ≡ taken_out result.0.pen.mine }
    {
        let Taker { handle, taken } = self;
        (handle.into_member(), taken)
    }
}

/// What each thread does. What it tells is what its own calls took out of the queue, whatever the other
/// thread does meanwhile.
pub fn push_and_take<R: Wait>(
    rt: &R,
    alloc: Global,
    queue: &Queue<Heap>,
    newcomer: Newcomer,
) -> Result<(Member<Heap>, Vec<Item>), WorkError>
    requires { newcomer.queue ≡ queue.now }
    ensures { IfOk result (λ told. told.1.items ≡ taken_out told.0.pen.mine) }
{
    let mut taker = Taker::enter(alloc, queue, newcomer);
    for priority in [30, 10, 20] {
        taker.push(rt, Item { priority, value: 7 })?;
    }
    for _ in 0..3 {
        taker.take(rt)?;
    }
    Ok(taker.end())
}

/// Both threads at work, or as many as there are newcomers.
pub fn all_push_and_take<R: Threads + Wait + Sync>(
    rt: &R,
    alloc: Global,
    queue: &Queue<Heap>,
    newcomers: Vec<Newcomer>,
) -> Result<Vec<Result<(Member<Heap>, Vec<Item>), WorkError>>, AllocError>
    requires { All (λ n. n.queue ≡ queue.now) newcomers.items }
{
    thread::map_vec(
        rt,
        newcomers,
        &|newcomer: Newcomer| { push_and_take(rt, alloc, queue, newcomer) },
    )
}
