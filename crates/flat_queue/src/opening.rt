// How a queue is opened.
ghost use Rattle.std.specs.Prelude.{◌≡◌, ◌≢◌, ◌+◌, ◌-◌, ◌<◌, ◌≤◌, ◌↔◌, [], false, length, map, replicate, take, Some, IfOk, OnOk};
ghost use Rattle.std.specs.List.{All};
ghost use Rattle.announce_board.specs.Tokens.{AtDesk};
ghost use Rattle.split_core.specs.Ids.{OpenGrid, IsFault};
ghost use Rattle.split_core.specs.declared.ids.IdError.{IdError};
ghost use Rattle.split_core.specs.Places.{IsGridSize};
ghost use Rattle.split_grid.specs.Opening.{places_of};
ghost use Rattle.pq_types.specs.declared.journal.TheConstants.{GREATEST_NUMBER};
ghost use Rattle.pq_book.specs.Book.{IsRoom, AllHaveRoom};
ghost use Rattle.pq_book.specs.Pages.{page_of};
ghost use Rattle.announce_board.specs.Opening.{ArePens};
ghost use Rattle.announce_board.specs.Slots.{plain_terms};
ghost use Rattle.flat_queue.specs.Gathered.{licences_at};
ghost use Rattle.flat_queue.specs.Lengths.{room_of, kept_of, terms_with, IsLength};
ghost use Rattle.flat_queue.specs.Members.{HasRoomForAll};
ghost use Rattle.flat_queue.specs.Opening.{Opens, waiting_of, AreAsleep, is_coming};

use crate::error::QueueError;
use crate::event_count::EventCount;
use crate::gathered::all_licences;
use crate::hint::PostHint;
use crate::joined::JoinCount;
use crate::length::{Length, room_of, terms_with};
use crate::member::Newcomer;
use crate::queue::Queue;
use crate::spare::Spare;
use crate::waiting::{DeskTag, Waiting};
use announce_board::{Desk, Pen, Testimony};
use leftist_heap::{Leftist, Store};
use pq_book::Entry;
use pq_book::limit::LONG_PAGE;
use pq_types::Part;
use split_core::ids::check_ids;
use split_core::laws::law_places;
use split_core::places::place_number;
use split_grid::Grid;
use std::alloc::{AllocError, Global};
use std::snapshot::Snapshot;

impl<S: Store<Entry<P>>, P: Part> Queue<S, P> {
    /// A queue of this empty store, of either width, for the comers of these ids, with a journal of this length, and a
    /// newcomer for each id, in their order. With a bound, which may be any number, it refuses a push while it has so many
    /// items, all under the lock. The ids are refused as by `with_store`, then the length, where it is out of its range, by
    /// `LinesOutOfRange`, then `NoMemory` where memory was. All memory that the queue will ever need is taken here, but for the
    /// growth of the store.
    pub fn limited(
        alloc: Global,
        ids: &[u64],
        store: S,
        length: Length,
        bound: Option<u64>,
    ) -> Result<(Queue<S, P>, Vec<Newcomer>), QueueError>
        requires empty { S.content store ≡ [] }
        ensures ok { IfOk result (λ r. Opens ids.now (room_of length) r.0 r.1.items) }
        ensures terms { IfOk result (λ r. r.0.terms ≡ terms_with length bound) }
        ensures kept { OnOk result (page_of (room_of length) ≡ kept_of length) }
        ensures opens { OnOk result (OpenGrid ids.now × IsLength length) }
        ensures comers { (e : IdError) → (result ≡ Err (QueueError.Comers e)) ↔ IsFault ids.now e }
        ensures lines { (result ≡ Err QueueError.LinesOutOfRange) ↔ (OpenGrid ids.now × (¬ (IsLength length))) }
        ensures memory { result ≡ Err QueueError.NoMemory → OpenGrid ids.now × IsLength length }
    {
        if let Err(fault) = check_ids(ids) {
            return Err(QueueError::Comers(fault));
        }
        let Some(room) = room_of(length) else {
            return Err(QueueError::LinesOutOfRange);
        };
        law_places();
        let places = place_number(0, ids.len() as u16);
        let terms = terms_with(length, room, bound);
        // The room is in its range, so that memory alone can be missing.
        let Ok((desk, pens)) = Desk::limited(alloc, store, places, room, terms) else {
            return Err(QueueError::NoMemory);
        };
        match opened(alloc, ids, desk, pens) {
            Ok(made) => Ok(made),
            Err(AllocError) => Err(QueueError::NoMemory),
        }
    }
}

impl<S: Store<Entry>> Queue<S> {
    /// A queue of this empty store for the comers of these ids, with a journal of so many lines,
    /// and a newcomer for each id, in their order. The ids are 1 to 64 in number, none 0 and no two
    /// equal, else `Comers` says what is wrong with them; then the lines are 1 to 1,048,576, else
    /// `LinesOutOfRange`; then `NoMemory` where memory was refused. All memory that the queue will
    /// ever need is taken here, but for the growth of the store. Over stores that all have room for
    /// so many items, as `ReservedHeap`, no push of the queue is refused for want of memory.
    pub fn with_store(
        alloc: Global,
        ids: &[u64],
        store: S,
        lines: u32,
    ) -> Result<(Queue<S>, Vec<Newcomer>), QueueError>
        requires empty { S.content store ≡ [] }
        ensures ok { IfOk result (λ r. Opens ids.now lines r.0 r.1.items) }
        ensures terms { IfOk result (λ r. r.0.terms ≡ plain_terms lines) }
        ensures stores { IfOk result (λ r. AllHaveRoom S.room lines → HasRoomForAll S.room r.0) }
        ensures opens { OnOk result (OpenGrid ids.now × IsRoom lines) }
        ensures comers { (e : IdError) → (result ≡ Err (QueueError.Comers e)) ↔ IsFault ids.now e }
        ensures lines { (result ≡ Err QueueError.LinesOutOfRange) ↔ (OpenGrid ids.now × (¬ (IsRoom lines))) }

        // No clause can say that memory was refused, but these ids and lines would have made a
        // queue.
        ensures memory { result ≡ Err QueueError.NoMemory → OpenGrid ids.now × IsRoom lines }
    {
        Queue::limited(alloc, ids, store, Length::Lines(lines), None)
    }

    /// A queue that runs for years: of this empty store for the comers of these ids, with a journal of
    /// 2^56 lines, and a newcomer for each id, in their order. Memory holds the last 65,536 lines, which
    /// `archive` copies; all contracts speak of the whole journal. The ids are refused as by `with_store`,
    /// then `NoMemory` where memory was. All memory that the queue will ever need is taken here, but for
    /// the growth of the store.
    #[tactic(auto, unfolding(pq_book::specs::Pages::shortage))]
    pub fn lasting(
        alloc: Global,
        ids: &[u64],
        store: S,
    ) -> Result<(Queue<S>, Vec<Newcomer>), QueueError>
        requires empty { S.content store ≡ [] }
        ensures ok { IfOk result (λ r. Opens ids.now GREATEST_NUMBER r.0 r.1.items) }
        ensures terms { IfOk result (λ r. r.0.terms ≡ plain_terms GREATEST_NUMBER) }
        ensures opens { OnOk result (OpenGrid ids.now) }
        ensures comers { (e : IdError) → (result ≡ Err (QueueError.Comers e)) ↔ IsFault ids.now e }
        ensures lines { result ≢ Err QueueError.LinesOutOfRange }
        ensures memory { result ≡ Err QueueError.NoMemory → OpenGrid ids.now }
    {
        Queue::limited(alloc, ids, store, Length::Keeping(LONG_PAGE as u32), None)
    }
}

impl<S: Store<Entry<u64>>> Queue<S, u64> {
    /// A queue of wide items, whose parts are numbers of 64 bits, as `with_store` opens one of narrow
    /// items: with the same ranges and refusals, and of a store of wide items.
    pub fn wide_with_store(
        alloc: Global,
        ids: &[u64],
        store: S,
        lines: u32,
    ) -> Result<(Queue<S, u64>, Vec<Newcomer>), QueueError>
        requires empty { S.content store ≡ [] }
        ensures ok { IfOk result (λ r. Opens ids.now lines r.0 r.1.items) }
        ensures terms { IfOk result (λ r. r.0.terms ≡ plain_terms lines) }
        ensures stores { IfOk result (λ r. AllHaveRoom S.room lines → HasRoomForAll S.room r.0) }
        ensures opens { OnOk result (OpenGrid ids.now × IsRoom lines) }
        ensures comers { (e : IdError) → (result ≡ Err (QueueError.Comers e)) ↔ IsFault ids.now e }
        ensures lines { (result ≡ Err QueueError.LinesOutOfRange) ↔ (OpenGrid ids.now × (¬ (IsRoom lines))) }
        ensures memory { result ≡ Err QueueError.NoMemory → OpenGrid ids.now × IsRoom lines }
    {
        Queue::limited(alloc, ids, store, Length::Lines(lines), None)
    }

    /// The same, as `lasting` opens one: with a journal of 2^56 lines, of which memory holds the last
    /// 65,536, 4 MiB.
    #[tactic(auto, unfolding(pq_book::specs::Pages::shortage))]
    pub fn wide_lasting(
        alloc: Global,
        ids: &[u64],
        store: S,
    ) -> Result<(Queue<S, u64>, Vec<Newcomer>), QueueError>
        requires empty { S.content store ≡ [] }
        ensures ok { IfOk result (λ r. Opens ids.now GREATEST_NUMBER r.0 r.1.items) }
        ensures terms { IfOk result (λ r. r.0.terms ≡ plain_terms GREATEST_NUMBER) }
        ensures opens { OnOk result (OpenGrid ids.now) }
        ensures comers { (e : IdError) → (result ≡ Err (QueueError.Comers e)) ↔ IsFault ids.now e }
        ensures lines { result ≢ Err QueueError.LinesOutOfRange }
        ensures memory { result ≡ Err QueueError.NoMemory → OpenGrid ids.now }
    {
        Queue::limited(alloc, ids, store, Length::Keeping(LONG_PAGE as u32), None)
    }
}

impl Queue<Leftist<Entry, Global>> {
    /// A queue over a leftist heap for the comers of these ids, with a journal of so many lines,
    /// and a newcomer for each id, in their order; with the refusals of `with_store`.
    pub fn new(
        alloc: Global,
        ids: &[u64],
        lines: u32,
    ) -> Result<(Queue<Leftist<Entry, Global>>, Vec<Newcomer>), QueueError>
        ensures ok { IfOk result (λ r. Opens ids.now lines r.0 r.1.items) }
        ensures terms { IfOk result (λ r. r.0.terms ≡ plain_terms lines) }
        ensures opens { OnOk result (OpenGrid ids.now × IsRoom lines) }
        ensures comers { (e : IdError) → (result ≡ Err (QueueError.Comers e)) ↔ IsFault ids.now e }
        ensures lines { (result ≡ Err QueueError.LinesOutOfRange) ↔ (OpenGrid ids.now × (¬ (IsRoom lines))) }
        ensures memory { result ≡ Err QueueError.NoMemory → OpenGrid ids.now × IsRoom lines }
    {
        Queue::with_store(alloc, ids, Leftist::new(alloc), lines)
    }
}

impl Queue<Leftist<Entry<u64>, Global>, u64> {
    /// A queue of wide items over a leftist heap, as `new` opens one of narrow items.
    pub fn wide(
        alloc: Global,
        ids: &[u64],
        lines: u32,
    ) -> Result<(Queue<Leftist<Entry<u64>, Global>, u64>, Vec<Newcomer>), QueueError>
        ensures ok { IfOk result (λ r. Opens ids.now lines r.0 r.1.items) }
        ensures terms { IfOk result (λ r. r.0.terms ≡ plain_terms lines) }
        ensures opens { OnOk result (OpenGrid ids.now × IsRoom lines) }
        ensures comers { (e : IdError) → (result ≡ Err (QueueError.Comers e)) ↔ IsFault ids.now e }
        ensures lines { (result ≡ Err QueueError.LinesOutOfRange) ↔ (OpenGrid ids.now × (¬ (IsRoom lines))) }
        ensures memory { result ≡ Err QueueError.NoMemory → OpenGrid ids.now × IsRoom lines }
    {
        Queue::wide_with_store(alloc, ids, Leftist::new(alloc), lines)
    }
}

// The queue of this desk and its pens, and the newcomers.
#[tactic(auto, using(crate::proofs::Pens::coming_all, crate::proofs::Pens::coming_here))]
fn opened<S: Store<Entry<P>>, P: Part>(
    alloc: Global,
    ids: &[u64],
    desk: Desk<S, P>,
    pens: Vec<Pen<S, P>>,
) -> Result<(Queue<S, P>, Vec<Newcomer>), AllocError>
    requires ids { OpenGrid ids.now }
    requires places { desk.places ≡ places_of (length ids.now) }
    requires counted { length pens.items ≡ desk.places }
    requires dealt { ArePens desk.table desk.room pens.items }
    ensures opens { IfOk result (λ r. Opens ids.now desk.room r.0 r.1.items) }
    ensures terms { IfOk result (λ r. r.0.terms ≡ desk.terms) }
{
    let (waiting, licences) = asleep(alloc, &desk, pens)?;
    let tag = tag_of(&desk, &waiting);
    let (grid, walkers) = match Grid::new(alloc, ids, tag, waiting) {
        Ok(made) => made,
        Err(_) => return Err(AllocError),
    };
    let (newcomers, left) = newcomers_of(alloc, walkers, licences)?;
    let spare = Spare::new(alloc, all_licences(&desk, left))?;
    let queue = Queue {
        grid,
        desk,
        hint: PostHint::new(),
        joined: JoinCount::new(),
        waiters: EventCount::new(),
        spare,
    };
    Ok((queue, newcomers))
}

// The tag of the pens of this desk, by the first of them.
fn tag_of<S: Store<Entry<P>>, P: Part>(desk: &Desk<S, P>, waiting: &[Waiting]) -> DeskTag
    requires some { 0 < length waiting.now }
    requires asleep { AreAsleep desk.now.table desk.now.room waiting.now }
    ensures table { result.sample.value.table ≡ desk.now.table }
    ensures room { result.sample.value.state.room ≡ desk.now.room }
    ensures places { result.places ≡ desk.now.places }
    ensures terms { result.terms ≡ desk.now.terms }
{
    DeskTag {
        sample: Snapshot::of(&waiting[0].sleeper),
        places: desk.places(),
        terms: desk.terms(),
    }
}

// The pens of this desk, which sleep, for the grid; and the licence of each.
fn asleep<S: Store<Entry<P>>, P: Part>(
    alloc: Global,
    desk: &Desk<S, P>,
    pens: Vec<Pen<S, P>>,
) -> Result<(Vec<Waiting>, Vec<Testimony>), AllocError>
    requires { ArePens desk.now.table desk.now.room pens.items }
    ensures counted { IfOk result (λ r. length r.0.items ≡ length pens.items) }
    ensures asleep { IfOk result (λ r. AreAsleep desk.now.table desk.now.room r.0.items) }
    ensures licences { IfOk result (λ r. r.1.items ≡ replicate (length pens.items) (licences_at desk.now.table 1)) }
{
    let (waiting, licences) = asleep_each(alloc, desk, pens)?;
    Ok((waiting, licences))
}

fn asleep_each<S: Store<Entry<P>>, P: Part>(
    alloc: Global,
    desk: &Desk<S, P>,
    pens: Vec<Pen<S, P>>,
) -> Result<(Vec<Waiting>, Vec<Testimony>), AllocError>
    requires { ArePens desk.now.table desk.now.room pens.items }
    ensures waiting { IfOk result (λ r. r.0.items ≡ map waiting_of pens.items) }
    ensures licences { IfOk result (λ r. r.1.items ≡ map (λ _. licences_at desk.now.table 1) pens.items) }
{
    let mut waiting = Vec::with_capacity(alloc, pens.len())?;
    let mut licences = Vec::with_capacity(alloc, pens.len())?;
    for pen in pens {
        let (sleeper, licence) = desk.put_to_sleep(pen);
        waiting.push(Waiting { sleeper })?;
        licences.push(licence)?;
    }
    Ok((waiting, licences))
}

// The newcomers of these walkers, each with one of these licences; and the licences that are left.
fn newcomers_of(
    alloc: Global,
    walkers: Vec<split_grid::Newcomer<Waiting>>,
    licences: Vec<Testimony>,
) -> Result<(Vec<Newcomer>, Vec<Testimony>), AllocError>
    requires few { length walkers.items ≤ length licences.items }
    requires licences { All (λ w. All (λ t. t ≡ licences_at w.tag.sample.value.table 1) licences.items) walkers.items }
    ensures newcomers { IfOk result (λ r. r.0.items ≡ map is_coming walkers.items) }
    ensures left { IfOk result (λ r. r.1.items ≡ take (length licences.items - length walkers.items) licences.items) }
{
    let mut left = licences;
    let mut newcomers = Vec::with_capacity(alloc, walkers.len())?;
    for walking in walkers {
        let licence = left.pop().unwrap();
        newcomers.push(Newcomer { walking, licence })?;
    }
    Ok((newcomers, left))
}
