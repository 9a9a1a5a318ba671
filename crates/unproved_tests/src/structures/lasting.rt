// The last lines of a long journal.
ghost use Rattle.std.specs.Prelude.{◌≡◌, ◌≤◌, ℕ, []};
ghost use Rattle.pq_types.specs.History.{last_serial};

use leftist_heap::{Leftist, Store};
use linked_list_allocator::LocalHeap;
use pq_book::forgotten::Forgotten;
use pq_book::{Book, BookError, Entry, LinesError};
use pq_types::laws::law_one_more_line;
use pq_types::{Answer, GREATEST_NUMBER, Line, Request};
use std::alloc::{Allocator, Global};
use std::mem::size_of;
use test_aids::Refusing;

// How many lines of a long journal are kept.
const PAGE: u64 = 65_536;

// A Book whose requests come from place 0 under the serials 1, 2, 3 and so on.
#[derive(Drop)]
struct Ordered<S: Store<Entry>, A: Allocator> {
    book: Book<S, A>,
    serial: u64,
    ghost below: { (place : ℕ) → last_serial place book.journal ≤ serial },
}

impl<S: Store<Entry>, A: Allocator> Ordered<S, A> {
    fn new(alloc: A, store: S, room: u64) -> Result<Self, BookError>
        requires { S.content store ≡ [] }
    {
        let book = Book::lasting(alloc, store, room)?;
        Ok(Ordered { book, serial: 0 })
    }

    fn apply(&mut self) -> Option<Answer> {
        law_one_more_line();
        let serial = self.serial.checked_add(1)?;
        let answer = self.book.apply(0, serial, Request::Least);
        self.serial = serial;
        Some(answer)
    }

    // Asks so often what there is: whether there was an answer each time.
    fn ask(&mut self, times: u64) -> bool {
        for _ in 0..times {
            if self.apply().is_none() {
                return false;
            }
        }
        true
    }
}

// Whether these are the lines of this serial and of all behind it, up to this one.
fn have_serials(lines: &[Line], first: u64, last: u64) -> bool {
    let mut next = first;
    for line in lines {
        if line.serial != next {
            return false;
        }
        next = next.saturating_add(1);
    }
    next == last.saturating_add(1)
}

#[test]
fn forgotten_lines_have_no_bytes(rt: HostRuntime) {
    assert!(rt; size_of::<Forgotten>() == 0 && size_of::<Line>() == 40);
}

// Whether an archive whose first request for memory is refused stays empty, and then gets all five
// lines.
fn is_archived_at_last<S: Store<Entry>, A: Allocator, B: Allocator>(
    book: &Book<S, A>,
    archive: &mut Vec<Line, B>,
) -> bool {
    book.lines_from(0, archive) == Err(LinesError::NoMemory)
        && archive.is_empty()
        && book.lines_from(0, archive).is_ok()
        && have_serials(archive.as_slice(), 1, 5)
}

// Whether an archive does so whose first request is refused.
fn bears_a_refused_archive<S: Store<Entry>, A: Allocator, B: Allocator>(
    alloc: A,
    store: S,
    archive: &mut Vec<Line, B>,
) -> bool
    requires { S.content store ≡ [] }
{
    let Ok(mut ordered) = Ordered::new(alloc, store, 9) else {
        return false;
    };
    let has_all = ordered.ask(5);
    is_archived_at_last(&ordered.book, archive) && has_all
}

// The memory of a page, and that of an archive.
#[test]
fn refused_memory_leaves_nothing(rt: HostRuntime) {
    let refusing = Refusing::nth(rt.alloc(), 1);
    let store = Leftist::new(rt.alloc());
    let refused = Ordered::new(&refusing, store, GREATEST_NUMBER).err();
    assert!(rt; refused == Some(BookError::NoMemory) && refusing.has_refused());
    let refusing = Refusing::nth(rt.alloc(), 1);
    let (store, mut archive) = (Leftist::new(rt.alloc()), Vec::new(&refusing));
    assert!(rt; bears_a_refused_archive(rt.alloc(), store, &mut archive));
}

// How many lines an archive in a region of this many bytes gets of a Book of five.
fn archived_in(alloc: Global, bytes: usize) -> Option<usize> {
    let region = LocalHeap::new(alloc, bytes).ok()?;
    let mut ordered = Ordered::new(alloc, Leftist::new(alloc), 9).ok()?;
    let has_all = ordered.ask(5);
    let mut archive = Vec::new(&region);
    let is_archived = ordered.book.lines_from(0, &mut archive).is_ok();
    let is_so = is_archived && has_all && have_serials(archive.as_slice(), 1, 5);
    is_so.then_some(archive.len())
}

// An archive asks for the memory of its lines, and for little more.
#[test]
fn an_archive_of_few_lines_fits_into_a_small_heap(rt: HostRuntime) {
    assert!(rt; archived_in(rt.alloc(), 1_024) == Some(5));
}

// Whether a Book that has forgotten three lines tells so, and the archive gets the others.
fn tells_three_forgotten<S: Store<Entry>, A: Allocator, B: Allocator>(
    book: &Book<S, A>,
    archive: &mut Vec<Line, B>,
) -> bool {
    book.lines_from(2, archive) == Err(LinesError::Forgotten)
        && archive.is_empty()
        && book.lines_from(3, archive).is_ok()
        && have_serials(archive.as_slice(), 4, PAGE + 3)
        && book.lines().forgotten == 3
}

// How many requests a Book makes at its opening, and till it has forgotten three lines, where an archive
// gets the others; nothing where it doesn't.
fn requests_of_a_page<S: Store<Entry>, A: Allocator, B: Allocator>(
    refusing: &Refusing<Global>,
    alloc: A,
    store: S,
    archive: &mut Vec<Line, B>,
) -> Option<(u64, u64)>
    requires { S.content store ≡ [] }
{
    let Ok(mut ordered) = Ordered::new(alloc, store, GREATEST_NUMBER) else {
        return None;
    };
    let opening = refusing.requests();
    let has_all = ordered.ask(PAGE + 3);
    let are_told = tells_three_forgotten(&ordered.book, archive);
    (has_all && are_told).then_some((opening, refusing.requests()))
}

#[test]
fn lines_are_forgotten_without_a_request_for_memory(rt: HostRuntime) {
    let refusing = Refusing::onwards(rt.alloc(), 2);
    let store = Leftist::new(rt.alloc());
    let requests = requests_of_a_page(&refusing, &refusing, store, &mut Vec::new(rt.alloc()));
    assert!(rt; requests == Some((1, 1)));
}
