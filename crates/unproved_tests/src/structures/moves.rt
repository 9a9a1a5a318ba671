// Books whose items are popped, removed and moved: random calls beside a list in order, and the audit of their journals.
use crate::structures::removals::Numbers;
use leftist_heap::{Level, TicketHeap, TreePlaces};
use line_script::RunError;
use pq_book::{Book, Entry};
use pq_types::{Answer, Item, Reply, Request, Ticketed};
use queue_texts::{AuditRefusal, AuditReport, run_audit, write_journal};
use std::alloc::Global;

type Kept = Book<TicketHeap<Entry, TreePlaces<Global>, Global>, Global>;

// A Book, and a list in order of the entries that should wait in it. Each call takes a line, whose number is its serial.
#[derive(Drop)]
struct Pair {
    book: Kept,
    list: Vec<Entry>,
    lines: u64,
}

impl Pair {
    // Puts an item into the list, as this line does.
    fn puts(&mut self, item: Item, line: u64) -> bool {
        let entry = Entry::of(item, line);
        let place = self.list.partition_point(|other| *other <= entry);
        place <= self.list.len() && self.list.insert(place, entry).is_ok()
    }

    // Takes the entry with this ticket out of the list.
    fn takes(&mut self, ticket: u64) -> Option<Item> {
        let place = self.list.iter().position(|it| it.line == ticket)?;
        Some(self.list.remove(place).item())
    }

    // The ticket of an item that waits, or of any line.
    fn ticket(&self, numbers: &mut Numbers) -> u64 {
        let place = numbers.below(400) as usize;
        match self.list.get(place) {
            Some(entry) => entry.line,
            None => numbers.below(self.lines.saturating_add(2)),
        }
    }

    // Whether the Book enters this request, with the reply of the list.
    fn asks(&mut self, request: Request) -> bool {
        let line = self.lines.saturating_add(1);
        let answer = self.book.apply(0, line, request);
        let due = match request {
            Request::Push(item) => {
                if !self.puts(item, line) {
                    return false;
                }
                Reply::Pushed
            }
            Request::Pop if self.list.is_empty() => Reply::Empty,
            Request::Pop => Reply::Got(self.list.remove(0).item()),
            Request::Least => match self.list.first() {
                Some(first) => Reply::Least(first.item()),
                None => Reply::Empty,
            },
        };
        self.lines = line;
        answer == Answer::Entered(line, due)
    }

    // Whether the Book enters the removal by this ticket, or the move to this priority, with the reply of the list.
    fn uses(&mut self, ticket: u64, to: Option<u32>) -> bool {
        let line = self.lines.saturating_add(1);
        let ticketed = match to {
            Some(priority) => Ticketed::reschedule(ticket, priority),
            None => Ticketed::remove(ticket),
        };
        let answer = self.book.apply_by_ticket(0, line, ticketed);
        let found = self.takes(ticket);
        self.lines = line;
        if let (Some(item), Some(priority)) = (found, to) {
            let value = item.value;
            if !self.puts(Item { priority, value }, line) {
                return false;
            }
        }
        let due = match found {
            Some(item) => Reply::Got(item),
            None => Reply::Empty,
        };
        answer == Answer::Entered(line, due)
    }

    // Makes so many calls: whether each has the right answer, and the Book's first item is right behind it.
    fn agrees(&mut self, calls: u32, seed: u64) -> bool {
        let mut numbers = Numbers { last: seed };
        for _ in 0..calls {
            let priority = numbers.below(20) as u32;
            let value = numbers.below(3) as u32;
            let ticket = self.ticket(&mut numbers);
            let is_so = match numbers.below(10) {
                0..4 if self.list.len() < 300 => self.asks(Request::Push(Item { priority, value })),
                4 => self.asks(Request::Pop),
                5 => self.asks(Request::Least),
                6 => self.uses(ticket, None),
                _ => self.uses(ticket, Some(priority)),
            };
            let first = self.list.first().map(|it| it.item());
            if !is_so || self.book.first() != first {
                return false;
            }
        }
        true
    }
}

fn opened(alloc: Global) -> Option<Pair> {
    let store = TicketHeap::new(alloc, TreePlaces::bare(alloc));
    match Book::new(alloc, store, 300_000) {
        Ok(book) => Some(Pair {
            book,
            list: Vec::new(alloc),
            lines: 0,
        }),
        Err(_) => None,
    }
}

#[test]
fn a_book_moves_and_removes_as_a_list_does(rt: HostRuntime) {
    let mut pair = opened(rt.alloc()).expect(&rt, "there is memory");
    assert!(rt; pair.agrees(300_000, 23));
}

fn audited(alloc: Global, text: &[u8]) -> Result<AuditReport, RunError<AuditRefusal>> {
    let mut reader = text;
    run_audit::<u32, _, _>(alloc, &mut reader)
}

#[test]
fn the_journal_of_random_calls_is_lawful(rt: HostRuntime) {
    let mut pair = opened(rt.alloc()).expect(&rt, "there is memory");
    assert!(rt; pair.agrees(20_000, 29));
    let mut text = Vec::new(rt.alloc());
    write_journal(pair.book.lines().older, &mut text).expect(&rt, "there is memory");
    let report = audited(rt.alloc(), text.as_slice()).expect(&rt, "it is lawful");
    let left = pair.list.len() as u64;
    assert!(rt; report.lines == 20_000 && report.left == left);
    assert!(rt; report.pushed == report.got + left && report.sum_in == report.sum_out_and_left);
}

// A move that tells the new priority for the old one.
#[test]
fn a_wrong_move_is_refused(rt: HostRuntime) {
    const TEXT: &[u8] = b"1 0 1 push 5 1 pushed\n2 0 2 move 1 9 got 9 1\n";
    let Err(RunError::Refused(refusal)) = audited(rt.alloc(), TEXT) else {
        panic!(rt; "it is not lawful");
    };
    let told = refusal.to_string(rt.alloc()).expect(&rt, "there is memory");
    assert!(rt; told.as_str() == "line 2: got 9 1 where 5 1 waited with ticket 1");
    assert!(rt; refusal.status() == 5 && refusal.reason.code() == 35);
}
