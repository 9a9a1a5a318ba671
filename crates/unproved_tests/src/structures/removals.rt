// Heaps whose items are removed and moved by their tickets: random runs beside a list in order.
use leftist_heap::{
    FlatPlaces, Level, MOST_ITEMS, Places, Store, TicketHeap, TicketStore, TreePlaces,
};
use pq_book::Entry;
use pq_types::Item;
use std::alloc::Global;
use test_aids::Refusing;

// Numbers that look random.
#[derive(Drop)]
pub struct Numbers {
    pub last: u64,
}

impl Numbers {
    // The next number below this one.
    pub fn below(&mut self, bound: u64) -> u64 {
        self.last ^= self.last << 13;
        self.last ^= self.last >> 7;
        self.last ^= self.last << 17;
        self.last.checked_rem(bound).unwrap_or(0)
    }
}

// A heap, and a list in order of the entries that it should have. Of two entries the later one's ticket is higher by `step`.
#[derive(Drop)]
struct Pair<P: Places> {
    heap: TicketHeap<Entry, P, Global>,
    list: Vec<Entry>,
    step: u64,
    last: u64,
}

impl<P: Places> Pair<P> {
    fn new(alloc: Global, places: P, step: u64) -> Pair<P> {
        Pair {
            heap: TicketHeap::new(alloc, places),
            list: Vec::new(alloc),
            step,
            last: 0,
        }
    }

    // Pushes this item under the next ticket: whether both took it. Where all tickets are the same, so are the items of a priority,
    // as their ranks are.
    fn puts(&mut self, item: Item) -> bool {
        self.last = self.last.saturating_add(self.step);
        let priority = item.priority;
        let value = if self.step == 0 { priority } else { item.value };
        let entry = Entry::of(Item { priority, value }, self.last);
        let place = self.list.partition_point(|other| *other <= entry);
        place <= self.list.len()
            && self.list.insert(place, entry).is_ok()
            && self.heap.len() < MOST_ITEMS as usize
            && self.heap.push(entry).is_ok()
    }

    // Pushes an item of some priority.
    fn pushes(&mut self, numbers: &mut Numbers) -> bool {
        let priority = numbers.below(20) as u32;
        let value = numbers.below(3) as u32;
        self.puts(Item { priority, value })
    }

    // Pops: whether the heap gives the first of the list.
    fn pops(&mut self) -> bool {
        let first = (!self.list.is_empty()).then(|| self.list.remove(0));
        self.heap.pop() == first
    }

    // The ticket of an entry that is there or not.
    fn ticket(&self, numbers: &mut Numbers) -> u64 {
        let back = numbers.below(400).saturating_mul(self.step);
        self.last.saturating_sub(back) + numbers.below(2)
    }

    // Removes by this ticket: whether the heap finds and gives the first of the list that has it.
    fn removes(&mut self, ticket: u64) -> bool {
        let place = self.list.iter().position(|it| it.line == ticket);
        let there = place.map(|it| self.list.remove(it));
        self.heap.find(ticket).copied() == there && self.heap.remove(ticket) == there
    }

    // Moves by this ticket to some priority, as a Book does: the item is pushed under the next ticket, and then the old entry removed.
    fn moves(&mut self, ticket: u64, numbers: &mut Numbers) -> bool {
        let found = self.heap.find(ticket).copied();
        if self.list.iter().find(|it| it.line == ticket).copied() != found {
            return false;
        }
        let Some(entry) = found else {
            return true;
        };
        let priority = numbers.below(20) as u32;
        let value = entry.value;
        self.puts(Item { priority, value }) && self.removes(ticket)
    }

    // Makes so many calls: whether each has the right answer, and the heap's length and least item are right behind it.
    fn agrees(&mut self, calls: u32, seed: u64) -> bool {
        let mut numbers = Numbers { last: seed };
        for _ in 0..calls {
            let is_so = match numbers.below(10) {
                0..4 if self.list.len() < 300 => self.pushes(&mut numbers),
                4 | 5 => self.pops(),
                6 | 7 => {
                    let ticket = self.ticket(&mut numbers);
                    self.moves(ticket, &mut numbers)
                }
                _ => {
                    let ticket = self.ticket(&mut numbers);
                    self.removes(ticket)
                }
            };
            if !is_so
                || self.heap.len() != self.list.len()
                || self.heap.least() != self.list.first()
            {
                return false;
            }
        }
        true
    }
}

#[test]
fn a_flat_table_places_each_ticket(rt: HostRuntime) {
    let places = FlatPlaces::new(rt.alloc(), 300_000).expect(&rt, "there is memory");
    assert!(rt; Pair::new(rt.alloc(), places, 1).agrees(300_000, 7));
}

// Where tickets lie past the table, each removal looks at every item.
#[test]
fn a_flat_table_may_be_too_short(rt: HostRuntime) {
    let places = FlatPlaces::new(rt.alloc(), 100).expect(&rt, "there is memory");
    assert!(rt; Pair::new(rt.alloc(), places, 1).agrees(30_000, 11));
}

#[test]
fn levels_place_each_ticket(rt: HostRuntime) {
    let places = TreePlaces::bare(rt.alloc());
    assert!(rt; Pair::new(rt.alloc(), places, 1).agrees(300_000, 13));
}

#[test]
fn levels_place_tickets_that_lie_far_apart(rt: HostRuntime) {
    let places = TreePlaces::bare(rt.alloc());
    assert!(rt; Pair::new(rt.alloc(), places, 99_991).agrees(30_000, 17));
}

#[test]
fn tickets_may_be_the_same(rt: HostRuntime) {
    let places = TreePlaces::bare(rt.alloc());
    assert!(rt; Pair::new(rt.alloc(), places, 0).agrees(30_000, 19));
}

type Lent<'a> = &'a Refusing<Global>;

// Pushes the entry of this line, and once more where memory for it is refused: whether it went in at last.
fn takes<S: Store<Entry>>(store: &mut S, line: u64) -> bool {
    let priority = (line % 7) as u32;
    let entry = Entry::of(Item { priority, value: 1 }, line);
    if store.len() >= MOST_ITEMS as usize {
        return false;
    }
    match store.push(entry) {
        Ok(()) => true,
        Err(back) => {
            back == entry && store.len() < MOST_ITEMS as usize && store.push(entry).is_ok()
        }
    }
}

// Whether a heap takes the lines up to 400, whatever is refused, and gives each back by its ticket and none twice, with no request
// for memory.
fn gives_each_back(refusing: Lent<'_>) -> bool {
    let mut heap = TicketHeap::new(refusing, TreePlaces::bare(refusing));
    for line in 1..=400 {
        if !takes(&mut heap, line) {
            return false;
        }
    }
    let requests = refusing.requests();
    for line in 1..=400 {
        let item = heap.remove(line);
        if item.is_none_or(|it| it.line != line) || heap.remove(line).is_some() {
            return false;
        }
    }
    heap.is_empty() && refusing.requests() == requests
}

// Each request is refused in turn: that of the array, and those of the places.
#[test]
fn a_refused_request_leaves_each_ticket_removable(rt: HostRuntime) {
    for number in 0..40 {
        let refusing = Refusing::nth(rt.alloc(), number);
        assert!(rt; gives_each_back(&refusing), "{number}");
    }
}
