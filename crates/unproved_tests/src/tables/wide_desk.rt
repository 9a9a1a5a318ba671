// A desk of items whose parts have 64 bits, each in two words of its record.
use announce_board::{Desk, DeskError, Pen};
use leftist_heap::Leftist;
use pq_book::Entry;
use pq_types::{Answer, Item, Reply, Request};
use std::alloc::Global;

type Heap = Leftist<Entry<u64>, Global>;

type WideDesk = Desk<Heap, u64>;

type WidePen = Pen<Heap, u64>;

const LAST: Item<u64> = Item {
    priority: u64::MAX,
    value: 1,
};

const FIRST: Item<u64> = Item {
    priority: 4_294_967_296,
    value: u64::MAX,
};

const ASKED: [(Request<Item<u64>>, Reply<Item<u64>>); 7] = [
    (Request::Push(LAST), Reply::Pushed),
    (Request::Push(FIRST), Reply::Pushed),
    (Request::Least, Reply::Least(FIRST)),
    (Request::Pop, Reply::Got(FIRST)),
    (Request::Least, Reply::Least(LAST)),
    (Request::Pop, Reply::Got(LAST)),
    (Request::Pop, Reply::Empty),
];

// What the second pen finds in its record, once the first has led and served it.
fn answer(
    desk: &WideDesk,
    leader: &mut WidePen,
    asker: &mut WidePen,
    request: Request<Item<u64>>,
) -> Option<Answer<Item<u64>>> {
    desk.draft(asker, LAST);
    desk.post(asker, request);
    let mut lead = desk.try_lead(leader)?;
    let served = desk.serve(leader, &mut lead, 1);
    desk.release(leader, lead);
    let found = desk.look(asker);
    if served { found } else { None }
}

#[test]
fn a_wide_desk_answers_with_wide_items(rt: HostRuntime) {
    let store = Leftist::new(rt.alloc());
    let opened: Result<(WideDesk, Vec<WidePen>), DeskError> = Desk::with_store(
        rt.alloc(),
        store,
        2,
        8,
    );
    assert!(rt; opened.is_ok());
    let Ok((desk, mut pens)) = opened else {
        return;
    };
    let (mut asker, mut leader) = (pens.pop().unwrap(), pens.pop().unwrap());
    let mut line = 0;
    for &(request, reply) in &ASKED {
        line += 1;
        let found = answer(&desk, &mut leader, &mut asker, request);
        assert!(rt;
            found == Some(Answer::Entered(line, reply)),
            "request {line}"
        );
    }
}
