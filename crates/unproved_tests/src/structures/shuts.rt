// Journals with a shut line: written, audited and replayed; and the texts of refusals by the rules.
use leftist_heap::{Level, TicketHeap, TreePlaces};
use line_script::RunError;
use pq_book::{Book, Entry};
use pq_types::{Answer, Item, Refusal, Reply, Request};
use queue_texts::{AuditRefusal, AuditReport, Replay, run_audit, write_answer, write_journal};
use std::alloc::Global;

const FIVE: Item = Item {
    priority: 5,
    value: 1,
};

fn audited(alloc: Global, text: &[u8]) -> Result<AuditReport, RunError<AuditRefusal>> {
    let mut reader = text;
    run_audit::<u32, _, _>(alloc, &mut reader)
}

// Whether the audit refuses the text, and says this of it.
fn is_refused(alloc: Global, text: &[u8], why: &str) -> bool {
    match audited(alloc, text) {
        Err(RunError::Refused(refusal)) => match refusal.to_string(alloc) {
            Ok(told) => {
                told.as_str() == why && refusal.status() == 5 && refusal.reason.code() == 35
            }
            Err(_) => false,
        },
        _ => false,
    }
}

#[test]
fn a_journal_with_a_shut_line_is_written_and_audited(rt: HostRuntime) {
    const TEXT: &[u8] = b"1 0 1 push 5 1 pushed\n2 3 1 shut\n3 0 2 pop got 5 1\n";
    let alloc = rt.alloc();
    let store: TicketHeap<Entry, TreePlaces<Global>, Global> = TicketHeap::new(
        alloc,
        TreePlaces::bare(alloc),
    );
    let Ok(mut book) = Book::new(alloc, store, 10) else {
        panic!(rt; "there is memory");
    };
    assert!(rt; book.apply(0, 1, Request::Push(FIVE)) == Answer::Entered(1, Reply::Pushed));
    assert!(rt; book.apply_shut(3, 1) == Answer::Entered(2, Reply::Empty));
    assert!(rt; book.apply(0, 2, Request::Push(FIVE)) == Answer::Refused(Refusal::Shut.padded()));
    assert!(rt; book.apply_shut(3, 2) == Answer::Refused(Refusal::Shut.padded()));
    assert!(rt; book.apply(0, 2, Request::Pop) == Answer::Entered(3, Reply::Got(FIVE)));
    let mut text = Vec::new(alloc);
    write_journal(book.lines().older, &mut text).expect(&rt, "there is memory");
    assert!(rt; text.as_slice() == TEXT);
    let report = audited(alloc, TEXT).expect(&rt, "it is lawful");
    assert!(rt; report.lines == 3 && report.places == 2 && report.left == 0);
    assert!(rt; report.pushed == 1 && report.got == 1 && report.empty == 0);
}

#[test]
fn what_a_shut_refuses_may_not_stand_behind_it(rt: HostRuntime) {
    const PUSH: &[u8] = b"1 3 1 shut\n2 0 1 pop empty\n3 0 2 push 5 1 pushed\n";
    const SHUT: &[u8] = b"1 3 1 shut\n2 3 2 shut\n";
    assert!(rt; is_refused(rt.alloc(), PUSH, "line 3: pushed where the queue was shut"));
    assert!(rt; is_refused(rt.alloc(), SHUT, "line 2: shut where the queue was shut"));
}

#[test]
fn a_replay_goes_on_behind_a_shut(rt: HostRuntime) {
    let alloc = rt.alloc();
    let store: TicketHeap<Entry, TreePlaces<Global>, Global> = TicketHeap::new(
        alloc,
        TreePlaces::bare(alloc),
    );
    let mut replay = Replay::new(&alloc, store).expect(&rt, "there is memory");
    assert!(rt; replay.play_line(b"1 0 1 push 5 1 pushed").is_ok());
    assert!(rt; replay.play_line(b"2 0 2 shut").is_ok());
    assert!(rt; replay.play_line(b"3 0 3 push 5 1 pushed").is_err());
    assert!(rt; replay.play_line(b"3 0 3 move 1 4 got 5 1").is_ok());
    assert!(rt; replay.play_line(b"4 0 4 pop got 4 1").is_ok());
    assert!(rt; replay.len() == 4);
}

#[test]
fn refusals_by_the_rules_have_their_texts(rt: HostRuntime) {
    const TEXTS: [(Refusal, &[u8]); 3] = [
        (Refusal::Shut, b"queue shut\n"),
        (Refusal::Unarchived, b"unarchived\n"),
        (Refusal::Full, b"queue full\n"),
    ];
    for (refusal, text) in &TEXTS {
        let answer: Answer = Answer::Refused(refusal.padded());
        let mut out = Vec::new(rt.alloc());
        write_answer(&answer, &mut out).expect(&rt, "there is memory");
        assert!(rt; out.as_slice() == *text);
    }
}
