// The report of what workers were answered, and its audit.
ghost use Rattle.std.specs.Prelude.{◌≡◌, ◌+◌, ◌≤◌, ◌<◌, ◌^◌, ◌↔◌, IsTrue, IsSome, IfSome, None, length, sum_by};
ghost use Rattle.pq_types.specs.declared.journal.TheConstants.{MOST_LINES};
ghost use Rattle.pq_types.specs.History.{left};
ghost use Rattle.queue_load.specs.Tally.{IsSmall};
ghost use Rattle.queue_load.specs.Audit.{Tells, Reports};
ghost use Rattle.queue_load.specs.Lines.{load_room, book_kept};
ghost use Rattle.queue_load.specs.Report.{AddsUp};

use crate::leftover::{Leftover, leftover_in, leftover_of};
use crate::report::Report;
use crate::tally::Tally;
use leftist_heap::Store;
use pq_book::{Book, Entry};
use pq_types::Part;
use pq_types::laws::law_one_more_line;
use program_words::Plan;
use std::alloc::Global;

// Whether the numbers of the report fit each other, and what its workers were to do.
fn adds_up(plan: Plan, report: &Report) -> bool
    ensures { IsTrue result ↔ AddsUp plan report.now }
{
    let pushed = u128::from(report.pushed);
    let got = u128::from(report.got);
    let popped = got + u128::from(report.empty);
    report.pushed == plan.in_all(plan.pushes)
        && popped == u128::from(plan.in_all(plan.pops))
        && got + u128::from(report.left) == pushed
        && u128::from(report.lines) == pushed + popped
        && report.sum_in == report.sum_out_and_left
}

// The report of the workers of this load, who were answered so all together, and whose queue has so
// much left and so many lines.
fn told(plan: Plan, total: &Tally, leftover: Leftover, lines: u64) -> Report
    requires small { IsSmall total.now }
    requires little { leftover.sum ≤ 2 ^ 121 }
    ensures { Tells plan total.now leftover lines result }
{
    let mut report = Report {
        workers: plan.workers,
        pushed: total.pushed,
        got: total.got,
        empty: total.empty,
        left: leftover.count,
        lines,
        sum_in: total.sum_in,
        sum_out_and_left: total.sum_out + leftover.sum,
        audit: false,
    };
    report.audit = adds_up(plan, &report);
    report
}

// The report where the queue ended with this Book, whose journal is kept whole.
fn short_report<S: Store<Entry<P>>, P: Part>(
    plan: Plan,
    total: &Tally,
    book: &Book<S, Global, P>,
) -> Report
    requires small { IsSmall total.now }
    requires short { book.now.room ≤ MOST_LINES }
    ensures { Reports plan total.now book.now.journal result }
{
    let leftover = leftover_of(book.lines().older);
    told(plan, total, leftover, book.len())
}

// The report where the queue ended with this Book, whose store is emptied for it: the journal's
// beginning may be forgotten.
fn lasting_report<S: Store<Entry<P>>, P: Part>(
    plan: Plan,
    total: &Tally,
    place: &mut Option<Book<S, Global, P>>,
) -> Report
    requires some { IsSome place.old }
    requires small { IsSmall total.now }
    ensures report { IfSome place.old (λ book. Reports plan total.now book.journal result) }
    ensures none { place.new ≡ None }
{
    law_one_more_line();
    let Some(book) = place.take() else {
        unreachable!()
    };
    let lines = book.len();
    let (store, _, _) = Book::take_parts(&mut Some(book));
    told(plan, total, leftover_in(store), lines)
}

/// The report of the workers of this load, who were answered so all together, and whose queue ended
/// with the Book in this place, which stays there where its journal is kept whole.
pub fn report_of<S: Store<Entry<P>>, P: Part>(
    plan: Plan,
    total: &Tally,
    place: &mut Option<Book<S, Global, P>>,
) -> Report
    requires some { IsSome place.old }
    requires small { IsSmall total.now }
    requires room { IfSome place.old (λ book. book.room ≡ load_room plan) }
    ensures report { IfSome place.old (λ book. Reports plan total.now book.journal result) }
    ensures book { IfSome place.old (λ book. place.new ≡ book_kept plan book) }
{
    if !plan.is_short() {
        return lasting_report(plan, total, place);
    }
    match place {
        Some(book) => short_report(plan, total, book),
        None => unreachable!(),
    }
}
