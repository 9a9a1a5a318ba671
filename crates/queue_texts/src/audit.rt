// An audit: a replay of a text's lines, which are added up.
ghost use Rattle.std.specs.Prelude.{◌≡◌, [], ℕ, List, Some, Ok, IfOk, IfSome, IsSome};
ghost use Rattle.std.proofs.Props.{props};
ghost use Rattle.queue_texts.specs.Audit.{Audits, IsLawful};
ghost use Rattle.queue_texts.specs.Report.{IsReportOf};
ghost use Rattle.queue_texts.specs.Sums.{CountUpTo};

use crate::content::sum_of;
use crate::line_text::LONGEST_ENTRY;
use crate::owned::Owned;
use crate::refusal::{AuditRefusal, Unlawful};
use crate::replay::{Replay, ReplayError};
use crate::report::AuditReport;
use crate::sums::{JournalSums, NOTHING};
use leftist_heap::TicketStore;
use leftist_heap::flat_places::FlatPlaces;
use leftist_heap::ticket_heap::TicketHeap;
use line_script::{Player, RunError, play_script};
use pq_book::Entry;
use pq_types::laws::{law_one_more_line, law_shut};
use pq_types::{MOST_LINES, Part};
use std::alloc::{AllocError, Allocator};
use std::io::Read;

/// How many tickets have a place in the table: those of the longest short journal, from 0 on. In a longer one a removal
/// or a move looks at every item.
const TICKETS: usize = MOST_LINES as usize + 1;

/// What keeps the items.
type Waiting<P, A> = TicketHeap<Entry<P>, FlatPlaces<A>, A>;

/// An audit so far: its lines as a replay, and what they add up to.
#[derive(Drop)]
struct Audit<S: TicketStore<Entry<P>>, A: Allocator, P: Part = u32> {
    replay: Owned<Replay<S, A, P>>,
    sums: JournalSums,
    ghost counted: { CountUpTo replay.value.journal sums } by { Prim.hlevel props },
}

impl<S: TicketStore<Entry<P>>, A: Allocator, P: Part> Player for Audit<S, A, P> {
    type Refusal = AuditRefusal;

    ghost use Rattle.queue_texts.specs.declared.line_text.TheConstants.{LONGEST_ENTRY};
    ghost use Rattle.queue_texts.specs.Audit.{PlaysEntry, RefusesEntry};

    ghost kind = { record {
      longest = LONGEST_ENTRY;
      plays = λ s line text t. PlaysEntry P.wide s.replay.value.journal line text t.replay.value.journal;
      refuses = λ s n line refusal. RefusesEntry P.wide s.replay.value.journal n line refusal;
      ends = λ s r. r ≡ Ok tt;
    } };

    fn longest() -> usize {
        LONGEST_ENTRY
    }

    fn play<B: Allocator>(
        &mut self,
        number: u64,
        line: &[u8],
        out: &mut Vec<u8, B>,
    ) -> Result<(), RunError<AuditRefusal>> {
        law_one_more_line();
        let Audit { replay, sums } = self;
        match replay.value.play(line) {
            Ok(played) => {
                let line = &played.line;
                sums.count(played.is_new_place, &line.operation, &line.reply);
                Ok(())
            }
            Err(ReplayError::Unlawful(reason)) => Err(refused(number, reason)),
            Err(ReplayError::NoMemory) => Err(RunError::NoMemory),
        }
    }

    fn end(&mut self) -> Result<(), RunError<AuditRefusal>> {
        Ok(())
    }
}

// The refusal of this line for this reason.
fn refused(line: u64, reason: Unlawful) -> RunError<AuditRefusal>
    ensures { result ≡ RunError.Refused (record { line = line; reason = reason }) }
{
    RunError::Refused(AuditRefusal { line, reason })
}

// An audit of no lines.
fn opened<A: Allocator + Clone, P: Part>(
    alloc: &A,
) -> Result<Audit<Waiting<P, A>, A, P>, AllocError>
    ensures { IfOk result (λ audit. audit.replay.value.journal ≡ []) }
{
    let places = FlatPlaces::new(alloc.clone()?, TICKETS)?;
    let store = TicketHeap::new(alloc.clone()?, places);
    let replay = Replay::new(alloc, store)?;
    Ok(Audit {
        replay: Owned { value: replay },
        sums: NOTHING,
    })
}

// The report of the journal so far, of the audit in this place, which is empty then. It is handed over in
// a place as a Book is.
fn report_of<S: TicketStore<Entry<P>>, A: Allocator, P: Part>(
    place: &mut Option<Audit<S, A, P>>,
) -> AuditReport
    requires { IsSome place.old }
    ensures report { IfSome place.old (λ audit. IsReportOf audit.replay.value.journal result) }
    ensures lawful { IfSome place.old (λ audit. IsLawful audit.replay.value.journal) }
{
    law_one_more_line();
    let Some(audit) = place.take() else {
        unreachable!()
    };
    let Audit { replay, sums } = audit;
    let lines = replay.value.len();
    let (mut store, _, _) = Replay::take_parts(&mut Some(replay.value));
    let left = store.len() as u64;
    let sum_left = sum_of(&mut store);
    AuditReport {
        lines,
        places: sums.places,
        pushed: sums.pushed,
        got: sums.got,
        empty: sums.empty,
        left,
        sum_in: sums.sum_in,
        sum_out_and_left: sums.sum_out + sum_left,
    }
}

/// Reads a journal of items of this width, and says whether it is a lawful one: its report, or the
/// first line that is no lawful one, and why.
///
/// - `Ok`: it is lawful, and the report says what it adds up to.
/// - `Refused` and `TooLong`: the lines before this one are lawful, and this one isn't.
/// - `NoMemory` and `Input`: nothing is said of the journal.
///
/// It keeps the items that are in the queue, one serial for each of 65,536 places, the last 65,536 lines, and 4 bytes for each
/// of the first 1,048,577 tickets; how many lines there are makes no difference to that. Behind line 1,048,576 each removal
/// and each move looks at every item.
pub fn run_audit<P: Part, A: Allocator + Clone, R: Read>(
    alloc: A,
    reader: &mut R,
) -> Result<AuditReport, RunError<AuditRefusal>>
    ensures { (input : List ℕ) → R.remaining reader.old ≡ Some input → Audits P.wide input result }
{
    law_one_more_line();
    law_shut();
    let Ok(audit) = opened::<A, P>(&alloc) else {
        return Err(RunError::NoMemory);
    };
    let Ok(own) = alloc.clone() else {
        return Err(RunError::NoMemory);
    };
    let mut written: Vec<u8, A> = Vec::new(own);
    match play_script(alloc, audit, reader, &mut written) {
        Ok(audit) => Ok(report_of(&mut Some(audit))),
        Err(error) => Err(error),
    }
}
