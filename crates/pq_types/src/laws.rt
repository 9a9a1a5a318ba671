// What holds of the definitions alone, whatever code there is. A call of a law runs nothing: it
// hands the law's facts to the proof of its caller.
ghost use Rattle.pq_types.specs.Laws.{LeavesOneMore, EntersOneMore, WithoutTickets, StaysLegal, StillRises, SerialOfOneMore};
ghost use Rattle.pq_types.specs.Laws.{NoMoreItemsThanLines, LeavesAscending};
ghost use Rattle.pq_types.specs.Laws.{ItemsStayInRange, RepliesAreProper, EntriesStayInRange, RepliesByAreProper, VainChangeNothing};
ghost use Rattle.pq_types.specs.Laws.{ShutByOneMore, StillHeeds, ShutLeavesAll, NothingBehindShut, AnswersAgree, EntriesAgree, PlainRefuseNothing};
ghost use Rattle.pq_types.specs.Outs.{VainAreTold};
ghost use Rattle.pq_types.specs.Queue.{IsProperRequestOf};
ghost use Rattle.pq_types.specs.Operation.{ByTicket};
ghost use Rattle.pq_types.specs.Entry.{IsProperOperationOf};
ghost use Rattle.pq_types.specs.Laws.{ControlWordsDiffer, ItemWordsDiffer, WordsFit};

use crate::item::Item;
use crate::part::Part;
use crate::request::Request;
use crate::ticketed::{Deed, Ticketed};

/// A journal that gains a line: what it leaves, and when it stays the history of one queue.
pub fn law_one_more_line()
    ensures left { LeavesOneMore }
    ensures entries { EntersOneMore }
    ensures legal { StaysLegal }
    ensures rise { StillRises }
    ensures last_serial { SerialOfOneMore }
    ensures length { NoMoreItemsThanLines }
    ensures ascending { LeavesAscending }
{}

/// A journal of requests alone: it leaves what these leave, and is legal where its replies are those to them.
pub fn law_without_tickets()
    ensures { WithoutTickets }
{}

/// A removal or a move that finds no item under its ticket replies Empty, and changes nothing.
pub fn law_by_tickets()
    ensures told { VainAreTold }
    ensures unchanged { VainChangeNothing }
{}

/// A journal with a shut line: that drops no item, and no push and no other shut stands after it.
pub fn law_shut()
    ensures more { ShutByOneMore }
    ensures heeds { StillHeeds }
    ensures unchanged { ShutLeavesAll }
    ensures behind { NothingBehindShut }
{}

/// What an operation may be answered: journal and limits decide whether it is refused, and why, but for
/// memory. A queue without a bound that forgets refuses nothing else but for room, until it is shut.
pub fn law_one_answer()
    ensures refusals { AnswersAgree }
    ensures entries { EntriesAgree }
    ensures plain { PlainRefuseNothing }
{}

/// Proper operations keep the items of a content in their range, and so the replies.
pub fn law_items_stay_in_range()
    ensures content { ItemsStayInRange }
    ensures reply { RepliesAreProper }
    ensures entries { EntriesStayInRange }
    ensures replies { RepliesByAreProper }
{}

/// A request is proper: its item is in the range of its width.
pub fn law_request_is_proper<P: Part>(request: &Request<Item<P>>)
    ensures { IsProperRequestOf P.wide request.now }
{
    if let Request::Push(item) = request {
        item.parts();
    }
}

/// The use of a ticket is proper: the priority of a move is in the range of its width.
pub fn law_ticketed_is_proper<P: Part>(ticketed: &Ticketed<P>)
    ensures { IsProperOperationOf P.wide (ByTicket ticketed.now) }
{
    if let Deed::Move(priority, _) = &ticketed.deed {
        priority.as_u64();
    }
}

/// The words of a record: no two proper controls have the same word, and no two items.
pub fn law_words_differ()
    ensures controls { ControlWordsDiffer }
    ensures items { ItemWordsDiffer }
    ensures fit { WordsFit }
{}
