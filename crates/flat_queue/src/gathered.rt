// What is gathered of a queue's pens and licences, so that it can be closed with all of them.
ghost use Rattle.std.specs.Prelude.{◌≡◌, ℕ, [], length};
ghost use Rattle.std.specs.List.{All};
ghost use Rattle.flat_queue.specs.Gathered.{Gathers, GathersBoth, IsOf, licences_at};

use announce_board::{Desk, Testimony};
use leftist_heap::Store;
use pq_book::Entry;
use pq_types::Part;

/// Both together.
pub(crate) fn both<S: Store<Entry<P>>, P: Part>(
    desk: &Desk<S, P>,
    one: Option<Testimony>,
    other: Option<Testimony>,
) -> Option<Testimony>
    requires one { IsOf desk.now.table one }
    requires other { IsOf desk.now.table other }
    ensures here { IsOf desk.now.table result }
    ensures gathers { GathersBoth desk.now.table one other result }
{
    match (one, other) {
        (Some(one), Some(other)) => Some(desk.gather(one, other)),
        (Some(one), None) => Some(one),
        (None, other) => other,
    }
}

/// All these licences together.
pub(crate) fn all_licences<S: Store<Entry<P>>, P: Part>(
    desk: &Desk<S, P>,
    licences: Vec<Testimony>,
) -> Option<Testimony>
    requires { All (λ t. t ≡ licences_at desk.now.table 1) licences.items }
    ensures { Gathers desk.now.table [] (length licences.items) result }
{
    let mut all = None;
    for licence in licences {
        all = both(desk, all, Some(licence));
    }
    all
}
