// How a leader applies a batch of requests of its own, and goes on leading. It lends the Book to its slot once for all of them.
ghost use Rattle.std.specs.Prelude.{◌≡◌, ◌≢◌, ◌+◌, ◌<◌, ◌≤◌, true, false, length, take, Some, None};
ghost use Rattle.std.specs.List.{All};
ghost use Rattle.pq_types.specs.declared.journal.TheConstants.{GREATEST_NUMBER};
ghost use Rattle.pq_types.specs.History.{left};
ghost use Rattle.pq_book.specs.Book.{AllHaveRoom, limits_of};
ghost use Rattle.leftist_heap.specs.Store.{first_of};
ghost use Rattle.desk_core.specs.Pen.{limits_in_hand};
ghost use Rattle.announce_board.specs.Asking.{IsFullFor};
ghost use Rattle.announce_board.specs.Batches.{IsLent, AppliesUntil, IsPushAt, IsPop, pushes_of, pops_of, is_first_due};
ghost use Rattle.announce_board.specs.Batches.{AreAnswersTo, IsAnswerToNext, AreAboveAll};
ghost use Rattle.announce_board.specs.Steps.{pen_at};
ghost use Rattle.announce_board.specs.Tokens.{IsLeadOf, is_idle};

use crate::applying::{apply_in_slot, is_due_in_slot, lend, take_back};
use crate::desk::Desk;
use crate::rule::{Board, BoardSeat};
use crate::tokens::{Lead, Pen};
use leftist_heap::Store;
use pq_book::Entry;
use pq_types::{Answer, Item, Part, Reply, Request};

// The leader, whose Book lies in its slot, applies a push of each of the first so many items, until one is refused: how many were
// entered, its posts then, and why the next one was refused, where it was.
fn push_each<S: Store<Entry<P>>, P: Part>(
    board: &Board<S, P>,
    seat: &mut BoardSeat<S, P>,
    place: u16,
    posts: u64,
    items: &[Item<P>],
    end: usize,
) -> (usize, u64, Option<Answer<Item<P>>>)
    requires here { seat.old.table_id ≡ board.now.table_id }
    requires lent { IsLent board.now.table_id place posts seat.old.me }
    requires end { end ≤ length items.now }
    requires few { 0 < end → posts + end ≤ GREATEST_NUMBER }
    ensures table { seat.new.table_id ≡ seat.old.table_id }
    ensures lent { IsLent board.now.table_id place result.1 seat.new.me }
    ensures counted { result.2 ≡ None → result.1 ≡ posts + result.0 }
    ensures limits { limits_in_hand (pen_at seat.new.me) ≡ limits_in_hand (pen_at seat.old.me) }
    ensures applies { AppliesUntil (limits_in_hand (pen_at seat.old.me)) (IsPushAt items.now result.0) (pen_at seat.old.me)
        (pushes_of (take result.0 items.now)) result.2 (pen_at seat.new.me) }
    ensures answers { AreAnswersTo (pen_at seat.old.me).room (length (pen_at seat.old.me).hand) (pushes_of (take result.0 items.now)) }
    ensures refusal { IsAnswerToNext (pen_at seat.old.me).room (IsPushAt items.now result.0) result.2 }
    ensures behind { AreAboveAll (length (pen_at seat.old.me).hand) result.0 (pen_at seat.old.me).mine }
    ensures barred { IsFullFor (pen_at seat.old.me) → result.0 ≡ 0 }
    ensures full { result.2 ≡ Some Answer.BookFull → IsFullFor (pen_at seat.new.me) }
    ensures memory { AllHaveRoom S.room (pen_at seat.old.me).room → result.2 ≢ Some Answer.NoMemory }
    ensures spare { AllHaveRoom S.room (length (left (pen_at seat.new.me).hand) + 1) → result.2 ≢ Some Answer.NoMemory }
    ensures within { result.0 ≤ end }
    ensures whole { result.2 ≡ None → result.0 ≡ end }
    ensures next { result.2 ≢ None → result.0 < end }
{
    let mut posts = posts;
    let mut done = 0;
    while done < end {
        let push = Request::Push(items[done]);
        let answer = apply_in_slot(board, seat, place, posts, push);
        posts += 1;
        match answer {
            Answer::Entered(_, _) => done += 1,
            Answer::BookFull => return (done, posts, Some(Answer::BookFull)),
            Answer::NoMemory => return (done, posts, Some(Answer::NoMemory)),
            Answer::Refused(why) => return (done, posts, Some(Answer::Refused(why))),
        }
    }
    (done, posts, None)
}

// The same with pops, which take the first item out while its priority is at most this one.
fn pop_each<S: Store<Entry<P>>, P: Part>(
    board: &Board<S, P>,
    seat: &mut BoardSeat<S, P>,
    place: u16,
    posts: u64,
    priority: P,
    into: &mut [Item<P>],
    end: usize,
) -> (usize, u64, Option<Answer<Item<P>>>)
    requires here { seat.old.table_id ≡ board.now.table_id }
    requires lent { IsLent board.now.table_id place posts seat.old.me }
    requires end { end ≤ length into.old }
    requires few { 0 < end → posts + end ≤ GREATEST_NUMBER }
    ensures table { seat.new.table_id ≡ seat.old.table_id }
    ensures slots { length into.new ≡ length into.old }
    ensures lent { IsLent board.now.table_id place result.1 seat.new.me }
    ensures counted { result.2 ≡ None → result.1 ≡ posts + result.0 }
    ensures limits { limits_in_hand (pen_at seat.new.me) ≡ limits_in_hand (pen_at seat.old.me) }
    ensures applies { AppliesUntil (limits_in_hand (pen_at seat.old.me)) IsPop (pen_at seat.old.me)
        (pops_of (take result.0 into.new)) result.2 (pen_at seat.new.me) }
    ensures answers { AreAnswersTo (pen_at seat.old.me).room (length (pen_at seat.old.me).hand) (pops_of (take result.0 into.new)) }
    ensures refusal { IsAnswerToNext (pen_at seat.old.me).room IsPop result.2 }
    ensures behind { AreAboveAll (length (pen_at seat.old.me).hand) result.0 (pen_at seat.old.me).mine }
    ensures barred { IsFullFor (pen_at seat.old.me) → result.0 ≡ 0 }
    ensures full { result.2 ≡ Some Answer.BookFull → IsFullFor (pen_at seat.new.me) }
    ensures memory { result.2 ≢ Some Answer.NoMemory }
    ensures due { All (λ x. x.priority ≤ P.number priority) (take result.0 into.new) }
    ensures within { result.0 ≤ end }
    ensures next { result.2 ≢ None → result.0 < end }
    ensures left { result.2 ≡ None → result.0 < end
        → is_first_due (P.number priority) (first_of (left (pen_at seat.new.me).hand)) ≡ false }
{
    let mut posts = posts;
    let mut done = 0;
    while done < end {
        if !is_due_in_slot(board, seat, priority) {
            return (done, posts, None);
        }
        let answer = apply_in_slot(board, seat, place, posts, Request::Pop);
        posts += 1;
        let reply = match answer {
            Answer::Entered(_, reply) => reply,
            Answer::BookFull => return (done, posts, Some(Answer::BookFull)),
            Answer::NoMemory => unreachable!(),
            Answer::Refused(why) => return (done, posts, Some(Answer::Refused(why))),
        };
        match reply {
            Reply::Got(item) => {
                into[done] = item;
                done += 1;
            }
            _ => unreachable!(),
        }
    }
    (done, posts, None)
}

impl<S: Store<Entry<P>>, P: Part> Lead<S, P> {
    /// The number of the journal's next line.
    pub fn next_line(&self) -> u64
        ensures { result ≡ length self.now.book.journal + 1 }
    {
        self.book.boxed.len() + 1
    }
}

impl<S: Store<Entry<P>>, P: Part> Desk<S, P> {
    /// The idle leader has the Book carry out a push of each of the first so many items, a step for each, until one is refused,
    /// and goes on leading: how many were entered, and what the next one was answered, where it was refused. Their lines stand
    /// together, behind all that the journal has, and so behind those of the pen's calls before. Where the pen was told that the
    /// journal is full none is entered. `BookFull` and `NoMemory` as of `release_with`.
    pub fn apply_pushes(
        &self,
        pen: &mut Pen<S, P>,
        lead: Lead<S, P>,
        items: &[Item<P>],
        end: usize,
    ) -> (Lead<S, P>, usize, Option<Answer<Item<P>>>)
        requires table { pen.old.table ≡ self.now.table }
        requires lead { IsLeadOf pen.old lead }
        requires idle { is_idle pen.old.state.standing ≡ true }
        requires end { end ≤ length items.now }
        requires few { 0 < end → pen.old.state.posts + end ≤ GREATEST_NUMBER }
        ensures table { pen.new.table ≡ pen.old.table }
        ensures place { pen.new.state.place ≡ pen.old.state.place }
        ensures room { pen.new.state.room ≡ pen.old.state.room }
        ensures lead { IsLeadOf pen.new result.0 }
        ensures limits { limits_of result.0.book ≡ limits_of lead.book }
        ensures counted { result.2 ≡ None → pen.new.state.posts ≡ pen.old.state.posts + result.1 }
        ensures applies { AppliesUntil (limits_of lead.book) (IsPushAt items.now result.1) pen.old.state
            (pushes_of (take result.1 items.now)) result.2 pen.new.state }
        ensures answers { AreAnswersTo pen.old.state.room (length pen.old.state.hand) (pushes_of (take result.1 items.now)) }
        ensures refusal { IsAnswerToNext pen.old.state.room (IsPushAt items.now result.1) result.2 }
        ensures behind { AreAboveAll (length pen.old.state.hand) result.1 pen.old.state.mine }
        ensures barred { IsFullFor pen.old.state → result.1 ≡ 0 }
        ensures full { result.2 ≡ Some Answer.BookFull → IsFullFor pen.new.state }
        ensures memory { AllHaveRoom S.room pen.old.state.room → result.2 ≢ Some Answer.NoMemory }
        ensures spare { AllHaveRoom S.room (length (left pen.new.state.hand) + 1) → result.2 ≢ Some Answer.NoMemory }
        ensures within { result.1 ≤ end }
        ensures whole { result.2 ≡ None → result.1 ≡ end }
        ensures next { result.2 ≢ None → result.1 < end }
    {
        let Lead { book, seat } = lead;
        let board = &self.table.shared;
        lend(board, &mut pen.seat, book);
        let (done, posts, refused) = push_each(
            board,
            &mut pen.seat,
            pen.place,
            pen.posts,
            items,
            end,
        );
        pen.posts = posts;
        let book = take_back(board, &mut pen.seat);
        (Lead { book, seat }, done, refused)
    }

    /// The same with pops, which take the first item out while its priority is at most this one, into the first so many places at
    /// most. None is refused for memory.
    pub fn apply_pops(
        &self,
        pen: &mut Pen<S, P>,
        lead: Lead<S, P>,
        priority: P,
        into: &mut [Item<P>],
        end: usize,
    ) -> (Lead<S, P>, usize, Option<Answer<Item<P>>>)
        requires table { pen.old.table ≡ self.now.table }
        requires lead { IsLeadOf pen.old lead }
        requires idle { is_idle pen.old.state.standing ≡ true }
        requires end { end ≤ length into.old }
        requires few { 0 < end → pen.old.state.posts + end ≤ GREATEST_NUMBER }
        ensures slots { length into.new ≡ length into.old }
        ensures table { pen.new.table ≡ pen.old.table }
        ensures place { pen.new.state.place ≡ pen.old.state.place }
        ensures room { pen.new.state.room ≡ pen.old.state.room }
        ensures lead { IsLeadOf pen.new result.0 }
        ensures limits { limits_of result.0.book ≡ limits_of lead.book }
        ensures counted { result.2 ≡ None → pen.new.state.posts ≡ pen.old.state.posts + result.1 }
        ensures applies { AppliesUntil (limits_of lead.book) IsPop pen.old.state
            (pops_of (take result.1 into.new)) result.2 pen.new.state }
        ensures answers { AreAnswersTo pen.old.state.room (length pen.old.state.hand) (pops_of (take result.1 into.new)) }
        ensures refusal { IsAnswerToNext pen.old.state.room IsPop result.2 }
        ensures behind { AreAboveAll (length pen.old.state.hand) result.1 pen.old.state.mine }
        ensures barred { IsFullFor pen.old.state → result.1 ≡ 0 }
        ensures full { result.2 ≡ Some Answer.BookFull → IsFullFor pen.new.state }
        ensures memory { result.2 ≢ Some Answer.NoMemory }
        ensures due { All (λ x. x.priority ≤ P.number priority) (take result.1 into.new) }
        ensures within { result.1 ≤ end }
        ensures next { result.2 ≢ None → result.1 < end }
        ensures left { result.2 ≡ None → result.1 < end
            → is_first_due (P.number priority) (first_of (left pen.new.state.hand)) ≡ false }
    {
        let Lead { book, seat } = lead;
        let board = &self.table.shared;
        lend(board, &mut pen.seat, book);
        let (done, posts, refused) = pop_each(
            board,
            &mut pen.seat,
            pen.place,
            pen.posts,
            priority,
            into,
            end,
        );
        pen.posts = posts;
        let book = take_back(board, &mut pen.seat);
        (Lead { book, seat }, done, refused)
    }
}
