// Testimonies, by which the pens of a desk are seen side by side, in whatever threads they are: so it can be told of their
// calls which one ended before which other began.
ghost use Rattle.std.specs.Prelude.{◌≡◌, ℕ, ◌+◌, ◌<◌, false, [], ◌∷◌, ◌++◌};
ghost use Rattle.pq_book.specs.Book.{AllHaveRoom};
ghost use Rattle.desk_core.specs.Layout.{lock_at};
ghost use Rattle.desk_core.specs.Testimonies.{after_retiring};
ghost use Rattle.desk_core.specs.Witnessed.{AreLinearized};
ghost use Rattle.desk_core.specs.declared.model.View.TheVariants.{Holder};
ghost use Rattle.desk_core.specs.declared.model.View.TheVariants as view;
ghost use Rattle.announce_board.specs.Steps.{pen_at};
ghost use Rattle.announce_board.specs.Testimonies.{Compared, TestifyAllowed, RetireAllowed, GatherAllowed, CompareAllowed};
ghost use Rattle.announce_board.specs.Testimonies.{testimony_of, retiree, last_testimony, both_testify};

use crate::desk::Desk;
use crate::rule::{Board, BoardSeat, Slot};
use crate::tokens::Pen;
use crate::words::LOCK;
use atomic_table::{Badge, Join, Play, Split};
use desk_core::View;
use desk_core::laws::{law_reached_desks, law_testimonies, law_words_show_the_desk};
use leftist_heap::Store;
use pq_book::Entry;
use pq_types::Part;
use std::marker::Model;

/// What some pens of a desk were, each when it gave testimony; and licences, of which each wakes a sleeping pen. It goes from
/// thread to thread, and names no store. A contract sees of it its desk's table, the pens, and the number of licences.
#[derive(Drop)]
pub struct Testimony {
    pub(crate) badge: Badge<View>,
}

impl Model for Testimony {
    ghost use Rattle.announce_board.specs.Testimonies.{Testified, IsTestimony, pens_in, licences_in};

    ghost Value = { Testified };

    ghost view = { λ t. record { table = t.badge.table_id; pens = pens_in t.badge.views; licences = licences_in t.badge.views } };

    ghost invariant = { λ t. IsTestimony t.badge.views };
}

/// A pen gives testimony.
struct Testify;

impl Split<View> for Testify {
    ghost left = { λ v. v };

    ghost right = { testimony_of };
}

/// A pen retires.
struct Retire;

impl Split<View> for Retire {
    ghost left = { retiree };

    ghost right = { last_testimony };
}

/// Two testimonies are put together.
struct Gather;

impl Join<View> for Gather {
    ghost both = { both_testify };

    ghost spent = { view.Testimony [] 0 };
}

/// The pens of a testimony are compared.
struct Compare;

impl<S: Store<Entry<P>>, P: Part> Play<Slot<S, P>, View> for Compare {
    ghost then = { Compared };
}

/// Pens give testimony and retire, and testimonies are put together and compared, as the rule of the table allows.
fn law_testimonies_are_allowed<S: Store<Entry<P>>, P: Part>()
    ensures testify { TestifyAllowed P.wide (AllHaveRoom S.room) }
    ensures retire { RetireAllowed P.wide (AllHaveRoom S.room) }
    ensures gather { GatherAllowed P.wide (AllHaveRoom S.room) }
    ensures compare { CompareAllowed P.wide (AllHaveRoom S.room) }
{
    law_reached_desks();
    law_testimonies();
    law_words_show_the_desk();
}

// The pen gives testimony, and stays as it is.
fn give<S: Store<Entry<P>>, P: Part>(board: &Board<S, P>, seat: &mut BoardSeat<S, P>) -> Testimony
    requires here { seat.old.table_id ≡ board.now.table_id }
    requires is { seat.old.me.0 ≡ Holder (pen_at seat.old.me) }
    requires lock { lock_at < board.now.table_id.words }
    ensures table { seat.new.table_id ≡ seat.old.table_id }
    ensures same { seat.new.me ≡ seat.old.me }
    ensures gives { result ≡ record { table = board.now.table_id; pens = pen_at seat.old.me ∷ []; licences = 0 } }
{
    law_testimonies_are_allowed::<S, P>();
    let given = board.split_seat::<Testify>(seat);
    Testimony {
        badge: given.into_badge(),
    }
}

// The pen, which does not lead, retires, and gives testimony of what it is then.
fn give_last<S: Store<Entry<P>>, P: Part>(
    board: &Board<S, P>,
    mut seat: BoardSeat<S, P>,
) -> Testimony
    requires here { seat.table_id ≡ board.now.table_id }
    requires is { seat.me.0 ≡ Holder (pen_at seat.me) }
    requires led_not { (pen_at seat.me).leading ≡ false }
    requires lock { lock_at < board.now.table_id.words }
    ensures gives { result ≡ record { table = board.now.table_id; pens = after_retiring (pen_at seat.me) ∷ []; licences = 0 } }
{
    law_testimonies_are_allowed::<S, P>();
    let given = board.split_seat::<Retire>(&mut seat);
    Testimony {
        badge: given.into_badge(),
    }
}

// The two put together, which one load more compares.
fn put_together<S: Store<Entry<P>>, P: Part>(
    board: &Board<S, P>,
    one: Testimony,
    other: Testimony,
) -> Testimony
    requires lock { lock_at < board.now.table_id.words }
    requires one { one.table ≡ board.now.table_id }
    requires other { other.table ≡ board.now.table_id }
    ensures both { result ≡ record one { pens = one.pens ++ other.pens; licences = one.licences + other.licences } }
    ensures linearized { (room : ℕ) × AreLinearized room result.pens }
{
    law_testimonies_are_allowed::<S, P>();
    let Testimony { badge: first } = one;
    let Testimony { badge: second } = other;
    let mut seat: BoardSeat<S, P> = first.into_seat();
    board.join_seat::<Gather>(&mut seat, second.into_seat());
    board.load::<Compare>(&mut seat, LOCK);
    Testimony {
        badge: seat.into_badge(),
    }
}

impl<S: Store<Entry<P>>, P: Part> Desk<S, P> {
    /// The pen gives testimony of what it is, and stays as it is.
    pub fn testify(&self, pen: &mut Pen<S, P>) -> Testimony
        requires table { pen.old.table ≡ self.now.table }
        ensures same { pen.new ≡ pen.old }
        ensures gives { result ≡ record { table = self.now.table; pens = pen.old.state ∷ []; licences = 0 } }
    {
        give(&self.table.shared, &mut pen.seat)
    }

    /// The pen, which does not lead, retires: it takes no step from then on, and its testimony says what it stays.
    pub fn retire(&self, pen: Pen<S, P>) -> Testimony
        requires table { pen.table ≡ self.now.table }
        requires led_not { pen.state.leading ≡ false }
        ensures gives { result ≡ record { table = self.now.table; pens = after_retiring pen.state ∷ []; licences = 0 } }
    {
        let Pen { seat, .. } = pen;
        give_last(&self.table.shared, seat)
    }

    /// Puts two testimonies of this desk together, with their licences, and compares them by one load. There is one history, which has the acts of
    /// each of their pens at the positions that the pen keeps, and one journal that linearizes it (Herlihy and Wing 1990), and
    /// which has each call that the pens have read. So of two such calls of which one ended before the other began, it has the
    /// earlier line.
    pub fn gather(&self, one: Testimony, other: Testimony) -> Testimony
        requires one { one.table ≡ self.now.table }
        requires other { other.table ≡ self.now.table }
        ensures both { result ≡ record one { pens = one.pens ++ other.pens; licences = one.licences + other.licences } }
        ensures linearized { (room : ℕ) × AreLinearized room result.pens }
    {
        put_together(&self.table.shared, one, other)
    }
}
