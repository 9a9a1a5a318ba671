// Notes, by which one pen tells another what it knows of the journal: so each later call of the other
// has its line behind those of the calls that the one was told of before.
ghost use Rattle.std.specs.Prelude.{◌≡◌, ◌<◌, []};
ghost use Rattle.pq_book.specs.Book.{AllHaveRoom};
ghost use Rattle.desk_core.specs.Knows.{Knows};
ghost use Rattle.desk_core.specs.Layout.{lock_at};
ghost use Rattle.desk_core.specs.Notes.{after_writing};
ghost use Rattle.desk_core.specs.Rule.{StartsWith};
ghost use Rattle.desk_core.specs.declared.model.View.TheVariants.{Holder};
ghost use Rattle.desk_core.specs.declared.model.View.TheVariants as view;
ghost use Rattle.announce_board.specs.Notes.{CatchesUp, CaughtUp, CatchUpAllowed, WritingAllowed, HearingAllowed};
ghost use Rattle.announce_board.specs.Notes.{CallsAreFound, HasItsCalls, writer, note_of};
ghost use Rattle.announce_board.specs.Notes.{hearer, after_note, while_hearing, after_hearing_all};
ghost use Rattle.announce_board.specs.Steps.{pen_at, Becomes};

use crate::desk::Desk;
use crate::rule::{Board, BoardSeat, Slot};
use crate::tokens::Pen;
use crate::words::LOCK;
use atomic_table::{Badge, Join, Play, Split};
use desk_core::View;
use desk_core::laws::{
    law_calls_are_lines, law_notes_keep_the_rule, law_reached_desks, law_words_show_the_desk,
};
use leftist_heap::Store;
use pq_book::Entry;
use pq_types::Part;
use std::marker::Model;

/// What a pen knows of the journal, for one other pen of its desk, which hears it. It goes from thread
/// to thread, and names no store. A contract sees of it its desk's table, and the journal that it tells.
#[derive(Drop)]
pub struct Note {
    badge: Badge<View>,
}

impl Model for Note {
    ghost use Rattle.announce_board.specs.Notes.{Noted, IsNote, told_in};

    ghost Value = { Noted };

    ghost view = { λ n. record { table = n.badge.table_id; told = told_in n.badge.views } };

    ghost invariant = { λ n. IsNote n.badge.views };
}

/// A pen catches up with the journal.
struct CatchUp;

impl<S: Store<Entry<P>>, P: Part> Play<Slot<S, P>, View> for CatchUp {
    ghost then = { CaughtUp };
}

/// A pen writes a note.
struct WriteNote;

impl Split<View> for WriteNote {
    ghost left = { writer };

    ghost right = { note_of };
}

/// A pen hears a note.
struct HearNote;

impl Join<View> for HearNote {
    ghost both = { hearer };

    ghost spent = { view.Note [] };
}

/// Pens catch up, write notes and hear them as the rule of the table allows.
fn law_notes_are_allowed<S: Store<Entry<P>>, P: Part>()
    ensures catch_up { CatchUpAllowed P.wide (AllHaveRoom S.room) }
    ensures writing { WritingAllowed P.wide (AllHaveRoom S.room) }
    ensures hearing { HearingAllowed P.wide (AllHaveRoom S.room) }
    ensures calls { CallsAreFound }
{
    law_notes_keep_the_rule();
    law_reached_desks();
    law_words_show_the_desk();
    law_calls_are_lines();
}

// The pen comes to know the whole journal, as it stands at this load.
fn catch_up<S: Store<Entry<P>>, P: Part>(board: &Board<S, P>, seat: &mut BoardSeat<S, P>)
    requires here { seat.old.table_id ≡ board.now.table_id }
    requires is { seat.old.me.0 ≡ Holder (pen_at seat.old.me) }
    requires lock { lock_at < board.now.table_id.words }
    ensures table { seat.new.table_id ≡ seat.old.table_id }
    ensures caught_up { CatchesUp seat.old.me seat.new.me }
{
    law_notes_are_allowed::<S, P>();
    board.load::<CatchUp>(seat, LOCK);
}

// Writes a note of what the pen knows.
fn write_note<S: Store<Entry<P>>, P: Part>(board: &Board<S, P>, seat: &mut BoardSeat<S, P>) -> Note
    requires here { seat.old.table_id ≡ board.now.table_id }
    requires is { seat.old.me.0 ≡ Holder (pen_at seat.old.me) }
    requires lock { lock_at < board.now.table_id.words }
    ensures table { seat.new.table_id ≡ seat.old.table_id }
    ensures after { Becomes seat.old.me (after_writing (pen_at seat.old.me)) seat.new.me }
    ensures here { result.table ≡ board.now.table_id }
    ensures told { result.told ≡ (pen_at seat.old.me).known }
{
    law_notes_are_allowed::<S, P>();
    let note = board.split_seat::<WriteNote>(seat);
    Note {
        badge: note.into_badge(),
    }
}

// Catches up, and writes a note of the journal, which the pen knows then: it has the pen's calls.
fn write_whole<S: Store<Entry<P>>, P: Part>(board: &Board<S, P>, seat: &mut BoardSeat<S, P>) -> Note
    requires here { seat.old.table_id ≡ board.now.table_id }
    requires is { seat.old.me.0 ≡ Holder (pen_at seat.old.me) }
    requires lock { lock_at < board.now.table_id.words }
    ensures table { seat.new.table_id ≡ seat.old.table_id }
    ensures after { Becomes seat.old.me (after_note (pen_at seat.old.me) result.told) seat.new.me }
    ensures here { result.table ≡ board.now.table_id }
    ensures knows { Knows (pen_at seat.old.me).room (pen_at seat.old.me) result.told }
    ensures calls { HasItsCalls (pen_at seat.old.me) result.told }
{
    law_notes_are_allowed::<S, P>();
    catch_up(board, seat);
    write_note(board, seat)
}

// The pen hears a note, which is spent.
fn hear_note<S: Store<Entry<P>>, P: Part>(
    board: &Board<S, P>,
    seat: &mut BoardSeat<S, P>,
    note: Note,
)
    requires here { seat.old.table_id ≡ board.now.table_id }
    requires is { seat.old.me.0 ≡ Holder (pen_at seat.old.me) }
    requires lock { lock_at < board.now.table_id.words }
    requires note { note.table ≡ board.now.table_id }
    ensures table { seat.new.table_id ≡ seat.old.table_id }
    ensures after { Becomes seat.old.me (while_hearing (pen_at seat.old.me) note.told) seat.new.me }
{
    law_notes_are_allowed::<S, P>();
    let Note { badge } = note;
    board.join_seat::<HearNote>(seat, badge.into_seat());
}

// The pen hears a note, and catches up: so it is told that the journal begins with that of the note.
fn hear_whole<S: Store<Entry<P>>, P: Part>(
    board: &Board<S, P>,
    seat: &mut BoardSeat<S, P>,
    note: Note,
)
    requires here { seat.old.table_id ≡ board.now.table_id }
    requires is { seat.old.me.0 ≡ Holder (pen_at seat.old.me) }
    requires lock { lock_at < board.now.table_id.words }
    requires note { note.table ≡ board.now.table_id }
    ensures table { seat.new.table_id ≡ seat.old.table_id }
    ensures after { Becomes seat.old.me (after_hearing_all (pen_at seat.old.me) note.told (pen_at seat.new.me).known)
        seat.new.me }
    ensures knows { Knows (pen_at seat.old.me).room (pen_at seat.old.me) (pen_at seat.new.me).known }
    ensures tells { StartsWith (pen_at seat.new.me).known note.told }
{
    hear_note(board, seat, note);
    catch_up(board, seat);
}

impl<S: Store<Entry<P>>, P: Part> Desk<S, P> {
    /// The pen catches up with the journal, in one step, and writes a note of it, in another. The journal that
    /// the note tells begins with what the pen knew, and has the pen's calls; the pen knows it from then on, and
    /// is as it was otherwise.
    pub fn note(&self, pen: &mut Pen<S, P>) -> Note
        requires table { pen.old.table ≡ self.now.table }
        ensures table { result.table ≡ self.now.table }
        ensures after { pen.new ≡ record pen.old { state = after_note pen.old.state result.told } }
        ensures knows { Knows pen.old.state.room pen.old.state result.told }
        ensures calls { HasItsCalls pen.old.state result.told }
    {
        write_whole(&self.table.shared, &mut pen.seat)
    }

    /// The pen hears a note of its desk, in one step, and catches up with the journal, in another. The journal that it
    /// knows from then on begins with what it knew, and with the journal that the note tells; and it is as it was
    /// otherwise.
    pub fn hear(&self, pen: &mut Pen<S, P>, note: Note)
        requires table { pen.old.table ≡ self.now.table }
        requires note { note.table ≡ self.now.table }
        ensures hears { pen.new ≡ record pen.old { state = after_hearing_all pen.old.state note.told pen.new.state.known } }
        ensures knows { Knows pen.old.state.room pen.old.state pen.new.state.known }
        ensures tells { StartsWith pen.new.state.known note.told }
    {
        hear_whole(&self.table.shared, &mut pen.seat, note);
    }
}
