// What holds of a running desk between any two steps. A call of a law runs nothing: it hands the law's facts to the proof
// of its caller.
ghost use Rattle.pq_book.specs.Book.{AllHaveRoom};
ghost use Rattle.announce_board.specs.Allowed.{AsMove, AsLook, DraftAllowedBy, PostAllowedBy, LockReadAllowedBy, TryAllowedBy};
ghost use Rattle.announce_board.specs.Allowed.{MailReadAllowedBy, ItemReadAllowedBy, ItemLaidAllowedBy, AnswerAllowedBy};
ghost use Rattle.announce_board.specs.Allowed.{ReleaseAllowedBy, ReleaseWithAllowedBy, LookAllowedBy, SeeAllowedBy, TakeAllowedBy, ApplyAllowedBy};
ghost use Rattle.announce_board.specs.Allowed.{ArchiveAllowedBy, ChangeAllowedBy, HandOutAllowedBy};
ghost use Rattle.announce_board.specs.Allowed.{AsCatchUp, AsNothing, CutAsMove, JoinAsMove};
ghost use Rattle.announce_board.specs.Notes.{CatchUpAllowedBy, WritingAllowedBy, HearingAllowedBy};
ghost use Rattle.announce_board.specs.Opening.{OpeningIsTheDealers, DealingAllowedBy};
ghost use Rattle.announce_board.specs.Running.{TablesAreLinearized, TablesForcePositions};
ghost use Rattle.announce_board.specs.Sleeping.{SleepAllowedBy, WakeAllowedBy};
ghost use Rattle.announce_board.specs.Testimonies.{TestifyAllowedBy, RetireAllowedBy, GatherAllowedBy, CompareAllowedBy};
ghost use Rattle.announce_board.specs.Traces.{EachTraceIsARun, EachJournalGrows};

use desk_core::laws::{
    law_archiving, law_dealt_runs_are_linearizable, law_desk_runs, law_each_step_keeps_the_rule,
    law_lines_are_beyond, law_looks_are_within, law_nobody_sleeps_beside_an_item,
    law_notes_keep_the_rule, law_pens_know, law_positions_are_forced, law_reached_desks,
    law_testimonies, law_times, law_words_show_the_desk,
};
use leftist_heap::Store;
use pq_book::Entry;
use pq_types::Part;
use pq_types::laws::law_words_differ;

/// Whatever threads have done with a desk over such a store: it is at the end of a run of the desk's machine, and
/// linearizable (Herlihy and Wing 1990) as that is, in the order of its journal, in which looks have their places too. Its limits
/// are those of the opening, but for the lines that were said in that run to be archived. Whenever the Book is at home, no
/// thread sleeps beside an item that it could take, unless one that could was woken and has not come back. A step
/// of a pen can give it no other positions in the history than the next ones.
pub fn law_running_desks_are_linearizable<S: Store<Entry<P>>, P: Part>()
    ensures linearized { TablesAreLinearized P.wide (AllHaveRoom S.room) }
    ensures forced { TablesForcePositions P.wide (AllHaveRoom S.room) }
{
    law_looks_are_within();
    law_times();
    law_positions_are_forced();
    law_archiving();
    law_nobody_sleeps_beside_an_item();
}

/// Each step that a call takes at the table of a desk, whatever state of the table it finds, is the step of the desk's
/// machine by its own pen, or the load of a free lock, which changes nothing. A release without a request is a look of the
/// machine, and finds the journal in the pen's hand.
pub fn law_steps_are_moves<S: Store<Entry<P>>, P: Part>()
    ensures draft { DraftAllowedBy AsMove P.wide (AllHaveRoom S.room) }
    ensures post { PostAllowedBy AsMove P.wide (AllHaveRoom S.room) }
    ensures read_lock { LockReadAllowedBy AsMove P.wide (AllHaveRoom S.room) }
    ensures try_lock { TryAllowedBy AsMove P.wide (AllHaveRoom S.room) }
    ensures read_mail { MailReadAllowedBy AsMove P.wide (AllHaveRoom S.room) }
    ensures read_item { ItemReadAllowedBy AsMove P.wide (AllHaveRoom S.room) }
    ensures lay_item { ItemLaidAllowedBy AsMove P.wide (AllHaveRoom S.room) }
    ensures answer { AnswerAllowedBy AsMove P.wide (AllHaveRoom S.room) }
    ensures apply { ApplyAllowedBy AsMove P.wide (AllHaveRoom S.room) }
    ensures archive { ArchiveAllowedBy AsMove P.wide (AllHaveRoom S.room) }
    ensures change { ChangeAllowedBy AsMove P.wide (AllHaveRoom S.room) }
    ensures hand_out { HandOutAllowedBy AsMove P.wide (AllHaveRoom S.room) }
    ensures release { ReleaseAllowedBy AsMove P.wide (AllHaveRoom S.room) }
    ensures release_looks { ReleaseAllowedBy AsLook P.wide (AllHaveRoom S.room) }
    ensures release_with { ReleaseWithAllowedBy AsMove P.wide (AllHaveRoom S.room) }
    ensures look { LookAllowedBy AsMove P.wide (AllHaveRoom S.room) }
    ensures see_item { SeeAllowedBy AsMove P.wide (AllHaveRoom S.room) }
    ensures take_item { TakeAllowedBy AsMove P.wide (AllHaveRoom S.room) }
{
    law_each_step_keeps_the_rule();
    law_words_show_the_desk();
    law_words_differ();
    law_pens_know();
    law_lines_are_beyond();
    law_desk_runs();
    law_reached_desks();
    law_archiving();
    law_nobody_sleeps_beside_an_item();
}

/// So is each other thing that threads do at the table. A pen catches up with the journal. The pens of a testimony are compared, which
/// changes nothing. The dealer gives out a pen. Pens write notes and hear them, give testimony, retire, fall asleep and are woken, and
/// testimonies are put together.
pub fn law_cuts_and_joins_are_moves<S: Store<Entry<P>>, P: Part>()
    ensures catch_up { CatchUpAllowedBy AsCatchUp P.wide (AllHaveRoom S.room) }
    ensures compare { CompareAllowedBy AsNothing P.wide (AllHaveRoom S.room) }
    ensures deals { DealingAllowedBy CutAsMove P.wide (AllHaveRoom S.room) }
    ensures writing { WritingAllowedBy CutAsMove P.wide (AllHaveRoom S.room) }
    ensures hearing { HearingAllowedBy JoinAsMove P.wide (AllHaveRoom S.room) }
    ensures testify { TestifyAllowedBy CutAsMove P.wide (AllHaveRoom S.room) }
    ensures retire { RetireAllowedBy CutAsMove P.wide (AllHaveRoom S.room) }
    ensures gather { GatherAllowedBy JoinAsMove P.wide (AllHaveRoom S.room) }
    ensures sleep { SleepAllowedBy CutAsMove P.wide (AllHaveRoom S.room) }
    ensures wake { WakeAllowedBy JoinAsMove P.wide (AllHaveRoom S.room) }
{
    law_notes_keep_the_rule();
    law_reached_desks();
    law_words_show_the_desk();
    law_testimonies();
    law_desk_runs();
}

/// A table opens as the desk of the machine's opening with a dealer. Whatever steps its threads take from then on, one behind another,
/// each a move of the machine by its own seat or one that changes nothing: together they are one run of the machine. Its journal
/// linearizes the calls of all threads with all their looks, in the order of these steps, and only grows at its end.
pub fn law_traces_are_runs<S: Store<Entry<P>>, P: Part>()
    ensures opens { OpeningIsTheDealers P.wide (AllHaveRoom S.room) }
    ensures runs { EachTraceIsARun P.wide (AllHaveRoom S.room) }
    ensures grows { EachJournalGrows P.wide (AllHaveRoom S.room) }
{
    law_desk_runs();
    law_words_show_the_desk();
    law_looks_are_within();
    law_times();
    law_dealt_runs_are_linearizable();
}
