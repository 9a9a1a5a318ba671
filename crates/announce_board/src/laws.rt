// Laws of the desk's table, on which the bodies of the calls rest. A call of a law runs nothing: it
// hands the law's facts to the proof of its caller.
ghost use Rattle.pq_book.specs.Book.{AllHaveRoom};
ghost use Rattle.announce_board.specs.Allowed.{DraftAllowed, PostAllowed, LockReadAllowed, TryAllowed, MailReadAllowed};
ghost use Rattle.announce_board.specs.Allowed.{ItemReadAllowed, ItemLaidAllowed, AnswerAllowed, ApplyAllowed, ReleaseAllowed};
ghost use Rattle.announce_board.specs.Allowed.{ArchiveAllowed, ChangeAllowed, HandOutAllowed, ReleaseWithAllowed, LookAllowed, SeeAllowed, TakeAllowed};
ghost use Rattle.announce_board.specs.Opening.{OpeningKept, DealingAllowed, EndsAreTold};
ghost use Rattle.announce_board.specs.Told.{WaitersAreTold, PostsAreNew, DuesStand, AboveTheLast, CellsStand};

use crate::running::law_steps_are_moves;
use desk_core::laws::{
    law_archiving, law_calls_are_lines, law_dealt_runs_are_linearizable, law_desk_runs,
    law_each_step_keeps_the_rule, law_lines_are_beyond, law_pens_know, law_reached_desks,
    law_times, law_words_show_the_desk,
};
use leftist_heap::Store;
use pq_book::Entry;
use pq_types::Part;

/// Each step of a pen keeps the rule of the table of a desk over such a store.
pub fn law_steps_are_allowed<S: Store<Entry<P>>, P: Part>()
    ensures draft { DraftAllowed P.wide (AllHaveRoom S.room) }
    ensures post { PostAllowed P.wide (AllHaveRoom S.room) }
    ensures read_lock { LockReadAllowed P.wide (AllHaveRoom S.room) }
    ensures try_lock { TryAllowed P.wide (AllHaveRoom S.room) }
    ensures read_mail { MailReadAllowed P.wide (AllHaveRoom S.room) }
    ensures read_item { ItemReadAllowed P.wide (AllHaveRoom S.room) }
    ensures lay_item { ItemLaidAllowed P.wide (AllHaveRoom S.room) }
    ensures answer { AnswerAllowed P.wide (AllHaveRoom S.room) }
    ensures apply { ApplyAllowed P.wide (AllHaveRoom S.room) }
    ensures archive { ArchiveAllowed P.wide (AllHaveRoom S.room) }
    ensures change { ChangeAllowed P.wide (AllHaveRoom S.room) }
    ensures hand_out { HandOutAllowed P.wide (AllHaveRoom S.room) }
    ensures release { ReleaseAllowed P.wide (AllHaveRoom S.room) }
    ensures release_with { ReleaseWithAllowed P.wide (AllHaveRoom S.room) }
    ensures look { LookAllowed P.wide (AllHaveRoom S.room) }
    ensures see_item { SeeAllowed P.wide (AllHaveRoom S.room) }
    ensures take_item { TakeAllowed P.wide (AllHaveRoom S.room) }
{
    law_steps_are_moves::<S, P>();
}

/// What the steps of a pen tell it of the desk that they find.
pub fn law_steps_tell()
    ensures waiters { WaitersAreTold }
    ensures posts { PostsAreNew }
    ensures dues { DuesStand }
    ensures last { AboveTheLast }
{
    law_each_step_keeps_the_rule();
    law_desk_runs();
    law_calls_are_lines();
    law_lines_are_beyond();
}

/// The table of a desk over such a store keeps its rule from the opening on, as its pens are given
/// out, and tells at its end whether the Book is at home.
pub fn law_opening_and_end<S: Store<Entry<P>>, P: Part>()
    ensures opens { OpeningKept P.wide (AllHaveRoom S.room) }
    ensures deals { DealingAllowed P.wide (AllHaveRoom S.room) }
    ensures ends { EndsAreTold P.wide (AllHaveRoom S.room) }
{
    law_desk_runs();
    law_each_step_keeps_the_rule();
    law_words_show_the_desk();
    law_pens_know();
    law_reached_desks();
    law_dealt_runs_are_linearizable();
    law_times();
    law_archiving();
}

/// What a pen knows of an item cell still stands there.
pub fn law_cells_stand()
    ensures { CellsStand }
{
    law_desk_runs();
}
