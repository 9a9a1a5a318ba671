// Laws of the desk, over all runs. A call of a law runs nothing: it hands the law's facts to the
// proof of its caller.
ghost use Rattle.desk_core.specs.Acting.{EachStepIsOnePens};
ghost use Rattle.desk_core.specs.Beyond.{NextIsUnknown, AnswersAreBeyond};
ghost use Rattle.desk_core.specs.CallLines.{CallsAreLines, NumbersRise};
ghost use Rattle.desk_core.specs.Clauses.{RuleGivesClauses, EveryRunMeetsClauses, ItemsAreStored};
ghost use Rattle.desk_core.specs.Dealing.{EveryDealtRunIsLinearizable, DealtOrderStays, DealtLinesAreWithinCalls};
ghost use Rattle.desk_core.specs.Dealing.{ReachedMeetRule, MovesReach};
ghost use Rattle.desk_core.specs.Guards.{AskingNeedsGuards, LeadingNeedsGuards};
ghost use Rattle.desk_core.specs.Keeping.{DraftKeeps, PostKeeps, LeadKeeps, MissKeeps, ReadKeeps, ReadItemKeeps};
ghost use Rattle.desk_core.specs.Keeping.{LayItemKeeps, AnswerKeeps, ApplyKeeps, ArchiveKeeps, ChangeKeeps, HandOutKeeps, ReleaseKeeps, ReleaseByKeeps, LookKeeps};
ghost use Rattle.desk_core.specs.Keeping.{SeeItemKeeps, TakeItemKeeps, DueIsNew, PensAreSeated};
ghost use Rattle.desk_core.specs.Knows.{LeadersKnow, HomeIsKnown, CallsHaveReplies};
ghost use Rattle.desk_core.specs.Layout.{LockStored, ControlStored, ItemStored, Loaded};
ghost use Rattle.desk_core.specs.Layout.{WordsAreReadBack, ZerosAreFresh, CacheLines};
ghost use Rattle.desk_core.specs.Words.{WordsTellItems, MixedByWord, WordsMix};
ghost use Rattle.desk_core.specs.Leads.{PostedAreAnswered, AnswersStay, LeadersKnowTheirAnswers};
ghost use Rattle.desk_core.specs.Leads.{AnswersStayKnown, LeadersNoteWhatTheyRead};
ghost use Rattle.desk_core.specs.Linearizable.{EveryRunIsLinearizable, OrderStays, LinesAreWithinCalls, ShutEndsPushes};
ghost use Rattle.desk_core.specs.Archiving.{EveryRunHasLimits, MovesKeepLimits, LimitsRise, PageIsAllowed};
ghost use Rattle.desk_core.specs.Looking.{LooksAreMore, LooksFindTheJournal};
ghost use Rattle.desk_core.specs.Looking.{EveryRunLinearizesLooks, EveryDealtRunLinearizesLooks};
ghost use Rattle.desk_core.specs.Needs.{OwnRequestNeeds};
ghost use Rattle.desk_core.specs.Notes.{CatchUpKeeps, WritingKeeps, HearingKeeps, CopyingKeeps};
ghost use Rattle.desk_core.specs.Rule.{OpeningsMeetRule, EveryStepKeepsRule, DealingKeepsRule, EveryRunMeetsRule};
ghost use Rattle.desk_core.specs.Tells.{DraftTells, PostTells, TryTells, ReadTells, ReadItemTells, LayItemTells, AnswerTells};
ghost use Rattle.desk_core.specs.Tells.{ReleaseTells, ReleaseByTells, LookTells, SeeItemTells, TakeItemTells, ApplyTells, ArchiveTells, ChangeTells, HandOutTells};
ghost use Rattle.desk_core.specs.Positions.{PositionsAreForced};
ghost use Rattle.desk_core.specs.Times.{EveryDealtRunIsTimed, EveryDealtRunIsWhole, TimesOrderCalls};
ghost use Rattle.desk_core.specs.Waiters.{NobodySleepsBesideAnItem, EveryRunHasWaiters, MovesKeepWaiters};
ghost use Rattle.desk_core.specs.Witnessed.{TestimoniesAreTrue, LinearizedFollowTime, RefusedStandNowhere};
ghost use Rattle.desk_core.specs.WorkedHistories.{ComingOut, Overtaking, Together, StaleIsRefused};
ghost use Rattle.desk_core.specs.WorkedLooks.{LooksBetween};
ghost use Rattle.desk_core.specs.Worked.{ThreePens, HalfWritten, FullJournal, OwnRequests};

use pq_types::laws::{law_items_stay_in_range, law_one_more_line, law_shut, law_words_differ};
use wait_list::laws::{law_same_waiters, law_settled};

/// In every run of the desk's steps, in whatever order the pens take them: the rule of the desk
/// holds between any two steps, and whatever desk meets it meets each of its plain clauses. Both
/// openings meet it, and a dealer that gives out a pen keeps it. Each step is that of one pen alone
/// and stores in one cell at most; an item cell is stored by its idle pen or by the leader that
/// read its record posted.
pub fn law_desk_runs()
    ensures openings { OpeningsMeetRule }
    ensures keeps { EveryStepKeepsRule }
    ensures dealing { DealingKeepsRule }
    ensures rule { EveryRunMeetsRule }
    ensures holds { RuleGivesClauses }
    ensures clauses { EveryRunMeetsClauses }
    ensures one_acts { EachStepIsOnePens }
    ensures stored { ItemsAreStored }
{
    law_one_more_line();
    law_shut();
    law_items_stay_in_range();
}

/// The same by each kind of step, as a table of atomic words asks for it: with the pen that stands
/// at the acting seat, and what it is afterwards. What is due is a new post, as a Book asks of
/// whoever applies it.
pub fn law_each_step_keeps_the_rule()
    ensures draft { DraftKeeps }
    ensures post { PostKeeps }
    ensures lead { LeadKeeps }
    ensures miss { MissKeeps }
    ensures read { ReadKeeps }
    ensures read_item { ReadItemKeeps }
    ensures lay_item { LayItemKeeps }
    ensures answer { AnswerKeeps }
    ensures apply { ApplyKeeps }
    ensures archive { ArchiveKeeps }
    ensures change { ChangeKeeps }
    ensures hand_out { HandOutKeeps }
    ensures release { ReleaseKeeps }
    ensures release_by { ReleaseByKeeps }
    ensures look { LookKeeps }
    ensures see_item { SeeItemKeeps }
    ensures take_item { TakeItemKeeps }
    ensures due { DueIsNew }
    ensures seated { PensAreSeated }
{
    law_one_more_line();
    law_shut();
    law_items_stay_in_range();
}

/// What each kind of step tells the pen that takes it, and what it leaves. The items that are read
/// and taken are whole: that of the push which waits, and that of the answer which was entered.
pub fn law_each_step_tells()
    ensures draft { DraftTells }
    ensures post { PostTells }
    ensures try_lock { TryTells }
    ensures read { ReadTells }
    ensures read_item { ReadItemTells }
    ensures lay_item { LayItemTells }
    ensures answer { AnswerTells }
    ensures apply { ApplyTells }
    ensures archive { ArchiveTells }
    ensures change { ChangeTells }
    ensures hand_out { HandOutTells }
    ensures release { ReleaseTells }
    ensures release_by { ReleaseByTells }
    ensures look { LookTells }
    ensures see_item { SeeItemTells }
    ensures take_item { TakeItemTells }
{}

/// What a leader knows of the journal in its hand, and each pen of the journal that is at home: it
/// is legal, begins with what the pen knew, and has the pen's calls and at most the answer for
/// which it waits. Each call has a reply to its request.
pub fn law_pens_know()
    ensures leaders { LeadersKnow }
    ensures home { HomeIsKnown }
    ensures replies { CallsHaveReplies }
{}

/// The calls that a pen finds as those of its place are lines of the journal, each on the line of its
/// number, and these numbers rise.
pub fn law_calls_are_lines()
    ensures lines { CallsAreLines }
    ensures rise { NumbersRise }
{}

/// The desk is linearizable (Herlihy and Wing 1990), and the order is its journal. Of every run, in
/// whatever order the pens take their steps: the journal is a legal history of the one-thread queue,
/// it has calls that have begun alone, each at most once, each call that has ended was told what is
/// true there, and of two calls of which one ended before the other began it has the earlier line. As
/// a run goes on, the journal only gains lines at its end; each line comes into it within its call.
pub fn law_linearizable()
    ensures linearizable { EveryRunIsLinearizable }
    ensures stays { OrderStays }
    ensures within { LinesAreWithinCalls }
{
    law_one_more_line();
    law_shut();
    law_items_stay_in_range();
}

/// The same of a desk that opens with a dealer, as running desks do: its pens come out one by one, among
/// the steps of those that are out, which also catch up with the journal, write notes, copy and hear them.
pub fn law_dealt_runs_are_linearizable()
    ensures linearizable { EveryDealtRunIsLinearizable }
    ensures stays { DealtOrderStays }
    ensures within { DealtLinesAreWithinCalls }
{
    law_one_more_line();
    law_shut();
    law_items_stay_in_range();
}

/// A look without a request has its place in that order. It finds a beginning of the journal, which linearizes what was
/// seen before the look. Each call that ended before it has its line there, if it ever gets one; each that begins later has
/// its line after that. Of two looks the later one finds at least as much. Without looks what is seen is the history.
pub fn law_looks_are_within()
    ensures linearized { EveryRunLinearizesLooks }
    ensures dealt { EveryDealtRunLinearizesLooks }
    ensures point { LooksFindTheJournal }
    ensures more { LooksAreMore }
{
    law_one_more_line();
    law_shut();
    law_items_stay_in_range();
}

/// A desk at the end of a run from the opening with a dealer meets the rule, and whatever happens there leads
/// to another such desk.
pub fn law_reached_desks()
    ensures rule { ReachedMeetRule }
    ensures goes_on { MovesReach }
{
    law_one_more_line();
    law_shut();
    law_items_stay_in_range();
}

/// Each pen keeps the positions of all its acts in the history of its desk, and each position is one that a pen keeps.
/// Of the calls that any two pens have read, of which one ended before the other began, as these positions tell, the one
/// has the earlier line in the journal.
pub fn law_times()
    ensures timed { EveryDealtRunIsTimed }
    ensures whole { EveryDealtRunIsWhole }
    ensures order { TimesOrderCalls }
{
    law_one_more_line();
    law_shut();
    law_items_stay_in_range();
}

/// A pen can keep no other positions of its acts than the next ones: where a desk has gone on, and the other pens have
/// not, what this pen keeps more are exactly the positions from the next one on.
pub fn law_positions_are_forced()
    ensures { PositionsAreForced }
{
    law_one_more_line();
    law_shut();
    law_items_stay_in_range();
}

/// The pens of each testimony fit one history, with their acts at the positions that they keep, and one journal, which
/// linearizes it and has all calls that they have read. It has no line of a call that was refused.
pub fn law_testimonies()
    ensures witnessed { TestimoniesAreTrue }
    ensures follow { LinearizedFollowTime }
    ensures refused { RefusedStandNowhere }
{
    law_one_more_line();
    law_shut();
    law_items_stay_in_range();
}

/// The same as a pen itself can tell it, at any desk that meets the rule: the line of a call is behind the whole
/// journal that its pen knew when the call began.
pub fn law_lines_are_beyond()
    ensures unknown { NextIsUnknown }
    ensures beyond { AnswersAreBeyond }
{}

/// A pen may catch up with the journal, write a note of what it knows, and hear a note, at any time: the rule of the
/// desk holds on. A pen that has caught up knows of the whole journal what a leader knows of the one in its hand.
pub fn law_notes_keep_the_rule()
    ensures catch_up { CatchUpKeeps }
    ensures writing { WritingKeeps }
    ensures hearing { HearingKeeps }
    ensures copying { CopyingKeeps }
{}

/// What callers see of a run, in full, once with a look; and a history that no journal linearizes: a pop that begins when
/// a push has ended is told the line before it.
pub fn law_histories_in_full()
    ensures overtaking { Overtaking }
    ensures together { Together }
    ensures coming_out { ComingOut }
    ensures looking { LooksBetween }
    ensures stale { StaleIsRefused }
{}

/// The run of three pens whose requests one of them answers, in full.
pub fn law_three_pens()
    ensures { ThreePens }
{}

/// Three more runs in full: a record that is read while it is half-written; one pen by itself,
/// whose third post is refused since the journal is full; and the same by requests of its own.
pub fn law_worked_runs()
    ensures half_written { HalfWritten }
    ensures full_journal { FullJournal }
    ensures own_requests { OwnRequests }
{}

/// A leader that waits, or to which something is due, and that released with a request of its own
/// would break the rule: two short runs.
pub fn law_own_request_needs()
    ensures { OwnRequestNeeds }
{}

/// Each step of `specs/WrongSteps.antt`, which lacks a guard of the desk's own, leads behind a short
/// run to a desk of which a clause of the rule is false.
pub fn law_guards_are_needed()
    ensures asking { AskingNeedsGuards }
    ensures leading { LeadingNeedsGuards }
{}

/// A request that was posted before a lead, at a place that the leader reads, has its answer when
/// the lead ends, and keeps it. A leader that reads its own place then knows its own answer, and
/// each notes the places that it reads.
pub fn law_posted_are_answered()
    ensures answered { PostedAreAnswered }
    ensures stay { AnswersStay }
    ensures known { LeadersKnowTheirAnswers }
    ensures stay_known { AnswersStayKnown }
    ensures noted { LeadersNoteWhatTheyRead }
{
    law_one_more_line();
    law_shut();
    law_items_stay_in_range();
}

/// The words of a table that are those of a desk stay so under each kind of store, tell what stands
/// in it, and are all 0 at the opening. The record of a place fills no cache line but its own.
pub fn law_words_show_the_desk()
    ensures lock_stored { LockStored }
    ensures control_stored { ControlStored }
    ensures item_stored { ItemStored }
    ensures loaded { Loaded }
    ensures read_back { WordsAreReadBack }
    ensures fresh { ZerosAreFresh }
    ensures lines { CacheLines }
    ensures tell_items { WordsTellItems }
    ensures by_word { MixedByWord }
    ensures mix { WordsMix }
{
    law_words_differ();
}

/// In every run the Book has the room and the bound of the opening, and allows as many lines as the opening does, or a page more
/// than the most that have been said to be archived, where that is more. Its journal has no more lines than it allows. So
/// neither a combiner nor whoever brings the Book home can move a limit.
pub fn law_archiving()
    ensures runs { EveryRunHasLimits }
    ensures moves { MovesKeepLimits }
    ensures rise { LimitsRise }
    ensures page { PageIsAllowed }
{
    law_one_more_line();
    law_shut();
    law_items_stay_in_range();
}

/// In every run, whenever the lock is free: the Book is at home, and no thread sleeps beside an item that it could take, unless
/// one that could was woken and has not come back; and so with listeners, timers, alarms and producers. At home or in a
/// combiner's hand the list has exactly whom the changes put in and did not take out, in that order. So no release can lose one.
pub fn law_nobody_sleeps_beside_an_item()
    ensures free { NobodySleepsBesideAnItem }
    ensures runs { EveryRunHasWaiters }
    ensures moves { MovesKeepWaiters }
{
    law_settled();
    law_same_waiters();
    law_one_more_line();
    law_shut();
    law_items_stay_in_range();
}

/// A shut ends pushes, in every history that a journal linearizes.
pub fn law_shut_ends_pushes()
    ensures { ShutEndsPushes }
{}
