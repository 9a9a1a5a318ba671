// Laws of the product machine, over all runs. A call of a law runs nothing: it hands the law's
// facts to the proof of its caller.
ghost use Rattle.flat_queue.specs.Calling.{LinesRise};
ghost use Rattle.flat_queue.specs.TimeOrder.{MembersFollowTime};
ghost use Rattle.flat_queue.specs.Rounds.{HalvesAreRuns, RoundsAnswer, RoundsTellTheirOwn, ScansFind};
ghost use Rattle.flat_queue.specs.TrailRounds.{TrailRoundsAnswer, TrailRoundsTellTheirOwn};
ghost use Rattle.flat_queue.specs.Worked.{RoundOfTwo, TrailRoundOfTwo};

use desk_core::laws::{law_desk_runs, law_posted_are_answered, law_testimonies};
use split_core::laws::{law_all_runs, law_trail_reads};

/// In every interleaving of comers that walk and scan the grid and pens that post and lead for
/// those that have stopped: a request that was posted before a round began has its answer when the
/// round ends, and whoever made the round knows the answers to its own posts; an announcement that
/// was posted before a scan began is at a place in the scan's answer.
pub fn law_product_runs()
    ensures halves { HalvesAreRuns }
    ensures rounds { RoundsAnswer }
    ensures own { RoundsTellTheirOwn }
    ensures scans { ScansFind }
{
    law_all_runs();
    law_desk_runs();
    law_posted_are_answered();
}

/// The same of rounds by trail scans: what was posted before such a round began has its answer when
/// the round ends, and whoever made it knows the answers to its own posts.
pub fn law_trail_rounds()
    ensures rounds { TrailRoundsAnswer }
    ensures own { TrailRoundsTellTheirOwn }
{
    law_all_runs();
    law_desk_runs();
    law_posted_are_answered();
    law_trail_reads();
}

/// The lines of a member's calls rise: a call that is entered has a line behind that of each of its
/// earlier calls, whatever it did between them. So two pushes and a pop of one member stand in the
/// journal in this order, which their answers tell as they come, and not only a close.
pub fn law_lines_rise()
    ensures { LinesRise }
{}

/// Of two calls of any members of a queue, of which one ended before the other began, it has the earlier line. Each member
/// keeps when its calls began and ended, which their testimonies tell of one history.
pub fn law_calls_follow_time()
    ensures { MembersFollowTime }
{
    law_testimonies();
}

/// Rounds of two comers in full: the definitions admit what they are meant for.
pub fn law_round_of_two()
    ensures { RoundOfTwo }
{}

/// A round by a trail scan, in full, which ends with a request of its own.
pub fn law_trail_round_of_two()
    ensures { TrailRoundOfTwo }
{}
