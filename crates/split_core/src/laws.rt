// Laws of the definitions. The core theorem is `law_all_runs`: what holds at the end of every run,
// whatever the ids are, as long as they differ, and in whatever order the comers take their steps.
// A call of a law runs nothing: it hands the law's facts to the proof of its caller.
ghost use Rattle.std.specs.Prelude.{◌≡◌, ℕ, ◌<◌, ◌↔◌, ◌++◌, ◌∷◌, [], List, length, map, Some, false, true};
ghost use Rattle.split_core.specs.Grid.{Grid, Event, run, opening, Different};
ghost use Rattle.split_core.specs.Allowed.{TakesOneStep};
ghost use Rattle.split_core.specs.Splitter.{StaysClosed, OneStops, NotAllTurned, LoneStops, StaysStopped, WaysClosed};
ghost use Rattle.split_core.specs.Doors.{DoorsMet};
ghost use Rattle.split_core.specs.Places.{Numbered, place};
ghost use Rattle.split_core.specs.declared.places.TheConstants.{MAX_COMERS, MAX_PLACES};
ghost use Rattle.split_core.specs.Walk.{WaySteps};
ghost use Rattle.split_core.specs.Inside.{Inside};
ghost use Rattle.split_core.specs.Ids.{OpenGrid};
ghost use Rattle.split_core.specs.Stored.{CursorsFollow};
ghost use Rattle.split_core.specs.declared.model.Comer.{Comer};
ghost use Rattle.split_core.specs.Quadrants.{Quadrants, Diagonals, is_in, VisitsQuadrant};
ghost use Rattle.split_core.specs.Collect.{ScansWhole, EndedScans, DoorsRead};
ghost use Rattle.split_core.specs.Trail.{Trail, trail_start};
ghost use Rattle.split_core.specs.TrailRows.{RowsFollow, StartsAtRow};
ghost use Rattle.split_core.specs.Trails.{Act, trail_opening, does_all, TrailsWhole};
ghost use Rattle.split_core.specs.Trails.{TrailDoors, InOrder, three_in_turn, trail_of};
ghost use Rattle.split_core.specs.TrailReads.{trail_by, TrailMoment, WaysFound, FindsClosed};
ghost use Rattle.split_core.specs.Worked.{told, places, both_see_open, first_goes_down};
ghost use Rattle.split_core.specs.Worked.{nobody_stops_first, scan_by_second, last_writer_stops};
ghost use Rattle.split_core.specs.declared.seen.Seen.TheVariants as seen;
ghost use Rattle.split_core.specs.declared.model.Turn.TheVariants.{Right, Down};

/// For every list of different ids and every list of events: the splitter's laws at each place, the
/// quadrant count, the doors on each way, the steps of a way, and what a scan finds and reads.
pub fn law_all_runs()
    ensures one_stops { (ids : List ℕ) (events : List Event) → Different ids → OneStops (run events (opening ids)) }
    ensures not_all_right { (ids : List ℕ) (events : List Event) → Different ids → NotAllTurned Right (run events (opening ids)) }
    ensures not_all_down { (ids : List ℕ) (events : List Event) → Different ids → NotAllTurned Down (run events (opening ids)) }
    ensures lone_stops { (ids : List ℕ) (events : List Event) → Different ids → LoneStops (run events (opening ids)) }

    ensures in_quadrant { (r c : ℕ) (x : Comer) → (is_in r c x ≡ true) ↔ VisitsQuadrant r c x }
    ensures quadrants { (ids : List ℕ) (events : List Event) → Different ids → Quadrants (run events (opening ids)) }
    ensures diagonals { (ids : List ℕ) (events : List Event) → Different ids → Diagonals (run events (opening ids)) }
    ensures stays_closed { (ids : List ℕ) (events more : List Event) → StaysClosed (run events (opening ids)) more }
    ensures stays_stopped { (s : Grid) (more : List Event) → StaysStopped s more }
    ensures ways_closed { (ids : List ℕ) (events : List Event) → Different ids → WaysClosed (run events (opening ids)) }
    ensures doors_met { (ids : List ℕ) (events : List Event) → DoorsMet ids events }
    ensures way_steps { (ids : List ℕ) (events : List Event) → WaySteps (run events (opening ids)) }

    ensures inside { (ids : List ℕ) (events : List Event) → Different ids → Inside (length ids) (run events (opening ids)) }

    ensures scans { (ids : List ℕ) → Different ids → ScansWhole ids }
    ensures ended { (ids : List ℕ) (events : List Event) → Different ids → EndedScans (run events (opening ids)) }
    ensures doors { (ids : List ℕ) (events : List Event) → Different ids → DoorsRead (run events (opening ids)) }
{}

/// For every list of different ids and every list of acts, trail scans among them: what a trail scan
/// that is over has found, and how many doors it reads. Where three comers have come one after
/// another a trail scan reads seven doors, and five in a grid that has no fourth comer.
pub fn law_trails()
    ensures trails { (ids : List ℕ) → Different ids → TrailsWhole ids }
    ensures doors { (ids : List ℕ) (acts : List Act) → Different ids → TrailDoors (does_all acts (trail_opening ids)) }
    ensures order { (ids : List ℕ) (acts : List Act) (a : ℕ) → InOrder ((does_all acts (trail_opening ids)).trail a) }
    ensures rows { (ids : List ℕ) (acts : List Act) (n a : ℕ) → RowsFollow n ((does_all acts (trail_opening ids)).trail a) }
    ensures first_rows { (n : ℕ) → StartsAtRow n × RowsFollow n trail_start }
    ensures in_a_full_grid { (does_all (three_in_turn ++ trail_of 2 5) (trail_opening (7 ∷ 3 ∷ 9 ∷ []))).trail 2
        ≡ record { ahead = []; found = 0 ∷ 1 ∷ 3 ∷ []; doors = 5 } }
    ensures in_a_larger_grid { (does_all (three_in_turn ++ trail_of 2 7) (trail_opening (7 ∷ 3 ∷ 9 ∷ 5 ∷ []))).trail 2
        ≡ record { ahead = []; found = 0 ∷ 1 ∷ 3 ∷ []; doors = 7 } }
{}

/// For every list of words that the doors of a trail scan are read as: what the scan is then, and
/// what it has found once it is over. And beside every run of the grid: one that is over has found each
/// place whose door was closed before its first read.
pub fn law_trail_reads()
    ensures moments { (n : ℕ) (words : List ℕ) → 0 < n → TrailMoment n (trail_by n words) }
    ensures ways { (n : ℕ) → WaysFound n }
    ensures closed { (ids : List ℕ) → Different ids → FindsClosed ids }
{}

/// For every grid and every event: one that isn't allowed changes nothing, and one that is allowed
/// is one step of its own comer.
pub fn law_events()
    ensures { (s : Grid) (e : Event) → TakesOneStep s e }
{}

/// For every list of ids and every list of events: a scan goes on in its stored form,
/// `walker::Cursor`, as it does in the grid.
pub fn law_cursors()
    ensures { (ids : List ℕ) (events : List Event) → CursorsFollow (length ids) (run events (opening ids)) }
{}

/// For every row and column: what the number of a place is.
pub fn law_places()
    ensures { (row column : ℕ) → Numbered row column }
{}

/// The greatest grid has 64 comers, and `MAX_PLACES` is the number of its places.
pub fn law_sizes()
    ensures comers { MAX_COMERS ≡ 64 }
    ensures places { MAX_PLACES ≡ place 0 MAX_COMERS }
{}

/// For every list of ids that opens a grid: no two positions have the same id.
pub fn law_ids()
    ensures { (ids : List ℕ) → OpenGrid ids → Different ids }
{}

/// Small runs in full: the definitions show what the splitter of the literature does.
pub fn law_worked_runs()
    ensures one_goes_down_one_stops { told (both_see_open ++ first_goes_down) (opening (7 ∷ 3 ∷ []))
        ≡ map Some (seen.Wrote 0 ∷ seen.SawOpen 0 ∷ seen.Wrote 0 ∷ seen.SawOpen 0
        ∷ seen.Closed 0 ∷ seen.Down 0 3 2 ∷ seen.Closed 0 ∷ seen.Stopped 0
        ∷ seen.Wrote 2 ∷ seen.SawOpen 2 ∷ seen.Closed 2 ∷ seen.Stopped 2 ∷ []) }
    ensures nobody_stops_at_the_first_place { told nobody_stops_first (opening (7 ∷ 3 ∷ []))
        ≡ map Some (seen.Wrote 0 ∷ seen.SawOpen 0 ∷ seen.Closed 0 ∷ seen.Wrote 0 ∷ seen.Right 0 1 ∷ seen.Down 0 3 2
        ∷ seen.Wrote 1 ∷ seen.SawOpen 1 ∷ seen.Closed 1 ∷ seen.Stopped 1
        ∷ seen.Wrote 2 ∷ seen.SawOpen 2 ∷ seen.Closed 2 ∷ seen.Stopped 2 ∷ []) }
    ensures the_scan_goes_past_it { told scan_by_second (run nobody_stops_first (opening (7 ∷ 3 ∷ [])))
        ≡ map Some (seen.Door 0 true false ∷ seen.Door 1 true false ∷ seen.Door 2 true true ∷ []) }
    ensures the_last_writer_stops { told last_writer_stops (opening (7 ∷ 3 ∷ 9 ∷ []))
        ≡ map Some (seen.Wrote 0 ∷ seen.SawOpen 0 ∷ seen.Wrote 0 ∷ seen.SawOpen 0 ∷ seen.Wrote 0 ∷ seen.SawOpen 0
        ∷ seen.Closed 0 ∷ seen.Down 0 9 2 ∷ seen.Closed 0 ∷ seen.Down 0 9 2 ∷ seen.Closed 0 ∷ seen.Stopped 0
        ∷ seen.Wrote 2 ∷ seen.SawOpen 2 ∷ seen.Wrote 2 ∷ seen.SawOpen 2
        ∷ seen.Closed 2 ∷ seen.Down 2 3 5 ∷ seen.Closed 2 ∷ seen.Stopped 2
        ∷ seen.Wrote 5 ∷ seen.SawOpen 5 ∷ seen.Closed 5 ∷ seen.Stopped 5 ∷ []) }
    ensures and_all_stand_apart { places (run last_writer_stops (opening (7 ∷ 3 ∷ 9 ∷ []))) ≡ 5 ∷ 2 ∷ 0 ∷ [] }
{}
