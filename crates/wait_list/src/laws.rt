// Laws of the definitions. A call of a law runs nothing: it hands the law's facts to the proof of its caller.
ghost use Rattle.std.specs.Prelude.{◌≡◌, ◌≤◌, ℕ, List};
ghost use Rattle.wait_list.specs.declared.group.Group.{Group};
ghost use Rattle.wait_list.specs.declared.waiter.Waiter.{Waiter};
ghost use Rattle.wait_list.specs.declared.stock.Stock.{Stock};
ghost use Rattle.wait_list.specs.Waiters.{count_awake, Change, changed};
ghost use Rattle.std.specs.List.{AllByRecursion};
ghost use Rattle.wait_list.specs.Runs.{Event, run, opening, stock_of, AllAreBack, MaySleep};
ghost use Rattle.wait_list.specs.Settled.{IsSettled, OnlyWakes, settled, woken_first, WakesTheFirst};

/// For every list of waiters, and whatever the queue has: what `settled` makes of the list meets `IsSettled`, and has the
/// same waiters. No such list has fewer awake. A list that meets it already stays as it is. Of a group those are woken
/// who came first.
pub fn law_settled()
    ensures settled { (stock : Stock) (ws : List Waiter) → IsSettled stock (settled stock ws) }
    ensures only_wakes { (stock : Stock) (ws : List Waiter) → OnlyWakes ws (settled stock ws) }
    ensures fewest { (stock : Stock) (ws vs : List Waiter) → OnlyWakes ws vs → IsSettled stock vs
        → count_awake Group.Everybody (settled stock ws) ≤ count_awake Group.Everybody vs }
    ensures quiet { (stock : Stock) (ws : List Waiter) → IsSettled stock ws → settled stock ws ≡ ws }
    ensures first_come { (n : ℕ) (group : Group) (ws : List Waiter) → WakesTheFirst group ws (woken_first n group ws) }
{}

/// A list of which more are awake has the same waiters: so it is after each change too, and of what it was before.
pub fn law_same_waiters()
    ensures changes { (change : Change) (vs ws : List Waiter) → OnlyWakes vs ws → OnlyWakes (changed change vs) (changed change ws) }
    ensures goes_on { (us vs ws : List Waiter) → OnlyWakes us vs → OnlyWakes vs ws → OnlyWakes us ws }
{}

/// For every list of events, at a queue with any bound, with `settle` behind each: the list is settled. And where all
/// who were woken have come back, nobody sleeps who could go on, or for whom nothing comes any more.
pub fn law_every_run()
    ensures settled { (bound : ℕ) (events : List Event) → IsSettled (stock_of (run events (opening bound))) (run events (opening bound)).waiters }
    ensures back { (bound : ℕ) (events : List Event) → AllAreBack (run events (opening bound))
        → AllByRecursion (λ waiter. MaySleep (run events (opening bound)) waiter.wants) (run events (opening bound)).waiters }
{}
