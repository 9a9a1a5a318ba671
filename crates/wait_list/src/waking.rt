// Waking, in the order in which the waiters came.
ghost use Rattle.std.specs.Prelude.{◌≡◌, ℕ, length, Some};
ghost use Rattle.std.specs.List.{list_any};
ghost use Rattle.wait_list.specs.Waiters.{is_asleep, is_awake, has, count_awake};
ghost use Rattle.wait_list.specs.Settled.{woken_first, enough_awake, all_awake, awake_if_in, is_over, is_watched, watched_by_one, heard_by_one, listened_to, room_listened_to, threads_settled, settled_for_items, settled_for_room, settled};

use crate::group::Group;
use crate::stock::Stock;
use crate::waiter::Waiter;

// Whether this one is of the group and sleeps.
fn is_asleep(waiter: &Waiter, group: Group) -> bool
    ensures { result ≡ is_asleep group waiter.now }
{
    !waiter.is_woken && group.has(waiter.wants)
}

// Whether this one is of the group and was woken.
fn is_awake(waiter: &Waiter, group: Group) -> bool
    ensures { result ≡ is_awake group waiter.now }
{
    waiter.is_woken && group.has(waiter.wants)
}

// Whether one of the group sleeps.
fn any_asleep(waiters: &[Waiter], group: Group) -> bool
    ensures { result ≡ list_any (is_asleep group) waiters.now }
{
    for waiter in waiters {
        if is_asleep(waiter, group) {
            return true;
        }
    }
    false
}

// Whether one of the group was woken.
fn any_awake(waiters: &[Waiter], group: Group) -> bool
    ensures { result ≡ list_any (is_awake group) waiters.now }
{
    for waiter in waiters {
        if is_awake(waiter, group) {
            return true;
        }
    }
    false
}

// Whether one of the group is in the list.
fn any(waiters: &[Waiter], group: Group) -> bool
    ensures { result ≡ has group waiters.now }
{
    for waiter in waiters {
        if group.has(waiter.wants) {
            return true;
        }
    }
    false
}

// How many of the group were woken.
fn count_awake(waiters: &[Waiter], group: Group) -> u64
    ensures { result ≡ count_awake group waiters.now }
{
    let mut count = 0;
    for waiter in waiters {
        count += u64::from(is_awake(waiter, group));
    }
    count
}

// A waiter of the group, woken; any other as it is.
fn woken_if_in(waiter: Waiter, group: Group) -> Waiter
    ensures { result ≡ awake_if_in group waiter }
{
    let is_woken = waiter.is_woken || group.has(waiter.wants);
    Waiter { is_woken, ..waiter }
}

// Wakes one where it is of the group and sleeps, and tells whether it was.
fn wake(one: &mut Waiter, group: Group) -> bool
    ensures woken { one.new ≡ awake_if_in group one.old }
    ensures slept { result ≡ is_asleep group one.old }
{
    let slept = is_asleep(one, group);
    *one = woken_if_in(*one, group);
    slept
}

// Wakes the first so many of the group who sleep.
#[tactic(auto, using(crate::proofs::FirstOnes::first_step, crate::proofs::FirstOnes::none_left))]
fn wake_first(waiters: &mut [Waiter], count: u64, group: Group)
    ensures { waiters.new ≡ woken_first count group waiters.old }
{
    let mut left = count;
    for one in waiters.iter_mut() {
        if left == 0 {
            return;
        }
        left -= u64::from(wake(one, group));
    }
}

// Wakes so many of the group that this many are awake.
fn wake_enough(waiters: &mut [Waiter], count: u64, group: Group)
    ensures { waiters.new ≡ enough_awake count group waiters.old }
{
    let awake = count_awake(waiters, group);
    wake_first(waiters, count.saturating_sub(awake), group);
}

// Wakes each of the group who sleeps.
#[tactic(auto, using(crate::proofs::FirstOnes::all_awake_step))]
fn wake_all(waiters: &mut [Waiter], group: Group)
    ensures { waiters.new ≡ all_awake group waiters.old }
{
    for waiter in waiters.iter_mut() {
        *waiter = woken_if_in(*waiter, group);
    }
}

/// Whether an item of this priority is taken when it is due.
pub(crate) fn is_watched(waiters: &[Waiter], first: u64) -> bool
    ensures { result ≡ is_watched first waiters.now }
{
    any_awake(waiters, Group::Threads) || any_asleep(waiters, Group::Watchers(first))
}

// Has one of those who take what is due watch for an item of this priority, or wakes one.
fn have_one_watch(waiters: &mut [Waiter], first: u64)
    ensures { waiters.new ≡ watched_by_one first waiters.old }
{
    if !is_watched(waiters, first) {
        wake_enough(waiters, 1, Group::Dues);
    }
}

// Has one of the listeners come back by the time of this first item, or wakes one: its timer is set for a later one.
fn have_one_hear(waiters: &mut [Waiter], first: u64)
    ensures { waiters.new ≡ heard_by_one first waiters.old }
{
    if !any_asleep(waiters, Group::HearWatchers(first)) {
        wake_enough(waiters, 1, Group::Hearers);
    }
}

// Wakes a listener for each item, where no thread is in the list, and has one hear of the first.
fn wake_listeners(waiters: &mut [Waiter], items: u64, first: u64)
    ensures { waiters.new ≡ listened_to items first waiters.old }
{
    if !any(waiters, Group::Threads) {
        wake_enough(waiters, items, Group::Listeners(first));
        have_one_hear(waiters, first);
    }
}

fn settle_for_items(waiters: &mut [Waiter], items: u64, first: u64)
    ensures { waiters.new ≡ settled_for_items items (Some first) waiters.old }
{
    wake_all(waiters, Group::LateAlarms(first));
    wake_enough(waiters, 1, Group::Threads);
    have_one_watch(waiters, first);
    wake_listeners(waiters, items, first);
}

// Wakes a listener for each item that there is room for, where no thread that wants room is in the list.
fn wake_room_listeners(waiters: &mut [Waiter], room: u64)
    ensures { waiters.new ≡ room_listened_to room waiters.old }
{
    if !any(waiters, Group::Producers) {
        wake_enough(waiters, room, Group::RoomListeners);
    }
}

fn settle_for_room(waiters: &mut [Waiter], stock: Stock)
    ensures { waiters.new ≡ settled_for_room stock waiters.old }
{
    if stock.is_shut {
        wake_all(waiters, Group::Producers);
        wake_all(waiters, Group::RoomListeners);
    } else if stock.items < stock.bound {
        wake_enough(waiters, 1, Group::Producers);
        wake_room_listeners(waiters, stock.bound - stock.items);
    }
}

// Whether nothing comes any more for which anybody could wait.
fn is_over(stock: Stock) -> bool
    ensures { result ≡ is_over stock }
{
    stock.is_spent || (stock.is_shut && stock.first.is_none())
}

/// Wakes those who can go on.
pub(crate) fn settle_all(waiters: &mut [Waiter], stock: Stock)
    ensures { waiters.new ≡ settled stock waiters.old }
{
    if is_over(stock) {
        wake_all(waiters, Group::Everybody);
        return;
    }
    if let Some(first) = stock.first {
        settle_for_items(waiters, stock.items, first);
    }
    settle_for_room(waiters, stock);
}
