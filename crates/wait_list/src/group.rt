// Waiters whom the same thing concerns.
ghost use Rattle.std.specs.Prelude.{◌≡◌};
ghost use Rattle.wait_list.specs.Waiters.{is_in};

use crate::waiter::Wants;

/// Waiters whom the same thing concerns.
#[derive(Clone, Copy, Debug)]
pub enum Group {
    /// Threads that take any item.
    Threads,
    /// Listeners that could take an item of this priority.
    Listeners(u64),
    /// Listeners that want an item.
    Hearers,
    /// Those of them who saw a first item of this priority or an earlier one when they came.
    HearWatchers(u64),
    /// Those who take what is due.
    Dues,
    /// Those of them who sleep until this priority is due at most.
    Watchers(u64),
    /// The alarms that don't ring by the time when this priority is due.
    LateAlarms(u64),
    /// Threads that want room.
    Producers,
    /// Listeners that want room.
    RoomListeners,
    Everybody,
}

impl Group {
    /// Whether one who wants this is in the group.
    pub fn has(self, wants: Wants) -> bool
        ensures { result ≡ is_in self wants }
    {
        match (self, wants) {
            (Group::Threads, Wants::Any) => true,
            (Group::Listeners(first), Wants::UpTo(bound, _)) => first <= bound,
            (Group::Hearers, Wants::UpTo(_, _)) => true,
            (Group::HearWatchers(first), Wants::UpTo(_, Some(seen))) => seen <= first,
            (Group::Dues, Wants::Due(_)) => true,
            (Group::Watchers(first), Wants::Due(Some(watch))) => watch <= first,
            (Group::LateAlarms(_), Wants::Alarm(None)) => true,
            (Group::LateAlarms(first), Wants::Alarm(Some(armed))) => first < armed,
            (Group::Producers, Wants::Room) => true,
            (Group::RoomListeners, Wants::RoomUp) => true,
            (Group::Everybody, _) => true,
            _ => false,
        }
    }
}
