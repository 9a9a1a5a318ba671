// One that waits.

/// What a waiter wants. Items go by their priorities; the least one is first.
#[derive(Clone, Copy, Debug)]
pub enum Wants {
    /// The first item, whatever it is.
    Any,
    /// The first item, where its priority is at most this, as a listener. When it came the first item had that priority, or
    /// there was none: it comes back by itself when it can take that one.
    UpTo(u64, Option<u64>),
    /// What is due. It sleeps until this priority is due, or for ever.
    Due(Option<u64>),
    /// The same, but it goes by itself: an alarm, which rings when this priority is due, or never.
    Alarm(Option<u64>),
    /// Room for an item.
    Room,
    /// The same, as a listener.
    RoomUp,
}

/// One that waits, or was woken and has not come back.
#[derive(Clone, Copy, Debug)]
pub struct Waiter {
    /// The number that it chose, below 64.
    pub number: u8,
    pub wants: Wants,
    /// Whether a wake for it was handed out.
    pub is_woken: bool,
}

impl Default for Waiter {
    fn default() -> Waiter {
        Waiter {
            number: 0,
            wants: Wants::Any,
            is_woken: false,
        }
    }
}
