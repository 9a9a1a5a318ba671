// What the queue has.

/// What those that wait at a queue depend on.
#[derive(Clone, Copy, Debug)]
pub struct Stock {
    /// The priority of the first item, where there is one.
    pub first: Option<u64>,
    /// How many items there are.
    pub items: u64,
    /// How many there may be.
    pub bound: u64,
    /// Whether the queue is shut: no item comes in any more.
    pub is_shut: bool,
    /// Whether the queue can carry out nothing any more, as its journal has no line left.
    pub is_spent: bool,
}
