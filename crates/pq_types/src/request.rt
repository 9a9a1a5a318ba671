// What is asked of the queue.
use crate::item::Item;

/// A request to the queue.
#[derive(Clone, Copy, Debug, PartialEq, Eq)]
pub enum Request<I = Item> {
    /// Put this item in.
    Push(I),
    /// Take the first item out: of those with the least priority the one pushed first.
    Pop,
    /// Tell that item and leave it where it is.
    Least,
}
