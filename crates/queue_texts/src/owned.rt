// A value in a struct of its own.

/// A value in a struct of its own, by which whatever has it is dropped. A player that has a Book as a field by
/// itself has a drop that the borrow checker doesn't cover.
#[derive(Drop)]
pub struct Owned<T> {
    pub value: T,
}
