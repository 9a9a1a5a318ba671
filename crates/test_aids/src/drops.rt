// A value whose drops are counted.
use std::cell::Cell;

/// A value that adds one to the count of its drops when it goes. A struct that holds one tells by
/// it when it is dropped.
pub struct Counted<'a> {
    drops: &'a Cell<u32>,
}

impl<'a> Counted<'a> {
    /// A value whose drop is counted here.
    pub fn new(drops: &'a Cell<u32>) -> Counted<'a> {
        Counted { drops }
    }
}

impl Drop for Counted<'_> {
    fn drop(self) {
        let Self { drops } = self;
        drops.set(drops.get().saturating_add(1));
    }
}
