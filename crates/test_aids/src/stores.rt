// A store whose drop is counted.
ghost use Rattle.std.specs.Prelude.{◌≡◌};

use crate::drops::Counted;
use leftist_heap::{Exact, Store};
use std::cell::Cell;

/// A store that tells when it is dropped, and else does as the one in it.
#[derive(Drop)]
pub struct WatchedStore<'a, S> {
    /// Where the items are.
    pub inner: S,
    drops: Counted<'a>,
}

impl<'a, S> WatchedStore<'a, S> {
    /// This store, whose drop is counted here.
    pub fn new(inner: S, drops: &'a Cell<u32>) -> Self
        ensures { result.inner ≡ inner }
    {
        WatchedStore {
            inner,
            drops: Counted::new(drops),
        }
    }
}

impl<T: Exact, S: Store<T>> Store<T> for WatchedStore<'_, S> {
    ghost content = { λ s. S.content s.inner };

    fn push(&mut self, item: T) -> Result<(), T> {
        self.inner.push(item)
    }

    fn pop(&mut self) -> Option<T> {
        self.inner.pop()
    }

    fn least(&self) -> Option<&T> {
        self.inner.least()
    }

    fn len(&self) -> usize {
        self.inner.len()
    }

    fn is_empty(&self) -> bool {
        self.inner.is_empty()
    }
}
