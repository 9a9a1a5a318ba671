// A hint that somebody has posted since others were last served.
ghost use Rattle.std.specs.Prelude.{◌≡◌, false};
ghost use Rattle.announce_board.specs.Tokens.{is_idle};

use crate::member::Member;
use leftist_heap::Store;
use pq_book::Entry;
use pq_types::Part;
use std::sync::atomic::{AtomicBool, Ordering};

/// Says that somebody may have posted since others were last served. No clause says what it says: where it
/// is wrong, one who carries its own request out sweeps in vain, or leaves a post to the rounds of those who
/// wait. That it is set behind a post and cleared before a scan is in the types of its calls: so whoever finds
/// it clear under the lock has no post left behind it whose member has gone on since. The end that a take tells rests
/// on that. It has a cache line of its own, and each change loads it first, so that this line moves seldom.
#[derive(Drop)]
#[repr(C)]
pub struct PostHint {
    before: [u64; 8],
    posted: AtomicBool,
    after: [u64; 8],
}

/// What one load of a hint gave. There is no other way to one than `PostHint::read`.
#[derive(Drop)]
pub(crate) struct HintRead {
    posted: bool,
}

impl HintRead {
    /// Whether somebody may have posted.
    pub(crate) fn is_set(&self) -> bool
        ensures { result ≡ self.now.posted }
    {
        self.posted
    }
}

/// That a hint was cleared: a sweep begins its scan with one. There is no other way to one than `PostHint::clear`.
#[derive(Drop)]
pub struct Cleared(());

impl PostHint {
    /// A hint that is clear.
    pub(crate) fn new() -> PostHint {
        PostHint {
            before: [0; 8],
            posted: AtomicBool::new(false),
            after: [0; 8],
        }
    }

    /// Whether somebody may have posted.
    pub fn is_set(&self) -> bool {
        self.posted.load(Ordering::SeqCst)
    }

    /// Reads it once.
    pub(crate) fn read(&self) -> HintRead {
        HintRead {
            posted: self.is_set(),
        }
    }

    /// This member has posted, and waits for its answer.
    pub fn set<S: Store<Entry<P>>, P: Part>(&self, _poster: &Member<S, P>)
        requires waits { is_idle _poster.now.pen.standing ≡ false }
    {
        if !self.is_set() {
            self.posted.store(true, Ordering::SeqCst);
        }
    }

    /// All who have posted are to be served, by a scan that begins behind this.
    pub fn clear(&self) -> Cleared {
        if self.is_set() {
            self.posted.store(false, Ordering::SeqCst);
        }
        Cleared(())
    }
}
