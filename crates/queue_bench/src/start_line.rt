// Where the workers wait for each other.
use std::sync::Wait;
use std::sync::atomic::{AtomicU64, Ordering};
use std::thread;

/// A start line for so many workers.
#[derive(Drop)]
pub struct StartLine {
    missing: AtomicU64,
}

impl StartLine {
    /// So many workers are to come.
    pub fn new(workers: u32) -> StartLine {
        StartLine {
            missing: AtomicU64::new(u64::from(workers)),
        }
    }

    /// Comes, and waits until all have.
    pub fn wait<R: Wait>(&self, rt: &R) {
        self.missing.fetch_sub(1, Ordering::SeqCst);
        for _ in rt.forever() {
            if self.missing.load(Ordering::SeqCst) == 0 {
                return;
            }
            thread::yield_now();
        }
    }
}
