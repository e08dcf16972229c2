//! The threads that look for a lock.
use std::hint::spin_loop;
use std::sync::atomic::{AtomicU64, Ordering};

/// How often a thread looks whether another has got the lock, before it goes on. It is more than a look of that one takes.
const PATIENCE: u32 = 100;

/// How many threads have looked for a lock that another had, and how many of them look no longer: they have it, or sleep
/// until they get it.
#[derive(Drop)]
pub(crate) struct Waiters {
    came: AtomicU64,
    left: AtomicU64,
}

impl Waiters {
    /// No threads.
    pub(crate) fn new() -> Waiters {
        Waiters {
            came: AtomicU64::new(0),
            left: AtomicU64::new(0),
        }
    }

    /// A thread begins to look.
    pub(crate) fn come(&self) {
        self.came.fetch_add(1, Ordering::SeqCst);
    }

    /// A thread looks no longer.
    pub(crate) fn leave(&self) {
        self.left.fetch_add(1, Ordering::SeqCst);
    }

    /// Waits, a bounded number of times, until one of the threads that look now does so no longer.
    #[inline]
    pub(crate) fn let_one_in(&self) {
        let left = self.left.load(Ordering::SeqCst);
        if self.came.load(Ordering::SeqCst) == left {
            return;
        }
        for _ in 0..PATIENCE {
            if self.left.load(Ordering::SeqCst) != left {
                return;
            }
            spin_loop();
        }
    }
}
