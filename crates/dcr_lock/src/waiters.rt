//! How many threads wait for a place, so that a place that nobody waits for is given back without a wake.
use std::sync::atomic::AtomicU64;
use std::sync::atomic::Ordering::SeqCst;

/// How many threads are about to sleep at a place, or sleep there. The rule of the row says nothing of it.
///
/// No wake is lost. Who waits counts itself first, and then sleeps only while the place's word is what it found; who
/// gives the place back stores the word first, and then looks at the count. All four are sequentially consistent. So
/// either the look sees who waits, and wakes; or the look came before the count, the store then came before the sleep,
/// and the word is no longer what was found. If another thread has taken the place in between, the word may be what was
/// found again: but then that thread gives the place back after the sleep began, and its look sees the count.
#[derive(Drop)]
pub(crate) struct Waiters {
    count: AtomicU64,
}

impl Waiters {
    /// Of a place that nobody waits for.
    pub(crate) fn none() -> Waiters {
        Waiters {
            count: AtomicU64::new(0),
        }
    }

    /// One more thread waits.
    pub(crate) fn come(&self) {
        self.count.fetch_add(1, SeqCst);
    }

    /// One thread fewer waits.
    pub(crate) fn go(&self) {
        self.count.fetch_sub(1, SeqCst);
    }

    /// Whether a thread waits.
    pub(crate) fn are_there(&self) -> bool {
        self.count.load(SeqCst) > 0
    }
}
