//! What is seen of a hub's work without its lock.
use std::sync::Wait;
use std::sync::atomic::{AtomicU64, AtomicUsize, Ordering};
use std::time::Duration;

// No worker leads.
const NOBODY: u64 = 0;

/// How many instances were ready and how many ran when the lock was last left, how many batches were committed so far, and which worker leads. Whoever shares out the work looks
/// at it; no clause rests on it.
#[derive(Drop)]
pub(crate) struct Glance {
    ready: AtomicUsize,
    running: AtomicUsize,
    batches: AtomicUsize,
    // The number of the worker that leads, and 1 more; or `NOBODY`.
    lead: AtomicU64,
}

impl Glance {
    /// That of a hub in which no instance runs.
    pub(crate) fn new(ready: usize) -> Glance {
        Glance {
            ready: AtomicUsize::new(ready),
            running: AtomicUsize::new(0),
            batches: AtomicUsize::new(0),
            lead: AtomicU64::new(NOBODY),
        }
    }

    /// Notes how many instances are ready and how many run. A number that is the same is not written, so that those who look need not load it again.
    pub(crate) fn note(&self, ready: usize, running: usize) {
        if self.ready() != ready {
            self.ready.store(ready, Ordering::SeqCst);
        }
        if self.running() != running {
            self.running.store(running, Ordering::SeqCst);
        }
    }

    /// Notes that one batch more was committed.
    pub(crate) fn note_batch(&self) {
        self.batches.fetch_add(1, Ordering::SeqCst);
    }

    pub(crate) fn ready(&self) -> usize {
        self.ready.load(Ordering::SeqCst)
    }

    pub(crate) fn running(&self) -> usize {
        self.running.load(Ordering::SeqCst)
    }

    pub(crate) fn batches(&self) -> usize {
        self.batches.load(Ordering::SeqCst)
    }

    /// Lets the worker with this number lead, unless one leads. Says whether it does now.
    pub(crate) fn lead(&self, number: usize) -> bool {
        let own = word_of(number);
        let now = self.lead.load(Ordering::SeqCst);
        if now != NOBODY {
            return now == own;
        }
        self.lead
            .compare_exchange(NOBODY, own, Ordering::SeqCst, Ordering::SeqCst)
            .is_ok()
    }

    /// Lets the worker with this number lead, and no other.
    pub(crate) fn take_lead(&self, number: usize) {
        self.lead.store(word_of(number), Ordering::SeqCst);
    }

    /// If the worker with this number leads, none does from now on, and those that sleep meanwhile are woken.
    pub(crate) fn end_lead(&self, number: usize) {
        let own = word_of(number);
        if self.lead.load(Ordering::SeqCst) != own {
            return;
        }
        let ended = self
            .lead
            .compare_exchange(own, NOBODY, Ordering::SeqCst, Ordering::SeqCst);
        if ended.is_ok() {
            self.lead.wake_all();
        }
    }

    /// Sleeps until no worker leads, or for this many milliseconds. If none leads now, it returns at once.
    pub(crate) fn nap<R: Wait>(&self, rt: &R, millis: u64) {
        let now = self.lead.load(Ordering::SeqCst);
        if now != NOBODY {
            self.sleep(rt, now, millis);
        }
    }

    /// Sleeps until the lead changes or all are woken, or for this many milliseconds.
    pub(crate) fn rest<R: Wait>(&self, rt: &R, millis: u64) {
        self.sleep(rt, self.lead.load(Ordering::SeqCst), millis);
    }

    // Sleeps so, unless another worker leads than `now` says.
    fn sleep<R: Wait>(&self, rt: &R, now: u64, millis: u64) {
        self.lead.park_timeout(
            rt,
            (now & 0xffff_ffff) as u32,
            Duration::from_millis(millis),
        );
    }

    /// Wakes all that sleep.
    pub(crate) fn wake(&self) {
        self.lead.wake_all();
    }
}

// The word that says that the worker with this number leads.
fn word_of(number: usize) -> u64 {
    (number as u64).saturating_add(1)
}
