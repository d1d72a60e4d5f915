//! A disk that holds one sync until another thread has its results.
use disk::{Disk, DiskError, Side};
use std::sync::Arc;
use std::sync::atomic::{AtomicU64, Ordering};
use std::thread::yield_now;

/// How many times one thread looks for the other, and yields, before it gives up.
const PATIENCE: u32 = 10_000_000;

/// How far two threads are: each word is 0, and then 1.
#[derive(Drop)]
pub(crate) struct Gate {
    // The next sync is to be held.
    armed: AtomicU64,
    // A sync is held.
    held: AtomicU64,
    // The held sync may go on.
    freed: AtomicU64,
    // A thread gave up waiting.
    late: AtomicU64,
}

impl Gate {
    pub(crate) fn new() -> Gate {
        Gate {
            armed: AtomicU64::new(0),
            held: AtomicU64::new(0),
            freed: AtomicU64::new(0),
            late: AtomicU64::new(0),
        }
    }

    /// Holds the next sync.
    pub(crate) fn arm(&self) {
        self.armed.store(1, Ordering::SeqCst);
    }

    /// Waits until a sync is held.
    pub(crate) fn wait_for_sync(&self) {
        self.wait(&self.held);
    }

    /// Lets the sync go on.
    pub(crate) fn free(&self) {
        self.freed.store(1, Ordering::SeqCst);
    }

    /// Whether no thread gave up waiting.
    pub(crate) fn was_in_time(&self) -> bool {
        self.late.load(Ordering::SeqCst) == 0
    }

    // Holds the calling thread, if the gate is armed.
    fn hold(&self) {
        if self.armed.swap(0, Ordering::SeqCst) == 1 {
            self.held.store(1, Ordering::SeqCst);
            self.wait(&self.freed);
        }
    }

    fn wait(&self, word: &AtomicU64) {
        for _ in 0..PATIENCE {
            if word.load(Ordering::SeqCst) == 1 {
                return;
            }
            yield_now();
        }
        self.late.store(1, Ordering::SeqCst);
    }
}

/// A disk with a gate before each sync.
pub(crate) struct HeldDisk<D: Disk> {
    disk: D,
    gate: Arc<Gate>,
}

impl<D: Disk> HeldDisk<D> {
    pub(crate) fn new(disk: D, gate: Arc<Gate>) -> HeldDisk<D> {
        HeldDisk { disk, gate }
    }
}

impl<D: Disk + Drop> Drop for HeldDisk<D> {
    fn drop(self) {
        let HeldDisk { disk: _, gate: _ } = self;
    }
}

impl<D: Disk> Disk for HeldDisk<D> {
    ghost is_honest = { D.is_honest };

    ghost files = { λ held. D.files held.disk };

    ghost moment = { λ held. D.moment held.disk };

    ghost left_at = { λ held. D.left_at held.disk };

    ghost failures = { λ held. D.failures held.disk };

    ghost refusals = { λ held. D.refusals held.disk };

    ghost at_now = { λ honest held. D.at_now honest held.disk };

    ghost reads_left = { λ honest held. D.reads_left honest held.disk };

    fn len(&mut self, side: Side) -> Result<u64, DiskError> {
        self.disk.len(side)
    }

    fn read(&mut self, side: Side, at: u64, buffer: &mut [u8]) -> Result<(), DiskError> {
        self.disk.read(side, at, buffer)
    }

    fn write_at(&mut self, side: Side, at: u64, bytes: &[u8]) -> Result<(), DiskError> {
        self.disk.write_at(side, at, bytes)
    }

    fn cut(&mut self, side: Side, count: u64) -> Result<(), DiskError> {
        self.disk.cut(side, count)
    }

    fn sync(&mut self, side: Side) -> Result<(), DiskError> {
        self.gate.hold();
        self.disk.sync(side)
    }
}
