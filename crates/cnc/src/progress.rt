//! The progress of a run, and of a certificate, shown on a terminal.
use machine::Counts;
use pool::{Answer, Probe};
use std::io::{self, Eprint, Write};
use std::marker::Sync;
use std::sync::atomic::{AtomicU64, Ordering};
use std::time::{Clock, Instant};
use terms::Inst;

// How many instances are run, or verified, between two looks at the clock, at most.
const BETWEEN: u64 = 64;

// If fewer milliseconds pass between two looks, more instances are run before the next.
const SHORT: u64 = 10;

// The milliseconds since a moment; 0 if the clock fails.
pub(crate) fn milliseconds_since<R: Clock>(rt: &R, moment: &Option<Instant>) -> u64 {
    let Some(moment) = moment else {
        return 0;
    };
    match moment.elapsed(rt) {
        Ok(elapsed) => u64::try_from(elapsed.as_millis()).unwrap_or(0),
        Err(_) => 0,
    }
}

/// Clears the progress from the screen, if it stands there.
pub(crate) fn clear<R: Eprint>(rt: &R, shown: &AtomicU64) {
    if shown.swap(0, Ordering::Relaxed) > 0 {
        let _ = eprint!(rt; "\r\u{1b}[K");
    }
}

/// Shows how far a run is: how many of the steps that are prescribed so far are done, the number of workers, and how many
/// instances were run in a second since the first. It prints at most once a second.
#[derive(Drop)]
pub(crate) struct Telling<'a, R> {
    rt: &'a R,
    workers: u8,
    made: Option<Instant>,
    // The milliseconds from `made` to the first instance that ran; before that the greatest number, so that nothing is due.
    first: AtomicU64,
    ran: AtomicU64,
    // The number of the instance at which it looks at the clock next.
    next: AtomicU64,
    // How many instances are run from one look to the next.
    between: AtomicU64,
    // The milliseconds from `made` to the last look.
    looked: AtomicU64,
    // The second of the run in which the progress was printed last.
    told: AtomicU64,
    // Whether the progress stands on the screen: 0 or 1.
    shown: &'a AtomicU64,
}

impl<'a, R: Clock + Eprint> Telling<'a, R> {
    pub(crate) fn new(rt: &'a R, workers: u8, shown: &'a AtomicU64) -> Self {
        Telling {
            rt,
            workers,
            made: Instant::now(rt).ok(),
            first: AtomicU64::new(u64::MAX),
            ran: AtomicU64::new(0),
            next: AtomicU64::new(1),
            between: AtomicU64::new(1),
            looked: AtomicU64::new(0),
            told: AtomicU64::new(0),
            shown,
        }
    }

    // Looks at the clock, and says whether a second has passed since the progress was printed.
    fn is_due(&self, ran: u64) -> bool {
        let now = milliseconds_since(self.rt, &self.made);
        if ran == 1 {
            self.first.store(now, Ordering::Relaxed);
        }
        self.set_next(ran, now);
        let seconds = now.saturating_sub(self.first.load(Ordering::Relaxed)) / 1000;
        self.told.fetch_max(seconds, Ordering::Relaxed) < seconds
    }

    // Chooses at which instance it looks at the clock again.
    fn set_next(&self, ran: u64, now: u64) {
        let passed = now.saturating_sub(self.looked.swap(now, Ordering::Relaxed));
        let before = self.between.load(Ordering::Relaxed);
        let between = if passed < SHORT {
            before.saturating_mul(2).min(BETWEEN)
        } else {
            before.div_ceil(2)
        };
        self.between.store(between, Ordering::Relaxed);
        self.next
            .store(ran.saturating_add(between), Ordering::Relaxed);
    }
}

impl<'a, R: Clock + Eprint + Sync> Probe for Telling<'a, R> {
    ghost use Rattle.std.specs.Prelude.{false};

    ghost may_stop = { false };

    fn enter(&self, _instance: Inst) -> Answer {
        let ran = self.ran.fetch_add(1, Ordering::Relaxed).wrapping_add(1);
        if ran >= self.next.load(Ordering::Relaxed) && self.is_due(ran) {
            Answer::Count
        } else {
            Answer::Go
        }
    }

    fn counted(&self, counts: Counts) {
        let Counts {
            items: _,
            tags: _,
            prescribed,
            done,
        } = counts;
        let workers = self.workers;
        let first = self.first.load(Ordering::Relaxed);
        let passed = self.looked.load(Ordering::Relaxed).saturating_sub(first);
        let rate = self.ran.load(Ordering::Relaxed).saturating_mul(1000) / passed.max(1);
        let _ = eprint!(self.rt;
            "\r{done} of {prescribed} steps done, {workers} at a time, {rate} a second\u{1b}[K"
        );
        self.shown.store(1, Ordering::Relaxed);
    }
}

/// Counts the instances that a certificate has verified, and prints the count at most once a second.
#[derive(Drop)]
pub(crate) struct Certifying<'a, R> {
    rt: &'a R,
    made: Option<Instant>,
    count: u64,
    // The second in which the count was printed last.
    told: u64,
    // As that of `Telling`.
    shown: &'a AtomicU64,
}

impl<'a, R: Clock + Eprint> Certifying<'a, R> {
    pub(crate) fn new(rt: &'a R, shown: &'a AtomicU64) -> Self {
        Certifying {
            rt,
            made: Instant::now(rt).ok(),
            count: 0,
            told: 0,
            shown,
        }
    }

    /// Counts one more, of `done`.
    pub(crate) fn count_one(&mut self, done: u64) {
        self.count = self.count.saturating_add(1);
        if self.count % BETWEEN != 0 {
            return;
        }
        let seconds = milliseconds_since(self.rt, &self.made) / 1000;
        if seconds > self.told {
            self.told = seconds;
            let count = self.count;
            let _ = eprint!(self.rt; "\r{count} of {done} instances verified\u{1b}[K");
            self.shown.store(1, Ordering::Relaxed);
        }
    }

    /// Clears the count from the screen.
    pub(crate) fn clear(&self) {
        clear(self.rt, self.shown);
    }
}

/// An output that clears the progress from the screen before it writes.
#[derive(Drop)]
pub(crate) struct Cleared<'a, R, W> {
    rt: &'a R,
    inner: W,
    shown: &'a AtomicU64,
}

impl<'a, R, W> Cleared<'a, R, W> {
    pub(crate) fn new(rt: &'a R, inner: W, shown: &'a AtomicU64) -> Self {
        Cleared { rt, inner, shown }
    }
}

impl<'a, R: Eprint, W: Write> Write for Cleared<'a, R, W> {
    fn write(&mut self, buf: &[u8]) -> io::Result<usize> {
        clear(self.rt, self.shown);
        self.inner.write(buf)
    }

    fn flush(&mut self) -> io::Result<()> {
        self.inner.flush()
    }
}
