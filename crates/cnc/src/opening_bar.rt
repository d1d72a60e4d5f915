//! How much of a store is read, shown on a terminal while it is opened.
ghost use Rattle.std.specs.Prelude.{◌≡◌, ◌≤◌, ◌+◌, [], false, length, take, drop, IsTrue, OnOk};
ghost use Rattle.std.proofs.lemmas.Bool.{false≢true};
ghost use Rattle.disk.specs.declared.side.Side.{Side};
ghost use Rattle.disk.specs.File.{settled};
ghost use Rattle.disk.specs.Time.{HasCause, CountsRefusal};

use crate::Refusing;
use crate::progress::milliseconds_since;
use disk::{Disk, DiskError, FileDisk, Side};
use std::alloc::AllocError;
use std::io::{self, Eprint};
use std::sync::Arc;
use std::sync::atomic::{AtomicU64, Ordering};
use std::time::Instant;

// A read of fewer bytes is one call, without a look at the clock.
const LONG: usize = 8 << 20;

// How many bytes of a longer one are read between two looks at the clock.
const PIECE: usize = 4 << 20;

// What is read of so long a file takes a moment to be taken into memory, however fast it was read.
const LONGEST: usize = 32 << 20;

// After how many milliseconds something is shown, and how many pass between two looks of it.
const FIRST: u64 = 300;

const BETWEEN: u64 = 100;

/// Shows on a terminal how much of a file is read.
#[derive(Drop)]
pub(crate) struct Bar {
    rt: HostRuntime,
    // As that of `Telling`. A call that passes a disk with a reference on is not covered by the checker, so this is none.
    shown: Arc<AtomicU64>,
}

impl Bar {
    /// It comes with the word for whether a progress stands on the screen, for all that shows or clears one.
    pub(crate) fn new(rt: HostRuntime) -> Result<(Self, Arc<AtomicU64>), AllocError> {
        let shown = Arc::new(rt.alloc(), AtomicU64::new(0))?;
        let bar = Bar {
            rt,
            shown: Arc::try_clone(&shown)?,
        };
        Ok((bar, shown))
    }

    // Says how much of a file is read, if it is time to, and returns when it is time again, in milliseconds since it was begun.
    fn tell_in_time(&self, begun: &Option<Instant>, next: u64, read: usize, all: usize) -> u64 {
        let now = milliseconds_since(&self.rt, begun);
        if now < next {
            return next;
        }
        self.tell(read, all);
        now.saturating_add(BETWEEN)
    }

    // Says how much of a file is read.
    fn tell(&self, read: usize, all: usize) {
        let read = read / 1_000_000;
        let all = all / 1_000_000;
        let _ = eprint!(self.rt; "\ropening: {read} of {all} MB\u{1b}[K");
        self.shown.store(1, Ordering::Relaxed);
    }
}

/// Two real files. On a terminal a long read is made piece by piece, and shows how much is read.
///
/// As of all real files, nothing is claimed about bytes; `read_shown` says what an honest disk would give.
pub(crate) struct Opening {
    disk: FileDisk,
    bar: Option<Bar>,
}

impl Drop for Opening {
    fn drop(self) {
        let Opening { disk: _, bar: _ } = self;
    }
}

impl Opening {
    /// These files, with nothing shown.
    pub(crate) fn new(disk: FileDisk) -> Self {
        Opening { disk, bar: None }
    }
}

impl Refusing for Opening {
    fn refused_for(&self) -> Option<io::Error> {
        self.disk.cause()
    }

    fn show(&mut self, bar: Bar) {
        self.bar = Some(bar);
    }
}

// Reads what one call of the disk reads, piece by piece, and shows how much is read.
fn read_shown<D: Disk>(
    disk: &mut D,
    bar: &Bar,
    side: Side,
    at: u64,
    buffer: &mut [u8],
) -> Result<(), DiskError>
    requires { IsTrue D.is_honest → at + length buffer.old ≤ length (D.files disk.old side).content }
    ensures value { IsTrue D.is_honest → OnOk result (buffer.new ≡ take (length buffer.old) (drop at (D.files disk.old side).content)) }
    ensures same { IsTrue D.is_honest → (each : Side) → D.files disk.new each ≡ D.files disk.old each }
    ensures cause { HasCause (D.failures disk.old) (D.failures disk.new) result }
    ensures refused { CountsRefusal (D.refusals disk.old) (D.refusals disk.new) result }
{
    let all = buffer.len();
    if at.checked_add(all as u64).is_none() {
        return disk.read(side, at, buffer);
    }
    let begun = Instant::now(&bar.rt).ok();
    let mut read = 0;
    let mut next = FIRST;
    while read < all {
        let end = read + PIECE.min(all - read);
        disk.read(side, at + read as u64, &mut buffer[read..end])?;
        read = end;
        next = bar.tell_in_time(&begun, next, read, all);
    }
    if next > FIRST || all >= LONGEST {
        bar.tell(all, all);
    }
    Ok(())
}

impl Disk for Opening {
    ghost is_honest = { false };

    ghost files = { λ _ _. record { content = []; durable = settled [] } };

    ghost moment = { λ _. 0 };

    ghost left_at = { λ _ _ _. ⊥ };

    ghost failures = { λ opening. ⟦<FileDisk as Disk>⟧.failures opening.disk };

    ghost refusals = { λ opening. ⟦<FileDisk as Disk>⟧.refusals opening.disk };

    ghost at_now = { λ honest. absurd (false≢true honest) };

    ghost reads_left = { λ honest. absurd (false≢true honest) };

    fn len(&mut self, side: Side) -> Result<u64, DiskError> {
        self.disk.len(side)
    }

    fn read(&mut self, side: Side, at: u64, buffer: &mut [u8]) -> Result<(), DiskError> {
        match &self.bar {
            Some(bar) if buffer.len() >= LONG => read_shown(&mut self.disk, bar, side, at, buffer),
            _ => self.disk.read(side, at, buffer),
        }
    }

    fn write_at(&mut self, side: Side, at: u64, bytes: &[u8]) -> Result<(), DiskError> {
        self.disk.write_at(side, at, bytes)
    }

    fn cut(&mut self, side: Side, count: u64) -> Result<(), DiskError> {
        self.disk.cut(side, count)
    }

    fn sync(&mut self, side: Side) -> Result<(), DiskError> {
        self.disk.sync(side)
    }
}
