//! A disk that makes the program over it a wrong one: the trials must find that.
ghost use Rattle.std.specs.Prelude.{◌≡◌, ◌≤◌, ◌+◌, [], false};
ghost use Rattle.std.proofs.lemmas.Bool.{false≢true};
ghost use Rattle.disk.specs.File.{settled};
ghost use Rattle.disk.specs.Time.{HasCause, CountsRefusal};

use crate::lengths::measured;
use crate::streams::Countdown;
use disk::{Disk, DiskError, MemDisk, Side};

/// What is wrong.
#[derive(Clone, Copy, Debug, PartialEq, Eq)]
pub(crate) enum Wrong {
    /// A call that fails is tried again: so the program goes on after a failure.
    Retries,
    /// No sync is made from this one on: so the program says that something is on the disk that is not.
    Forgets,
    /// Each call is refused memory: so the program always gives up.
    GivesUp,
}

/// A disk in memory, of which each call is right but for that.
pub(crate) struct WrongDisk {
    disk: MemDisk,
    wrong: Wrong,
    count: Countdown,
    // Changes with each call that returns `NoMemory`.
    refusals: u64,
}

impl Drop for WrongDisk {
    fn drop(self) {
        let WrongDisk {
            disk: _,
            wrong: _,
            count: _,
            refusals: _,
        } = self;
    }
}

impl WrongDisk {
    /// What is wrong comes at this call, counted from 1.
    pub(crate) fn new(disk: MemDisk, wrong: Wrong, number: u64) -> Self {
        let mut disk = disk;
        if wrong == Wrong::Retries {
            disk.fail_call(number);
        }
        WrongDisk {
            disk,
            wrong,
            count: Countdown::new(number),
            refusals: 0,
        }
    }

    /// Whether it has come.
    pub(crate) fn has_come(&self) -> bool {
        self.wrong != Wrong::GivesUp && self.count.has_failed()
    }

    /// The disk below.
    pub(crate) fn into_disk(self) -> MemDisk {
        let WrongDisk {
            disk,
            wrong: _,
            count: _,
            refusals: _,
        } = self;
        disk
    }

    // Whether the next sync is left out.
    fn forgets(&mut self) -> bool
        ensures { self.new.refusals ≡ self.old.refusals }
    {
        self.wrong == Wrong::Forgets && (self.count.falls() || self.count.has_failed())
    }

    // Counts a call that is tried again if it fails.
    fn retries(&mut self)
        ensures { self.new.refusals ≡ self.old.refusals }
    {
        if self.wrong == Wrong::Retries {
            let _ = self.count.falls();
        }
    }

    // Returns what was done; or counts a refusal, if nothing was, or if all is refused.
    fn answer<T: Drop>(&mut self, done: Option<T>) -> Result<T, DiskError>
        ensures cause { HasCause 0 0 result }
        ensures refused { CountsRefusal self.old.refusals self.new.refusals result }
    {
        match done {
            Some(value) if self.wrong != Wrong::GivesUp => Ok(value),
            _ => {
                self.refusals = self.refusals.wrapping_add(1);
                Err(DiskError::NoMemory)
            }
        }
    }
}

// Reads once, if there are as many bytes.
fn read_once(disk: &mut MemDisk, side: Side, at: u64, buffer: &mut [u8]) -> Option<()> {
    let count = measured(disk, side)?;
    let end = at.checked_add(buffer.len() as u64)?;
    if end > count {
        return None;
    }
    disk.read(side, at, buffer).ok()
}

// Writes once, if the file reaches to that place.
fn write_once(disk: &mut MemDisk, side: Side, at: u64, bytes: &[u8]) -> Option<()> {
    if at > measured(disk, side)? {
        return None;
    }
    disk.write_at(side, at, bytes).ok()
}

// Cuts once, if there are as many bytes.
fn cut_once(disk: &mut MemDisk, side: Side, count: u64) -> Option<()> {
    if count > measured(disk, side)? {
        return None;
    }
    disk.cut(side, count).ok()
}

impl Disk for WrongDisk {
    ghost is_honest = { false };

    ghost files = { λ _ _. record { content = []; durable = settled [] } };

    ghost moment = { λ _. 0 };

    ghost left_at = { λ _ _ _. ⊥ };

    ghost failures = { λ _. 0 };

    ghost refusals = { λ disk. disk.refusals };

    ghost at_now = { λ honest. absurd (false≢true honest) };

    ghost reads_left = { λ honest. absurd (false≢true honest) };

    fn len(&mut self, side: Side) -> Result<u64, DiskError> {
        self.retries();
        let done = measured(&mut self.disk, side);
        self.answer(done)
    }

    fn read(&mut self, side: Side, at: u64, buffer: &mut [u8]) -> Result<(), DiskError> {
        self.retries();
        let done = match read_once(&mut self.disk, side, at, buffer) {
            Some(()) => Some(()),
            None => read_once(&mut self.disk, side, at, buffer),
        };
        self.answer(done)
    }

    fn write_at(&mut self, side: Side, at: u64, bytes: &[u8]) -> Result<(), DiskError> {
        self.retries();
        let done = match write_once(&mut self.disk, side, at, bytes) {
            Some(()) => Some(()),
            None => write_once(&mut self.disk, side, at, bytes),
        };
        self.answer(done)
    }

    fn cut(&mut self, side: Side, count: u64) -> Result<(), DiskError> {
        self.retries();
        let done = match cut_once(&mut self.disk, side, count) {
            Some(()) => Some(()),
            None => cut_once(&mut self.disk, side, count),
        };
        self.answer(done)
    }

    fn sync(&mut self, side: Side) -> Result<(), DiskError> {
        self.retries();
        let done = if self.forgets() {
            Some(())
        } else {
            match self.disk.sync(side) {
                Ok(()) => Some(()),
                Err(_) => self.disk.sync(side).ok(),
            }
        };
        self.answer(done)
    }
}
