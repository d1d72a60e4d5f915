//! A disk that is refused memory at one of its calls.
ghost use Rattle.std.specs.Prelude.{◌≡◌};
ghost use Rattle.disk.specs.Time.{CountsRefusal};

use crate::streams::Countdown;
use disk::{Disk, DiskError, Side};

/// A disk that returns `NoMemory` at one of its calls, without a call of the disk below. It is as honest as that disk.
pub(crate) struct FallingDisk<D: Disk> {
    disk: D,
    count: Countdown,
    // Changes with each call that returns `NoMemory`.
    refusals: u64,
}

impl<D: Disk + Drop> Drop for FallingDisk<D> {
    fn drop(self) {
        let FallingDisk {
            disk: _,
            count: _,
            refusals: _,
        } = self;
    }
}

impl<D: Disk> FallingDisk<D> {
    ghost use Rattle.std.specs.Prelude.{◌≡◌, ◌≢◌, Err};
    ghost use Rattle.disk.specs.declared.error.DiskError.TheVariants.{NoMemory};

    /// The call with this number is refused memory, counted from 1; 0 for none.
    pub(crate) fn new(disk: D, number: u64) -> Self {
        FallingDisk {
            disk,
            count: Countdown::new(number),
            refusals: 0,
        }
    }

    /// Whether a call was refused memory.
    pub(crate) fn has_fallen(&self) -> bool {
        self.count.has_failed()
    }

    /// The disk below.
    pub(crate) fn into_disk(self) -> D {
        let FallingDisk {
            disk,
            count: _,
            refusals: _,
        } = self;
        disk
    }

    // Counts a call, and returns whether it is to be refused.
    fn falls(&mut self) -> bool
        ensures disk { self.new.disk ≡ self.old.disk }
        ensures refusals { self.new.refusals ≡ self.old.refusals }
    {
        self.count.falls()
    }

    // Counts a refusal, and returns it.
    fn refuse<T>(&mut self) -> Result<T, DiskError>
        ensures refused { result ≡ Err NoMemory }
        ensures counted { self.new.refusals ≢ self.old.refusals }
        ensures disk { self.new.disk ≡ self.old.disk }
    {
        self.refusals = self.refusals.wrapping_add(1);
        Err(DiskError::NoMemory)
    }

    // Returns what the disk below returned, and counts a refusal if it was one.
    fn passed<T>(&mut self, answer: Result<T, DiskError>) -> Result<T, DiskError>
        ensures same { result ≡ answer }
        ensures counted { CountsRefusal self.old.refusals self.new.refusals result }
        ensures disk { self.new.disk ≡ self.old.disk }
    {
        match answer {
            Err(DiskError::NoMemory) => self.refuse(),
            other => other,
        }
    }
}

impl<D: Disk> Disk for FallingDisk<D> {
    ghost is_honest = { D.is_honest };

    ghost files = { λ falling. D.files falling.disk };

    ghost moment = { λ falling. D.moment falling.disk };

    ghost left_at = { λ falling. D.left_at falling.disk };

    ghost failures = { λ falling. D.failures falling.disk };

    ghost refusals = { λ falling. falling.refusals };

    ghost at_now = { λ honest falling. D.at_now honest falling.disk };

    ghost reads_left = { λ honest falling. D.reads_left honest falling.disk };

    fn len(&mut self, side: Side) -> Result<u64, DiskError> {
        if self.falls() {
            return self.refuse();
        }
        let answer = self.disk.len(side);
        self.passed(answer)
    }

    fn read(&mut self, side: Side, at: u64, buffer: &mut [u8]) -> Result<(), DiskError> {
        if self.falls() {
            return self.refuse();
        }
        let answer = self.disk.read(side, at, buffer);
        self.passed(answer)
    }

    fn write_at(&mut self, side: Side, at: u64, bytes: &[u8]) -> Result<(), DiskError> {
        if self.falls() {
            return self.refuse();
        }
        let answer = self.disk.write_at(side, at, bytes);
        self.passed(answer)
    }

    fn cut(&mut self, side: Side, count: u64) -> Result<(), DiskError> {
        if self.falls() {
            return self.refuse();
        }
        let answer = self.disk.cut(side, count);
        self.passed(answer)
    }

    fn sync(&mut self, side: Side) -> Result<(), DiskError> {
        if self.falls() {
            return self.refuse();
        }
        let answer = self.disk.sync(side);
        self.passed(answer)
    }
}
