//! A disk that keeps only the front of each file.
ghost use Rattle.std.specs.Prelude.{◌≡◌, [], false};
ghost use Rattle.std.proofs.lemmas.Bool.{false≢true};
ghost use Rattle.disk.specs.File.{settled};
ghost use Rattle.disk.specs.Time.{HasCause, CountsRefusal};

use crate::contents::{give, written};
use disk::{Disk, DiskError, Side};

/// A disk in memory that keeps the first bytes of each file, and of the others only how many there are: they are read as zeros. So a store
/// may grow on it up to its limit; but it is not to be opened again then.
pub(crate) struct FrontDisk {
    a: Front,
    b: Front,
    // Changes with each call that is refused.
    refusals: u64,
}

impl Drop for FrontDisk {
    fn drop(self) {
        let FrontDisk {
            a: _,
            b: _,
            refusals: _,
        } = self;
    }
}

// A file: what is kept of it, and how long it is.
#[derive(Drop)]
struct Front {
    kept: Vec<u8>,
    length: u64,
}

// How many bytes of a file are kept, at most.
const KEPT: usize = 1 << 16;

impl Front {
    fn new(bytes: Vec<u8>) -> Front {
        let length = bytes.len() as u64;
        Front {
            kept: bytes,
            length,
        }
    }

    // Keeps those of the bytes that stand in the front. It is `None` where there is no memory for them, or no such place.
    fn write(&mut self, at: u64, bytes: &[u8]) -> Option<()> {
        let end = at.checked_add(bytes.len() as u64)?;
        let from = usize::try_from(at).ok()?;
        if from < KEPT {
            let (front, _) = bytes.split_at(bytes.len().min(KEPT - from));
            written(&mut self.kept, at, front, KEPT)?;
        }
        self.length = self.length.max(end);
        Some(())
    }

    fn cut(&mut self, count: u64) {
        self.kept
            .truncate(usize::try_from(count).unwrap_or(usize::MAX));
        self.length = self.length.min(count);
    }
}

impl FrontDisk {
    /// Two files that begin with these bytes.
    pub(crate) fn new(a: Vec<u8>, b: Vec<u8>) -> Self {
        FrontDisk {
            a: Front::new(a),
            b: Front::new(b),
            refusals: 0,
        }
    }

    fn file(&self, side: Side) -> &Front {
        match side {
            Side::A => &self.a,
            Side::B => &self.b,
        }
    }

    // Returns what was done; or counts a refusal, if nothing was.
    fn answer(&mut self, done: Option<()>) -> Result<(), DiskError>
        ensures cause { HasCause 0 0 result }
        ensures refused { CountsRefusal self.old.refusals self.new.refusals result }
    {
        match done {
            Some(()) => Ok(()),
            None => {
                self.refusals = self.refusals.wrapping_add(1);
                Err(DiskError::NoMemory)
            }
        }
    }
}

impl Disk for FrontDisk {
    ghost is_honest = { false };

    ghost files = { λ _ _. record { content = []; durable = settled [] } };

    ghost moment = { λ _. 0 };

    ghost left_at = { λ _ _ _. ⊥ };

    ghost failures = { λ _. 0 };

    ghost refusals = { λ disk. disk.refusals };

    ghost at_now = { λ honest. absurd (false≢true honest) };

    ghost reads_left = { λ honest. absurd (false≢true honest) };

    fn len(&mut self, side: Side) -> Result<u64, DiskError> {
        Ok(self.file(side).length)
    }

    fn read(&mut self, side: Side, at: u64, buffer: &mut [u8]) -> Result<(), DiskError> {
        give(&self.file(side).kept, at, buffer);
        Ok(())
    }

    fn write_at(&mut self, side: Side, at: u64, bytes: &[u8]) -> Result<(), DiskError> {
        let done = match side {
            Side::A => self.a.write(at, bytes),
            Side::B => self.b.write(at, bytes),
        };
        self.answer(done)
    }

    fn cut(&mut self, side: Side, count: u64) -> Result<(), DiskError> {
        match side {
            Side::A => self.a.cut(count),
            Side::B => self.b.cut(count),
        }
        Ok(())
    }

    fn sync(&mut self, _side: Side) -> Result<(), DiskError> {
        Ok(())
    }
}
