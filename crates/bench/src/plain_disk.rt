//! A disk in memory that keeps no record of its calls. Nothing is claimed of its bytes.
ghost use Rattle.std.specs.Prelude.{◌≡◌, ◌≢◌, [], false};
ghost use Rattle.std.proofs.lemmas.Bool.{false≢true};
ghost use Rattle.disk.specs.File.{settled};
ghost use Rattle.disk.specs.Time.{HasCause, CountsRefusal};

use disk::{Disk, DiskError, Side};
use std::alloc::Global;

#[derive(Drop)]
pub(crate) struct PlainDisk {
    a: Vec<u8>,
    b: Vec<u8>,
    // Changes with each call that is refused.
    refusals: u64,
}

impl PlainDisk {
    /// Two empty files.
    pub(crate) fn new(alloc: Global) -> Self {
        PlainDisk {
            a: Vec::new(alloc),
            b: Vec::new(alloc),
            refusals: 0,
        }
    }

    fn file(&self, side: Side) -> &[u8] {
        match side {
            Side::A => self.a.as_slice(),
            Side::B => self.b.as_slice(),
        }
    }

    // Returns what was done; or counts a refusal, if there was no memory or no such place.
    fn answer<T>(&mut self, done: Option<T>) -> Result<T, DiskError>
        ensures cause { HasCause 0 0 result }
        ensures refused { CountsRefusal self.old.refusals self.new.refusals result }
    {
        match done {
            Some(value) => Ok(value),
            None => {
                self.refusals = self.refusals.wrapping_add(1);
                Err(DiskError::NoMemory)
            }
        }
    }
}

// Copies the bytes from a place on into the buffer.
fn copied(file: &[u8], at: u64, buffer: &mut [u8]) -> Option<()> {
    let from = usize::try_from(at).ok()?;
    let to = from.checked_add(buffer.len())?;
    buffer.copy_from_slice(file.get(from..to)?);
    Some(())
}

// Writes the bytes from a place on, past the end too.
fn written(file: &mut Vec<u8>, at: u64, bytes: &[u8]) -> Option<()> {
    let from = usize::try_from(at).ok()?;
    let to = from.checked_add(bytes.len())?;
    if file.len() < to {
        file.resize(to, 0).ok()?;
    }
    file.as_mut_slice()
        .get_mut(from..to)?
        .copy_from_slice(bytes);
    Some(())
}

impl Disk for PlainDisk {
    ghost is_honest = { false };

    ghost files = { λ _ _. record { content = []; durable = settled [] } };

    ghost moment = { λ _. 0 };

    ghost left_at = { λ _ _ _. ⊥ };

    ghost failures = { λ _. 0 };

    ghost refusals = { λ disk. disk.refusals };

    ghost at_now = { λ honest. absurd (false≢true honest) };

    ghost reads_left = { λ honest. absurd (false≢true honest) };

    fn len(&mut self, side: Side) -> Result<u64, DiskError> {
        let count = self.file(side).len() as u64;
        self.answer(Some(count))
    }

    fn read(&mut self, side: Side, at: u64, buffer: &mut [u8]) -> Result<(), DiskError> {
        let done = copied(self.file(side), at, buffer);
        self.answer(done)
    }

    fn write_at(&mut self, side: Side, at: u64, bytes: &[u8]) -> Result<(), DiskError> {
        let done = match side {
            Side::A => written(&mut self.a, at, bytes),
            Side::B => written(&mut self.b, at, bytes),
        };
        self.answer(done)
    }

    fn cut(&mut self, side: Side, count: u64) -> Result<(), DiskError> {
        if let Ok(count) = usize::try_from(count) {
            match side {
                Side::A => self.a.truncate(count),
                Side::B => self.b.truncate(count),
            }
        }
        Ok(())
    }

    fn sync(&mut self, _side: Side) -> Result<(), DiskError> {
        Ok(())
    }
}
