//! A disk that is not honest.
ghost use Rattle.std.specs.Prelude.{◌≡◌, ◌<◌, [], false, IsErr};
ghost use Rattle.std.proofs.lemmas.Bool.{false≢true};
ghost use Rattle.disk.specs.File.{settled};
ghost use Rattle.disk.specs.Time.{HasCause, CountsRefusal};

use crate::contents::{give, written};
use disk::{Disk, DiskError, Side};
use std::alloc::Global;

// How a call is answered.
#[derive(Clone, Copy, Debug, PartialEq, Eq)]
enum Mood {
    Honest,
    Lying,
    Failing,
}

/// A disk in memory that tells other lengths and gives other bytes than it has, and drops writes, cuts and syncs. Some of its
/// calls fail. Which they are, a seed says. It may hide its errors: then it answers such a call like another one, and counts it.
pub(crate) struct LyingDisk {
    a: Vec<u8>,
    b: Vec<u8>,
    // Of this number of calls, about one is not answered honestly.
    rarity: u64,
    // What the next choice is made by.
    state: u64,
    hides: bool,
    hidden: u64,
    failures: u64,
    // Changes with each call that returns `NoMemory`.
    refusals: u64,
}

impl Drop for LyingDisk {
    fn drop(self) {
        let LyingDisk {
            a: _,
            b: _,
            rarity: _,
            state: _,
            hides: _,
            hidden: _,
            failures: _,
            refusals: _,
        } = self;
    }
}

impl LyingDisk {
    /// Two empty files, and the lies of this seed: each seed has others, some many and some few.
    pub(crate) fn new(alloc: Global, seed: u64, hides: bool) -> Self {
        LyingDisk {
            a: Vec::new(alloc),
            b: Vec::new(alloc),
            rarity: (seed % 40).saturating_add(2),
            state: turned(seed),
            hides,
            hidden: 0,
            failures: 0,
            refusals: 0,
        }
    }

    /// How many calls failed so far, of the device or for memory.
    pub(crate) fn errors(&self) -> u64 {
        self.hidden
            .saturating_add(self.failures)
            .saturating_add(self.refusals)
    }

    // A number from the seed.
    fn draw(&mut self) -> u64
        ensures failures { self.new.failures ≡ self.old.failures }
        ensures refusals { self.new.refusals ≡ self.old.refusals }
    {
        self.state = turned(self.state);
        self.state >> 20
    }

    // How the next call is answered.
    fn mood(&mut self) -> Mood
        ensures failures { self.new.failures ≡ self.old.failures }
        ensures refusals { self.new.refusals ≡ self.old.refusals }
    {
        let drawn = self.draw();
        if self.rarity > 0 && drawn % self.rarity > 0 {
            return Mood::Honest;
        }
        if drawn % 3 > 0 {
            return Mood::Lying;
        }
        if self.hides {
            self.hidden = self.hidden.saturating_add(1);
            return Mood::Lying;
        }
        Mood::Failing
    }

    fn file(&self, side: Side) -> &[u8] {
        match side {
            Side::A => self.a.as_slice(),
            Side::B => self.b.as_slice(),
        }
    }

    // Leaves at most this number of bytes of a file.
    fn shorten(&mut self, side: Side, count: u64)
        ensures failures { self.new.failures ≡ self.old.failures }
        ensures refusals { self.new.refusals ≡ self.old.refusals }
    {
        let count = usize::try_from(count).unwrap_or(usize::MAX);
        match side {
            Side::A => self.a.truncate(count),
            Side::B => self.b.truncate(count),
        }
    }

    // A failure of the device.
    fn fail<T>(&mut self) -> Result<T, DiskError>
        ensures cause { HasCause self.old.failures self.new.failures result }
        ensures refused { CountsRefusal self.old.refusals self.new.refusals result }
    {
        match self.failures.checked_add(1) {
            Some(more) => {
                self.failures = more;
                Err(DiskError::Device)
            }
            None => self.refuse(),
        }
    }

    fn refuse<T>(&mut self) -> Result<T, DiskError>
        ensures cause { HasCause self.old.failures self.new.failures result }
        ensures refused { CountsRefusal self.old.refusals self.new.refusals result }
    {
        self.refusals = self.refusals.wrapping_add(1);
        Err(DiskError::NoMemory)
    }

    // Returns what was done; or a refusal, if there was no memory.
    fn answer<T>(&mut self, done: Option<T>) -> Result<T, DiskError>
        ensures cause { HasCause self.old.failures self.new.failures result }
        ensures refused { CountsRefusal self.old.refusals self.new.refusals result }
    {
        match done {
            Some(value) => Ok(value),
            None => self.refuse(),
        }
    }
}

// The number after this one.
fn turned(state: u64) -> u64 {
    state
        .wrapping_mul(6_364_136_223_846_793_005)
        .wrapping_add(1_442_695_040_888_963_407)
}

// A length in place of this one.
fn other_length(drawn: u64, count: u64) -> u64 {
    match drawn % 8 {
        0 => 0,
        1 => 1,
        2 => count.saturating_add(1),
        3 => count.saturating_sub(1),
        4 => u64::MAX,
        5 => 1 << 62,
        _ => drawn % 1000,
    }
}

// Fills the buffer with bytes from the seed.
fn invent(drawn: u64, buffer: &mut [u8]) {
    let mut state = drawn;
    for byte in buffer.iter_mut() {
        state = turned(state);
        *byte = ((state >> 40) % 256) as u8;
    }
}

// How many bytes a file has, at most.
const MOST: usize = 1 << 20;

impl Disk for LyingDisk {
    ghost is_honest = { false };

    ghost files = { λ _ _. record { content = []; durable = settled [] } };

    ghost moment = { λ _. 0 };

    ghost left_at = { λ _ _ _. ⊥ };

    ghost failures = { λ disk. disk.failures };

    ghost refusals = { λ disk. disk.refusals };

    ghost at_now = { λ honest. absurd (false≢true honest) };

    ghost reads_left = { λ honest. absurd (false≢true honest) };

    fn len(&mut self, side: Side) -> Result<u64, DiskError> {
        let count = self.file(side).len() as u64;
        match self.mood() {
            Mood::Failing => self.fail(),
            Mood::Lying => Ok(other_length(self.draw(), count)),
            Mood::Honest => Ok(count),
        }
    }

    fn read(&mut self, side: Side, at: u64, buffer: &mut [u8]) -> Result<(), DiskError> {
        match self.mood() {
            Mood::Failing => self.fail(),
            Mood::Lying => {
                invent(self.draw(), buffer);
                Ok(())
            }
            Mood::Honest => {
                give(self.file(side), at, buffer);
                Ok(())
            }
        }
    }

    fn write_at(&mut self, side: Side, at: u64, bytes: &[u8]) -> Result<(), DiskError> {
        match self.mood() {
            Mood::Failing => self.fail(),
            Mood::Lying => Ok(()),
            Mood::Honest => {
                let done = match side {
                    Side::A => written(&mut self.a, at, bytes, MOST),
                    Side::B => written(&mut self.b, at, bytes, MOST),
                };
                self.answer(done)
            }
        }
    }

    fn cut(&mut self, side: Side, count: u64) -> Result<(), DiskError> {
        match self.mood() {
            Mood::Failing => self.fail(),
            Mood::Lying => Ok(()),
            Mood::Honest => {
                self.shorten(side, count);
                Ok(())
            }
        }
    }

    fn sync(&mut self, _side: Side) -> Result<(), DiskError> {
        match self.mood() {
            Mood::Failing => self.fail(),
            Mood::Lying | Mood::Honest => Ok(()),
        }
    }
}
