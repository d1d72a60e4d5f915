ghost use Rattle.std.specs.Prelude.{◌≡◌, ◌+◌, ◌^◌, ◌<◌, ◌↔◌, [], false, vec_len, IsTrue, IfOk, IfErr, IsErr};
ghost use Rattle.std.proofs.lemmas.Bool.{false≢true};
ghost use Rattle.disk.specs.File.{settled};
ghost use Rattle.disk.specs.Time.{HasCause, CountsRefusal};

use crate::refusals::one_more;
use crate::{Disk, DiskError, Side};
use std::alloc::{AllocError, Global};
use std::fs::{File, OpenOptions};
use std::io;
use std::os::unix::fs::FileExt;
use std::path::Path;
use std::rt::Files;

// The greatest position that the system can count.
const GREATEST_POSITION: u64 = i64::MAX as u64;

/// A disk of two real files, `A` and `B` of one directory.
///
/// Nothing is claimed about bytes: it is the user's premise that real files behave as those of an honest disk.
/// A call returns `Device` if the system refuses what it asks, if a read meets the end of its file, or if a range ends
/// past `2 ^ 63 - 1`, the greatest position that the system can count.
/// While the disk lives, it holds an advisory lock on `A`: an exclusive one, or a shared one if it was opened to be read.
pub struct FileDisk {
    a: File,
    b: File,
    // One unit for each failure of the device.
    failures: Vec<()>,
    // Changes with each call that returns `NoMemory`.
    refusals: u64,
    cause: Option<io::Error>,
}

impl Drop for FileDisk {
    // Written by hand, so that dropping a disk is one call everywhere.
    fn drop(self) {
        let FileDisk {
            a: _,
            b: _,
            failures: _,
            refusals: _,
            cause: _,
        } = self;
    }
}

impl FileDisk {
    /// Opens the files `A` and `B` of a directory for reading and writing, and creates missing files, empty.
    /// If one is empty, it syncs the directory. The bytes of an existing file stay as they are.
    ///
    /// It returns `NoMemory` if an allocation is refused, and then nothing was opened or created.
    /// It returns `Device` if the directory is missing, if a call of the system fails, or if a `FileDisk` of this or
    /// another process has the directory open. A file that was created before the failure stays.
    pub fn open<R: Files<File = File>>(
        alloc: Global,
        rt: &R,
        directory: &str,
    ) -> Result<FileDisk, DiskError>
        ensures { IfOk result (λ disk. ⟦<FileDisk as Disk>⟧.failures disk ≡ 0) }
    {
        let failures = no_failures(alloc)?;
        let a = Path::new(directory).join(alloc, "A")?;
        let b = Path::new(directory).join(alloc, "B")?;
        let files = open_both(rt, Path::new(directory), a.as_path(), b.as_path());
        FileDisk::of(failures, files)
    }

    /// Opens the files `A` and `B` of a directory to be read: no file is created, and a call that would change a byte or a
    /// length returns `Device`. The user needs no right to write.
    ///
    /// Several such disks may have the directory open, and no other then. It returns `NoMemory` if an allocation is refused. It returns `Device` if a file is
    /// missing, if a call of the system fails, or if a disk that may write has the directory open.
    pub fn open_to_read<R: Files<File = File>>(
        alloc: Global,
        rt: &R,
        directory: &str,
    ) -> Result<FileDisk, DiskError>
        ensures { IfOk result (λ disk. ⟦<FileDisk as Disk>⟧.failures disk ≡ 0) }
    {
        let failures = no_failures(alloc)?;
        let a = Path::new(directory).join(alloc, "A")?;
        let b = Path::new(directory).join(alloc, "B")?;
        let files = open_both_to_read(rt, a.as_path(), b.as_path());
        FileDisk::of(failures, files)
    }

    // The disk of two files, if they were opened.
    fn of(failures: Vec<()>, files: io::Result<(File, File)>) -> Result<FileDisk, DiskError>
        ensures { IfOk result (λ disk. vec_len disk.failures ≡ vec_len failures) }
    {
        match files {
            Ok((a, b)) => Ok(FileDisk {
                a,
                b,
                failures,
                refusals: 0,
                cause: None,
            }),
            Err(_) => Err(DiskError::Device),
        }
    }

    /// What the system returned for the last call that it refused, if it has refused one.
    pub fn cause(&self) -> Option<io::Error> {
        self.cause
    }

    fn file(&self, side: Side) -> &File {
        match side {
            Side::A => &self.a,
            Side::B => &self.b,
        }
    }

    /// Counts a failure of the device and returns `Device`. If that count cannot grow, it counts a refusal and returns
    /// `NoMemory`.
    fn fail<T>(&mut self) -> Result<T, DiskError>
        ensures cause { HasCause (vec_len self.old.failures) (vec_len self.new.failures) result }
        ensures refused { CountsRefusal self.old.refusals self.new.refusals result }
        ensures fails { IsErr result }
    {
        match self.failures.push(()) {
            Ok(()) => Err(DiskError::Device),
            Err(_) => {
                self.refusals = one_more(self.refusals);
                Err(DiskError::NoMemory)
            }
        }
    }

    /// Returns what the system returned, and counts and keeps a failure if there was one.
    fn outcome<T: Drop>(&mut self, answer: io::Result<T>) -> Result<T, DiskError>
        ensures cause { HasCause (vec_len self.old.failures) (vec_len self.new.failures) result }
        ensures refused { CountsRefusal self.old.refusals self.new.refusals result }
        ensures value { IfOk answer (λ value. result ≡ Ok value) }
        ensures failure { IfErr answer (λ _. IsErr result) }
    {
        match answer {
            Ok(value) => Ok(value),
            Err(error) => {
                self.cause = Some(error);
                self.fail()
            }
        }
    }
}

// A count of no failures. Units have no size, so there is room for as many as a `Vec` can hold: counting a failure allocates nothing.
fn no_failures(alloc: Global) -> Result<Vec<()>, AllocError>
    ensures { IfOk result (λ failures. vec_len failures ≡ 0) }
{
    Vec::with_capacity(alloc, isize::MAX as usize)
}

/// Opens `A` and `B`, and touches `B` only after `A` is locked.
fn open_both<R: Files<File = File>>(
    rt: &R,
    directory: Path<'_>,
    a: Path<'_>,
    b: Path<'_>,
) -> io::Result<(File, File)> {
    let directory = File::open(rt, directory)?;
    let a = open_or_make(rt, &directory, a)?;
    a.try_lock()?;
    let b = open_or_make(rt, &directory, b)?;
    Ok((a, b))
}

/// Opens `A` and `B` to be read, and touches `B` only after `A` is locked.
fn open_both_to_read<R: Files<File = File>>(
    rt: &R,
    a: Path<'_>,
    b: Path<'_>,
) -> io::Result<(File, File)> {
    let a = File::open(rt, a)?;
    a.try_lock_shared()?;
    let b = File::open(rt, b)?;
    Ok((a, b))
}

/// Opens a file of the directory, or creates it if it is missing.
///
/// The directory is synced if the file is empty, since the file may be new there: an earlier opening may have created
/// it and failed before its sync. A file with bytes was written through an open disk, and so after that sync.
fn open_or_make<R: Files<File = File>>(
    rt: &R,
    directory: &File,
    path: Path<'_>,
) -> io::Result<File> {
    let file = OpenOptions::new()
        .read(true)
        .write(true)
        .create(true)
        .open(rt, path)?;
    if file.metadata()?.len() == 0 {
        directory.sync_all()?;
    }
    Ok(file)
}

/// Whether the system can count to the end of a range.
fn is_countable(at: u64, count: usize) -> bool
    ensures { IsTrue result ↔ (at + count < 2 ^ 63) }
{
    at.checked_add(count as u64)
        .is_some_and(|end| end <= GREATEST_POSITION)
}

impl Disk for FileDisk {
    ghost is_honest = { false };

    ghost files = { λ _ _. record { content = []; durable = settled [] } };

    ghost moment = { λ _. 0 };

    ghost left_at = { λ _ _ _. ⊥ };

    ghost failures = { λ disk. vec_len disk.failures };

    ghost refusals = { λ disk. disk.refusals };

    ghost at_now = { λ honest. absurd (false≢true honest) };

    ghost reads_left = { λ honest. absurd (false≢true honest) };

    fn len(&mut self, side: Side) -> Result<u64, DiskError> {
        let answer = self.file(side).metadata();
        self.outcome(answer.map(|metadata| metadata.len()))
    }

    fn read(&mut self, side: Side, at: u64, buffer: &mut [u8]) -> Result<(), DiskError> {
        if !is_countable(at, buffer.len()) {
            return self.fail();
        }
        let answer = self.file(side).read_exact_at(buffer, at);
        self.outcome(answer)
    }

    fn write_at(&mut self, side: Side, at: u64, bytes: &[u8]) -> Result<(), DiskError> {
        if !is_countable(at, bytes.len()) {
            return self.fail();
        }
        let answer = self.file(side).write_all_at(bytes, at);
        self.outcome(answer)
    }

    // The system refuses a count past `GREATEST_POSITION` with an error.
    fn cut(&mut self, side: Side, count: u64) -> Result<(), DiskError> {
        let answer = self.file(side).set_len(count);
        self.outcome(answer)
    }

    // Bytes and length matter, a file's times do not: `sync_data` leaves out the second write, which only the times
    // need.
    fn sync(&mut self, side: Side) -> Result<(), DiskError> {
        let answer = self.file(side).sync_data();
        self.outcome(answer)
    }
}
