//! How long a write with its sync takes on a real file: one that grows, and one whose bytes are there already.
use crate::cores::{emptied, record};
use crate::readings::seconds_between;
use anyhow::Error;
use disk::{Disk, DiskError, FileDisk, Side, write_synced};
use std::io::Print;
use std::time::Instant;

// How many bytes are written at once.
const SIZES: [usize; 2] = [41, 330];

// How the bytes are written.
#[derive(Clone, Copy)]
enum Manner {
    // At the end of the file, which grows.
    Grows,
    // Over bytes that were synced before.
    Over,
    // The same, and then one byte before them, with a sync of its own, as the gate of a record is opened.
    Gated,
}

const MANNERS: [Manner; 3] = [Manner::Grows, Manner::Over, Manner::Gated];

impl Manner {
    fn name(self) -> &'static str {
        match self {
            Manner::Grows => "at the end of a file that grows",
            Manner::Over => "over bytes that are there",
            Manner::Gated => "over bytes that are there, then one byte with its own sync",
        }
    }

    fn is_over(self) -> bool {
        match self {
            Manner::Grows => false,
            Manner::Over | Manner::Gated => true,
        }
    }
}

/// Writes as many bytes as `SIZES` says `writes` times, each with its sync, in each manner, on the file A of the folder
/// that this is run in. It empties the files A and B first. It prints the microseconds of a write, the middle one of
/// three rounds.
pub(crate) fn measure(rt: &HostRuntime, writes: u32) -> Result<(), Error> {
    for size in SIZES {
        let mut bytes = Vec::new(rt.alloc());
        bytes.resize(size, 1)?;
        for manner in MANNERS {
            compare(rt, manner, &bytes, writes)?;
        }
    }
    Ok(())
}

// Prints the microseconds of a write.
fn compare(rt: &HostRuntime, manner: Manner, bytes: &[u8], writes: u32) -> Result<(), Error> {
    let first = seconds_of(rt, manner, bytes, writes)?;
    let second = seconds_of(rt, manner, bytes, writes)?;
    let third = seconds_of(rt, manner, bytes, writes)?;
    let one = 1e6 / f64::from(writes.max(1));
    println!(rt;
        "{} bytes {}: {:.1} µs",
        bytes.len(),
        manner.name(),
        middle(first, second, third) * one
    )?;
    Ok(())
}

// The middle one of three numbers.
fn middle(first: f64, second: f64, third: f64) -> f64 {
    let low = first.min(second);
    let high = first.max(second);
    low.max(high.min(third))
}

// The seconds that the writes take.
fn seconds_of(rt: &HostRuntime, manner: Manner, bytes: &[u8], writes: u32) -> Result<f64, Error> {
    let mut disk = emptied(rt)?;
    if manner.is_over() {
        fill(&mut disk, bytes, writes)?;
    }
    let start = Instant::now(rt);
    write_all(&mut disk, manner, bytes, writes)?;
    seconds_between(start, Instant::now(rt))
}

// Makes the file long enough for all writes and one more, and syncs it.
fn fill(disk: &mut FileDisk, bytes: &[u8], writes: u32) -> Result<(), DiskError> {
    let mut end = 0u64;
    for _ in 0..=writes {
        disk.write_at(Side::A, end, bytes)?;
        end = end.saturating_add(bytes.len() as u64);
    }
    disk.sync(Side::A)
}

// Makes all writes, one after the other.
fn write_all(
    disk: &mut FileDisk,
    manner: Manner,
    bytes: &[u8],
    writes: u32,
) -> Result<(), DiskError> {
    let mut end = 0u64;
    for _ in 0..writes {
        end = write(disk, manner, end, bytes)?;
    }
    Ok(())
}

// Makes one write, and returns where the next one begins.
fn write(disk: &mut FileDisk, manner: Manner, at: u64, bytes: &[u8]) -> Result<u64, DiskError> {
    match manner {
        Manner::Grows | Manner::Over => {
            write_synced(disk, Side::A, at, bytes)?;
            Ok(at.saturating_add(bytes.len() as u64))
        }
        Manner::Gated => record(disk, at, bytes),
    }
}
