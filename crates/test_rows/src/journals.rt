//! Journals: `first` says whether bytes begin with a record or a closed gate. On a file of a disk, `scan SIDE PLACE`
//! reads a journal, and `record SIDE PLACE CALL BYTES` begins a journal, makes that call of the disk fail, counted from
//! then, or none if it is 0, and appends.
ghost use Rattle.std.specs.Prelude.{◌<◌, length};
ghost use Rattle.disk.specs.MemDisk.{files_of};

use disk::{Disk, MemDisk, Side};
use journal::{Journal, JournalError, Payloads, begins_closed, first_payload};
use std::alloc::{AllocError, Global};

/// What some bytes begin with.
pub(crate) fn first(alloc: Global, bytes: &[u8]) -> Result<String, AllocError> {
    match first_payload(bytes) {
        Some(payload) => format!(in alloc; "record {payload:?}\n"),
        None if begins_closed(bytes) => String::from_str(alloc, "closed\n"),
        None => String::from_str(alloc, "neither\n"),
    }
}

/// The payloads of the journal that begins at a place, and where it ends; or why there is none.
pub(crate) fn scan(
    alloc: Global,
    disk: &mut MemDisk,
    side: Side,
    at: u64,
    out: &mut String,
) -> Result<(), AllocError> {
    match Journal::scan(alloc, disk, side, at) {
        Ok((journal, payloads)) => tell_journal(journal.end, &payloads, out),
        Err(error) => write!(out, "{error}"),
    }
}

fn tell_journal(end: u64, payloads: &Payloads, out: &mut String) -> Result<(), AllocError> {
    for number in 0..payloads.len() {
        write!(out, "{:?} ", payloads.get(number))?;
    }
    write!(out, "ends at {end}")
}

/// Begins a journal at a place, and appends a record to it.
pub(crate) fn record(
    alloc: Global,
    disk: &mut MemDisk,
    place: (Side, u64),
    failing: u64,
    payload: &[u8],
    out: &mut String,
) -> Result<(), AllocError> {
    let (side, at) = place;
    let Ok(count) = disk.len(side) else {
        return out.push_str("no length");
    };
    if at > count {
        return out.push_str("behind the end");
    }
    match Journal::start(disk, side, at) {
        Ok(journal) => append(alloc, disk, journal, failing, payload, out),
        Err(error) => write!(out, "not begun: {error}"),
    }
}

fn append(
    alloc: Global,
    disk: &mut MemDisk,
    mut journal: Journal,
    failing: u64,
    payload: &[u8],
    out: &mut String,
) -> Result<(), AllocError>
    requires { journal.end < length (files_of disk.old journal.side).content }
{
    disk.fail_call(failing);
    let answer = journal.append(alloc, disk, payload);
    tell_append(answer, journal.end, out)
}

fn tell_append(
    answer: Result<(), JournalError>,
    end: u64,
    out: &mut String,
) -> Result<(), AllocError> {
    match answer {
        Ok(()) => out.push_str("appended")?,
        Err(error) => write!(out, "{error}")?,
    }
    write!(out, ", ends at {end}")
}
