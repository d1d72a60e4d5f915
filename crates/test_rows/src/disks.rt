//! The calls of a memory disk.
use crate::bytes::bytes_of;
use crate::journals;
use disk::{Choice, Disk, DiskError, Fill, MemDisk, Side};
use std::alloc::{AllocError, Global};
use test_cases::Names;

/// One call.
pub(crate) fn take(
    alloc: Global,
    names: &Names,
    disk: &mut MemDisk,
    word: &str,
    rest: &str,
    told: &mut String,
) -> Result<(), AllocError> {
    match word {
        "crash" => return crash(alloc, names, disk, rest, told),
        "leave" => return leave(alloc, disk, rest, told),
        "calls" => return write!(told, "{} calls", disk.calls()),
        _ => {}
    }
    let (name, more) = rest.split_once(' ').unwrap_or((rest, ""));
    let side = match name {
        "A" => Side::A,
        "B" => Side::B,
        _ => return no_such(word, told),
    };
    match word {
        "sync" => tell_call(disk.sync(side), told),
        "length" => tell_length(disk, side, told),
        "has" => match bytes_of(alloc, names, more)? {
            Some(wanted) => compare(alloc, disk, side, &wanted, told),
            None => no_such(word, told),
        },
        _ => take_at(alloc, names, disk, side, word, more, told),
    }
}

// One call at a place of a file.
fn take_at(
    alloc: Global,
    names: &Names,
    disk: &mut MemDisk,
    side: Side,
    word: &str,
    more: &str,
    told: &mut String,
) -> Result<(), AllocError> {
    let (number, behind) = more.split_once(' ').unwrap_or((more, ""));
    let Ok(place) = number.parse::<u64>() else {
        return no_such(word, told);
    };
    match word {
        "write" => match bytes_of(alloc, names, behind)? {
            Some(bytes) => write(disk, side, place, &bytes, told),
            None => no_such(word, told),
        },
        "cut" => cut(disk, side, place, told),
        "read" => match behind.parse::<usize>() {
            Ok(count) => read(alloc, disk, side, place, count, told),
            Err(_) => no_such(word, told),
        },
        "scan" => journals::scan(alloc, disk, side, place, told),
        "record" => record(alloc, names, disk, (side, place), behind, told),
        _ => no_such(word, told),
    }
}

// Begins a journal there, and appends a record. One call fails meanwhile, or none.
fn record(
    alloc: Global,
    names: &Names,
    disk: &mut MemDisk,
    place: (Side, u64),
    text: &str,
    told: &mut String,
) -> Result<(), AllocError> {
    let (failing, bytes) = text.split_once(' ').unwrap_or((text, ""));
    let Ok(failing) = failing.parse::<u64>() else {
        return no_such("record", told);
    };
    match bytes_of(alloc, names, bytes)? {
        Some(payload) => journals::record(alloc, disk, place, failing, &payload, told),
        None => no_such("record", told),
    }
}

// Says that this is not a call.
fn no_such(word: &str, told: &mut String) -> Result<(), AllocError> {
    write!(told, "no such call: {word}")
}

// Writes the error of a call.
fn tell_call(answer: Result<(), DiskError>, told: &mut String) -> Result<(), AllocError> {
    match answer {
        Ok(()) => Ok(()),
        Err(error) => write!(told, "{error}"),
    }
}

fn tell_length(disk: &mut MemDisk, side: Side, told: &mut String) -> Result<(), AllocError> {
    match disk.len(side) {
        Ok(count) => write!(told, "{count} bytes"),
        Err(error) => write!(told, "{error}"),
    }
}

// Writes from a place in the file, or from its end on.
fn write(
    disk: &mut MemDisk,
    side: Side,
    at: u64,
    bytes: &[u8],
    told: &mut String,
) -> Result<(), AllocError> {
    match disk.len(side) {
        Ok(count) if at <= count => tell_call(disk.write_at(side, at, bytes), told),
        Ok(_) => told.push_str("past the end"),
        Err(error) => write!(told, "{error}"),
    }
}

// Cuts the file to a length that is not greater than its own.
fn cut(disk: &mut MemDisk, side: Side, length: u64, told: &mut String) -> Result<(), AllocError> {
    match disk.len(side) {
        Ok(count) if length <= count => tell_call(disk.cut(side, length), told),
        Ok(_) => told.push_str("past the end"),
        Err(error) => write!(told, "{error}"),
    }
}

// Reads bytes that are in the file.
fn read(
    alloc: Global,
    disk: &mut MemDisk,
    side: Side,
    at: u64,
    count: usize,
    told: &mut String,
) -> Result<(), AllocError> {
    let mut buffer = vec![in alloc; 0; count]?;
    read_to(disk, side, at, &mut buffer, told)
}

fn read_to(
    disk: &mut MemDisk,
    side: Side,
    at: u64,
    buffer: &mut [u8],
    told: &mut String,
) -> Result<(), AllocError> {
    match disk.len(side) {
        Ok(length) if at <= length && buffer.len() as u64 <= length - at => {
            tell_call(disk.read(side, at, buffer), told)?;
            write!(told, "{buffer:?}")
        }
        Ok(_) => told.push_str("past the end"),
        Err(error) => write!(told, "{error}"),
    }
}

/// All bytes of a file.
pub(crate) fn bytes_on(
    alloc: Global,
    disk: &mut MemDisk,
    side: Side,
) -> Result<Vec<u8>, DiskError> {
    let count = disk.len(side)?;
    let mut bytes = vec![in alloc; 0; count as usize]?;
    disk.read(side, 0, &mut bytes)?;
    Ok(bytes)
}

// Writes whether a file has these bytes, or where it first differs.
fn compare(
    alloc: Global,
    disk: &mut MemDisk,
    side: Side,
    wanted: &[u8],
    told: &mut String,
) -> Result<(), AllocError> {
    match bytes_on(alloc, disk, side) {
        Ok(bytes) => tell_compared(side, &bytes, wanted, told),
        Err(error) => write!(told, "{error}"),
    }
}

fn tell_compared(
    side: Side,
    bytes: &[u8],
    wanted: &[u8],
    told: &mut String,
) -> Result<(), AllocError> {
    if bytes == wanted {
        return write!(told, "{side:?} is so");
    }
    let same = bytes
        .iter()
        .zip(wanted.iter())
        .take_while(|(found, wanted)| found == wanted)
        .count();
    write!(
        told,
        "{side:?} has {} bytes, from {same} on others",
        bytes.len()
    )
}

// A crash that leaves these bytes of both files, if one may.
fn crash(
    alloc: Global,
    names: &Names,
    disk: &mut MemDisk,
    text: &str,
    told: &mut String,
) -> Result<(), AllocError> {
    let (a, b) = text.split_once('|').unwrap_or((text, ""));
    let Some(a) = bytes_of(alloc, names, a)? else {
        return no_such("crash", told);
    };
    match bytes_of(alloc, names, b)? {
        Some(b) => crash_to(disk, Fill { a, b }, told),
        None => no_such("crash", told),
    }
}

// A crash that leaves each touched byte by a choice.
fn leave(
    alloc: Global,
    disk: &mut MemDisk,
    text: &str,
    told: &mut String,
) -> Result<(), AllocError> {
    let choice = match (text, text.parse::<u8>()) {
        ("synced", _) => Choice::Synced,
        ("written", _) => Choice::Written,
        (_, Ok(byte)) => Choice::Byte(byte),
        (_, Err(_)) => return no_such("leave", told),
    };
    let fill = disk.fill(alloc, choice)?;
    crash_to(disk, fill, told)
}

// Crashes, and writes whether these bytes may be left.
fn crash_to(disk: &mut MemDisk, fill: Fill, told: &mut String) -> Result<(), AllocError> {
    match disk.crash(fill) {
        Ok(()) => told.push_str("left"),
        Err(_) => told.push_str("never left"),
    }
}
