//! Crashes in the middle of a story of a store with its steps: `crashes FIRST LAST SIDE`, and below it the story, a line
//! `then`, and the story after each crash.
//!
//! Each call of the disk from the first number to the last fails in turn. After it a crash leaves what it may leave of
//! that side: what reads give; if the length may change, as few bytes as may be left near an end, and these followed by
//! one or two bytes, or by the bytes named `Forged`; else each byte near an end that may change, as 0, as 1 and as 7.
//! Then the story goes on, and its last result counts. The result of the command is that one result, if it is the same
//! after all crashes; else also each other one with its call, and each call after which no crash was possible.
use crate::cores::Store;
use crate::disks::bytes_on;
use crate::stories::{World, tell};
use disk::{Fill, MemDisk, Side};
use std::alloc::{AllocError, Global};
use std::mem;
use test_cases::Names;

// What each byte is changed to.
const CHANGES: [u8; 3] = [0, 1, 7];

// How many bytes at each end of a file are tried. Each record of the stories is shorter.
const NEAR: usize = 128;

// A story, before the crash and after it.
#[derive(Clone, Copy)]
struct Plan<'a> {
    side: Side,
    before: &'a str,
    behind: &'a str,
}

impl<'a> Plan<'a> {
    // The plan for the side with this name, with these lines of a story.
    fn read(side: &str, lines: &'a str) -> Self {
        let (before, behind) = lines.split_once("then\n").unwrap_or((lines, ""));
        Plan {
            side: if side == "B" { Side::B } else { Side::A },
            before,
            behind,
        }
    }
}

// The results so far.
struct Seen {
    // The first result, and all others.
    first: String,
    others: String,
    // How many crashes were possible at this call.
    left: usize,
}

impl Drop for Seen {
    // By hand, so that dropping the results is one call, wherever they are dropped.
    fn drop(self) {
        let Seen {
            first: _,
            others: _,
            left: _,
        } = self;
    }
}

impl Seen {
    fn new(alloc: Global) -> Self {
        Seen {
            first: String::new(alloc),
            others: String::new(alloc),
            left: 0,
        }
    }

    // Takes the last result of what was told after a crash at this call.
    fn take(&mut self, call: u64, told: &str) -> Result<(), AllocError> {
        let last = told.rsplit("; ").next().unwrap_or("");
        self.left = self.left.saturating_add(1);
        if self.first.is_empty() {
            return self.first.push_str(last);
        }
        if self.first.as_str() == last {
            return Ok(());
        }
        writeln!(self.others, "call {call}: {last}")
    }

    // The other results, and the first one.
    fn told(self) -> Result<String, AllocError> {
        let Seen {
            first,
            others,
            left: _,
        } = self;
        let mut out = others;
        out.push_str(first.as_str())?;
        out.push_str("\n")?;
        Ok(out)
    }
}

/// The results after each of the crashes.
pub(crate) fn answer(
    alloc: Global,
    names: &Names,
    words: &str,
    lines: &str,
) -> Result<String, AllocError> {
    let mut seen = Seen::new(alloc);
    crash_all(alloc, names, words, lines, &mut seen)?;
    seen.told()
}

fn crash_all(
    alloc: Global,
    names: &Names,
    words: &str,
    lines: &str,
    seen: &mut Seen,
) -> Result<(), AllocError> {
    let (first, rest) = words.split_once(' ').unwrap_or((words, ""));
    let (last, side) = rest.split_once(' ').unwrap_or((rest, ""));
    let plan = Plan::read(side, lines);
    let first = first.parse::<u64>().unwrap_or(1);
    let last = last.parse::<u64>().unwrap_or(0);
    for call in first..last.saturating_add(1) {
        crash_at(alloc, names, plan, call, seen)?;
    }
    Ok(())
}

// All crashes at one call of the disk.
fn crash_at(
    alloc: Global,
    names: &Names,
    plan: Plan<'_>,
    call: u64,
    seen: &mut Seen,
) -> Result<(), AllocError> {
    seen.left = 0;
    let mut disk = story(alloc, names, plan, call)?;
    crash_on(alloc, names, plan, call, &mut disk, seen)?;
    if seen.left == 0 {
        writeln!(seen.others, "call {call}: no crash is left")?;
    }
    Ok(())
}

// All crashes of this disk.
fn crash_on(
    alloc: Global,
    names: &Names,
    plan: Plan<'_>,
    call: u64,
    disk: &mut MemDisk,
    seen: &mut Seen,
) -> Result<(), AllocError> {
    let count = bytes_of_side(alloc, disk, plan.side)?.len();
    leave(alloc, names, plan, call, count, None, seen)?;
    match shortest(alloc, disk, plan.side)? {
        Some(kept) => {
            told(alloc, names, plan, call, disk, seen)?;
            leave_tails(alloc, names, plan, call, kept, seen)
        }
        None => change_each(alloc, names, plan, call, disk, seen),
    }
}

// The crashes that leave the first `kept` bytes of the side, followed by each of the tails.
fn leave_tails(
    alloc: Global,
    names: &Names,
    plan: Plan<'_>,
    call: u64,
    kept: usize,
    seen: &mut Seen,
) -> Result<(), AllocError> {
    let forged = names.bytes("Forged").unwrap_or(&[]);
    for tail in [&[0u8] as &[u8], &[1], &[7], &[255], &[7, 1], forged] {
        leave(alloc, names, plan, call, kept, Some(tail), seen)?;
    }
    Ok(())
}

// The disk after the story, in which the call with this number failed.
fn story(alloc: Global, names: &Names, plan: Plan<'_>, call: u64) -> Result<MemDisk, AllocError> {
    let mut disk = MemDisk::new(alloc);
    disk.fail_call(call.max(1));
    let mut store = Store::Closed(disk);
    let mut passed = String::new(alloc);
    match tell(alloc, names, &mut store, "0", plan.before, &mut passed) {
        Ok(()) => Ok(store.into_disk()),
        Err(error) => Err(error),
    }
}

// Continues the story after a crash. The disk is given away.
fn told(
    alloc: Global,
    names: &Names,
    plan: Plan<'_>,
    call: u64,
    disk: &mut MemDisk,
    seen: &mut Seen,
) -> Result<(), AllocError> {
    let mut store = Store::Closed(mem::replace(disk, MemDisk::new(alloc)));
    let mut told = String::new(alloc);
    tell(alloc, names, &mut store, "0", plan.behind, &mut told)?;
    seen.take(call, told.as_str())
}

// A crash that leaves the first `kept` bytes of the side, followed by the tail, if one may; and the story after it.
fn leave(
    alloc: Global,
    names: &Names,
    plan: Plan<'_>,
    call: u64,
    kept: usize,
    tail: Option<&[u8]>,
    seen: &mut Seen,
) -> Result<(), AllocError> {
    let mut disk = story(alloc, names, plan, call)?;
    if leaves(alloc, &mut disk, plan.side, kept, tail.unwrap_or(&[]))? {
        told(alloc, names, plan, call, &mut disk, seen)?;
    }
    Ok(())
}

// A crash that leaves the first `kept` bytes of the side, followed by the tail, if one may. Returns whether one may.
fn leaves(
    alloc: Global,
    disk: &mut MemDisk,
    side: Side,
    kept: usize,
    tail: &[u8],
) -> Result<bool, AllocError> {
    let mut bytes = bytes_of_side(alloc, disk, side)?;
    bytes.truncate(kept);
    bytes.extend_from_slice(tail)?;
    let other = bytes_of_side(alloc, disk, other_side(side))?;
    Ok(disk.crash(filled(side, bytes, other)).is_ok())
}

// A crash that leaves as few bytes of the side as may be left, if fewer than reads give; returns their number.
fn shortest(alloc: Global, disk: &mut MemDisk, side: Side) -> Result<Option<usize>, AllocError> {
    let bytes = bytes_of_side(alloc, disk, side)?;
    let other = bytes_of_side(alloc, disk, other_side(side))?;
    shortest_of(alloc, disk, side, &bytes, &other)
}

fn shortest_of(
    alloc: Global,
    disk: &mut MemDisk,
    side: Side,
    bytes: &[u8],
    other: &[u8],
) -> Result<Option<usize>, AllocError> {
    for kept in 0..bytes.len() {
        if is_near_an_end(kept, bytes.len())
            && is_left(alloc, disk, side, copied(alloc, &bytes[..kept])?, other)?
        {
            return Ok(Some(kept));
        }
    }
    Ok(None)
}

// A crash that leaves these bytes of the side, and of the other one those that reads give, if one may. Returns whether
// one may.
fn is_left(
    alloc: Global,
    disk: &mut MemDisk,
    side: Side,
    bytes: Vec<u8>,
    other: &[u8],
) -> Result<bool, AllocError> {
    let other = copied(alloc, other)?;
    Ok(disk.crash(filled(side, bytes, other)).is_ok())
}

// Crashes that change one byte each.
fn change_each(
    alloc: Global,
    names: &Names,
    plan: Plan<'_>,
    call: u64,
    disk: &mut MemDisk,
    seen: &mut Seen,
) -> Result<(), AllocError> {
    let bytes = bytes_of_side(alloc, disk, plan.side)?;
    let other = bytes_of_side(alloc, disk, other_side(plan.side))?;
    for place in 0..bytes.len() {
        if is_near_an_end(place, bytes.len()) {
            change_at(
                alloc,
                names,
                plan,
                call,
                disk,
                (&bytes, &other),
                place,
                seen,
            )?;
        }
    }
    Ok(())
}

// Crashes that change the byte at this place.
fn change_at(
    alloc: Global,
    names: &Names,
    plan: Plan<'_>,
    call: u64,
    disk: &mut MemDisk,
    sides: (&[u8], &[u8]),
    place: usize,
    seen: &mut Seen,
) -> Result<(), AllocError> {
    let (bytes, other) = sides;
    for change in CHANGES {
        if bytes.get(place) == Some(&change) {
            continue;
        }
        let changed = changed(alloc, bytes, place, change)?;
        if is_left(alloc, disk, plan.side, changed, other)? {
            told(alloc, names, plan, call, disk, seen)?;
            *disk = story(alloc, names, plan, call)?;
        }
    }
    Ok(())
}

// The bytes with this one changed.
fn changed(alloc: Global, bytes: &[u8], place: usize, byte: u8) -> Result<Vec<u8>, AllocError> {
    let mut changed = copied(alloc, bytes)?;
    if let Some(old) = changed.get_mut(place) {
        *old = byte;
    }
    Ok(changed)
}

// Whether a place is among the first `NEAR` of `count` places, or among the last. The writes and cuts of a store begin
// there.
fn is_near_an_end(place: usize, count: usize) -> bool {
    place < NEAR || count.saturating_sub(place) <= NEAR
}

// What reads give of a side, or nothing if one fails.
fn bytes_of_side(alloc: Global, disk: &mut MemDisk, side: Side) -> Result<Vec<u8>, AllocError> {
    Ok(bytes_on(alloc, disk, side).unwrap_or(Vec::new(alloc)))
}

fn copied(alloc: Global, bytes: &[u8]) -> Result<Vec<u8>, AllocError> {
    let mut copy = Vec::new(alloc);
    copy.extend_from_slice(bytes)?;
    Ok(copy)
}

fn other_side(side: Side) -> Side {
    match side {
        Side::A => Side::B,
        Side::B => Side::A,
    }
}

// These bytes of a side, and those of the other one.
fn filled(side: Side, bytes: Vec<u8>, other: Vec<u8>) -> Fill {
    match side {
        Side::A => Fill { a: bytes, b: other },
        Side::B => Fill { a: other, b: bytes },
    }
}
