//! Stores that were changed, beside those that events led to: `forged FIRST LAST NAME NAME..`, where the names are those of the
//! texts of graphs.
//!
//! From each number from the first to the last a store comes about at random, of one of the graphs. It is certified, and events lead
//! to it (`legal`). Then one thing of what it holds is changed. If some legal events lead to that too, it is opened and certified; if
//! not, it is refused when it is opened, or not certified.
//!
//! The result is `as promised`, or the first number of which that is not so. It is `too few` if it says too little: if of some kind
//! of change fewer than one in forty of the stores were changed so, opened and not certified; or if of none that was changed events led
//! to what it is now.
use crate::changes::{CHANGES, Change, make_change};
use crate::contents::Contents;
use crate::core_calls::tell_creation;
use crate::cores::{Store, created, opened};
use crate::legal::events_lead_to;
use crate::random::Random;
use crate::random_stores::grow;
use crate::side_bytes::side_of;
use crate::stories::World;
use audit::{VerifyError, verify};
use commit::Core;
use disk::{Disk, DiskError, MemDisk, Side};
use std::alloc::{AllocError, Global};
use test_cases::Names;
use vault::VaultError;

// What is said of a store that was changed.
#[derive(Clone, Copy, Debug, PartialEq, Eq)]
enum Judgement {
    Refused,
    NotCertified,
    Certified,
}

// What came of the stores that were changed.
#[derive(Drop)]
struct Seen {
    // The changes of those that were opened and not certified.
    caught: Vec<Change>,
    // Whether one was certified.
    is_one_certified: bool,
}

/// The result.
pub(crate) fn answer(alloc: Global, names: &Names, words: &str) -> Result<String, AllocError> {
    let mut out = String::new(alloc);
    let mut seen = Seen {
        caught: Vec::new(alloc),
        is_one_certified: false,
    };
    try_all(alloc, names, words, &mut seen, &mut out)?;
    Ok(out)
}

// Tries the stores of all numbers, up to the first of which something is wrong.
fn try_all(
    alloc: Global,
    names: &Names,
    words: &str,
    seen: &mut Seen,
    out: &mut String,
) -> Result<(), AllocError> {
    let (first, rest) = words.split_once(' ').unwrap_or((words, ""));
    let (last, graphs) = rest.split_once(' ').unwrap_or((rest, ""));
    let first = first.parse::<u64>().unwrap_or(0);
    let last = last.parse::<u64>().unwrap_or(0);
    for seed in first..last.saturating_add(1) {
        try_seed(alloc, names, graphs, seed, seen, out)?;
        if !out.is_empty() {
            return Ok(());
        }
    }
    tell_seen(seen, last.saturating_add(1).saturating_sub(first), out)
}

// Tries the store of this number.
fn try_seed(
    alloc: Global,
    names: &Names,
    graphs: &str,
    seed: u64,
    seen: &mut Seen,
    out: &mut String,
) -> Result<(), AllocError> {
    let mut random = Random::new(seed);
    let count = graphs.split_whitespace().count();
    if count == 0 {
        return out.push_str("no graph\n");
    }
    let name = graphs.split_whitespace().nth(random.below(count));
    match names.bytes(name.unwrap_or("")) {
        Some(text) => try_text(alloc, text, seed, &mut random, seen, out),
        None => out.push_str("no such name\n"),
    }
}

// Tries a store of the graph with this text.
fn try_text(
    alloc: Global,
    text: &[u8],
    seed: u64,
    random: &mut Random,
    seen: &mut Seen,
    out: &mut String,
) -> Result<(), AllocError> {
    let mut store = Store::begin(alloc);
    if let Some(error) = created(alloc, &mut store, text) {
        return tell_creation(&error, out);
    }
    grow(alloc, &mut store, random);
    match &store {
        Store::Open(core) => try_core(alloc, text, core, seed, random, seen, out),
        Store::Closed(_) => out.push_str("closed\n"),
    }
}

// Tries a store as it is, and with one change.
fn try_core(
    alloc: Global,
    text: &[u8],
    core: &Core<MemDisk>,
    seed: u64,
    random: &mut Random,
    seen: &mut Seen,
    out: &mut String,
) -> Result<(), AllocError> {
    let mut store = Contents::new(alloc);
    store.list(core.machine())?;
    if !is_certified(alloc, core)? {
        return writeln!(out, "seed {seed}: a right store is not verified");
    }
    if !events_lead_to(alloc, core.graph(), &store)? {
        return writeln!(out, "seed {seed}: no events lead to a right store");
    }
    let Some(changed) = make_change(core.graph(), &mut store, random)? else {
        return writeln!(out, "seed {seed}: nothing to change");
    };
    let is_legal = events_lead_to(alloc, core.graph(), &store)?;
    let bytes = side_of(alloc, text, &store)?;
    compare(seed, changed, said_of(alloc, &bytes)?, is_legal, seen, out)
}

// Whether a store is certified.
fn is_certified(alloc: Global, core: &Core<MemDisk>) -> Result<bool, AllocError> {
    match verify(alloc, core, &mut ()) {
        Ok(()) => Ok(true),
        Err(VerifyError::NoMemory) => Err(AllocError),
        Err(_) => Ok(false),
    }
}

// What is said of the store on a disk whose side A has these bytes, and whose side B is closed.
fn said_of(alloc: Global, bytes: &[u8]) -> Result<Judgement, AllocError> {
    let mut disk = MemDisk::new(alloc);
    if write_sides(&mut disk, bytes).is_err() {
        return Err(AllocError);
    }
    let mut store = Store::Closed(disk);
    judge(alloc, &mut store)
}

fn write_sides(disk: &mut MemDisk, bytes: &[u8]) -> Result<(), DiskError> {
    disk.write_at(Side::A, 0, bytes)?;
    disk.write_at(Side::B, 0, &[0])
}

// Opens a store, and looks whether it is certified.
fn judge(alloc: Global, store: &mut Store) -> Result<Judgement, AllocError> {
    match opened(alloc, store) {
        None => certificate_of(alloc, store),
        Some(VaultError::NoMemory) => Err(AllocError),
        Some(_) => Ok(Judgement::Refused),
    }
}

fn certificate_of(alloc: Global, store: &Store) -> Result<Judgement, AllocError> {
    let Store::Open(core) = store else {
        return Ok(Judgement::Refused);
    };
    if is_certified(alloc, core)? {
        Ok(Judgement::Certified)
    } else {
        Ok(Judgement::NotCertified)
    }
}

// Writes what is wrong with what is said of a store that was changed, if anything is; else notes the change.
fn compare(
    seed: u64,
    changed: Change,
    said: Judgement,
    is_legal: bool,
    seen: &mut Seen,
    out: &mut String,
) -> Result<(), AllocError> {
    let what = changed.word();
    match (said, is_legal) {
        (Judgement::Refused, false) => Ok(()),
        (Judgement::NotCertified, false) => Ok(seen.caught.push(changed)?),
        (Judgement::Certified, true) => {
            seen.is_one_certified = true;
            Ok(())
        }
        (Judgement::Refused, true) => {
            writeln!(
                out,
                "seed {seed}: a changed {what}, refused, but events lead there"
            )
        }
        (Judgement::NotCertified, true) => {
            writeln!(
                out,
                "seed {seed}: a changed {what}, not verified, but events lead there"
            )
        }
        (Judgement::Certified, false) => {
            writeln!(
                out,
                "seed {seed}: a changed {what}, verified, but no events lead there"
            )
        }
    }
}

// Writes whether enough was seen of this number of stores.
fn tell_seen(seen: &Seen, stores: u64, out: &mut String) -> Result<(), AllocError> {
    for change in CHANGES {
        let caught = seen.caught.iter().filter(|other| **other == change).count();
        if (caught as u64).saturating_mul(40) < stores {
            return writeln!(out, "too few: a changed {}", change.word());
        }
    }
    if seen.is_one_certified {
        out.push_str("as promised\n")
    } else {
        out.push_str("too few that events lead to\n")
    }
}
