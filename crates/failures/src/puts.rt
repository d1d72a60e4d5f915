//! One put of which a call of the device fails.
use crate::crashes::CHOICES;
use crate::lengths::measured;
use commit::{Core, CoreError};
use disk::{Choice, Disk, MemDisk, Side};
use std::alloc::{AllocError, Global};
use terms::{Addr, ItemCollection, Key};
use test_cases::Names;
use vault::{Refused, VaultError};

// The first byte of the record that the put writes, of a graph whose text has 243 bytes.
const GATE: u64 = 274;

/// Puts the value 0 at the key 0 of the first collection of a new store of this graph, while a call of the put fails; puts it once
/// more; and opens the store after a crash.
pub(crate) fn answer(
    alloc: Global,
    names: &Names,
    graph: &str,
    number: u64,
) -> Result<String, AllocError> {
    let text = names.bytes(graph).unwrap_or(&[]);
    let mut told = String::new(alloc);
    for (choice, name) in CHOICES {
        let (disk, first, second) = put(alloc, text, number);
        write!(told, "{first}, then {second}; touched bytes {name}: ")?;
        crashed(alloc, disk, choice, &mut told)?;
    }
    Ok(told)
}

// The disk after the two puts, and what they returned.
fn put(alloc: Global, graph: &[u8], number: u64) -> (MemDisk, &'static str, &'static str) {
    let (disk, opening) = created(alloc, graph);
    let mut disk = disk;
    disk.fail_call(opening.saturating_add(number));
    match Core::open(alloc, disk) {
        Ok(core) => {
            let mut core = core;
            let first = code(core.put_item(address(), 0));
            let second = code(core.put_item(address(), 0));
            (core.into_disk(), first, second)
        }
        Err(refused) => {
            let Refused { disk, error: _ } = refused;
            (disk, "no store", "no store")
        }
    }
}

// The disk of a new store, and how many calls an opening of it makes.
fn created(alloc: Global, graph: &[u8]) -> (MemDisk, u64) {
    match Core::create(alloc, MemDisk::new(alloc), graph) {
        Ok(core) => {
            let disk = core.into_disk();
            let before = disk.calls();
            let disk = opened(alloc, disk);
            let after = disk.calls();
            (disk, after.saturating_sub(before))
        }
        Err(_) => (MemDisk::new(alloc), 0),
    }
}

// The disk after an opening.
fn opened(alloc: Global, disk: MemDisk) -> MemDisk {
    match Core::open(alloc, disk) {
        Ok(core) => core.into_disk(),
        Err(refused) => {
            let Refused { disk, error: _ } = refused;
            disk
        }
    }
}

fn address() -> Addr {
    Addr {
        collection: ItemCollection(0),
        key: Key::new(&[0]),
    }
}

// The number of an answer.
fn code(answer: Result<(), CoreError>) -> &'static str {
    match answer {
        Ok(()) => "ok",
        Err(CoreError::Store(VaultError::Device)) => "9",
        Err(CoreError::Store(VaultError::NoMemory)) => "10",
        Err(CoreError::Store(VaultError::Halted)) => "8",
        Err(CoreError::Refused(_)) => "refused",
        Err(_) => "another error",
    }
}

// What a crash leaves: the length of the first file, the byte that opens the record, and whether the item is there.
fn crashed(
    alloc: Global,
    disk: MemDisk,
    choice: Choice,
    told: &mut String,
) -> Result<(), AllocError> {
    let mut disk = disk;
    disk.fail_call(0);
    let fill = disk.fill(alloc, choice)?;
    if disk.crash(fill).is_err() {
        return told.push_str("no such crash\n");
    }
    let bytes = measured(&mut disk, Side::A).unwrap_or(0);
    let gate = first_byte(&mut disk);
    let there = is_there(alloc, disk);
    writeln!(told, "{bytes} bytes, byte {GATE} is {gate}, {there}")
}

// The byte that opens the record; 0 if there is none.
fn first_byte(disk: &mut MemDisk) -> u8 {
    let mut buffer = [0u8];
    if let Some(count) = measured(disk, Side::A)
        && GATE < count
    {
        let _ = disk.read(Side::A, GATE, &mut buffer);
    }
    buffer[0]
}

// Whether the item is in the store.
fn is_there(alloc: Global, disk: MemDisk) -> &'static str {
    match Core::open(alloc, disk) {
        Ok(core) => match core.get(address()) {
            Ok(Some(0)) => "present",
            Ok(None) => "absent",
            _ => "another value",
        },
        Err(_) => "no store",
    }
}
