//! How long it takes to open a store on real files, compared with a read of the same bytes.
use crate::readings::seconds_between;
use anyhow::{Error, bail};
use codec::{decode_image, encode_event};
use commit::Core;
use disk::{Disk, DiskError, FileDisk, Side};
use sides::spell_side;
use std::alloc::{AllocError, Global};
use std::fs;
use std::io::Print;
use std::time::Instant;
use terms::{Addr, Event, ItemCollection, Key, MAX_COMPONENTS};

// A graph in which the environment may put items, and that has no steps. The text is canonical.
const GRAPH: &str = "[cell: i];\nenv -> [cell];\n[cell] -> env;\n";

/// Makes a store of `count` records in the folder that it is run in, and one of as many items in its image, and prints
/// the milliseconds that it takes to open each with its state in memory, to read its live file, and to turn it over. It makes none in a folder whose file A or B
/// is not empty.
pub(crate) fn measure(rt: &HostRuntime, count: u32) -> Result<(), Error> {
    if !is_free(rt)? {
        bail!("the files A and B of this folder are not empty");
    }
    let records = with_records(rt.alloc(), count)?;
    opened(rt, "records", records)?;
    let image = with_image(rt.alloc(), count)?;
    opened(rt, "items", image)
}

// Whether the files of the folder that this is run in are empty.
fn is_free(rt: &HostRuntime) -> Result<bool, Error> {
    let mut disk = FileDisk::open(rt.alloc(), rt, ".")?;
    Ok(is_empty(&mut disk)?)
}

fn is_empty(disk: &mut FileDisk) -> Result<bool, DiskError> {
    let a = disk.len(Side::A)?;
    let b = disk.len(Side::B)?;
    Ok(a == 0 && b == 0)
}

// Prints the milliseconds that it takes to open a store with this file A, and to read the file.
fn opened(rt: &HostRuntime, told: &str, bytes: Vec<u8>) -> Result<(), Error> {
    write(rt, bytes)?;
    let (count, reading) = read(rt)?;
    let times = open(rt)?;
    println!(rt;
        "{told}: {} items, {count} bytes, opened in {:.1} ms, read in {:.1} ms, turned over in {:.1} ms",
        times.items,
        times.opening * 1e3,
        reading * 1e3,
        times.turning * 1e3
    )?;
    Ok(())
}

// Makes these bytes the file A.
fn write(rt: &HostRuntime, bytes: Vec<u8>) -> Result<(), Error> {
    fs::write(rt, "A", &bytes)?;
    fs::write(rt, "B", &[0])?;
    Ok(())
}

// How many bytes the file A has, and the seconds that it takes to read them.
fn read(rt: &HostRuntime) -> Result<(usize, f64), Error> {
    let start = Instant::now(rt);
    let bytes = fs::read(rt, "A")?;
    let end = Instant::now(rt);
    let count = bytes.len();
    drop(bytes);
    Ok((count, seconds_between(start, end)?))
}

// What it took to open a store, and to turn it over.
#[derive(Clone, Copy)]
struct Times {
    items: usize,
    opening: f64,
    turning: f64,
}

// Opens the store, with its state in memory, and turns it over.
fn open(rt: &HostRuntime) -> Result<Times, Error> {
    let disk = FileDisk::open(rt.alloc(), rt, ".")?;
    let start = Instant::now(rt);
    match Core::open(rt.alloc(), disk) {
        Ok(core) => turned(rt, core, seconds_between(start, Instant::now(rt))?),
        Err(refused) => Err(refused.error.into()),
    }
}

// Turns over a store whose opening took `opening` seconds.
fn turned(rt: &HostRuntime, core: Core<FileDisk>, opening: f64) -> Result<Times, Error> {
    let mut core = core;
    let items = core.counts().items;
    let start = Instant::now(rt);
    let is_turned = core.turn(rt.alloc()).is_ok();
    let turning = seconds_between(start, Instant::now(rt))?;
    if !is_turned {
        bail!("the store was not turned over");
    }
    Ok(Times {
        items,
        opening,
        turning,
    })
}

// A side with this image and no records.
fn side_of(alloc: Global, image: &[u8]) -> Result<Vec<u8>, Error> {
    let image = decode_image(alloc, image, MAX_COMPONENTS)?;
    let mut side = Vec::new(alloc);
    side.push(1)?;
    spell_side(&mut side, 1, GRAPH.as_bytes(), &image)?;
    Ok(side)
}

// A side with `count` records of items.
fn with_records(alloc: Global, count: u32) -> Result<Vec<u8>, Error> {
    let mut side = side_of(alloc, &[0; 13])?;
    side.pop();
    push_records(&mut side, &mut Vec::new(alloc), count)?;
    side.push(0)?;
    Ok(side)
}

// The records, each spelled in the same room first.
fn push_records(side: &mut Vec<u8>, payload: &mut Vec<u8>, count: u32) -> Result<(), Error> {
    for number in 0..count {
        push_record(side, payload, number)?;
    }
    Ok(())
}

fn push_record(side: &mut Vec<u8>, payload: &mut Vec<u8>, number: u32) -> Result<(), Error> {
    payload.clear();
    encode_event(payload, &Event::EnvItem(cell(number), i64::from(number)))?;
    side.push(1)?;
    side.extend_from_slice(&u32::try_from(payload.len())?.to_le_bytes())?;
    side.extend_from_slice(payload)?;
    Ok(())
}

// A side with `count` items in its image.
fn with_image(alloc: Global, count: u32) -> Result<Vec<u8>, Error> {
    let mut image = Vec::new(alloc);
    image.push(0)?;
    image.extend_from_slice(&count.to_le_bytes())?;
    for number in 0..count {
        push_item(&mut image, number)?;
    }
    image.extend_from_slice(&[0; 8])?;
    side_of(alloc, &image)
}

// The bytes of an item.
fn push_item(image: &mut Vec<u8>, number: u32) -> Result<(), AllocError> {
    let value = i64::from(number).to_le_bytes();
    image.extend_from_slice(&[0, 0, 1])?;
    image.extend_from_slice(&value)?;
    image.extend_from_slice(&value)?;
    image.push(0)?;
    Ok(())
}

fn cell(number: u32) -> Addr {
    Addr {
        collection: ItemCollection(0),
        key: Key::new(&[i64::from(number)]),
    }
}
