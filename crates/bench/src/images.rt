//! How fast images are encoded and decoded, compared with a copy of the same bytes.
use crate::readings::seconds_between;
use anyhow::Error;
use codec::{decode_image, encode_image};
use std::alloc::{AllocError, Global};
use std::io::Print;
use std::num::nearest_usize_to_f64;
use std::time::{Clock, Instant};
use terms::MAX_COMPONENTS;

/// At least this number of items is encoded, decoded and copied, over as many rounds as that takes.
const ITEMS: u32 = 4_000_000;

/// Copies, encodes and decodes an image of `items` items, one after another, and prints how many megabytes of it each
/// handles in a second, and the ratios of the times.
pub(crate) fn measure<R: Clock + Print + AllocGlobal>(rt: &R, items: u32) -> Result<(), Error> {
    let bytes = image_bytes(rt.alloc(), items)?;
    compare(rt, &bytes, items)
}

fn compare<R: Clock + Print + AllocGlobal>(rt: &R, bytes: &[u8], items: u32) -> Result<(), Error> {
    let rounds = ITEMS / items.max(1) + 1;
    let copy = copying(rt, bytes, rounds)?;
    let encode = encoding(rt, bytes, rounds)?;
    let decode = decoding(rt, bytes, rounds)?;
    let megabytes = nearest_usize_to_f64(bytes.len()) * f64::from(rounds) / 1e6;
    println!(rt; "{items} items, {} bytes, {rounds} rounds", bytes.len())?;
    println!(rt; "copy {:.0} MB/s", megabytes / copy)?;
    tell(rt, "encode", megabytes / encode, encode / copy)?;
    tell(rt, "decode", megabytes / decode, decode / copy)
}

// Prints how many megabytes are handled in a second, and how many copies take as long.
fn tell<R: Print>(rt: &R, name: &str, speed: f64, copies: f64) -> Result<(), Error> {
    println!(rt; "{name} {speed:.0} MB/s, {copies:.1} copies")?;
    Ok(())
}

/// The seconds that `rounds` copies take, each into memory that is already there.
pub(crate) fn copying<R: Clock + AllocGlobal>(
    rt: &R,
    bytes: &[u8],
    rounds: u32,
) -> Result<f64, Error> {
    let mut out = Vec::with_capacity(rt.alloc(), bytes.len())?;
    let start = Instant::now(rt);
    for _ in 0..rounds {
        out.clear();
        out.extend_from_slice(bytes)?;
    }
    seconds_between(start, Instant::now(rt))
}

// The seconds that `rounds` encodings of the image that the bytes spell take.
fn encoding<R: Clock + AllocGlobal>(rt: &R, bytes: &[u8], rounds: u32) -> Result<f64, Error> {
    let mut out = Vec::with_capacity(rt.alloc(), bytes.len())?;
    let image = decode_image(rt.alloc(), bytes, MAX_COMPONENTS)?;
    let start = Instant::now(rt);
    for _ in 0..rounds {
        out.clear();
        encode_image(&mut out, &image)?;
    }
    seconds_between(start, Instant::now(rt))
}

// The seconds that `rounds` decodings of the bytes take.
fn decoding<R: Clock + AllocGlobal>(rt: &R, bytes: &[u8], rounds: u32) -> Result<f64, Error> {
    let start = Instant::now(rt);
    for _ in 0..rounds {
        let _image = decode_image(rt.alloc(), bytes, MAX_COMPONENTS)?;
    }
    seconds_between(start, Instant::now(rt))
}

// The bytes of an image without a fault, tags or done instances. Item k has key k and value k. The environment put those
// with an even key, an instance the others.
fn image_bytes(alloc: Global, items: u32) -> Result<Vec<u8>, AllocError> {
    let mut bytes = Vec::new(alloc);
    bytes.push(0)?;
    bytes.extend_from_slice(&items.to_le_bytes())?;
    for item in 0..items {
        push_item(&mut bytes, item)?;
    }
    bytes.extend_from_slice(&[0; 8])?;
    Ok(bytes)
}

// The bytes of an item.
fn push_item(bytes: &mut Vec<u8>, item: u32) -> Result<(), AllocError> {
    let number = i64::from(item).to_le_bytes();
    bytes.extend_from_slice(&[0, 0, 1])?;
    bytes.extend_from_slice(&number)?;
    bytes.extend_from_slice(&number)?;
    if item % 2 == 0 {
        bytes.push(0)?;
    } else {
        bytes.extend_from_slice(&[1, 0, 0, 1])?;
        bytes.extend_from_slice(&number)?;
        bytes.extend_from_slice(&[0; 4])?;
    }
    Ok(())
}
