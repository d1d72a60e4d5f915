//! Bytes of events, payloads and images: what they are read as, and whether encoding that gives the same bytes again.
ghost use Rattle.std.specs.Prelude.{◌≤◌, length};
ghost use Rattle.std.specs.List.{AllByRecursion};
ghost use Rattle.terms.specs.declared.key.TheConstants.{MAX_COMPONENTS};
ghost use Rattle.codec.specs.declared.payload.TheConstants.{MOST_EVENTS};
ghost use Rattle.codec.specs.Image.{IsInOrder};
ghost use Rattle.codec.specs.Spelling.{HasFewPuts};

use crate::telling::{tell_event, tell_events, tell_image};
use codec::{
    CodecError, Image, decode_event, decode_image, decode_payload, encode_event, encode_image,
    encode_payload,
};
use std::alloc::{AllocError, Global};
use terms::{Event, MAX_COMPONENTS, same_event};

/// What bytes may spell.
#[derive(Clone, Copy)]
pub(crate) enum Spelled {
    Event,
    Payload,
    Image,
}

/// The event that the bytes spell, with at most `most` components a key, or their fault. A clone of it is encoded again.
pub(crate) fn event(alloc: Global, bytes: &[u8], most: usize) -> Result<String, AllocError>
    requires { most ≤ MAX_COMPONENTS }
{
    let mut out = String::new(alloc);
    match decode_event(alloc, bytes, most) {
        Ok(event) => tell_spelled_event(alloc, &mut out, &event, bytes)?,
        Err(fault) => writeln!(out, "{fault}")?,
    }
    Ok(out)
}

// Writes an event, and what a clone of it is encoded as, if that is not these bytes.
fn tell_spelled_event(
    alloc: Global,
    out: &mut String,
    event: &Event,
    bytes: &[u8],
) -> Result<(), AllocError>
    requires { HasFewPuts event.now }
{
    tell_event(out, event)?;
    let clone = event.try_clone(alloc)?;
    tell_clone(out, event, &clone)?;
    compare_event(alloc, out, &clone, bytes)
}

fn tell_clone(out: &mut String, event: &Event, clone: &Event) -> Result<(), AllocError> {
    if same_event(event, clone) {
        Ok(())
    } else {
        out.push_str(", cloned as another")
    }
}

fn compare_event(
    alloc: Global,
    out: &mut String,
    event: &Event,
    bytes: &[u8],
) -> Result<(), AllocError>
    requires { HasFewPuts event.now }
{
    let mut again = Vec::new(alloc);
    encode_event(&mut again, event)?;
    compare(out, bytes, &again)
}

/// The events of the commit that the bytes of a payload spell, with at most `most` components a key, or their fault.
pub(crate) fn payload(alloc: Global, bytes: &[u8], most: usize) -> Result<String, AllocError>
    requires { most ≤ MAX_COMPONENTS }
{
    let mut out = String::new(alloc);
    tell_payload(alloc, &mut out, bytes, most)?;
    Ok(out)
}

fn tell_payload(
    alloc: Global,
    out: &mut String,
    bytes: &[u8],
    most: usize,
) -> Result<(), AllocError>
    requires { most ≤ MAX_COMPONENTS }
{
    let mut commit = Vec::new(alloc);
    match decode_payload(alloc, bytes, most, &mut commit) {
        Ok(()) => tell_spelled_commit(alloc, out, &commit, bytes),
        Err(fault) => writeln!(out, "{fault}"),
    }
}

// Writes the events of a commit, and what they are encoded as, if that is not these bytes.
fn tell_spelled_commit(
    alloc: Global,
    out: &mut String,
    commit: &[Event],
    bytes: &[u8],
) -> Result<(), AllocError>
    requires some { 1 ≤ length commit.now }
    requires few { length commit.now ≤ MOST_EVENTS }
    requires puts { AllByRecursion HasFewPuts commit.now }
{
    tell_events(out, commit)?;
    let mut again = Vec::new(alloc);
    encode_payload(&mut again, commit)?;
    compare(out, bytes, &again)
}

/// The image that the bytes spell, with at most `most` components a key, or their fault.
pub(crate) fn image(alloc: Global, bytes: &[u8], most: usize) -> Result<String, AllocError>
    requires { most ≤ MAX_COMPONENTS }
{
    let mut out = String::new(alloc);
    match decode_image(alloc, bytes, most) {
        Ok(image) => tell_spelled_image(alloc, &mut out, &image, bytes)?,
        Err(fault) => writeln!(out, "{fault}")?,
    }
    Ok(out)
}

// Writes an image, and what it is encoded as, if that is not these bytes.
fn tell_spelled_image(
    alloc: Global,
    out: &mut String,
    image: &Image,
    bytes: &[u8],
) -> Result<(), AllocError>
    requires { IsInOrder image.now }
{
    tell_image(out, image)?;
    let mut again = Vec::new(alloc);
    encode_image(&mut again, image)?;
    compare(out, bytes, &again)
}

// Writes the bytes that a value is encoded as, if they are not those that it was read from.
fn compare(out: &mut String, bytes: &[u8], again: &[u8]) -> Result<(), AllocError> {
    if again != bytes {
        write!(out, ", spelled {again:?}")?;
    }
    out.push_str("\n")
}

/// How many proper prefixes the bytes have, and how many of them are refused as short.
pub(crate) fn beginnings(
    alloc: Global,
    bytes: &[u8],
    spelled: Spelled,
) -> Result<String, AllocError> {
    let mut short = 0u64;
    for length in 0..bytes.len() {
        if fault_of(alloc, &bytes[..length], spelled) == Some(CodecError::Short) {
            short = short.saturating_add(1);
        }
    }
    format!(in alloc; "{short} of {} short\n", bytes.len())
}

// Why the bytes are refused, if they are.
fn fault_of(alloc: Global, bytes: &[u8], spelled: Spelled) -> Option<CodecError> {
    match spelled {
        Spelled::Event => decode_event(alloc, bytes, MAX_COMPONENTS).err(),
        Spelled::Payload => {
            decode_payload(alloc, bytes, MAX_COMPONENTS, &mut Vec::new(alloc)).err()
        }
        Spelled::Image => decode_image(alloc, bytes, MAX_COMPONENTS).err(),
    }
}
