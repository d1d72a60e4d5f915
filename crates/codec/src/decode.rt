ghost use Rattle.std.specs.Prelude.{◌≡◌, ◌≤◌, ◌⊎◌, [], IfOk, OnOk, IsErrOf};
ghost use Rattle.std.specs.List.{AllByRecursion};
ghost use Rattle.terms.specs.declared.key.TheConstants.{MAX_COMPONENTS};
ghost use Rattle.codec.specs.Answers.{filled, ReadsOrRefused};
ghost use Rattle.codec.specs.Commits.{SpellsCommit};
ghost use Rattle.codec.specs.Image.{IsInOrder};
ghost use Rattle.codec.specs.Spelling.{SpellsEvent, HasFewPuts, SpellsImage};
ghost use Rattle.codec.specs.Reading.{event, done, numbered, kinds, group, payload, counted, one_put, decoded_event, decoded_payload, image, decoded_image};
ghost use Rattle.codec.specs.declared.error.CodecError.TheVariants.{NoMemory};

use crate::lists::{rising, several};
use crate::payload::{GROUP, MOST_EVENTS};
use crate::reader::Reader;
use crate::{CodecError, Image, Instances, Items, Tags};
use std::alloc::Global;
use terms::{Event, MOST_PUTS, Puts};

// The least number of bytes that spell an event: its kind, and a tag that has no component.
const LEAST_EVENT: usize = 4;

/// The event that these bytes spell, with at most `most` components a key, or the bytes' first fault from the left.
///
/// It allocates only for the puts of an instance, and for no more puts than the bytes that are there could spell.
pub fn decode_event(alloc: Global, bytes: &[u8], most: usize) -> Result<Event, CodecError>
    requires { most ≤ MAX_COMPONENTS }
    ensures decoded { IsErrOf result NoMemory ⊎ (result ≡ decoded_event most bytes.now) }
    ensures spelled { IfOk result (SpellsEvent most bytes.now) }
    // It can be encoded again.
    ensures encodable { IfOk result HasFewPuts }
{
    let mut reader = Reader { rest: bytes };
    let event = read_event(alloc, &mut reader, most)?;
    reader.end()?;
    Ok(event)
}

/// Reads the commit that a record's payload spells, with at most `most` components a key, into `events`, or returns the payload's first
/// fault from the left. What `events` held before is let go. After an error it holds a part of the payload or nothing.
///
/// For the events it allocates only if `events` has no room for them, and for no more of them than the bytes that are there could spell;
/// for the puts of each as `decode_event` does.
pub fn decode_payload(
    alloc: Global,
    bytes: &[u8],
    most: usize,
    events: &mut Vec<Event>,
) -> Result<(), CodecError>
    requires { most ≤ MAX_COMPONENTS }
    ensures decoded { IsErrOf result NoMemory ⊎ (filled events.new.items result ≡ decoded_payload most bytes.now) }
    ensures spelled { OnOk result (SpellsCommit most bytes.now events.new.items) }
    // It can be encoded again.
    ensures encodable { OnOk result (AllByRecursion HasFewPuts events.new.items) }
{
    events.clear();
    let mut reader = Reader { rest: bytes };
    read_payload(alloc, &mut reader, most, events)?;
    reader.end()
}

/// The image that these bytes spell, with at most `most` components a key, or the bytes' first fault from the left.
///
/// It allocates for no more elements than the bytes that are there could spell.
pub fn decode_image(alloc: Global, bytes: &[u8], most: usize) -> Result<Image, CodecError>
    requires { most ≤ MAX_COMPONENTS }
    ensures decoded { IsErrOf result NoMemory ⊎ (result ≡ decoded_image most bytes.now) }
    ensures spelled { IfOk result (SpellsImage most bytes.now) }
    // It can be encoded again.
    ensures encodable { IfOk result IsInOrder }
{
    let mut reader = Reader { rest: bytes };
    let image = read_image(alloc, &mut reader, most)?;
    reader.end()?;
    Ok(image)
}

fn read_event(alloc: Global, reader: &mut Reader<'_>, most: usize) -> Result<Event, CodecError>
    requires { most ≤ MAX_COMPONENTS }
    ensures { ReadsOrRefused reader.new.rest.now result (event most reader.old.rest.now) }
{
    let kind = reader.byte()?;
    read_kind(alloc, reader, most, kind)
}

// What is left of an event of this kind.
fn read_kind(
    alloc: Global,
    reader: &mut Reader<'_>,
    most: usize,
    kind: u8,
) -> Result<Event, CodecError>
    requires { most ≤ MAX_COMPONENTS }
    ensures { ReadsOrRefused reader.new.rest.now result (numbered 1 (kinds most) kind reader.old.rest.now) }
{
    match kind {
        1 => {
            let address = reader.address(most)?;
            let value = reader.value()?;
            Ok(Event::EnvItem(address, value))
        }
        2 => Ok(Event::EnvTag(reader.tag(most)?)),
        3 => read_done(alloc, reader, most),
        4 => {
            let instance = reader.instance(most)?;
            let kind = reader.fault_kind()?;
            Ok(Event::Stopped(instance, kind))
        }
        _ => Err(CodecError::Kind),
    }
}

fn read_done(alloc: Global, reader: &mut Reader<'_>, most: usize) -> Result<Event, CodecError>
    requires { most ≤ MAX_COMPONENTS }
    ensures { ReadsOrRefused reader.new.rest.now result (done most reader.old.rest.now) }
{
    let instance = reader.instance(most)?;
    let puts = read_puts(alloc, reader, most)?;
    Ok(Event::Done(instance, puts))
}

fn read_puts(alloc: Global, reader: &mut Reader<'_>, most: usize) -> Result<Puts, CodecError>
    requires { most ≤ MAX_COMPONENTS }
    ensures { ReadsOrRefused reader.new.rest.now result (counted 4 MOST_PUTS (one_put most) reader.old.rest.now) }
{
    let count = reader.count()?;
    if (MOST_PUTS as u32) < count {
        return Err(CodecError::Range);
    }
    Ok(Puts::new(several(alloc, reader, count, most)?))
}

fn read_payload(
    alloc: Global,
    reader: &mut Reader<'_>,
    most: usize,
    events: &mut Vec<Event>,
) -> Result<(), CodecError>
    requires limit { most ≤ MAX_COMPONENTS }
    requires empty { events.old.items ≡ [] }
    ensures { ReadsOrRefused reader.new.rest.now (filled events.new.items result) (payload most reader.old.rest.now) }
{
    let kind = reader.byte()?;
    if kind == GROUP {
        return read_group(alloc, reader, most, events);
    }
    events.push(read_kind(alloc, reader, most, kind)?)?;
    Ok(())
}

// The number of a group's events, and these.
fn read_group(
    alloc: Global,
    reader: &mut Reader<'_>,
    most: usize,
    events: &mut Vec<Event>,
) -> Result<(), CodecError>
    requires limit { most ≤ MAX_COMPONENTS }
    requires empty { events.old.items ≡ [] }
    ensures { ReadsOrRefused reader.new.rest.now (filled events.new.items result) (group most reader.old.rest.now) }
{
    let count = reader.two_bytes()?;
    if count < 2 || (MOST_EVENTS as u16) < count {
        return Err(CodecError::Range);
    }
    events.reserve(usize::from(count).min(reader.rest.len() / LEAST_EVENT))?;
    for _ in 0..count {
        events.push(read_event(alloc, reader, most)?)?;
    }
    Ok(())
}

fn read_image(alloc: Global, reader: &mut Reader<'_>, most: usize) -> Result<Image, CodecError>
    requires { most ≤ MAX_COMPONENTS }
    ensures { ReadsOrRefused reader.new.rest.now result (image most reader.old.rest.now) }
{
    let fault = reader.fault(most)?;
    let items = Items::new(rising(alloc, reader, most)?);
    let tags = Tags::new(rising(alloc, reader, most)?);
    let done = Instances::new(rising(alloc, reader, most)?);
    Ok(Image {
        fault,
        items,
        tags,
        done,
    })
}
