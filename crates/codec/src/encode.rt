ghost use Rattle.std.specs.Prelude.{◌≡◌, ◌≤◌, ◌++◌, ◌∷◌, length, take, OnOk};
ghost use Rattle.std.specs.List.{AllByRecursion};
ghost use Rattle.byteorder.specs.Endian.{little_bytes};
ghost use Rattle.terms.specs.declared.key.TheConstants.{MAX_COMPONENTS};
ghost use Rattle.terms.specs.declared.put.TheConstants.{MOST_PUTS};
ghost use Rattle.terms.specs.declared.event.Event.TheVariants.{Done};
ghost use Rattle.codec.specs.declared.payload.TheConstants.{GROUP, MOST_EVENTS};
ghost use Rattle.codec.specs.Commits.{IsCommit, commit_bytes};
ghost use Rattle.codec.specs.Image.{IsInOrder};
ghost use Rattle.codec.specs.Spelling.{HasFewPuts, IsEvent, event_bytes, IsImage, image_bytes};

use crate::Image;
use crate::payload::GROUP;
use crate::writing::{
    write_address, write_each, write_fault, write_instance, write_list, write_tag, write_two_bytes,
    write_value,
};
use std::alloc::AllocError;
use terms::{Event, Inst, MAX_COMPONENTS, Put};

// The most bytes of an event without an instance's puts: its kind, a collection, the number of components, these, and a value.
const GREATEST: usize = 1 + 2 + 1 + 8 * MAX_COMPONENTS + 8;

/// Appends the spelling of an event. After an error a part of it may have been appended.
pub fn encode_event(out: &mut Vec<u8>, event: &Event) -> Result<(), AllocError>
    requires { HasFewPuts event.now }
    ensures spelled { OnOk result (out.new.items ≡ out.old.items ++ event_bytes event.now) }
    ensures in_range { OnOk result (IsEvent MAX_COMPONENTS event.now) }
    ensures kept { take (length out.old.items) out.new.items ≡ out.old.items }
{
    out.reserve(GREATEST)?;
    match event {
        Event::EnvItem(address, value) => {
            out.push(1)?;
            write_address(out, address)?;
            write_value(out, *value)
        }
        Event::EnvTag(tag) => {
            out.push(2)?;
            write_tag(out, tag)
        }
        Event::Done(instance, puts) => encode_done(out, instance, puts.as_slice()),
        Event::Stopped(instance, kind) => {
            out.push(4)?;
            write_instance(out, instance)?;
            Ok(out.push(kind.number())?)
        }
    }
}

/// Appends the spelling of the event that an instance is done with these puts, which need not be the event's own. After an error a part of
/// it may have been appended.
pub fn encode_done(out: &mut Vec<u8>, instance: &Inst, puts: &[Put]) -> Result<(), AllocError>
    requires { length puts.now ≤ MOST_PUTS }
    ensures spelled { OnOk result (out.new.items ≡ out.old.items ++ event_bytes (Done instance.now puts.now)) }
    ensures in_range { OnOk result (IsEvent MAX_COMPONENTS (Done instance.now puts.now)) }
    ensures kept { take (length out.old.items) out.new.items ≡ out.old.items }
{
    out.push(3)?;
    write_instance(out, instance)?;
    write_list(out, puts)
}

/// Appends what the payload of a group of this many events begins with; the bytes of the events follow it. After an error a part of it may
/// have been appended.
pub fn encode_group_head(out: &mut Vec<u8>, count: u16) -> Result<(), AllocError>
    ensures spelled { OnOk result (out.new.items ≡ out.old.items ++ GROUP ∷ little_bytes 2 count) }
    ensures kept { take (length out.old.items) out.new.items ≡ out.old.items }
{
    out.push(GROUP)?;
    write_two_bytes(out, count)
}

/// Appends the payload that spells a commit: the bytes of its one event, or a group. After an error a part of it may have been appended.
pub fn encode_payload(out: &mut Vec<u8>, commit: &[Event]) -> Result<(), AllocError>
    requires some { 1 ≤ length commit.now }
    requires few { length commit.now ≤ MOST_EVENTS }
    requires puts { AllByRecursion HasFewPuts commit.now }
    ensures spelled { OnOk result (out.new.items ≡ out.old.items ++ commit_bytes commit.now) }
    ensures in_range { OnOk result (IsCommit MAX_COMPONENTS commit.now) }
    ensures kept { take (length out.old.items) out.new.items ≡ out.old.items }
{
    if commit.len() == 1 {
        return encode_event(out, &commit[0]);
    }
    encode_group_head(out, commit.len() as u16)?;
    write_each(out, commit)
}

/// Appends the spelling of an image. After an error a part of it may have been appended.
pub fn encode_image(out: &mut Vec<u8>, image: &Image) -> Result<(), AllocError>
    requires { IsInOrder image.now }
    ensures spelled { OnOk result (out.new.items ≡ out.old.items ++ image_bytes image.now) }
    ensures in_range { OnOk result (IsImage MAX_COMPONENTS image.now) }
    ensures kept { take (length out.old.items) out.new.items ≡ out.old.items }
{
    write_fault(out, &image.fault)?;
    write_list(out, image.items.as_slice())?;
    write_list(out, image.tags.as_slice())?;
    write_list(out, image.done.as_slice())
}
