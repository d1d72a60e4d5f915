//! The spelling of an image, element by element. `encode_fault` and `encode_count` append to `out`; after an error they may have appended a part.
//! They allocate nothing if there is room. The other calls write over bytes that are there.
ghost use Rattle.std.specs.Prelude.{◌≡◌, ◌≤◌, ◌++◌, length, OnOk};
ghost use Rattle.byteorder.specs.Endian.{little_bytes};
ghost use Rattle.terms.specs.declared.key.TheConstants.{MAX_COMPONENTS};
ghost use Rattle.codec.specs.Filling.{FillsFront};
ghost use Rattle.codec.specs.Room.{TakesRoom};
ghost use Rattle.codec.specs.declared.elements.TheConstants.{MOST_BYTES};
ghost use Rattle.codec.specs.Spelling.{IsFault, fault_bytes, inst_bytes, item_bytes, marked_bytes, producer_bytes};

use crate::filling::{fill_instance, fill_item, fill_marked};
use crate::writing::{write_count, write_fault};
use std::alloc::AllocError;
use terms::{Addr, FaultKind, Inst, Key, Producer, Tag};

/// The greatest number of bytes that one of these calls writes.
pub const MOST_BYTES: usize = 96;

/// The instance at fault, or that there is none.
pub fn encode_fault(out: &mut Vec<u8>, fault: &Option<(Inst, FaultKind)>) -> Result<(), AllocError>
    ensures spelled { OnOk result (out.new.items ≡ out.old.items ++ fault_bytes fault.now) }
    ensures in_range { OnOk result (IsFault MAX_COMPONENTS fault.now) }
    ensures room { TakesRoom MOST_BYTES out.old out.new result }
{
    fault_is_short(fault);
    write_fault(out, fault)
}

/// The number of the elements of a list, before them.
pub fn encode_count(out: &mut Vec<u8>, count: u32) -> Result<(), AllocError>
    ensures spelled { OnOk result (out.new.items ≡ out.old.items ++ little_bytes 4 count) }
    ensures room { TakesRoom MOST_BYTES out.old out.new result }
{
    write_count(out, count)
}

/// Writes an item to the front of `out`, and returns the number of its bytes.
pub fn spell_item(out: &mut [u8], item: &(Addr, i64, Producer)) -> usize
    requires { MOST_BYTES ≤ length out.old }
    ensures { FillsFront (item_bytes item.now) out.old out.new result }
{
    is_short(&item.0.key);
    producer_is_short(&item.2);
    fill_item(out, 0, item)
}

/// Writes a tag, with whether the environment put it, to the front of `out`, and returns the number of its bytes.
pub fn spell_tag(out: &mut [u8], tag: &(Tag, bool)) -> usize
    requires { MOST_BYTES ≤ length out.old }
    ensures { FillsFront (marked_bytes tag.now) out.old out.new result }
{
    is_short(&tag.0.key);
    fill_marked(out, 0, tag)
}

/// Writes an instance that is done to the front of `out`, and returns the number of its bytes.
pub fn spell_instance(out: &mut [u8], instance: &Inst) -> usize
    requires { MOST_BYTES ≤ length out.old }
    ensures { FillsFront (inst_bytes instance.now) out.old out.new result }
{
    is_short(&instance.key);
    fill_instance(out, 0, instance)
}

// A law: a key has few components.
fn is_short(key: &Key)
    ensures { length key.now ≤ MAX_COMPONENTS }
{
    let _ = key.components();
}

// A law: so the bytes of a producer are few.
fn producer_is_short(producer: &Producer)
    ensures { length (producer_bytes producer.now) ≤ 40 }
{
    if let Producer::By(instance, _) = producer {
        is_short(&instance.key);
    }
}

// A law: and those of a fault.
fn fault_is_short(fault: &Option<(Inst, FaultKind)>)
    ensures { length (fault_bytes fault.now) ≤ 37 }
{
    if let Some((instance, _)) = fault {
        is_short(&instance.key);
    }
}
