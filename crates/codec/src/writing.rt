//! A writer for each field: it appends the field's bytes. After an error some of them may have been appended.

ghost use Rattle.std.specs.Prelude.{◌≡◌, ◌++◌, ◌<◌, ◌^◌, FitsSigned, length, take, OnOk};
ghost use Rattle.std.specs.Int.{w64};
ghost use Rattle.std.specs.List.{flat_map, AllByRecursion};
ghost use Rattle.byteorder.specs.Endian.{little_bytes};
ghost use Rattle.terms.specs.declared.key.TheConstants.{MAX_COMPONENTS};
ghost use Rattle.codec.specs.Room.{TakesRoom};
ghost use Rattle.codec.specs.Spelling.{value_bytes, name_bytes, addr_bytes, tag_bytes, inst_bytes, IsName, IsInstance, list_bytes, producer_bytes, IsProducer, IsNumbered, fault_bytes, IsFault, item_bytes, IsItem, HasPutNumber, marked_bytes, IsMarked};

use crate::spelled::Spelled;
use byteorder::{ByteOrder, LittleEndian};
use std::alloc::AllocError;
use terms::{Addr, FaultKind, Inst, Key, Producer, Tag};

/// The number of a collection, or of the events of a group.
pub(crate) fn write_two_bytes(out: &mut Vec<u8>, number: u16) -> Result<(), AllocError>
    ensures spelled { OnOk result (out.new.items ≡ out.old.items ++ little_bytes 2 number) }
    ensures kept { take (length out.old.items) out.new.items ≡ out.old.items }
    ensures room { TakesRoom (length (little_bytes 2 number)) out.old out.new result }
{
    let mut bytes = [0; 2];
    LittleEndian::write_u16(&mut bytes, number);
    out.extend_from_slice(&bytes)
}

/// A count of elements, or the number of a put.
pub(crate) fn write_count(out: &mut Vec<u8>, count: u32) -> Result<(), AllocError>
    ensures spelled { OnOk result (out.new.items ≡ out.old.items ++ little_bytes 4 count) }
    ensures kept { take (length out.old.items) out.new.items ≡ out.old.items }
    ensures room { TakesRoom (length (little_bytes 4 count)) out.old out.new result }
{
    let mut bytes = [0; 4];
    LittleEndian::write_u32(&mut bytes, count);
    out.extend_from_slice(&bytes)
}

/// A value, or a component of a key.
pub(crate) fn write_value(out: &mut Vec<u8>, value: i64) -> Result<(), AllocError>
    ensures spelled { OnOk result (out.new.items ≡ out.old.items ++ value_bytes value) }
    ensures in_range { FitsSigned w64 value }
    ensures kept { take (length out.old.items) out.new.items ≡ out.old.items }
    ensures room { TakesRoom (length (value_bytes value)) out.old out.new result }
{
    let mut bytes = [0; 8];
    LittleEndian::write_i64(&mut bytes, value);
    out.extend_from_slice(&bytes)
}

pub(crate) fn write_address(out: &mut Vec<u8>, address: &Addr) -> Result<(), AllocError>
    ensures spelled { OnOk result (out.new.items ≡ out.old.items ++ addr_bytes address.now) }
    ensures in_range { OnOk result (IsName MAX_COMPONENTS address.now.collection.0 address.now.key) }
    ensures kept { take (length out.old.items) out.new.items ≡ out.old.items }
    ensures room { TakesRoom (length (addr_bytes address.now)) out.old out.new result }
{
    write_name(out, address.collection.0, &address.key)
}

pub(crate) fn write_tag(out: &mut Vec<u8>, tag: &Tag) -> Result<(), AllocError>
    ensures spelled { OnOk result (out.new.items ≡ out.old.items ++ tag_bytes tag.now) }
    ensures in_range { OnOk result (IsName MAX_COMPONENTS tag.now.collection.0 tag.now.key) }
    ensures kept { take (length out.old.items) out.new.items ≡ out.old.items }
    ensures room { TakesRoom (length (tag_bytes tag.now)) out.old out.new result }
{
    write_name(out, tag.collection.0, &tag.key)
}

pub(crate) fn write_instance(out: &mut Vec<u8>, instance: &Inst) -> Result<(), AllocError>
    ensures spelled { OnOk result (out.new.items ≡ out.old.items ++ inst_bytes instance.now) }
    ensures in_range { OnOk result (IsInstance MAX_COMPONENTS instance.now) }
    ensures kept { take (length out.old.items) out.new.items ≡ out.old.items }
    ensures room { TakesRoom (length (inst_bytes instance.now)) out.old out.new result }
{
    write_name(out, instance.collection.0, &instance.key)
}

pub(crate) fn write_producer(out: &mut Vec<u8>, producer: &Producer) -> Result<(), AllocError>
    requires { IsNumbered producer.now }
    ensures spelled { OnOk result (out.new.items ≡ out.old.items ++ producer_bytes producer.now) }
    ensures in_range { OnOk result (IsProducer MAX_COMPONENTS producer.now) }
    ensures kept { take (length out.old.items) out.new.items ≡ out.old.items }
    ensures room { TakesRoom (length (producer_bytes producer.now)) out.old out.new result }
{
    match producer {
        Producer::Env => Ok(out.push(0)?),
        Producer::By(instance, number) => {
            out.push(1)?;
            write_instance(out, instance)?;
            write_count(out, *number)
        }
    }
}

/// An item of an image.
pub(crate) fn write_item(out: &mut Vec<u8>, item: &(Addr, i64, Producer)) -> Result<(), AllocError>
    requires { HasPutNumber item.now }
    ensures spelled { OnOk result (out.new.items ≡ out.old.items ++ item_bytes item.now) }
    ensures in_range { OnOk result (IsItem MAX_COMPONENTS item.now) }
    ensures kept { take (length out.old.items) out.new.items ≡ out.old.items }
    ensures room { TakesRoom (length (item_bytes item.now)) out.old out.new result }
{
    write_address(out, &item.0)?;
    write_value(out, item.1)?;
    write_producer(out, &item.2)
}

/// A tag of an image, with whether the environment put it.
pub(crate) fn write_marked(out: &mut Vec<u8>, tag: &(Tag, bool)) -> Result<(), AllocError>
    ensures spelled { OnOk result (out.new.items ≡ out.old.items ++ marked_bytes tag.now) }
    ensures in_range { OnOk result (IsMarked MAX_COMPONENTS tag.now) }
    ensures kept { take (length out.old.items) out.new.items ≡ out.old.items }
    ensures room { TakesRoom (length (marked_bytes tag.now)) out.old out.new result }
{
    write_tag(out, &tag.0)?;
    Ok(out.push(u8::from(tag.1))?)
}

/// The instance at fault of an image, if there is one.
pub(crate) fn write_fault(
    out: &mut Vec<u8>,
    fault: &Option<(Inst, FaultKind)>,
) -> Result<(), AllocError>
    ensures spelled { OnOk result (out.new.items ≡ out.old.items ++ fault_bytes fault.now) }
    ensures in_range { OnOk result (IsFault MAX_COMPONENTS fault.now) }
    ensures kept { take (length out.old.items) out.new.items ≡ out.old.items }
    ensures room { TakesRoom (length (fault_bytes fault.now)) out.old out.new result }
{
    match fault {
        None => Ok(out.push(0)?),
        Some((instance, kind)) => {
            out.push(1)?;
            write_instance(out, instance)?;
            Ok(out.push(kind.number())?)
        }
    }
}

fn write_name(out: &mut Vec<u8>, collection: u16, key: &Key) -> Result<(), AllocError>
    ensures spelled { OnOk result (out.new.items ≡ out.old.items ++ name_bytes collection key.now) }
    ensures in_range { OnOk result (IsName MAX_COMPONENTS collection key.now) }
    ensures kept { take (length out.old.items) out.new.items ≡ out.old.items }
    ensures room { TakesRoom (length (name_bytes collection key.now)) out.old out.new result }
{
    let components = key.components();
    write_two_bytes(out, collection)?;
    out.push(components.len() as u8)?;
    write_components(out, components)
}

fn write_components(out: &mut Vec<u8>, components: &[i64]) -> Result<(), AllocError>
    ensures spelled { OnOk result (out.new.items ≡ out.old.items ++ flat_map value_bytes components.now) }
    ensures in_range { OnOk result (AllByRecursion (FitsSigned w64) components.now) }
    ensures kept { take (length out.old.items) out.new.items ≡ out.old.items }
    ensures room { TakesRoom (length (flat_map value_bytes components.now)) out.old out.new result }
{
    for component in components {
        write_value(out, *component)?;
    }
    Ok(())
}

/// A list: the number of its elements, and the elements.
pub(crate) fn write_list<T: Spelled>(out: &mut Vec<u8>, elements: &[T]) -> Result<(), AllocError>
    requires few { length elements.now < 2 ^ 32 }
    requires each { AllByRecursion T.May elements.now }
    ensures spelled { OnOk result (out.new.items ≡ out.old.items ++ list_bytes T.spelling elements.now) }
    ensures in_range { OnOk result (AllByRecursion T.Is elements.now) }
    ensures kept { take (length out.old.items) out.new.items ≡ out.old.items }
{
    write_count(out, elements.len() as u32)?;
    write_each(out, elements)
}

/// The elements of a list, one after another.
pub(crate) fn write_each<T: Spelled>(out: &mut Vec<u8>, elements: &[T]) -> Result<(), AllocError>
    requires { AllByRecursion T.May elements.now }
    ensures spelled { OnOk result (out.new.items ≡ out.old.items ++ flat_map T.spelling elements.now) }
    ensures in_range { OnOk result (AllByRecursion T.Is elements.now) }
    ensures kept { take (length out.old.items) out.new.items ≡ out.old.items }
{
    for element in elements {
        element.write(out)?;
    }
    Ok(())
}
