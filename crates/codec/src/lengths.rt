//! The number of bytes that spell an element, without spelling it.

ghost use Rattle.std.specs.Prelude.{◌≡◌, ◌≤◌, FitsSigned, length};
ghost use Rattle.std.specs.Int.{w64};
ghost use Rattle.std.specs.List.{AllByRecursion};
ghost use Rattle.terms.specs.declared.key.TheConstants.{MAX_COMPONENTS};
ghost use Rattle.codec.specs.Spelling.{HasPutNumber, IsInstance, IsItem, IsMarked, IsName, IsNumbered, IsProducer, inst_bytes, item_bytes, marked_bytes, name_bytes, producer_bytes};

use terms::{Addr, Inst, Key, Producer, Tag};

/// The number of the bytes of an item, whose put has a number that a put may have.
pub fn item_length(item: &(Addr, i64, Producer)) -> usize
    requires { HasPutNumber item.now }
    ensures length { result ≡ length (item_bytes item.now) }
    ensures in_range { IsItem MAX_COMPONENTS item.now }
{
    is_in_range(item.1);
    let address = name_length(item.0.collection.0, &item.0.key);
    address + 8 + producer_length(&item.2)
}

/// The number of the bytes of a tag, with whether the environment put it.
pub fn tag_length(tag: &(Tag, bool)) -> usize
    ensures length { result ≡ length (marked_bytes tag.now) }
    ensures in_range { IsMarked MAX_COMPONENTS tag.now }
{
    name_length(tag.0.collection.0, &tag.0.key) + 1
}

/// The number of the bytes of an instance that is done.
pub fn instance_length(instance: &Inst) -> usize
    ensures length { result ≡ length (inst_bytes instance.now) }
    ensures in_range { IsInstance MAX_COMPONENTS instance.now }
    ensures short { result ≤ 35 }
{
    name_length(instance.collection.0, &instance.key)
}

fn producer_length(producer: &Producer) -> usize
    requires { IsNumbered producer.now }
    ensures length { result ≡ length (producer_bytes producer.now) }
    ensures in_range { IsProducer MAX_COMPONENTS producer.now }
    ensures short { result ≤ 40 }
{
    match producer {
        Producer::Env => 1,
        Producer::By(instance, _) => 5 + instance_length(instance),
    }
}

fn name_length(collection: u16, key: &Key) -> usize
    ensures length { result ≡ length (name_bytes collection key.now) }
    ensures in_range { IsName MAX_COMPONENTS collection key.now }
    ensures short { result ≤ 35 }
{
    let components = key.components();
    are_in_range(components);
    3 + 8 * components.len()
}

// A law: each component is a number of 64 bits.
fn are_in_range(components: &[i64])
    ensures { AllByRecursion (FitsSigned w64) components.now }
{
    for component in components {
        is_in_range(*component);
    }
}

// A law: so is a value.
fn is_in_range(value: i64)
    ensures { FitsSigned w64 value }
{}
