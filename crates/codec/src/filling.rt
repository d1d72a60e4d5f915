//! A writer for each field of an element, over bytes that are there: it writes the field's bytes from a place on, and returns the place
//! after them.

ghost use Rattle.std.specs.Prelude.{◌≡◌, ◌≤◌, ◌+◌, ◌*◌, ◌∷◌, [], length, if◌then◌else◌};
ghost use Rattle.std.specs.List.{flat_map};
ghost use Rattle.byteorder.specs.Endian.{little_bytes};
ghost use Rattle.codec.specs.Filling.{Fills};
ghost use Rattle.codec.specs.Spelling.{inst_bytes, item_bytes, marked_bytes, name_bytes, producer_bytes, value_bytes};

use byteorder::{ByteOrder, LittleEndian};
use terms::{Addr, Inst, Key, Producer, Tag};

/// An item of an image.
pub(crate) fn fill_item(out: &mut [u8], place: usize, item: &(Addr, i64, Producer)) -> usize
    requires { place + 83 ≤ length out.old }
    ensures { Fills (item_bytes item.now) place out.old out.new result }
{
    let place = fill_name(out, place, item.0.collection.0, &item.0.key);
    let place = fill_value(out, place, item.1);
    fill_producer(out, place, &item.2)
}

/// A tag of an image, with whether the environment put it.
pub(crate) fn fill_marked(out: &mut [u8], place: usize, tag: &(Tag, bool)) -> usize
    requires { place + 36 ≤ length out.old }
    ensures { Fills (marked_bytes tag.now) place out.old out.new result }
{
    let place = fill_name(out, place, tag.0.collection.0, &tag.0.key);
    fill_bytes(out, place, &[u8::from(tag.1)])
}

/// An instance.
pub(crate) fn fill_instance(out: &mut [u8], place: usize, instance: &Inst) -> usize
    requires { place + 35 ≤ length out.old }
    ensures fills { Fills (inst_bytes instance.now) place out.old out.new result }
    ensures short { result ≤ place + 35 }
{
    fill_name(out, place, instance.collection.0, &instance.key)
}

fn fill_producer(out: &mut [u8], place: usize, producer: &Producer) -> usize
    requires { place + 40 ≤ length out.old }
    ensures { Fills (producer_bytes producer.now) place out.old out.new result }
{
    match producer {
        Producer::Env => fill_bytes(out, place, &[0]),
        Producer::By(instance, number) => {
            let place = fill_bytes(out, place, &[1]);
            let place = fill_instance(out, place, instance);
            fill_count(out, place, *number)
        }
    }
}

// A name, which has 35 bytes at most.
fn fill_name(out: &mut [u8], place: usize, collection: u16, key: &Key) -> usize
    requires { place + 35 ≤ length out.old }
    ensures fills { Fills (name_bytes collection key.now) place out.old out.new result }
    ensures short { result ≤ place + 35 }
{
    let components = key.components();
    let place = fill_two_bytes(out, place, collection);
    let place = fill_bytes(out, place, &[components.len() as u8]);
    fill_components(out, place, components)
}

fn fill_components(out: &mut [u8], place: usize, components: &[i64]) -> usize
    requires { place + 8 * length components.now ≤ length out.old }
    ensures { Fills (flat_map value_bytes components.now) place out.old out.new result }
{
    let mut place = place;
    for component in components {
        place = fill_value(out, place, *component);
    }
    place
}

// A value, or a component of a key.
fn fill_value(out: &mut [u8], place: usize, value: i64) -> usize
    requires { place + 8 ≤ length out.old }
    ensures { Fills (value_bytes value) place out.old out.new result }
{
    let mut bytes = [0; 8];
    LittleEndian::write_i64(&mut bytes, value);
    fill_bytes(out, place, &bytes)
}

// The number of a put.
fn fill_count(out: &mut [u8], place: usize, count: u32) -> usize
    requires { place + 4 ≤ length out.old }
    ensures { Fills (little_bytes 4 count) place out.old out.new result }
{
    let mut bytes = [0; 4];
    LittleEndian::write_u32(&mut bytes, count);
    fill_bytes(out, place, &bytes)
}

// The number of a collection.
fn fill_two_bytes(out: &mut [u8], place: usize, number: u16) -> usize
    requires { place + 2 ≤ length out.old }
    ensures { Fills (little_bytes 2 number) place out.old out.new result }
{
    let mut bytes = [0; 2];
    LittleEndian::write_u16(&mut bytes, number);
    fill_bytes(out, place, &bytes)
}

fn fill_bytes(out: &mut [u8], place: usize, bytes: &[u8]) -> usize
    requires { place + length bytes.now ≤ length out.old }
    ensures { Fills bytes.now place out.old out.new result }
{
    let end = place + bytes.len();
    out[place..end].copy_from_slice(bytes);
    end
}
