//! Calls on many items of a collection: `fill COLLECTION COUNT STEP` puts COUNT items, with the keys STEP, 2 * STEP, .., modulo
//! COUNT; each has its key as its value. `find COLLECTION COUNT MOST` looks for
//! that number of keys by `Items::find`; its result says how many were found with their values, and whether each look-up took at most
//! MOST comparisons. `alike COLLECTION COLLECTION` compares the items of two.
ghost use Rattle.std.specs.Prelude.{◌≡◌};

use crate::item_calls::{COLLECTIONS, Three};
use maps::Steps;
use std::alloc::AllocError;
use terms::{Addr, ItemCollection, Key, Producer};

pub(crate) fn fill(
    three: &mut Three,
    collection: &str,
    words: &str,
    told: &mut String,
) -> Result<(), AllocError> {
    let (count, step) = words.split_once(' ').unwrap_or((words, ""));
    match (
        collection.parse::<u16>(),
        count.parse::<u32>(),
        step.parse::<u32>(),
    ) {
        (Ok(number), Ok(count), Ok(step)) if number < COLLECTIONS => {
            let put = put_many(three, number, count, step);
            write!(told, "{put} put")
        }
        _ => told.push_str("no such puts"),
    }
}

// Puts the items, and returns how many were put.
fn put_many(three: &mut Three, number: u16, count: u32, step: u32) -> u32 {
    let mut put = 0u32;
    if number < COLLECTIONS {
        for at in 0..count {
            let key = ((u64::from(at) + 1) * u64::from(step)) % u64::from(count);
            if put_one(three, number, key as i64) {
                put = put.wrapping_add(1);
            }
        }
    }
    put
}

fn put_one(three: &mut Three, number: u16, key: i64) -> bool {
    if number >= COLLECTIONS {
        return false;
    }
    let address = address_of(number, key);
    three.items.put(address, key, Producer::Env).is_ok()
}

fn address_of(number: u16, key: i64) -> Addr
    ensures { result.collection.0 ≡ number }
{
    Addr {
        collection: ItemCollection(number),
        key: Key::new(&[key]),
    }
}

pub(crate) fn find(
    three: &Three,
    collection: &str,
    words: &str,
    told: &mut String,
) -> Result<(), AllocError> {
    let (count, most) = words.split_once(' ').unwrap_or((words, ""));
    match (
        collection.parse::<u16>(),
        count.parse::<u32>(),
        most.parse::<u64>(),
    ) {
        (Ok(number), Ok(count), Ok(most)) => {
            let (found, beyond) = find_many(three, number, count, most);
            write!(told, "{found} found, {beyond} look-ups took more")
        }
        _ => told.push_str("no such look-ups"),
    }
}

// How many of the keys are there with their values, and how many look-ups took more comparisons than this.
fn find_many(three: &Three, number: u16, count: u32, most: u64) -> (u32, u32) {
    let mut found = 0u32;
    let mut beyond = 0u32;
    for at in 0..count {
        let key = i64::from(at);
        let mut steps = Steps::new();
        let there = three.items.find(address_of(number, key), &mut steps);
        if there.is_some_and(|item| item.0 == key) {
            found = found.wrapping_add(1);
        }
        if steps.made() > most {
            beyond = beyond.wrapping_add(1);
        }
    }
    (found, beyond)
}

pub(crate) fn alike(
    three: &Three,
    one: &str,
    two: &str,
    told: &mut String,
) -> Result<(), AllocError> {
    match (one.parse::<u16>(), two.parse::<u16>()) {
        (Ok(one), Ok(two)) if are_alike(three, one, two) => told.push_str("alike"),
        (Ok(_), Ok(_)) => told.push_str("different"),
        _ => told.push_str("no such collections"),
    }
}

// Whether both collections have the same values under the same keys, in one order.
fn are_alike(three: &Three, one: u16, two: u16) -> bool {
    let mut others = three.items.walk_of(ItemCollection(two));
    for (address, (value, _)) in three.items.walk_of(ItemCollection(one)) {
        match others.next() {
            Some((other, (second, _))) if address.key == other.key && value == second => {}
            _ => return false,
        }
    }
    others.next().is_none()
}
