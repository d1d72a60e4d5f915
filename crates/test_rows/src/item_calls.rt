//! Calls on items of three collections: `items`, and below it a line for each call. The result of each call is a line.
//!
//! `put ADDRESS VALUE`, by the environment, or `put ADDRESS VALUE INSTANCE NUMBER`, by the put of an instance with that
//! number; `get ADDRESS`; `wait ADDRESS INSTANCE`; `take ADDRESS`, which takes the instances that wait there; `walk`;
//! and `room COLLECTION COUNT`, which makes room. An address or an instance is the number of its collection and the
//! components of its key: `0:`, `0:5`, `0:5,-1`. Of many items: `fill`, `find` and `alike` (`many_items`).
ghost use Rattle.std.specs.Prelude.{◌≡◌, length};

use crate::many_items;
use crate::telling::{part, tell_instance, tell_item};
use items::Items;
use std::alloc::{AllocError, Global};
use terms::{Addr, Inst, ItemCollection, Key, MAX_COMPONENTS, Producer, StepCollection};

/// The number of collections.
pub(crate) const COLLECTIONS: u16 = 3;

/// The items of three collections.
#[derive(Drop)]
pub(crate) struct Three {
    pub(crate) items: Items,
    ghost collections: { length items.items.room ≡ 3 },
}

/// The results of the calls.
pub(crate) fn answer(alloc: Global, lines: &str) -> Result<String, AllocError> {
    let mut out = String::new(alloc);
    tell_calls(alloc, lines, &mut out)?;
    Ok(out)
}

fn tell_calls(alloc: Global, lines: &str, out: &mut String) -> Result<(), AllocError> {
    let mut three = Three {
        items: Items::new(alloc, 3)?,
    };
    take_lines(alloc, &mut three, lines, out)
}

fn take_lines(
    alloc: Global,
    three: &mut Three,
    lines: &str,
    out: &mut String,
) -> Result<(), AllocError> {
    for line in lines.lines() {
        take_line(alloc, three, line, out)?;
    }
    Ok(())
}

// One call, and its result as a line.
fn take_line(
    alloc: Global,
    three: &mut Three,
    line: &str,
    out: &mut String,
) -> Result<(), AllocError> {
    let mut told = String::new(alloc);
    take(alloc, three, line, &mut told)?;
    writeln!(out, "{}", told.as_str())
}

// One call.
fn take(alloc: Global, three: &mut Three, line: &str, told: &mut String) -> Result<(), AllocError> {
    let (word, rest) = line.split_once(' ').unwrap_or((line, ""));
    let (name, more) = rest.split_once(' ').unwrap_or((rest, ""));
    match word {
        "walk" => return walk(three, told),
        "room" => return make_room(three, name, more, told),
        "fill" => return many_items::fill(three, name, more, told),
        "find" => return many_items::find(three, name, more, told),
        "alike" => return many_items::alike(three, name, more, told),
        _ => {}
    }
    let Some(address) = address_of(alloc, name)? else {
        return told.push_str("no address");
    };
    match word {
        "put" => put(alloc, three, address, more, told),
        "get" => get(three, address, told),
        "wait" => wait(alloc, three, address, more, told),
        "take" => take_waiters(three, address, told),
        _ => told.push_str("no such call"),
    }
}

fn put(
    alloc: Global,
    three: &mut Three,
    address: Addr,
    words: &str,
    told: &mut String,
) -> Result<(), AllocError> {
    let (value, by) = words.split_once(' ').unwrap_or((words, ""));
    match (value.parse::<i64>(), producer_of(alloc, by)?) {
        (Ok(value), Some(producer)) if address.collection.0 < COLLECTIONS => {
            match three.items.put(address, value, producer) {
                Ok(()) => told.push_str("put"),
                Err(error) => write!(told, "{error}"),
            }
        }
        _ => told.push_str("no such put"),
    }
}

fn get(three: &Three, address: Addr, told: &mut String) -> Result<(), AllocError> {
    let asked = address;
    match three.items.get(asked) {
        Some((value, producer)) => tell_item(told, &(address, value, producer)),
        None => told.push_str("absent"),
    }
}

fn walk(three: &Three, told: &mut String) -> Result<(), AllocError> {
    for (address, (value, producer)) in three.items.walk() {
        part(told)?;
        tell_item(told, &(address, value, producer))?;
    }
    if told.is_empty() {
        told.push_str("nothing")?;
    }
    Ok(())
}

fn make_room(
    three: &mut Three,
    collection: &str,
    count: &str,
    told: &mut String,
) -> Result<(), AllocError> {
    match (collection.parse::<u16>(), count.parse::<usize>()) {
        (Ok(number), Ok(count)) if number < COLLECTIONS => {
            let collection = ItemCollection(number);
            match three.items.make_room(collection, count) {
                Ok(()) if three.items.spare(collection) >= count => told.push_str("enough"),
                Ok(()) => told.push_str("too little"),
                Err(_) => told.push_str("no memory"),
            }
        }
        _ => told.push_str("no such room"),
    }
}

fn wait(
    alloc: Global,
    three: &mut Three,
    address: Addr,
    instance: &str,
    told: &mut String,
) -> Result<(), AllocError> {
    let Some(instance) = instance_of(alloc, instance)? else {
        return told.push_str("no instance");
    };
    let asked = address;
    let waiter = instance;
    if three.items.is_waiting(asked, waiter) {
        return told.push_str("waits already");
    }
    three.items.wait_on(address, instance)?;
    told.push_str("waits")
}

fn take_waiters(three: &mut Three, address: Addr, told: &mut String) -> Result<(), AllocError> {
    let waiters = three.items.take_waiters(address);
    tell_waiters(waiters.as_slice(), told)
}

fn tell_waiters(waiters: &[Inst], told: &mut String) -> Result<(), AllocError> {
    for instance in waiters {
        part(told)?;
        tell_instance(told, instance)?;
    }
    if told.is_empty() {
        told.push_str("nobody")?;
    }
    Ok(())
}

fn address_of(alloc: Global, word: &str) -> Result<Option<Addr>, AllocError> {
    Ok(name_of(alloc, word)?.map(|(number, key)| Addr {
        collection: ItemCollection(number),
        key,
    }))
}

fn instance_of(alloc: Global, word: &str) -> Result<Option<Inst>, AllocError> {
    Ok(name_of(alloc, word)?.map(|(number, key)| Inst {
        collection: StepCollection(number),
        key,
    }))
}

// An instance and the number of its put; or the environment, for an empty text.
fn producer_of(alloc: Global, words: &str) -> Result<Option<Producer>, AllocError> {
    if words.is_empty() {
        return Ok(Some(Producer::Env));
    }
    let (instance, number) = words.split_once(' ').unwrap_or((words, ""));
    match (instance_of(alloc, instance)?, number.parse::<u32>()) {
        (Some(instance), Ok(number)) => Ok(Some(Producer::By(instance, number))),
        _ => Ok(None),
    }
}

// The number of a collection, and a key.
fn name_of(alloc: Global, word: &str) -> Result<Option<(u16, Key)>, AllocError> {
    let (number, words) = word.split_once(':').unwrap_or((word, "none"));
    let Ok(number) = number.parse::<u16>() else {
        return Ok(None);
    };
    let mut components = Vec::new(alloc);
    let are_numbers = push_components(words, &mut components)?;
    if !are_numbers || components.len() > MAX_COMPONENTS {
        return Ok(None);
    }
    Ok(Some((number, Key::new(components.as_slice()))))
}

// Appends the components in a text, and returns whether each of them is a number.
fn push_components(words: &str, components: &mut Vec<i64>) -> Result<bool, AllocError> {
    for component in words.split(',').filter(|component| !component.is_empty()) {
        let Ok(component) = component.parse::<i64>() else {
            return Ok(false);
        };
        components.push(component)?;
    }
    Ok(true)
}
