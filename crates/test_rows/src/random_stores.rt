//! Stores that come about at random: the environment puts items and tags with small keys, so that they meet, and some steps
//! run in between.
use crate::cores::{Store, ran};
use crate::random::Random;
use commit::Core;
use disk::MemDisk;
use graph::Graph;
use std::alloc::Global;
use terms::{Addr, ItemCollection, Key, MAX_COMPONENTS, Tag, TagCollection};

/// Lets a store go on at random, for 5 to 40 actions.
pub(crate) fn grow(alloc: Global, store: &mut Store, random: &mut Random) {
    for _ in 0..5 + random.below(36) {
        act(alloc, store, random);
    }
}

// Lets at most six steps end, or puts an item or a tag. What is refused changes nothing.
fn act(alloc: Global, store: &mut Store, random: &mut Random) {
    if random.below(3) == 0 {
        let limit = 1 + random.below(6) as u64;
        let _ = ran(alloc, store, random, limit);
    } else if let Store::Open(core) = store {
        put(core, random);
    }
}

// Puts an item, or, half of the times and where that is refused, a tag.
fn put(core: &mut Core<MemDisk>, random: &mut Random) {
    if random.below(2) == 0 || !put_item(core, random) {
        put_tag(core, random);
    }
}

// Puts an item. Returns whether it was put.
fn put_item(core: &mut Core<MemDisk>, random: &mut Random) -> bool {
    match some_address(core.graph(), random) {
        Some(address) => core.put_item(address, some_value(random)).is_ok(),
        None => false,
    }
}

fn put_tag(core: &mut Core<MemDisk>, random: &mut Random) {
    if let Some(tag) = some_tag(core.graph(), random) {
        let _ = core.put_tag(tag);
    }
}

/// An address of the graph, if it has any.
pub(crate) fn some_address(graph: &Graph, random: &mut Random) -> Option<Addr> {
    let count = graph.item_count();
    if count == 0 {
        return None;
    }
    let collection = ItemCollection(random.below(count) as u16);
    let components = graph.item_components(collection)?;
    let key = some_key(components, random);
    Some(Addr { collection, key })
}

/// A tag of the graph, if it has any.
pub(crate) fn some_tag(graph: &Graph, random: &mut Random) -> Option<Tag> {
    let count = graph.tag_count();
    if count == 0 {
        return None;
    }
    let collection = TagCollection(random.below(count) as u16);
    let components = graph.tag_components(collection)?;
    let key = some_key(components, random);
    Some(Tag { collection, key })
}

/// A key with this number of components.
pub(crate) fn some_key(count: usize, random: &mut Random) -> Key {
    let components = [
        some_component(random),
        some_component(random),
        some_component(random),
        some_component(random),
    ];
    Key::new(&components[..count.min(MAX_COMPONENTS)])
}

// A number from 0 to 5, and a smaller one more often.
fn some_component(random: &mut Random) -> i64 {
    let most = random.below(6);
    random.below(most + 1) as i64
}

/// A value: mostly a small one; else one of which a step may put too many, or whose square is too large.
pub(crate) fn some_value(random: &mut Random) -> i64 {
    match random.below(16) {
        0 => 5000,
        1 => 1 << 40,
        _ => random.below(5) as i64,
    }
}
