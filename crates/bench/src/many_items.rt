//! What puts and look-ups of items take, in the order of their keys and scattered, beside a `BTreeMap` with the same
//! addresses.
ghost use Rattle.std.specs.Prelude.{◌≡◌, length};

use crate::readings::seconds_between;
use anyhow::Error;
use items::Items;
use std::alloc::AllocError;
use std::collections::BTreeMap;
use std::io::Print;
use std::time::{Clock, Instant};
use terms::{Addr, ItemCollection, Key, Producer};

/// Scattered keys follow one another in steps of this size, modulo their number.
const SCATTER: u32 = 7919;

// The items of one collection.
#[derive(Drop)]
struct One {
    items: Items,
    ghost collections: { length items.items.room ≡ 1 },
}

/// Puts `count` items into one collection, and looks each of them up: once in order, and once scattered. Prints the
/// microseconds of a put, with the look whether there is room, and of a look-up.
pub(crate) fn measure<R: Clock + Print + AllocGlobal>(rt: &R, count: u32) -> Result<(), Error> {
    tell(rt, "in order", count, 1)?;
    tell(rt, "scattered", count, SCATTER)
}

fn tell<R: Clock + Print + AllocGlobal>(
    rt: &R,
    name: &str,
    count: u32,
    step: u32,
) -> Result<(), Error> {
    let (put, get) = in_items(rt, count, step)?;
    let (tree_put, tree_get) = in_tree(rt, count, step)?;
    let each = 1e6 / f64::from(count.max(1));
    println!(rt;
        "{name}: a put {:.3} µs, a get {:.3} µs; of a BTreeMap {:.3} µs, {:.3} µs",
        put * each,
        get * each,
        tree_put * each,
        tree_get * each
    )?;
    Ok(())
}

// The address that comes at this turn.
fn address_at(turn: u32, count: u32, step: u32) -> Addr {
    let key = u64::from(turn) * u64::from(step) % u64::from(count.max(1));
    Addr {
        collection: ItemCollection(0),
        key: Key::new(&[key as i64]),
    }
}

fn in_items<R: Clock + AllocGlobal>(rt: &R, count: u32, step: u32) -> Result<(f64, f64), Error> {
    let mut one = One {
        items: Items::new(rt.alloc(), 1)?,
    };
    let put = put_items(rt, &mut one, count, step)?;
    let get = get_items(rt, &one, count, step)?;
    Ok((put, get))
}

fn put_items<R: Clock>(rt: &R, one: &mut One, count: u32, step: u32) -> Result<f64, Error> {
    let start = Instant::now(rt);
    for turn in 0..count {
        put_item(one, address_at(turn, count, step))?;
    }
    seconds_between(start, Instant::now(rt))
}

fn put_item(one: &mut One, address: Addr) -> Result<(), AllocError> {
    if address.collection.0 == 0 {
        one.items.make_room(address.collection, 1)?;
        let _put = one.items.put(address, 1, Producer::Env);
    }
    Ok(())
}

fn get_items<R: Clock>(rt: &R, one: &One, count: u32, step: u32) -> Result<f64, Error> {
    let mut found = 0u32;
    let start = Instant::now(rt);
    for turn in 0..count {
        if one.items.get(address_at(turn, count, step)).is_some() {
            found = found.wrapping_add(1);
        }
    }
    let end = Instant::now(rt);
    anyhow::ensure!(found == count, "{found} of {count} items were found");
    seconds_between(start, end)
}

fn in_tree<R: Clock + AllocGlobal>(rt: &R, count: u32, step: u32) -> Result<(f64, f64), Error> {
    let mut tree = BTreeMap::new(rt.alloc());
    let put = put_in_tree(rt, &mut tree, count, step)?;
    let get = get_from_tree(rt, &tree, count, step)?;
    Ok((put, get))
}

fn put_in_tree<R: Clock>(
    rt: &R,
    tree: &mut BTreeMap<Addr, (i64, Producer)>,
    count: u32,
    step: u32,
) -> Result<f64, Error> {
    let start = Instant::now(rt);
    for turn in 0..count {
        tree.insert(address_at(turn, count, step), (1, Producer::Env))?;
    }
    seconds_between(start, Instant::now(rt))
}

fn get_from_tree<R: Clock>(
    rt: &R,
    tree: &BTreeMap<Addr, (i64, Producer)>,
    count: u32,
    step: u32,
) -> Result<f64, Error> {
    let mut found = 0u32;
    let start = Instant::now(rt);
    for turn in 0..count {
        if tree.get(&address_at(turn, count, step)).is_some() {
            found = found.wrapping_add(1);
        }
    }
    let end = Instant::now(rt);
    anyhow::ensure!(found == count, "{found} of {count} items were found");
    seconds_between(start, end)
}
