//! Stores of the graph that all rows use.
ghost use Rattle.std.specs.Prelude.{false, IfOk};

use anyhow::{Error, bail};
use commit::Core;
use disk::{Disk, Side};
use std::alloc::Global;
use terms::{Addr, ItemCollection, Key, Tag, TagCollection};

const FIBONACCI: &str =
    "[fib: i]; <n: i>; <n> :: (add); [fib] -> (add); (add) -> [fib]; env -> [fib]; env -> <n>; [fib] -> env;
step add(i) { var a, b; read { get a = [fib: i - 1]; get b = [fib: i - 2]; } write { put [fib: i] = a + b; } }";

/// A new store of Fibonacci numbers.
pub(crate) fn created<D: Disk + Drop>(alloc: Global, disk: D) -> Result<Core<D>, Error> {
    match Core::create(alloc, disk, FIBONACCI.as_bytes()) {
        Ok(core) => Ok(core),
        Err(refused) => bail!("no store was made: {:?}", refused.error),
    }
}

/// `[fib: key]`
pub(crate) fn fib(key: i64) -> Addr {
    Addr {
        collection: ItemCollection(0),
        key: Key::new(&[key]),
    }
}

/// `<n: key>`
pub(crate) fn number(key: i64) -> Tag {
    Tag {
        collection: TagCollection(0),
        key: Key::new(&[key]),
    }
}

/// How many bytes the file A has.
pub(crate) fn bytes<D: Disk + Drop>(core: Core<D>) -> Result<u64, Error> {
    let mut disk = core.into_disk();
    Ok(disk.len(Side::A)?)
}
