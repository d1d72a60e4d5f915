//! A store of Fibonacci numbers, made and filled as the environment and two instances would.
ghost use Rattle.std.specs.Prelude.{◌≡◌, true, false, IfOk, IsTrue, OnOk};
ghost use Rattle.codec.specs.Spelling.{HasFewPuts};
ghost use Rattle.sides.specs.Reading.{IsCanonical};
ghost use Rattle.vault.specs.Store.{IsReady};

use disk::Disk;
use graph::{canonical, parse};
use std::alloc::{AllocError, Global};
use terms::{
    Addr, Event, Inst, ItemCollection, Key, Put, Puts, StepCollection, Tag, TagCollection,
};
use vault::{Vault, VaultError, create};

// Step 0 reads and puts items of collection 0; tags of collection 0 prescribe it.
const GRAPH: &str =
    "[fib: i];\n<n: i>;\n<n> :: (add);\n[fib] -> (add);\n(add) -> [fib];\nenv -> [fib];\nenv -> <n>;\n[fib] -> env;\nstep add(i) {\n  var a, b;\n  read {\n    get a = [fib: (i - 1)];\n    get b = [fib: (i - 2)];\n  }\n  write {\n    put [fib: i] = (a + b);\n  }\n}\n";

/// A new store on a disk.
pub(crate) fn make<D: Disk + Drop>(alloc: Global, disk: D) -> Result<Vault<D>, VaultError>
    ensures { IsTrue D.is_honest → IfOk result (IsReady D.files) }
{
    if !is_canonical(alloc, GRAPH.as_bytes())? {
        return Err(VaultError::NotAStore);
    }
    match create(alloc, disk, GRAPH.as_bytes()) {
        Ok(vault) => Ok(vault),
        Err(refused) => Err(refused.error),
    }
}

// Whether a text is the canonical text of the graph that it reads as.
fn is_canonical(alloc: Global, text: &[u8]) -> Result<bool, AllocError>
    ensures { IfOk result (λ is. is ≡ true → IsCanonical text.now) }
{
    match parse(alloc, text) {
        Ok(graph) => Ok(canonical(alloc, &graph)?.as_slice() == text),
        Err(_) => Ok(false),
    }
}

/// Appends the numbers 0 and 1 and the tags 2 and 3 of the environment, and the ends of both instances.
pub(crate) fn fill<D: Disk>(alloc: Global, vault: &mut Vault<D>) -> Result<(), VaultError>
    requires { IsTrue D.is_honest → vault.old.halted ≡ false → IsReady D.files vault.old }
    ensures { IsTrue D.is_honest → OnOk result (IsReady D.files vault.new) }
{
    vault.append(&Event::EnvItem(number(0), 0))?;
    vault.append(&Event::EnvItem(number(1), 1))?;
    vault.append(&Event::EnvTag(tag(2)))?;
    vault.append(&Event::EnvTag(tag(3)))?;
    vault.append(&added(alloc, 2, 1)?)?;
    vault.append(&added(alloc, 3, 2)?)
}

fn number(key: i64) -> Addr {
    Addr {
        collection: ItemCollection(0),
        key: Key::new(&[key]),
    }
}

fn tag(key: i64) -> Tag {
    Tag {
        collection: TagCollection(0),
        key: Key::new(&[key]),
    }
}

// The end of the instance with this key, which puts one number.
fn added(alloc: Global, key: i64, value: i64) -> Result<Event, AllocError>
    ensures { IfOk result HasFewPuts }
{
    let instance = Inst {
        collection: StepCollection(0),
        key: Key::new(&[key]),
    };
    let mut puts = Vec::new(alloc);
    puts.push(Put::Item(number(key), value))?;
    Ok(Event::Done(instance, Puts::new(puts)))
}
