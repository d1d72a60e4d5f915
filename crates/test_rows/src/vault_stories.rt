//! Stories of a store on a memory disk: `store NUMBERS`, and below it a line for each call (`stories`).
//!
//! Calls on the two files, which first close an open store: `write SIDE PLACE BYTES`, `cut SIDE LENGTH`, `sync SIDE`,
//! `length SIDE`, `read SIDE PLACE LENGTH`, `has SIDE BYTES`, `crash BYTES | BYTES`, `leave CHOICE`, a crash that leaves
//! each touched byte as it was `synced`, as it was `written`, or as this number, `calls`, and those of `journals`.
//! `fail NUMBER`: the call of the disk with this number, counted from now, fails. Calls of a store: `create NAME`,
//! `open`, `facts`, `append BYTES` of a payload, `append BYTES | BYTES` of the events of both, and `turn LENGTH`, which writes the image that
//! the last `open` gave through a buffer of this length, or of 4,096 bytes.
use crate::stories::World;
use crate::vaults;
use disk::MemDisk;
use std::alloc::{AllocError, Global};
use test_cases::Names;
use vaults::World as Store;

impl World for Store {
    fn begin(alloc: Global) -> Self {
        Store::Closed(MemDisk::new(alloc))
    }

    fn take(
        &mut self,
        alloc: Global,
        names: &Names,
        number: &str,
        line: &str,
        told: &mut String,
    ) -> Result<(), AllocError> {
        let (word, rest) = line.split_once(' ').unwrap_or((line, ""));
        match word {
            "create" => create(alloc, names, self, rest, told),
            "open" => vaults::open_store(alloc, self, told),
            "facts" => vaults::tell_facts(alloc, self, told),
            "append" => vaults::append_commit(alloc, names, self, rest, told),
            "turn" if rest.is_empty() => vaults::turn_over(alloc, self, 4096, told),
            "turn" if rest == "$" => turn(alloc, self, number, told),
            "turn" => turn(alloc, self, rest, told),
            "fail" if rest == "$" => vaults::fail(alloc, self, number, told),
            "fail" => vaults::fail(alloc, self, rest, told),
            _ => vaults::on_disk(alloc, names, self, word, rest, told),
        }
    }
}

// Makes a store of the text with this name.
fn create(
    alloc: Global,
    names: &Names,
    world: &mut Store,
    name: &str,
    told: &mut String,
) -> Result<(), AllocError> {
    match names.bytes(name) {
        Some(text) => vaults::create_store(alloc, world, text, told),
        None => told.push_str("no such name"),
    }
}

// Turns the store over through a buffer of this length.
fn turn(
    alloc: Global,
    world: &mut Store,
    length: &str,
    told: &mut String,
) -> Result<(), AllocError> {
    match length.parse::<usize>() {
        Ok(length) if length > 0 => vaults::turn_over(alloc, world, length, told),
        _ => told.push_str("no such length"),
    }
}
