//! Stories of a store on a memory disk with its steps: `core NUMBERS`, and below it a line for each call (`stories`).
//!
//! `create NAME`, `open`; `tag <n: 2>`, `put [fib: 0] = 0`, `get [fib: 1]`; `run CHOOSER LIMIT`, with a chooser of
//! `choosers`; `together NUMBER` (`together`); `status`, `report ADDRESS; ADDRESS..`, `items NAME`, `counts`, `ready`,
//! `turn`. `fail NUMBER`: the call of the disk with this number, counted from now, fails. All other words are calls on
//! the two files, which first close the store (`disks`).
use crate::choosers::Chooser;
use crate::stories::World;
use crate::{core_calls as calls, disks};
use commit::{Choose, Core, CreateError, NotCreated, RunError, Verdict, run_with};
use disk::MemDisk;
use std::alloc::{AllocError, Global};
use std::mem;
use test_cases::Names;
use vault::{Refused, VaultError};

/// A disk, or a store that is open on it.
pub(crate) enum Store {
    Closed(MemDisk),
    Open(Core<MemDisk>),
}

impl Drop for Store {
    // By hand, so that dropping a store is one call, wherever it is dropped.
    fn drop(self) {
        match self {
            Store::Closed(_) => {}
            Store::Open(_) => {}
        }
    }
}

impl Store {
    /// The disk, closed.
    pub(crate) fn into_disk(self) -> MemDisk {
        match self {
            Store::Closed(disk) => disk,
            Store::Open(core) => core.into_disk(),
        }
    }

    // The open store, or the disk if none is open.
    fn into_core(self) -> Result<Core<MemDisk>, MemDisk> {
        match self {
            Store::Closed(disk) => Err(disk),
            Store::Open(core) => Ok(core),
        }
    }

    fn is_open(&self) -> bool {
        matches!(self, Store::Open(_))
    }

    // Takes the disk out, closed, for a call that consumes it. Its caller puts a store back.
    fn disk(&mut self, alloc: Global) -> MemDisk {
        mem::replace(self, Store::Closed(MemDisk::new(alloc))).into_disk()
    }
}

impl World for Store {
    fn begin(alloc: Global) -> Self {
        Store::Closed(MemDisk::new(alloc))
    }

    fn take(
        &mut self,
        alloc: Global,
        names: &Names,
        number: &str,
        line: &str,
        told: &mut String,
    ) -> Result<(), AllocError> {
        let (word, rest) = line.split_once(' ').unwrap_or((line, ""));
        match word {
            "create" => create(alloc, names, self, rest, told),
            "open" => open(alloc, self, told),
            "fail" => fail(alloc, self, if rest == "$" { number } else { rest }, told),
            "crash" | "leave" | "length" | "has" | "write" => on_disk(
                alloc, names, self, word, rest, told,
            ),
            "run" if self.is_open() => run(alloc, self, rest, told),
            _ => on_core(alloc, self, word, rest, told),
        }
    }
}

// A call on the files.
fn on_disk(
    alloc: Global,
    names: &Names,
    store: &mut Store,
    word: &str,
    rest: &str,
    told: &mut String,
) -> Result<(), AllocError> {
    let mut disk = store.disk(alloc);
    let done = disks::take(alloc, names, &mut disk, word, rest, told);
    *store = Store::Closed(disk);
    done
}

// A call of a store.
fn on_core(
    alloc: Global,
    store: &mut Store,
    word: &str,
    rest: &str,
    told: &mut String,
) -> Result<(), AllocError> {
    match store {
        Store::Open(core) => calls::take(alloc, core, word, rest, told),
        Store::Closed(_) => told.push_str("closed"),
    }
}

// Runs the steps, at most a limit of them to their end, and writes how that ended.
fn run(alloc: Global, store: &mut Store, words: &str, told: &mut String) -> Result<(), AllocError> {
    let (name, limit) = words.split_once(' ').unwrap_or((words, "1000000000"));
    let Some(mut chooser) = Chooser::named(alloc, name)? else {
        return told.push_str("no such chooser");
    };
    let ran = ran(
        alloc,
        store,
        &mut chooser,
        limit.parse::<u64>().unwrap_or(0),
    );
    match store {
        Store::Open(core) => calls::tell_ran(core, ran, told),
        Store::Closed(_) => told.push_str("closed"),
    }
}

/// The verdict of a run, if a store is open in which no instance runs.
pub(crate) fn ran<C: Choose>(
    alloc: Global,
    store: &mut Store,
    chooser: &mut C,
    limit: u64,
) -> Option<Result<Verdict, RunError>> {
    match mem::replace(store, Store::Closed(MemDisk::new(alloc))).into_core() {
        Ok(core) => {
            let (core, ran) = ran_with(alloc, core, chooser, limit);
            *store = Store::Open(core);
            ran
        }
        Err(disk) => {
            *store = Store::Closed(disk);
            None
        }
    }
}

fn ran_with<C: Choose>(
    alloc: Global,
    core: Core<MemDisk>,
    chooser: &mut C,
    limit: u64,
) -> (Core<MemDisk>, Option<Result<Verdict, RunError>>) {
    if core.running() != 0 {
        return (core, None);
    }
    let (core, verdict) = run_with(alloc, core, chooser, limit);
    (core, Some(verdict))
}

// Makes the call of the disk with this number, counted from now, fail.
fn fail(
    alloc: Global,
    store: &mut Store,
    number: &str,
    told: &mut String,
) -> Result<(), AllocError> {
    let mut disk = store.disk(alloc);
    let told = fail_on(&mut disk, number, told);
    *store = Store::Closed(disk);
    told
}

fn fail_on(disk: &mut MemDisk, number: &str, told: &mut String) -> Result<(), AllocError> {
    match number.parse::<u64>() {
        Ok(number) if number > 0 => {
            disk.fail_call(number);
            Ok(())
        }
        _ => told.push_str("no number"),
    }
}

// Makes a store of the graph whose text has this name.
fn create(
    alloc: Global,
    names: &Names,
    store: &mut Store,
    name: &str,
    told: &mut String,
) -> Result<(), AllocError> {
    match names.bytes(name) {
        Some(text) => match created(alloc, store, text) {
            None => told.push_str("created"),
            Some(error) => calls::tell_creation(&error, told),
        },
        None => {
            let disk = store.disk(alloc);
            *store = Store::Closed(disk);
            told.push_str("no such name")
        }
    }
}

/// Makes a store of the graph with this text, or returns why there is none.
pub(crate) fn created(alloc: Global, store: &mut Store, text: &[u8]) -> Option<CreateError> {
    match Core::create(alloc, store.disk(alloc), text) {
        Ok(core) => {
            *store = Store::Open(core);
            None
        }
        Err(refused) => {
            let NotCreated { disk, error } = refused;
            *store = Store::Closed(disk);
            Some(error)
        }
    }
}

fn open(alloc: Global, store: &mut Store, told: &mut String) -> Result<(), AllocError> {
    match opened(alloc, store) {
        None => told.push_str("open"),
        Some(error) => calls::tell_opening(&error, told),
    }
}

/// Opens the store, or returns why it cannot be opened.
pub(crate) fn opened(alloc: Global, store: &mut Store) -> Option<VaultError> {
    match Core::open(alloc, store.disk(alloc)) {
        Ok(core) => {
            *store = Store::Open(core);
            None
        }
        Err(refused) => {
            let Refused { disk, error } = refused;
            *store = Store::Closed(disk);
            Some(error)
        }
    }
}
