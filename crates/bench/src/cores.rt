//! How long a store on files takes for its steps, compared with the writes and syncs of the same records alone.
ghost use Rattle.std.specs.Prelude.{◌≤◌, length, IfOk};
ghost use Rattle.commit.specs.Runs.{NoneRuns};
ghost use Rattle.terms.specs.declared.key.TheConstants.{MAX_COMPONENTS};

use crate::hubs::Handles;
use crate::readings::seconds_between;
use anyhow::{Error, bail};
use codec::encode_event;
use commit::{Core, RunError, Verdict};
use disk::{Disk, DiskError, FileDisk, Side};
use pool::{AlwaysGo, Driver};
use std::alloc::Global;
use std::fs;
use std::io::Print;
use std::time::{Clock, Instant};
use terms::{
    Addr, Event, Inst, ItemCollection, Key, Put, Puts, StepCollection, Tag, TagCollection,
};

// A limit that no run meets.
const LIMIT: u64 = 1_000_000_000;

// Four graphs: each step needs nothing; each needs the one before; each needs two; the same, with some 200 statements a step.
const WIDE: &str =
    "[out: i]; <t: i>; <t> :: (one); (one) -> [out]; env -> <t>; env -> [out]; [out] -> env;
step one(k) { read { } write { put [out: k] = k; } }";

const CHAIN: &str =
    "[out: i]; <t: i>; <t> :: (next); [out] -> (next); (next) -> [out]; env -> <t>; env -> [out]; [out] -> env;
step next(k) { var a; read { get a = [out: k - 1]; } write { put [out: k] = a + 1; } }";

const WAVEFRONT: &str =
    "[out: i, j]; <t: i, j>; <t> :: (cell); [out] -> (cell); (cell) -> [out]; env -> <t>; env -> [out]; [out] -> env;
step cell(i, j) { var a, b; read { get a = [out: i - 1, j]; get b = [out: i, j - 1]; } write { if (a < b) { put [out: i, j] = b; } else { put [out: i, j] = a; } } }";

const LONGER: &str =
    "[out: i, j]; <t: i, j>; <t> :: (cell); [out] -> (cell); (cell) -> [out]; env -> <t>; env -> [out]; [out] -> env;
step cell(i, j) { var a, b, k; read { get a = [out: i - 1, j]; get b = [out: i, j - 1]; } write { for k in 0 .. 100 { a = (a * 75 + b) % 65537; } put [out: i, j] = a; } }";

/// A graph whose steps are run.
#[derive(Clone, Copy, Debug, PartialEq, Eq)]
pub(crate) enum Load {
    Wide,
    Chain,
    Wavefront,
    Longer,
}

/// All loads.
pub(crate) const LOADS: [Load; 4] = [Load::Wide, Load::Chain, Load::Wavefront, Load::Longer];

impl Load {
    fn name(self) -> &'static str {
        match self {
            Load::Wide => "wide",
            Load::Chain => "chain",
            Load::Wavefront => "wavefront",
            Load::Longer => "wavefront of longer steps",
        }
    }

    fn text(self) -> &'static str {
        match self {
            Load::Wide => WIDE,
            Load::Chain => CHAIN,
            Load::Wavefront => WAVEFRONT,
            Load::Longer => LONGER,
        }
    }

    // The keys of the tags of `steps` steps. For a wavefront they are those of a square.
    fn tags(self, alloc: Global, steps: u32) -> Result<Vec<Key>, Error> {
        match self {
            Load::Wide | Load::Chain => line(alloc, steps),
            Load::Wavefront | Load::Longer => cells(alloc, square(steps)),
        }
    }

    // The keys of the items that are put before the run.
    fn items(self, alloc: Global, steps: u32) -> Result<Vec<Key>, Error> {
        match self {
            Load::Wide => Ok(Vec::new(alloc)),
            Load::Chain => {
                let mut items = Vec::new(alloc);
                items.push(key(&[-1]))?;
                Ok(items)
            }
            Load::Wavefront | Load::Longer => edges(alloc, square(steps)),
        }
    }
}

/// Prints what `report` prints for each graph, on the calling thread.
pub(crate) fn measure<R: Handles>(rt: &HostRuntime, _threads: &R, steps: u32) -> Result<(), Error> {
    for load in LOADS {
        report::<R>(rt, load, steps, 1, &Driver::Alone)?;
    }
    Ok(())
}

/// Runs `steps` steps of a graph, or for a wavefront those of a square, on the files A and B of the folder that this is
/// run in. It empties these files first. It prints the microseconds of a step, and those of its share of a record with the
/// ends of `together` steps, which is written behind a closed gate, synced, opened, and synced.
pub(crate) fn report<R: Handles>(
    rt: &HostRuntime,
    load: Load,
    steps: u32,
    together: u16,
    driver: &Driver<'_, R, AlwaysGo>,
) -> Result<(), Error> {
    let tags = load.tags(rt.alloc(), steps)?;
    compare(rt, load, &tags, steps, together, driver)
}

// The same for the steps with these tags.
fn compare<R: Handles>(
    rt: &HostRuntime,
    load: Load,
    tags: &[Key],
    steps: u32,
    together: u16,
    driver: &Driver<'_, R, AlwaysGo>,
) -> Result<(), Error> {
    let core = prepared(rt, load, tags, steps)?;
    let seconds = seconds_of(rt, core, driver)?;
    let alone = records(rt, tags, together)?;
    tell(rt, load, tags.len(), together, seconds, alone)
}

/// The seconds of a run of a store, in which nothing is left to do then.
pub(crate) fn seconds_of<D: Disk + Drop + Send, C: Clock + AllocGlobal, R: Handles>(
    rt: &C,
    core: Core<D>,
    driver: &Driver<'_, R, AlwaysGo>,
) -> Result<f64, Error>
    requires { NoneRuns core }
{
    let start = Instant::now(rt);
    let (core, verdict) = driver.run(rt.alloc(), core, LIMIT);
    let end = Instant::now(rt);
    drop(core);
    is_complete(verdict)?;
    seconds_between(start, end)
}

// The side of the greatest square that has at most `steps` cells.
fn square(steps: u32) -> i64 {
    let mut side = 1u16;
    for next in 2..u16::MAX {
        let cells = u64::from(next).saturating_mul(u64::from(next));
        if cells > u64::from(steps) {
            break;
        }
        side = next;
    }
    i64::from(side)
}

// Prints the microseconds of a step and of its share of a record.
fn tell(
    rt: &HostRuntime,
    load: Load,
    steps: usize,
    together: u16,
    seconds: f64,
    alone: f64,
) -> Result<(), Error> {
    let one = 1e6 / f64::from(u32::try_from(steps)?.max(1));
    println!(rt;
        "{}: {steps} steps, {:.2} µs each; records of {together} alone {:.2} µs; beyond them {:.2} µs",
        load.name(),
        seconds * one,
        alone * one,
        (seconds - alone) * one
    )?;
    Ok(())
}

// Returns an error unless nothing was left to do.
fn is_complete(verdict: Result<Verdict, RunError>) -> Result<(), Error> {
    match verdict? {
        Verdict::Complete => Ok(()),
        other => bail!("the run ended as {other:?}"),
    }
}

// A new store of a graph, with its items and these tags.
fn prepared(rt: &HostRuntime, load: Load, tags: &[Key], steps: u32) -> Result<Core<FileDisk>, Error>
    ensures { IfOk result NoneRuns }
{
    let disk = emptied(rt)?;
    let mut core = created(rt.alloc(), disk, load.text())?;
    fill(rt.alloc(), &mut core, load, tags, steps)?;
    idle(core)
}

/// A new store of a graph.
pub(crate) fn created<D: Disk + Drop>(
    alloc: Global,
    disk: D,
    text: &str,
) -> Result<Core<D>, Error> {
    match Core::create(alloc, disk, text.as_bytes()) {
        Ok(core) => Ok(core),
        Err(refused) => bail!("no store was made: {:?}", refused.error),
    }
}

/// The files, empty.
pub(crate) fn emptied(rt: &HostRuntime) -> Result<FileDisk, Error> {
    fs::write(rt, "A", &[])?;
    fs::write(rt, "B", &[])?;
    Ok(FileDisk::open(rt.alloc(), rt, ".")?)
}

// Puts the items of a load, and these tags.
fn fill<D: Disk>(
    alloc: Global,
    core: &mut Core<D>,
    load: Load,
    tags: &[Key],
    steps: u32,
) -> Result<(), Error> {
    let items = load.items(alloc, steps)?;
    put_items(core, &items)?;
    put_tags(core, tags)
}

// Puts the items, each with 0.
fn put_items<D: Disk>(core: &mut Core<D>, items: &[Key]) -> Result<(), Error> {
    for key in items {
        put_item(core, *key)?;
    }
    Ok(())
}

// Puts the tags.
fn put_tags<D: Disk>(core: &mut Core<D>, tags: &[Key]) -> Result<(), Error> {
    for key in tags {
        put_tag(core, *key)?;
    }
    Ok(())
}

fn put_item<D: Disk>(core: &mut Core<D>, key: Key) -> Result<(), Error> {
    let collection = ItemCollection(0);
    match core.put_item(Addr { collection, key }, 0) {
        Ok(()) => Ok(()),
        Err(error) => bail!("an item was refused: {error}"),
    }
}

/// Puts the tag with this key.
pub(crate) fn put_tag<D: Disk>(core: &mut Core<D>, key: Key) -> Result<(), Error> {
    let collection = TagCollection(0);
    match core.put_tag(Tag { collection, key }) {
        Ok(()) => Ok(()),
        Err(error) => bail!("a tag was refused: {error}"),
    }
}

/// The core, if no instance runs in it.
pub(crate) fn idle<D: Disk + Drop>(core: Core<D>) -> Result<Core<D>, Error>
    ensures { IfOk result NoneRuns }
{
    if core.running() != 0 {
        bail!("an instance runs")
    }
    Ok(core)
}

// The seconds of records with the bytes of the ends of these steps, `together` in each, and two syncs a record.
fn records(rt: &HostRuntime, tags: &[Key], together: u16) -> Result<f64, Error> {
    let payload = payload_of(rt.alloc(), key_of(tags), together)?;
    let mut disk = emptied(rt)?;
    let count = tags.len().div_ceil(usize::from(together.max(1)));
    write_records(rt, &mut disk, count, &payload)
}

// The seconds of `count` records on an empty file.
fn write_records(
    rt: &HostRuntime,
    disk: &mut FileDisk,
    count: usize,
    payload: &[u8],
) -> Result<f64, Error> {
    disk.write_at(Side::A, 0, &[0])?;
    disk.sync(Side::A)?;
    let start = Instant::now(rt);
    let mut end = 0u64;
    for _ in 0..count {
        end = record(disk, end, payload)?;
    }
    seconds_between(start, Instant::now(rt))
}

/// Writes one record, and returns where the next one begins.
pub(crate) fn record(disk: &mut FileDisk, end: u64, payload: &[u8]) -> Result<u64, DiskError> {
    disk.write_at(Side::A, end.saturating_add(1), payload)?;
    disk.sync(Side::A)?;
    disk.write_at(Side::A, end, &[1])?;
    disk.sync(Side::A)?;
    Ok(end.saturating_add(payload.len() as u64))
}

// The bytes of a record behind its gate, for the ends of `together` instances with this key, each of which puts one item:
// the length, the events, and a closed gate. Several are a group, with its kind and their number in front.
fn payload_of(alloc: Global, key: Key, together: u16) -> Result<Vec<u8>, Error> {
    let event = event_of(alloc, key)?;
    let mut events = Vec::new(alloc);
    if together > 1 {
        events.push(5)?;
        events.extend_from_slice(&together.to_le_bytes())?;
    }
    for _ in 0..together {
        events.extend_from_slice(&event)?;
    }
    let mut bytes = Vec::new(alloc);
    bytes.extend_from_slice(&u32::try_from(events.len())?.to_le_bytes())?;
    bytes.extend_from_slice(&events)?;
    bytes.push(0)?;
    Ok(bytes)
}

// The bytes of the event.
fn event_of(alloc: Global, key: Key) -> Result<Vec<u8>, Error> {
    let instance = Inst {
        collection: StepCollection(0),
        key,
    };
    let address = Addr {
        collection: ItemCollection(0),
        key,
    };
    let mut puts = Vec::new(alloc);
    puts.push(Put::Item(address, 1))?;
    let mut event = Vec::new(alloc);
    encode_event(&mut event, &Event::Done(instance, Puts::new(puts)))?;
    Ok(event)
}

fn key_of(tags: &[Key]) -> Key {
    match tags.first() {
        Some(first) => *first,
        None => key(&[0]),
    }
}

fn key(components: &[i64]) -> Key
    requires { length components.now ≤ MAX_COMPONENTS }
{
    Key::new(components)
}

// The keys from 0 on.
fn line(alloc: Global, steps: u32) -> Result<Vec<Key>, Error> {
    let mut keys = Vec::new(alloc);
    for number in 0..steps {
        keys.push(key(&[i64::from(number)]))?;
    }
    Ok(keys)
}

// The keys of the cells of a square, row by row.
fn cells(alloc: Global, side: i64) -> Result<Vec<Key>, Error> {
    let mut keys = Vec::new(alloc);
    for row in 0..side {
        for column in 0..side {
            keys.push(key(&[row, column]))?;
        }
    }
    Ok(keys)
}

// The keys of the cells beside the square.
fn edges(alloc: Global, side: i64) -> Result<Vec<Key>, Error> {
    let mut keys = Vec::new(alloc);
    for number in 0..side {
        keys.push(key(&[-1, number]))?;
        keys.push(key(&[number, -1]))?;
    }
    Ok(keys)
}
