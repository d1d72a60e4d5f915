//! How long steps take on several workers, compared with the same steps on the calling thread.
ghost use Rattle.std.specs.Prelude.{◌≤◌, IfOk};
ghost use Rattle.commit.specs.Runs.{NoneRuns};

use crate::cores::{self, LOADS, Load};
use crate::hubs::Handles;
use crate::plain_disk::PlainDisk;
use crate::readings::seconds_between;
use anyhow::{Error, bail};
use commit::Core;
use disk::Disk;
use pool::{AlwaysGo, Crew, Driver};
use std::alloc::{AllocError, Global};
use std::io::Print;
use std::thread;
use std::time::Instant;
use terms::Key;

// A step that reads nothing and puts nothing.
const EMPTY: &str = "<t: i>; <t> :: (one); env -> <t>; step one(k) { read { } write { } }";

// A step of 80,000 turns, with an assignment each: about a millisecond.
const HEAVY: &str =
    "<t: i>; <t> :: (one); env -> <t>; step one(k) { var a, b; read { } write { a = 0; for b in 0 .. 80000 { a = a + b; } } }";

// On how many workers each is measured.
const COUNTS: [u8; 3] = [1, 2, 4];

// How many separate runs go side by side.
const COPIES: u8 = 4;

// How many steps a worker commits together, if it has as many.
const TOGETHER: u16 = 64;

/// Measures `steps` empty steps in memory; a five-hundredth as many that take a millisecond each; and a fiftieth as many
/// on the files A and B of the folder that this is run in, which it empties. They are run by the calling thread, and by 1,
/// 2 and 4 workers.
pub(crate) fn measure<R: Handles>(rt: &HostRuntime, threads: &R, steps: u32) -> Result<(), Error> {
    empty(threads, steps)?;
    heavy(threads, steps / 500)?;
    on_files(rt, threads, steps / 50)
}

// ---- in memory

// Prints the microseconds of an empty step.
fn empty<R: Handles>(rt: &R, steps: u32) -> Result<(), Error> {
    let one = 1e6 / f64::from(steps.max(1));
    let alone = seconds_of(rt, EMPTY, steps, &Driver::Alone)?;
    println!(rt; "empty steps: alone {:.2} µs", alone * one)?;
    for workers in COUNTS {
        let seconds = by_crew(rt, EMPTY, steps, workers)?;
        println!(rt; "empty steps, {workers} workers: {:.2} µs", seconds * one)?;
    }
    Ok(())
}

// Prints the milliseconds of a heavy step, how much faster several workers are, and how many processors the machine
// gives to separate runs side by side.
fn heavy<R: Handles>(rt: &R, steps: u32) -> Result<(), Error> {
    let one = 1e3 / f64::from(steps.max(1));
    let alone = seconds_of(rt, HEAVY, steps, &Driver::Alone)?;
    println!(rt; "heavy steps: alone {:.3} ms", alone * one)?;
    let beside = side_by_side(rt, steps)?;
    let given = alone * f64::from(COPIES) / beside;
    println!(rt;
        "heavy steps, {COPIES} runs side by side: the machine gives {given:.2} processors"
    )?;
    for workers in COUNTS {
        let seconds = by_crew(rt, HEAVY, steps, workers)?;
        tell_heavy(rt, workers, seconds * one, alone / seconds, given)?;
    }
    Ok(())
}

// Prints the milliseconds of a heavy step on several workers, and what they are beside those of the calling thread.
fn tell_heavy<R: Print>(
    rt: &R,
    workers: u8,
    milliseconds: f64,
    faster: f64,
    given: f64,
) -> Result<(), Error> {
    println!(rt;
        "heavy steps, {workers} workers: {milliseconds:.3} ms; {faster:.2} times as fast as alone; of {COPIES} processors that were given whole {:.2}",
        faster * f64::from(COPIES) / given
    )?;
    Ok(())
}

// The seconds of `COPIES` runs side by side, of `steps` steps each.
fn side_by_side<R: Handles>(rt: &R, steps: u32) -> Result<f64, Error> {
    let copies = numbered(rt.alloc())?;
    let start = Instant::now(rt);
    let went = thread::map_vec(
        rt,
        copies,
        &|_copy: u8| seconds_of(rt, HEAVY, steps, &Driver::Alone).is_ok(),
    )?;
    let end = Instant::now(rt);
    are_ok(&went)?;
    seconds_between(start, end)
}

// A number for each of the runs side by side.
fn numbered(alloc: Global) -> Result<Vec<u8>, AllocError> {
    let mut copies = Vec::new(alloc);
    for copy in 0..COPIES {
        copies.push(copy)?;
    }
    Ok(copies)
}

// Returns an error unless each of the runs side by side went well.
fn are_ok(went: &[bool]) -> Result<(), Error> {
    for ok in went {
        if !*ok {
            bail!("a run beside others failed")
        }
    }
    Ok(())
}

// The seconds of a run of `steps` steps of a graph.
fn seconds_of<R: Handles>(
    rt: &R,
    text: &str,
    steps: u32,
    driver: &Driver<'_, R, AlwaysGo>,
) -> Result<f64, Error> {
    let core = created(rt.alloc(), PlainDisk::new(rt.alloc()), text, steps)?;
    cores::seconds_of(rt, core, driver)
}

// The seconds of a run of `steps` steps of a graph by a crew of `workers` workers.
fn by_crew<R: Handles>(rt: &R, text: &str, steps: u32, workers: u8) -> Result<f64, Error>
    requires { (1 ≤ workers) × (workers ≤ 64) }
{
    seconds_of(rt, text, steps, &crew(rt, workers))
}

// A crew of `workers` workers.
fn crew<R: Handles>(rt: &R, workers: u8) -> Driver<'_, R, AlwaysGo>
    requires { (1 ≤ workers) × (workers ≤ 64) }
{
    Driver::Crew(Crew::new(rt, workers, AlwaysGo))
}

// A new store of a graph, with `steps` tags.
fn created<D: Disk + Drop>(alloc: Global, disk: D, text: &str, steps: u32) -> Result<Core<D>, Error>
    ensures { IfOk result NoneRuns }
{
    let mut core = cores::created(alloc, disk, text)?;
    put_tags(&mut core, steps)?;
    cores::idle(core)
}

// Puts `steps` tags.
fn put_tags<D: Disk>(core: &mut Core<D>, steps: u32) -> Result<(), Error> {
    for number in 0..steps {
        cores::put_tag(core, Key::new(&[i64::from(number)]))?;
    }
    Ok(())
}

// ---- on files

/// Prints the microseconds of a step of each graph, on the files A and B of the folder that this is run in, which it
/// empties: on the calling thread, which commits each step by itself, and on workers, each of which commits up to 64
/// steps together. Beside the first stand records of one step, beside the others records of 64. On one worker all
/// steps of `wide` are committed by 64; where steps wait for each other, they may be committed by fewer.
pub(crate) fn on_files<R: Handles>(rt: &HostRuntime, threads: &R, steps: u32) -> Result<(), Error> {
    for load in LOADS {
        print!(rt; "alone, ")?;
        cores::report::<R>(rt, load, steps, 1, &Driver::Alone)?;
        for workers in COUNTS {
            by_crew_on_files(rt, threads, load, steps, workers)?;
        }
    }
    Ok(())
}

// The same by a crew of `workers` workers.
fn by_crew_on_files<R: Handles>(
    rt: &HostRuntime,
    threads: &R,
    load: Load,
    steps: u32,
    workers: u8,
) -> Result<(), Error>
    requires { (1 ≤ workers) × (workers ≤ 64) }
{
    print!(rt; "{workers} workers, ")?;
    cores::report(rt, load, steps, TOGETHER, &crew(threads, workers))
}
