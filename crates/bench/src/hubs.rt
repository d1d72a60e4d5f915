//! How long the calls of a hub take on a disk in memory, compared with the same calls of a core under a lock of its own.
ghost use Rattle.hub.specs.Whole.{IsNamedFor};

use crate::cores;
use crate::readings::seconds_between;
use anyhow::{Error, bail};
use commit::Core;
use disk::{Disk, MemDisk};
use hub::{EnvPass, Hub, cores_go, hubs_cross};
use passes::{Blank, Naming};
use std::alloc::{AllocError, Global};
use std::io::Print;
use std::marker::Brand;
use std::sync::{Mutex, Wait};
use std::thread;
use std::thread::Threads;
use std::time::{Clock, Instant};
use terms::{Addr, ItemCollection, Key};

const GRAPH: &str = "[out: i]; env -> [out]; [out] -> env;";

// What the program has to provide.
pub(crate) trait Handles: Threads + Wait + Sync + Clock + Print + Alloc<A = Global> {}

impl<R: Threads + Wait + Sync + Clock + Print + Alloc<A = Global>> Handles for R {}

// There is one put for this number of gets, since a disk in memory keeps a record of each call.
const PUTS_ONE_IN: u32 = 2_048;

// How many items the store has.
const HELD: u32 = 1_000;

// How often each call is measured. The shortest time counts.
const ROUNDS: u8 = 5;

#[derive(Clone, Copy)]
enum Call {
    Get,
    Put,
}

/// Measures `count` gets, and fewer puts, by each of 1, 2 and 4 threads, and `count` of the calls that take no lock.
pub(crate) fn measure<R: Handles>(rt: &R, count: u32) -> Result<(), Error> {
    for threads in [1u8, 2, 4] {
        compare(rt, "get", Call::Get, threads, count)?;
        compare(rt, "put_item", Call::Put, threads, count / PUTS_ONE_IN)?;
    }
    beside(rt, MemDisk::new(rt.alloc()), count)
}

// Prints the microseconds of a call, in a hub and of a core under a lock.
fn compare<R: Handles>(
    rt: &R,
    name: &str,
    call: Call,
    threads: u8,
    count: u32,
) -> Result<(), Error> {
    let mut hub = f64::MAX;
    let mut alone = f64::MAX;
    for _ in 0..ROUNDS {
        hub = hub.min(in_hub(rt, MemDisk::new(rt.alloc()), call, threads, count)?);
        alone = alone.min(under_lock(rt, MemDisk::new(rt.alloc()), call, threads, count)?);
    }
    let one = 1e6 / (f64::from(threads) * f64::from(count.max(1)));
    println!(rt;
        "{name}, {threads} threads: {:.3} µs; a core under a lock {:.3} µs; ratio {:.2}",
        hub * one,
        alone * one,
        hub / alone
    )?;
    Ok(())
}

// ---- a core under a lock

fn under_lock<D: Disk + Drop + Send, R: Handles>(
    rt: &R,
    disk: D,
    call: Call,
    threads: u8,
    count: u32,
) -> Result<f64, Error> {
    let core = Mutex::new(created(rt.alloc(), disk)?);
    all_alone(rt, &core, call, threads, count)
}

// The seconds of the calls of all threads.
fn all_alone<D: Disk + Drop + Send, R: Handles>(
    rt: &R,
    core: &Mutex<Core<D>>,
    call: Call,
    threads: u8,
    count: u32,
) -> Result<f64, Error> {
    let firsts = firsts_of(rt.alloc(), threads, count)?;
    cores_go::<D>();
    let start = Instant::now(rt);
    let answers = thread::map_vec(
        rt,
        firsts,
        &|first: i64| calls_alone(rt, core, call, first, count),
    )?;
    let end = Instant::now(rt);
    are_all(answers.as_slice(), count)?;
    seconds_between(start, end)
}

// The first number of each thread.
fn firsts_of(alloc: Global, threads: u8, count: u32) -> Result<Vec<i64>, AllocError> {
    let mut firsts = Vec::new(alloc);
    for thread in 0..threads {
        firsts.push(i64::from(thread).saturating_mul(i64::from(count)))?;
    }
    Ok(firsts)
}

fn calls_alone<D: Disk, R: Handles>(
    rt: &R,
    core: &Mutex<Core<D>>,
    call: Call,
    first: i64,
    count: u32,
) -> u32 {
    let mut ok = 0u32;
    for number in 0..count {
        let address = address_of(call, first, number);
        let went = match call {
            Call::Get => core.lock(rt).get(address).is_ok(),
            Call::Put => core.lock(rt).put_item(address, 0).is_ok(),
        };
        if went {
            ok = ok.saturating_add(1);
        }
    }
    ok
}

// Returns an error unless all calls of each thread were answered.
fn are_all(answers: &[u32], count: u32) -> Result<(), Error> {
    for answer in answers {
        if *answer != count {
            bail!("a call was refused")
        }
    }
    Ok(())
}

// ---- a hub

fn in_hub<D: Disk + Drop + Send, R: Handles>(
    rt: &R,
    disk: D,
    call: Call,
    threads: u8,
    count: u32,
) -> Result<f64, Error> {
    let core = created(rt.alloc(), disk)?;
    let blank = Blank::new(rt.alloc(), threads, 0)?;
    hub_as::<Brand, D, R>(rt, core, blank, call, count)
}

#[derive(Drop)]
struct Job<J: Naming> {
    first: i64,
    pass: EnvPass<J>,
}

fn hub_as<J: Naming + Send + Sync, D: Disk + Drop + Send, R: Handles>(
    rt: &R,
    core: Core<D>,
    blank: Blank,
    call: Call,
    count: u32,
) -> Result<f64, Error>
    requires { IsNamedFor D.Disk J.table J.passes J.envs J.opening J.left blank core }
{
    let (hub, envs) = opened::<J, D>(rt.alloc(), core, blank)?;
    all_of(rt, &hub, call, envs, count)
}

// A hub, and its passes.
fn opened<J: Naming, D: Disk + Drop>(
    alloc: Global,
    core: Core<D>,
    blank: Blank,
) -> Result<(Hub<J, D>, Vec<EnvPass<J>>), Error>
    requires { IsNamedFor D.Disk J.table J.passes J.envs J.opening J.left blank core }
{
    match Hub::<J, D>::open(alloc, core, blank) {
        Ok((hub, envs, _)) => Ok((hub, envs)),
        Err(_) => bail!("no hub was opened"),
    }
}

// The seconds of the calls of all threads, each with a pass.
fn all_of<J: Naming + Send + Sync, D: Disk + Drop + Send, R: Handles>(
    rt: &R,
    hub: &Hub<J, D>,
    call: Call,
    envs: Vec<EnvPass<J>>,
    count: u32,
) -> Result<f64, Error> {
    let jobs = jobs_of(rt.alloc(), envs, count)?;
    hubs_cross::<J, D>();
    let start = Instant::now(rt);
    let answers = thread::map_vec(rt, jobs, &|job: Job<J>| calls_of(rt, hub, call, job, count))?;
    let end = Instant::now(rt);
    are_all(answers.as_slice(), count)?;
    seconds_between(start, end)
}

// The job of each thread.
fn jobs_of<J: Naming>(
    alloc: Global,
    envs: Vec<EnvPass<J>>,
    count: u32,
) -> Result<Vec<Job<J>>, AllocError> {
    let mut jobs = Vec::new(alloc);
    let mut first = 0i64;
    for pass in envs {
        jobs.push(Job { first, pass })?;
        first = first.saturating_add(i64::from(count));
    }
    Ok(jobs)
}

fn calls_of<J: Naming, D: Disk, R: Handles>(
    rt: &R,
    hub: &Hub<J, D>,
    call: Call,
    job: Job<J>,
    count: u32,
) -> u32 {
    let Job { first, mut pass } = job;
    let mut ok = 0u32;
    for number in 0..count {
        let address = address_of(call, first, number);
        let went = match call {
            Call::Get => hub.get(rt, &mut pass, address).is_ok(),
            Call::Put => hub.put_item(rt, &mut pass, address, 0).is_ok(),
        };
        if went {
            ok = ok.saturating_add(1);
        }
    }
    ok
}

// ---- without the lock

fn beside<D: Disk + Drop, R: Handles>(rt: &R, disk: D, count: u32) -> Result<(), Error> {
    let core = created(rt.alloc(), disk)?;
    let blank = Blank::new(rt.alloc(), 1, 0)?;
    beside_as::<Brand, D, R>(rt, core, blank, count)
}

// Prints the nanoseconds of the calls that take no lock.
fn beside_as<J: Naming, D: Disk + Drop, R: Handles>(
    rt: &R,
    core: Core<D>,
    blank: Blank,
    count: u32,
) -> Result<(), Error>
    requires { IsNamedFor D.Disk J.table J.passes J.envs J.opening J.left blank core }
{
    let (hub, envs) = opened::<J, D>(rt.alloc(), core, blank)?;
    let mut envs = envs;
    match envs.as_mut_slice().first_mut() {
        Some(pass) => tell_beside(rt, &hub, pass, count),
        None => bail!("no pass"),
    }
}

fn tell_beside<J: Naming, D: Disk, R: Handles>(
    rt: &R,
    hub: &Hub<J, D>,
    pass: &mut EnvPass<J>,
    count: u32,
) -> Result<(), Error> {
    let one = 1e9 / f64::from(count.max(1));
    let start = Instant::now(rt);
    let events = ask_commits(hub, pass, count);
    let commits = seconds_between(start, Instant::now(rt))?;
    let start = Instant::now(rt);
    let asked = ask_stops(hub, pass, count);
    let stops = seconds_between(start, Instant::now(rt))?;
    println!(rt;
        "commits: {:.1} ns ({events} told); stop_asked: {:.1} ns ({asked} yes)",
        commits * one,
        stops * one
    )?;
    Ok(())
}

fn ask_commits<J: Naming, D: Disk>(hub: &Hub<J, D>, pass: &mut EnvPass<J>, count: u32) -> u64 {
    let mut all = 0u64;
    for _ in 0..count {
        all = all.saturating_add(hub.commits(pass));
    }
    all
}

fn ask_stops<J: Naming, D: Disk>(hub: &Hub<J, D>, pass: &mut EnvPass<J>, count: u32) -> u32 {
    let mut yes = 0u32;
    for _ in 0..count {
        if hub.stop_asked(pass) {
            yes = yes.saturating_add(1);
        }
    }
    yes
}

// ---- a store

// A new store with its items.
fn created<D: Disk + Drop>(alloc: Global, disk: D) -> Result<Core<D>, Error> {
    let mut core = cores::created(alloc, disk, GRAPH)?;
    fill(&mut core)?;
    Ok(core)
}

fn fill<D: Disk>(core: &mut Core<D>) -> Result<(), Error> {
    for key in 0..HELD {
        core.put_item(out(i64::from(key)), 0)?;
    }
    Ok(())
}

// The address of the call with this number. An item is there for a get, and none for a put.
fn address_of(call: Call, first: i64, number: u32) -> Addr {
    match call {
        Call::Get => out(i64::from(number % HELD)),
        Call::Put => out(
            first
                .saturating_add(i64::from(number))
                .saturating_add(i64::from(HELD)),
        ),
    }
}

fn out(key: i64) -> Addr {
    Addr {
        collection: ItemCollection(0),
        key: Key::new(&[key]),
    }
}
