//! A program that keeps a store itself, on the files `A` and `B` of the folder that it runs in. It makes the store, puts what the steps need, runs them on four workers, watches an item while it is put, reads, and
//! lets the store go. `docs/library.md` has what each of these calls promises.
#![tactic(auto)]

ghost use Rattle.std.specs.Prelude.{IfOk};
ghost use Rattle.commit.specs.Runs.{NoneRuns};

mod watching;

use anyhow::{Error, bail};
use commit::{Core, CoreError};
use disk::FileDisk;
use machine::Refusal;
use pool::{AlwaysGo, drive};
use std::io::Print;
use std::sync::Wait;
use std::thread::Threads;
use terms::{Addr, ItemCollection, Key, Tag, TagCollection};
use watching::watch;

const FIBONACCI: &str =
    "[fib: i]; <n: i>; <n> :: (add); [fib] -> (add); (add) -> [fib]; env -> [fib]; env -> <n>; [fib] -> env;
step add(i) { var a, b; read { get a = [fib: i - 1]; get b = [fib: i - 2]; } write { put [fib: i] = a + b; } }";

// How many workers run the steps.
const WORKERS: u8 = 4;

// How many steps they may commit.
const LIMIT: u64 = 1_000;

fn main(rt: HostRuntime) -> Result<(), Error> {
    let core = filled(created(&rt)?)?;
    let core = run(&rt, &rt, core)?;
    let core = watch(&rt, core)?;
    tell(&rt, &core)
}

// A new store on the files of this folder.
fn created(rt: &HostRuntime) -> Result<Core<FileDisk>, Error> {
    let disk = FileDisk::open(rt.alloc(), rt, ".")?;
    match Core::create(rt.alloc(), disk, FIBONACCI.as_bytes()) {
        Ok(core) => Ok(core),
        Err(refused) => bail!("no store was made: {:?}", refused.error),
    }
}

// Puts the first two numbers, and the tags of those that are to be computed.
fn filled(mut core: Core<FileDisk>) -> Result<Core<FileDisk>, Error>
    ensures { IfOk result NoneRuns }
{
    fill(&mut core)?;
    if core.running() != 0 {
        bail!("an instance runs")
    }
    Ok(core)
}

fn fill(core: &mut Core<FileDisk>) -> Result<(), Error> {
    went(core.put_item(fib(0), 0))?;
    went(core.put_item(fib(1), 1))?;
    for key in 2i64..31 {
        went(core.put_tag(number(key)))?;
    }
    Ok(())
}

// Turns a refused put into an error that says why.
fn went(put: Result<(), CoreError>) -> Result<(), Error> {
    match put {
        Ok(()) => Ok(()),
        Err(CoreError::Refused(Refusal::AlreadyPut(value))) => bail!("already put as {value}"),
        Err(error) => bail!("a put was refused: {error}"),
    }
}

// Runs the steps until nothing is left to do.
fn run<R: Threads + Wait + Sync>(
    rt: &HostRuntime,
    threads: &R,
    core: Core<FileDisk>,
) -> Result<Core<FileDisk>, Error>
    requires { NoneRuns core }
{
    let (core, verdict) = drive(threads, rt.alloc(), core, WORKERS, LIMIT, &AlwaysGo);
    println!(rt; "{verdict:?}")?;
    Ok(core)
}

// Prints one of the numbers that were computed.
fn tell(rt: &HostRuntime, core: &Core<FileDisk>) -> Result<(), Error> {
    match core.get(fib(30)) {
        Ok(Some(value)) => println!(rt; "[fib: 30] = {value}")?,
        Ok(None) => println!(rt; "[fib: 30] is not there")?,
        Err(CoreError::Refused(Refusal::NoSuchCollection)) => bail!("no such collection"),
        Err(error) => bail!("a get was refused: {error}"),
    }
    Ok(())
}

// `[fib: key]`: collections have the numbers of their declarations, from 0.
fn fib(key: i64) -> Addr {
    Addr {
        collection: ItemCollection(0),
        key: Key::new(&[key]),
    }
}

// `<n: key>`
fn number(key: i64) -> Tag {
    Tag {
        collection: TagCollection(0),
        key: Key::new(&[key]),
    }
}
