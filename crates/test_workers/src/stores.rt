//! Stores of Fibonacci numbers, and the result of a run in one.
ghost use Rattle.std.specs.Prelude.{IfOk};
ghost use Rattle.commit.specs.Runs.{NoneRuns};

use anyhow::{Error, bail};
use commit::{Core, CoreError, RunError, Verdict};
use disk::{Disk, MemDisk, Side};
use machine::Refusal;
use report::write_report;
use std::alloc::Global;
use std::io::Print;
use std::ops::Range;
use terms::{Addr, ItemCollection, Key, Tag, TagCollection};

const FIBONACCI: &str =
    "[fib: i]; <n: i>; <n> :: (add); [fib] -> (add); (add) -> [fib]; env -> [fib]; env -> <n>; [fib] -> env;
step add(i) { var a, b; read { get a = [fib: i - 1]; get b = [fib: i - 2]; } write { put [fib: i] = a + b; } }";

// A chain of numbers, each one greater than the one before, and sums of the first twenty of them.
const SUMS: &str =
    "[link: i]; [sum: k]; <n: i>; <s: k>; <n> :: (next); <s> :: (add); [link] -> (next); (next) -> [link]; [link] -> (add); (add) -> [sum]; env -> [link]; env -> <n>; env -> <s>; [sum] -> env;
step next(i) { var a; read { get a = [link: i - 1]; } write { put [link: i] = a + 1; } }
step add(k) { var a, i, sum; read { for i in 1 .. 21 { get a = [link: i]; sum = sum + a; } } write { put [sum: k] = sum + k; } }";

/// A new store of a graph.
pub(crate) fn created(alloc: Global, graph: &str) -> Result<Core<MemDisk>, Error> {
    match Core::create(alloc, MemDisk::new(alloc), graph.as_bytes()) {
        Ok(core) => Ok(core),
        Err(refused) => bail!("no store was made: {:?}", refused.error),
    }
}

/// A new store in which these numbers and these tags are put.
pub(crate) fn fibonacci(
    alloc: Global,
    numbers: &[i64],
    tags: Range<i64>,
) -> Result<Core<MemDisk>, Error>
    ensures { IfOk result NoneRuns }
{
    let mut core = created(alloc, FIBONACCI)?;
    put_numbers(&mut core, numbers)?;
    put_tags(&mut core, tags)?;
    idle(core)
}

/// A new store with this number of sums, whose tags come before those of the chain.
pub(crate) fn sums(alloc: Global, count: i64) -> Result<Core<MemDisk>, Error>
    ensures { IfOk result NoneRuns }
{
    let mut core = created(alloc, SUMS)?;
    put_numbers(&mut core, &[0])?;
    for key in 0..count {
        went(core.put_tag(sum(key)))?;
    }
    put_tags(&mut core, 1..21)?;
    idle(core)
}

/// The core, if no instance runs in it.
pub(crate) fn idle(core: Core<MemDisk>) -> Result<Core<MemDisk>, Error>
    ensures { IfOk result NoneRuns }
{
    if core.running() != 0 {
        bail!("an instance runs")
    }
    Ok(core)
}

fn put_numbers(core: &mut Core<MemDisk>, numbers: &[i64]) -> Result<(), Error> {
    let mut key = 0i64;
    for number in numbers {
        went(core.put_item(fib(key), *number))?;
        key = key.saturating_add(1);
    }
    Ok(())
}

/// Puts a tag for each of these numbers.
pub(crate) fn put_tags(core: &mut Core<MemDisk>, tags: Range<i64>) -> Result<(), Error> {
    for key in tags {
        went(core.put_tag(number(key)))?;
    }
    Ok(())
}

// Turns a refused put into an error that says why.
fn went(put: Result<(), CoreError>) -> Result<(), Error> {
    match put {
        Ok(()) => Ok(()),
        Err(CoreError::Refused(Refusal::AlreadyPut(value))) => bail!("already put as {value}"),
        Err(error) => bail!("a put was refused: {error}"),
    }
}

/// `[fib: key]`
pub(crate) fn fib(key: i64) -> Addr {
    Addr {
        collection: ItemCollection(0),
        key: Key::new(&[key]),
    }
}

/// `<n: key>`
pub(crate) fn number(key: i64) -> Tag {
    Tag {
        collection: TagCollection(0),
        key: Key::new(&[key]),
    }
}

// `<s: key>`
fn sum(key: i64) -> Tag {
    Tag {
        collection: TagCollection(1),
        key: Key::new(&[key]),
    }
}

/// The report of a store.
pub(crate) fn report_of(alloc: Global, core: &Core<MemDisk>) -> Result<Vec<u8>, Error> {
    let mut text = Vec::new(alloc);
    write_report(alloc, core, &mut text)?;
    Ok(text)
}

/// Prints the verdict of a run, how many bytes the file A has, and the last lines of the report.
pub(crate) fn tell(
    rt: &HostRuntime,
    workers: u8,
    core: Core<MemDisk>,
    verdict: Result<Verdict, RunError>,
    lines: usize,
) -> Result<(), Error> {
    let text = report_of(rt.alloc(), &core)?;
    let text = str::from_utf8(text.as_slice()).unwrap_or("");
    let all = text.lines().count();
    let bytes = core.into_disk().len(Side::A)?;
    print_verdict(rt, workers, verdict)?;
    rt.println(format_args!(", {all} lines, {bytes} bytes"))?;
    print_last(rt, text, lines)
}

/// The same of a run whose records depend on which ends came together: between which numbers the bytes of the file A are, or how many it has.
pub(crate) fn tell_within(
    rt: &HostRuntime,
    workers: u8,
    core: Core<MemDisk>,
    verdict: Result<Verdict, RunError>,
    lines: usize,
    least: u64,
    most: u64,
) -> Result<(), Error> {
    let text = report_of(rt.alloc(), &core)?;
    let text = str::from_utf8(text.as_slice()).unwrap_or("");
    let all = text.lines().count();
    let bytes = core.into_disk().len(Side::A)?;
    print_verdict(rt, workers, verdict)?;
    if least <= bytes && bytes <= most {
        rt.println(format_args!(", {all} lines, {least} to {most} bytes"))?;
    } else {
        rt.println(format_args!(", {all} lines, {bytes} bytes"))?;
    }
    print_last(rt, text, lines)
}

// Prints the number of workers and the verdict.
fn print_verdict(
    rt: &HostRuntime,
    workers: u8,
    verdict: Result<Verdict, RunError>,
) -> Result<(), Error> {
    match verdict {
        Ok(Verdict::Stopped(_, kind)) => rt.print(format_args!(
            "  {workers}: stopped by {kind:?}"
        ))?,
        other => rt.print(format_args!("  {workers}: {other:?}"))?,
    }
    Ok(())
}

// Prints the last lines of a text.
fn print_last(rt: &HostRuntime, text: &str, lines: usize) -> Result<(), Error> {
    let all = text.lines().count();
    for line in text.lines().skip(all.saturating_sub(lines)) {
        rt.println(format_args!("    {line}"))?;
    }
    Ok(())
}
