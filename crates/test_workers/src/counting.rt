//! Two hundred instances, none of which waits, and a probe that counts its calls, and asks at the last one how much the store holds.
ghost use Rattle.std.specs.Prelude.{◌≤◌, IfOk};
ghost use Rattle.commit.specs.Runs.{NoneRuns};

use crate::stores::{created, idle, put_tags, report_of};
use anyhow::Error;
use commit::Core;
use disk::MemDisk;
use machine::Counts;
use pool::{Answer, Probe, drive};
use std::alloc::Global;
use std::io::Print;
use std::sync::Wait;
use std::sync::atomic::{AtomicU64, AtomicUsize, Ordering};
use std::thread::Threads;
use terms::Inst;

const COPIES: &str =
    "[out: i]; <t: i>; <t> :: (one); (one) -> [out]; env -> <t>; [out] -> env; step one(k) { read { } write { put [out: k] = k; } }";

// A limit that no run meets.
const LIMIT: u64 = 1_000;

// Which of the calls is the last.
const LAST: u64 = 200;

// Counts its calls, and keeps how much the store held at the last one.
#[derive(Drop)]
struct Counting {
    calls: AtomicU64,
    items: AtomicUsize,
    tags: AtomicUsize,
    prescribed: AtomicUsize,
    done: AtomicUsize,
}

impl Counting {
    fn new() -> Counting {
        Counting {
            calls: AtomicU64::new(0),
            items: AtomicUsize::new(0),
            tags: AtomicUsize::new(0),
            prescribed: AtomicUsize::new(0),
            done: AtomicUsize::new(0),
        }
    }
}

impl Probe for Counting {
    ghost use Rattle.std.specs.Prelude.{false};

    ghost may_stop = { false };

    fn enter(&self, _instance: Inst) -> Answer {
        if self.calls.fetch_add(1, Ordering::SeqCst).wrapping_add(1) == LAST {
            Answer::Count
        } else {
            Answer::Go
        }
    }

    fn counted(&self, counts: Counts) {
        let Counts {
            items,
            tags,
            prescribed,
            done,
        } = counts;
        self.items.store(items, Ordering::SeqCst);
        self.tags.store(tags, Ordering::SeqCst);
        self.prescribed.store(prescribed, Ordering::SeqCst);
        self.done.store(done, Ordering::SeqCst);
    }
}

/// Tries this on a new store, and prints the verdict, how often the probe was called, the end of the report, and how much the store held at the last call: its instance was not done then, and
/// each that was had put its item.
pub(crate) fn try_counting<R: Threads + Wait + Sync>(
    rt: &HostRuntime,
    threads: &R,
    workers: u8,
) -> Result<(), Error>
    requires { (1 ≤ workers) × (workers ≤ 64) }
{
    let alloc = rt.alloc();
    let probe = Counting::new();
    let (core, verdict) = drive(threads, alloc, two_hundred(alloc)?, workers, LIMIT, &probe);
    let calls = probe.calls.load(Ordering::SeqCst);
    let report = report_of(alloc, &core)?;
    let text = str::from_utf8(report.as_slice()).unwrap_or("");
    let items = text
        .lines()
        .filter(|line| line.starts_with("[out: "))
        .count();
    let last = text.lines().last().unwrap_or("");
    rt.println(format_args!(
        "  {workers}: {verdict:?}, {calls} calls, {items} item lines; {last}"
    ))?;
    tell_last(rt, &probe)
}

// Prints how much the store held at the last call.
fn tell_last(rt: &HostRuntime, probe: &Counting) -> Result<(), Error> {
    let tags = probe.tags.load(Ordering::SeqCst);
    let prescribed = probe.prescribed.load(Ordering::SeqCst);
    let done = probe.done.load(Ordering::SeqCst);
    let same = probe.items.load(Ordering::SeqCst) == done;
    rt.println(format_args!(
        "    at the last call {tags} tags, {prescribed} prescribed, as many items as done: {same}, fewer done: {}",
        done < prescribed
    ))?;
    Ok(())
}

// A store with two hundred ready instances.
fn two_hundred(alloc: Global) -> Result<Core<MemDisk>, Error>
    ensures { IfOk result NoneRuns }
{
    let mut core = created(alloc, COPIES)?;
    put_tags(&mut core, 1..201)?;
    idle(core)
}
