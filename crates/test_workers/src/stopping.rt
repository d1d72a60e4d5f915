//! Runs that end while there is still something to do.
ghost use Rattle.std.specs.Prelude.{◌≤◌};

use crate::stores::{fibonacci, tell};
use anyhow::Error;
use pool::{AlwaysGo, Answer, Probe, drive};
use std::io::Print;
use std::sync::Wait;
use std::sync::atomic::{AtomicU64, Ordering};
use std::thread::Threads;
use terms::Inst;

// A limit that no run meets.
const LIMIT: u64 = 1_000;

// Answers `Stop` from its second call on.
#[derive(Drop)]
struct SecondStops {
    calls: AtomicU64,
}

impl Probe for SecondStops {
    ghost use Rattle.std.specs.Prelude.{true};

    ghost may_stop = { true };

    fn enter(&self, _instance: Inst) -> Answer {
        if self.calls.fetch_add(1, Ordering::SeqCst) == 0 {
            Answer::Go
        } else {
            Answer::Stop
        }
    }
}

/// Runs a store in which four steps are to be done, with a limit of 0.
pub(crate) fn try_limit<R: Threads + Wait + Sync>(
    rt: &HostRuntime,
    threads: &R,
    workers: u8,
) -> Result<(), Error>
    requires { (1 ≤ workers) × (workers ≤ 64) }
{
    let core = fibonacci(rt.alloc(), &[0, 1], 2..6)?;
    let (core, verdict) = drive(threads, rt.alloc(), core, workers, 0, &AlwaysGo);
    tell(rt, workers, core, verdict, 1)
}

/// Runs the same store on one worker, whose probe stops it at the second call.
pub(crate) fn try_probe<R: Threads + Wait + Sync>(
    rt: &HostRuntime,
    threads: &R,
) -> Result<(), Error> {
    let core = fibonacci(rt.alloc(), &[0, 1], 2..6)?;
    let probe = SecondStops {
        calls: AtomicU64::new(0),
    };
    let (core, verdict) = drive(threads, rt.alloc(), core, 1, LIMIT, &probe);
    let done = core.counts().done;
    let asked = probe.calls.load(Ordering::SeqCst);
    rt.println(format_args!(
        "  {verdict:?}, after {asked} calls, with at most one step done: {}",
        done <= 1
    ))?;
    Ok(())
}
