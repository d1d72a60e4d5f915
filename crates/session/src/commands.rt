//! The lines of a script and its report. Who runs the steps has the core while they run; `Progress` has all other lines.
ghost use Rattle.std.specs.Prelude.{false};
ghost use Rattle.commit.specs.Runs.{NoneRuns};
ghost use Rattle.session.specs.Answers.{drive_by, drive_of};
ghost use Rattle.session.specs.Fails.{AnswersAll};
ghost use Rattle.session.specs.Streams.{TellsSink};

use crate::closing::close;
use crate::progress::Progress;
use crate::{Ending, SessionError};
use commit::{Core, First, run_with};
use disk::Disk;
use pool::{Driver, Probe};
use report::Sink;
use script::Command;
use std::alloc::Global;
use std::marker::Sync;
use std::sync::Wait;
use std::thread::Threads;
use vault::stores_go_on;

/// Does what the commands ask for, and writes the replies and the report. The driver runs the steps.
pub(crate) fn run_script<D: Disk + Send, O: Sink, H: Threads + Wait + Sync, P: Probe>(
    alloc: Global,
    core: Core<D>,
    commands: &[Command],
    out: &mut O,
    driver: &Driver<'_, H, P>,
    limit: u64,
) -> (Core<D>, Result<Ending, SessionError>)
    requires idle { NoneRuns core }
    ensures idle { NoneRuns result.0 }
    ensures answers { AnswersAll D.Disk O.contents (drive_by limit P.may_stop driver.now) commands.now out.old out.new core result.0 result.1 }
    ensures sink { TellsSink O.target O.has_failed out.old out.new result.1 }
{
    stores_go_on::<D>();
    core.is_kept();
    let mut core = core;
    let mut progress = Progress::new(commands);
    while progress.reach_run(alloc, &mut core, out) {
        let (next, verdict) = driver.run(alloc, core, limit);
        core = next;
        progress.answer_run(alloc, &core, verdict, out);
    }
    let ended = close(alloc, &core, progress.went(), out);
    (core, ended)
}

/// Does the same on the calling thread, which waits for nobody.
pub(crate) fn run_script_alone<D: Disk, O: Sink>(
    alloc: Global,
    core: Core<D>,
    commands: &[Command],
    out: &mut O,
    limit: u64,
) -> (Core<D>, Result<Ending, SessionError>)
    requires idle { NoneRuns core }
    ensures idle { NoneRuns result.0 }
    ensures answers { AnswersAll D.Disk O.contents (drive_of limit false false) commands.now out.old out.new core result.0 result.1 }
    ensures sink { TellsSink O.target O.has_failed out.old out.new result.1 }
{
    stores_go_on::<D>();
    core.is_kept();
    let mut core = core;
    let mut progress = Progress::new(commands);
    while progress.reach_run(alloc, &mut core, out) {
        let (next, verdict) = run_with(alloc, core, &mut First, limit);
        core = next;
        progress.answer_run(alloc, &core, verdict, out);
    }
    let ended = close(alloc, &core, progress.went(), out);
    (core, ended)
}
