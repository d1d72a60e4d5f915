//! A script, from its bytes to its replies.
ghost use Rattle.std.specs.Prelude.{IfErr, IfOk};
ghost use Rattle.script.specs.Script.{IsScript};
ghost use Rattle.commit.specs.Runs.{NoneRuns};
ghost use Rattle.session.specs.Fails.{FailsToRead, IsRefusedAs, ReadsScript, AnswersAlone, AnswersWith};
ghost use Rattle.session.specs.Streams.{TellsSink, TellsSource};

use crate::commands::{run_script, run_script_alone};
use crate::{Ending, SessionError, Source};
use commit::Core;
use disk::Disk;
use graph::Graph;
use pool::{Driver, Probe};
use report::Sink;
use script::{Command, MOST_BYTES, parse_script};
use std::alloc::Global;
use std::marker::Sync;
use std::sync::Wait;
use std::thread::Threads;
use vault::stores_go_on;

/// Runs a script on a store: reads it whole, does what its lines ask for, one after another, and writes the replies and
/// then the report.
///
/// The driver runs the steps, with this limit for each run. A reply of `refused 8`, `9` or `10`, or that a thread could
/// not be started, ends the session without a report. An error before the first line leaves the store and the output as
/// they were; after a later error, what was committed stays. Where more than 64 puts stand in a row they are committed in
/// groups of up to 64, and the replies to a group are written after its record is on the disk. A crash at any moment of a
/// line, or of such a group, leaves all that came by the lines before it, and a prefix of its own commits: so of a group
/// all or nothing.
pub fn session<D: Disk + Send, S: Source, O: Sink, H: Threads + Wait + Sync, P: Probe>(
    alloc: Global,
    core: Core<D>,
    input: &mut S,
    out: &mut O,
    driver: &Driver<'_, H, P>,
    limit: u64,
) -> (Core<D>, Result<Ending, SessionError>)
    requires idle { NoneRuns core }
    ensures idle { NoneRuns result.0 }
    ensures answers { AnswersWith D.Disk O.contents limit P.may_stop driver.now (S.remaining input.old) out.old out.new core result.0 result.1 }
    ensures source { TellsSource S.has_failed input.old input.new result.1 }
    ensures sink { TellsSink O.target O.has_failed out.old out.new result.1 }
{
    stores_go_on::<D>();
    core.is_kept();
    match read_script(alloc, core.graph(), input) {
        Ok(commands) => run_script(alloc, core, commands.as_slice(), out, driver, limit),
        Err(error) => (core, Err(error)),
    }
}

/// Runs a script on a store as `session` does, with a run on the calling thread at each `run`. It takes the first of the
/// ready instances each time, needs no threads, and waits for nobody: so it returns.
pub fn session_alone<D: Disk, S: Source, O: Sink>(
    alloc: Global,
    core: Core<D>,
    input: &mut S,
    out: &mut O,
    limit: u64,
) -> (Core<D>, Result<Ending, SessionError>)
    requires idle { NoneRuns core }
    ensures idle { NoneRuns result.0 }
    ensures answers { AnswersAlone D.Disk O.contents limit (S.remaining input.old) out.old out.new core result.0 result.1 }
    ensures source { TellsSource S.has_failed input.old input.new result.1 }
    ensures sink { TellsSink O.target O.has_failed out.old out.new result.1 }
{
    match read_script(alloc, core.graph(), input) {
        Ok(commands) => run_script_alone(alloc, core, commands.as_slice(), out, limit),
        Err(error) => (core, Err(error)),
    }
}

// The commands of the script that a source has. It reads at most one byte more than the longest script has.
fn read_script<S: Source>(
    alloc: Global,
    graph: &Graph,
    input: &mut S,
) -> Result<Vec<Command>, SessionError>
    ensures read { IfOk result (λ commands. ReadsScript graph.now (S.remaining input.old) commands.items) }
    ensures fails { IfErr result (FailsToRead graph.now (S.remaining input.old)) }
    ensures source { TellsSource S.has_failed input.old input.new result }
{
    match input.read_up_to(alloc, MOST_BYTES as u64 + 1) {
        Ok(text) => parsed(alloc, graph, text.as_slice()),
        Err(error) => Err(SessionError::of_source(error)),
    }
}

// The commands of a script.
fn parsed(alloc: Global, graph: &Graph, text: &[u8]) -> Result<Vec<Command>, SessionError>
    ensures read { IfOk result (λ commands. IsScript graph.now text.now commands.items) }
    ensures refused { IfErr result (IsRefusedAs graph.now text.now) }
{
    match parse_script(alloc, graph, text) {
        Ok(commands) => Ok(commands),
        Err(error) => Err(SessionError::of_script(error)),
    }
}
