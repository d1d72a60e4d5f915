//! What each command does.
ghost use Rattle.std.specs.Prelude.{◌≡◌, ◌⊎◌, false, IfOk, IfErr, Ok, codes};
ghost use Rattle.graph.specs.declared.limits.TheConstants.{MOST_TEXT};
ghost use Rattle.commit.specs.Runs.{NoneRuns};
ghost use Rattle.session.specs.Answers.{drive_by};
ghost use Rattle.session.specs.Fails.{IsAllOrTooLarge, AnswersWith};
ghost use Rattle.cli.specs.Obeyed.{CreatesOrNot, Draws, DrawsStore, IsDrawn, IsLeft, IsNotOpened, Reports, Runs, SaysOrFails, TellsReport, TellsSession, TellsTurn, TurnsOver, ObeysBy};
ghost use Rattle.cli.specs.Outcomes.{status_of};
ghost use Rattle.cli.specs.declared.outcome.Failure.TheVariants as failure;
ghost use Rattle.cli.specs.declared.outcome.Outcome.{Outcome as Came};
ghost use Rattle.cli.specs.declared.outcome.Outcome.TheVariants.{Created, Failed};

use crate::hints::{graph_hint, script_hint, store_hint};
use crate::logging::log;
use crate::outcome::NamedFailure;
use crate::past::report_at;
use crate::verifying::verify;
use crate::words::MOST_LIMIT;
use crate::{Command, Failure, Left, Outcome};
use commit::{Core, CoreError, CreateError, NotCreated};
use disk::Disk;
use drawing::{DrawError, draw_graph, draw_store};
use graph::{Graph, MOST_TEXT, parse};
use pool::{Driver, Probe};
use report::{Format, ReportError, WriterSink, write_report_in};
use session::{Ending, ReaderSource, SessionError, session};
use std::alloc::Global;
use std::io::{ErrorKind, Read, Write};
use std::marker::Sync;
use std::sync::Wait;
use std::thread::Threads;
use vault::{Refused, VaultError};

/// Where failures are reported.
pub trait Errors: Write {
    /// Points at the fault that was reported: its line and column in the graph or the script, from 1, with column 0 if
    /// only the line is known; and what is wrong there, in a few words.
    fn point(&mut self, line: usize, column: usize, hint: &'static str);

    /// Whether a person reads it. If so, what is wrong with a store that is refused or not verified is explained.
    fn explains(&self) -> bool;

    /// One more instance was verified, of the `done` ones that are finished.
    fn verified_one(&mut self, done: u64);
}

impl Errors for Vec<u8> {
    // Only the text is kept.
    fn point(&mut self, _line: usize, _column: usize, _hint: &'static str) {}

    fn explains(&self) -> bool {
        false
    }

    fn verified_one(&mut self, _done: u64) {}
}

/// Does what a command asks for on a disk, and returns the disk and the status.
///
/// The input is the graph or the script. The output of the command goes to `out`. If it failed, the reason goes to
/// `err`; but nothing does if the output failed, or a reply ended the session. A store is opened before its script is
/// read, and the driver runs its steps. The status is the first that holds: 2 if the graph or the script is refused or
/// cannot be read; 5 if the device failed, memory or a thread was refused, the store is halted, or the output failed; 4
/// if the store is refused or not verified, or a put or a run found it full; 3 if a fault stopped the store; 6 if the last `run` met its
/// limit; 1 if a prescribed instance is not done; else 0.
pub fn obey<D: Disk + Send, R: Read, W: Write, E: Errors, H: Threads + Wait + Sync, P: Probe>(
    alloc: Global,
    command: &Command<'_>,
    disk: D,
    input: &mut R,
    out: &mut W,
    err: &mut E,
    driver: &Driver<'_, H, P>,
) -> (D, u8)
    ensures { (outcome : Came) × (result.1 ≡ status_of outcome)
        × ObeysBy D.Disk W.contents P.may_stop driver.now command.now (R.remaining input.old) out.old out.new disk result.0 outcome }
{
    let (disk, outcome) = obeyed(alloc, command, disk, input, out, err, driver);
    if let Outcome::Failed(failure) = &outcome {
        tell(failure, command.input(), err);
    }
    (disk, outcome.status())
}

// Does what a command asks for.
fn obeyed<D: Disk + Send, R: Read, W: Write, E: Errors, H: Threads + Wait + Sync, P: Probe>(
    alloc: Global,
    command: &Command<'_>,
    disk: D,
    input: &mut R,
    out: &mut W,
    err: &mut E,
    driver: &Driver<'_, H, P>,
) -> (D, Outcome)
    ensures { ObeysBy D.Disk W.contents P.may_stop driver.now command.now (R.remaining input.old) out.old out.new disk result.0 result.1 }
{
    match *command {
        Command::Create { .. } => create(alloc, disk, input, out),
        Command::Run { limit, .. } => run(alloc, disk, input, out, driver, limit),
        Command::Report { format, .. } => report(alloc, disk, format, out),
        Command::ReportAt { format, at, .. } => report_at(alloc, disk, format, at, out),
        Command::Log { .. } => log(alloc, disk, out),
        Command::Turn { .. } => turn(alloc, disk, out),
        Command::Verify { .. } => verify(alloc, disk, out, err),
        Command::Draw { .. } => (disk, draw(alloc, input, out)),
        Command::DrawStore { all, .. } => draw_stored(alloc, disk, all, out),
    }
}

// Writes why a command failed. If its output failed, nothing is written.
fn tell<E: Errors>(failure: &Failure, input: &str, err: &mut E) {
    if let Failure::Output = failure {
        return;
    }
    // If this text cannot be written, nobody can read it, and the status still says that the command failed.
    let _ = err.writeln(NamedFailure { failure, input });
    match failure {
        Failure::Graph(fault) => err.point(fault.line, fault.column, graph_hint(fault.error)),
        Failure::Script(line, fault) => err.point(*line, 0, script_hint(*fault)),
        Failure::Store(error) if err.explains() => explain_refusal(error, err),
        _ => {}
    }
}

// Says to a person what is wrong with a store that is refused.
fn explain_refusal<E: Errors>(error: &VaultError, err: &mut E) {
    if let Some(hint) = store_hint(error) {
        let _ = writeln!(err, "  {hint}");
    }
}

// Makes a store of the graph that a reader gives.
fn create<D: Disk, R: Read, W: Write>(
    alloc: Global,
    disk: D,
    input: &mut R,
    out: &mut W,
) -> (D, Outcome)
    ensures { CreatesOrNot D.Disk (R.remaining input.old) (W.contents out.old) (W.contents out.new) disk result.0 result.1 }
{
    let text = match read_text(alloc, input) {
        Ok(text) => text,
        Err(failure) => return (disk, Outcome::Failed(failure)),
    };
    match Core::create(alloc, disk, text.as_slice()) {
        Ok(core) => (core.into_disk(), created(out)),
        Err(refused) => {
            let NotCreated { disk, error } = refused;
            (disk, Outcome::Failed(Failure::of_creation(error)))
        }
    }
}

// Draws the graph that a reader gives.
fn draw<R: Read, W: Write>(alloc: Global, input: &mut R, out: &mut W) -> Outcome
    ensures { Draws (R.remaining input.old) (W.contents out.old) (W.contents out.new) result }
{
    let text = match read_text(alloc, input) {
        Ok(text) => text,
        Err(failure) => return Outcome::Failed(failure),
    };
    match parse(alloc, text.as_slice()) {
        Ok(graph) => drawn(&graph, out),
        Err(fault) => Outcome::Failed(Failure::of_creation(CreateError::Graph(fault))),
    }
}

// Writes the drawing of a graph.
fn drawn<W: Write>(graph: &Graph, out: &mut W) -> Outcome
    ensures { IsDrawn result }
{
    match draw_graph(graph, out) {
        Ok(()) => Outcome::Drawn,
        Err(_) => Outcome::Failed(Failure::Output),
    }
}

// The text that a reader gives. It reads at most one byte more than the longest graph text has.
fn read_text<R: Read>(alloc: Global, input: &mut R) -> Result<Vec<u8>, Failure>
    ensures read { IfOk result (λ text. IsAllOrTooLarge MOST_TEXT (R.remaining input.old) text.items) }
    ensures fails { IfErr result (λ why. (why ≡ failure.CannotRead) ⊎ (why ≡ failure.NoMemory)) }
{
    let mut text = Vec::new(alloc);
    match input.take(MOST_TEXT as u64 + 1).read_to_end(&mut text) {
        Ok(_) => Ok(text),
        Err(error) => match error.kind() {
            ErrorKind::OutOfMemory => Err(Failure::NoMemory),
            _ => Err(Failure::CannotRead),
        },
    }
}

// Says that a store was made.
fn created<W: Write>(out: &mut W) -> Outcome
    ensures { SaysOrFails (W.contents out.old) (W.contents out.new) (codes "created") Created result }
{
    match writeln!(out, "created") {
        Ok(()) => Outcome::Created,
        Err(_) => Outcome::Failed(Failure::Output),
    }
}

// What a session came to.
fn ran<D: Disk>(core: &Core<D>, answer: Result<Ending, SessionError>) -> Outcome
    ensures { TellsSession core.now answer result }
{
    match answer {
        Ok(ending) => Outcome::Ran(ending, left(core)),
        Err(error) => Outcome::Failed(Failure::of_session(error)),
    }
}

// What a report came to.
pub(crate) fn reported<D: Disk>(core: &Core<D>, answer: Result<(), ReportError>) -> Outcome
    ensures { TellsReport core.now answer result }
{
    match answer {
        Ok(()) => Outcome::Reported(left(core)),
        Err(error) => Outcome::Failed(Failure::of_report(error)),
    }
}

// What a turnover came to. It writes the new generation.
fn turned<W: Write>(answer: Result<u64, CoreError>, out: &mut W) -> Outcome
    ensures { TellsTurn (W.contents out.old) (W.contents out.new) answer result }
{
    match answer {
        Ok(generation) => told_generation(generation, out),
        Err(error) => Outcome::Failed(Failure::of_turn(error)),
    }
}

// Writes the generation of a store that was turned over.
fn told_generation<W: Write>(generation: u64, out: &mut W) -> Outcome
    ensures { TellsTurn (W.contents out.old) (W.contents out.new) (Ok generation) result }
{
    match writeln!(out, "turned, generation {generation}") {
        Ok(()) => Outcome::Turned(generation),
        Err(_) => Outcome::Failed(Failure::Output),
    }
}

// Runs a script on a store.
fn run<D: Disk + Send, R: Read, W: Write, H: Threads + Wait + Sync, P: Probe>(
    alloc: Global,
    disk: D,
    input: &mut R,
    out: &mut W,
    driver: &Driver<'_, H, P>,
    limit: u64,
) -> (D, Outcome)
    ensures { IsNotOpened D.Disk (W.contents out.old) (W.contents out.new) disk result.0 result.1
        ⊎ Runs D.Disk (drive_by limit P.may_stop driver.now false) (R.remaining input.old) (W.contents out.old) (W.contents out.new) disk result.0 result.1 }
{
    match Core::open(alloc, disk) {
        Ok(core) => {
            let (core, answer) = run_session(alloc, core, input, out, driver, limit);
            let outcome = ran(&core, answer);
            (core.into_disk(), outcome)
        }
        Err(refused) => {
            let Refused { disk, error } = refused;
            (disk, Outcome::Failed(Failure::Store(error)))
        }
    }
}

// Runs the script that a reader gives on a store, and writes to a writer.
fn run_session<D: Disk + Send, R: Read, W: Write, H: Threads + Wait + Sync, P: Probe>(
    alloc: Global,
    core: Core<D>,
    input: &mut R,
    out: &mut W,
    driver: &Driver<'_, H, P>,
    limit: u64,
) -> (Core<D>, Result<Ending, SessionError>)
    requires { NoneRuns core }
    ensures { AnswersWith D.Disk W.contents limit P.may_stop driver.now (R.remaining input.old) out.old out.new core result.0 result.1 }
{
    let mut source = ReaderSource {
        input,
        failed: false,
    };
    let mut sink = WriterSink { out, failed: false };
    let went = session(alloc, core, &mut source, &mut sink, driver, limit);
    let WriterSink { out, failed: _ } = sink;
    // A proof reads from this use what the writer holds.
    let _ = &*out;
    went
}

// Writes the report of a store in a format.
fn report<D: Disk, W: Write>(alloc: Global, disk: D, format: Format, out: &mut W) -> (D, Outcome)
    ensures { IsNotOpened D.Disk (W.contents out.old) (W.contents out.new) disk result.0 result.1
        ⊎ Reports D.Disk format (W.contents out.old) (W.contents out.new) disk result.0 result.1 }
{
    match Core::open(alloc, disk) {
        Ok(core) => {
            let outcome = reported(&core, write_report_in(alloc, &core, format, out));
            (core.into_disk(), outcome)
        }
        Err(refused) => {
            let Refused { disk, error } = refused;
            (disk, Outcome::Failed(Failure::Store(error)))
        }
    }
}

// Turns a store over.
fn turn<D: Disk, W: Write>(alloc: Global, disk: D, out: &mut W) -> (D, Outcome)
    ensures { IsNotOpened D.Disk (W.contents out.old) (W.contents out.new) disk result.0 result.1
        ⊎ TurnsOver D.Disk (W.contents out.old) (W.contents out.new) disk result.0 result.1 }
{
    match Core::open(alloc, disk) {
        Ok(core) => {
            let mut core = core;
            let outcome = turned(core.turn(alloc), out);
            (core.into_disk(), outcome)
        }
        Err(refused) => {
            let Refused { disk, error } = refused;
            (disk, Outcome::Failed(Failure::Store(error)))
        }
    }
}

// Draws a store.
fn draw_stored<D: Disk, W: Write>(alloc: Global, disk: D, all: bool, out: &mut W) -> (D, Outcome)
    ensures { IsNotOpened D.Disk (W.contents out.old) (W.contents out.new) disk result.0 result.1
        ⊎ DrawsStore D.Disk disk result.0 result.1 }
{
    match Core::open(alloc, disk) {
        Ok(core) => {
            let (disk, answer) = draw_store(alloc, core, all, out);
            (disk, store_drawn(answer))
        }
        Err(refused) => {
            let Refused { disk, error } = refused;
            (disk, Outcome::Failed(Failure::Store(error)))
        }
    }
}

// What the drawing of a store came to.
fn store_drawn(answer: Result<(), DrawError>) -> Outcome
    ensures { IsDrawn result ⊎ (result ≡ Failed failure.NoMemory) }
{
    match answer {
        Ok(()) => Outcome::Drawn,
        Err(DrawError::Write) => Outcome::Failed(Failure::Output),
        Err(DrawError::NoMemory) => Outcome::Failed(Failure::NoMemory),
    }
}

// How a store is left.
fn left<D: Disk>(core: &Core<D>) -> Left
    ensures { IsLeft core.now result }
{
    let counts = core.counts();
    Left {
        is_stopped: core.fault().is_some(),
        is_unfinished: counts.done < counts.prescribed,
    }
}
