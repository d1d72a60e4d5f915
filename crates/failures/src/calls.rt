//! A call of the program on a disk, with all that it wrote.
ghost use Rattle.cli.specs.Words.{IsInRange};
ghost use Rattle.commit.specs.Runs.{NoneRuns};

use crate::stage::Stage;
use crate::streams::{FailingReader, FailingWriter, Limits};
use cli::{Command, MOST_LIMIT, obey, read_words};
use commit::Core;
use disk::Disk;
use pool::{AlwaysGo, Crew, Driver};
use report::{WriterSink, write_report};
use session::{ReaderSource, session};
use std::alloc::{AllocError, Global};
use std::sync::Wait;
use std::thread::Threads;
use vault::Refused;

/// What is called.
#[derive(Clone, Copy, Debug, PartialEq, Eq)]
pub(crate) enum Way {
    /// The whole program.
    Whole,
    /// The session of a script, and then the report of what the store holds in memory, also where it is halted.
    Held,
}

/// What came of a call.
pub(crate) struct Came {
    /// What was written; then after `! ` what was written on the error output, and a line with the status if that is not 0. Of a
    /// session what it wrote alone.
    pub(crate) told: String,
    /// What the store held in memory after a session; empty if none was opened.
    pub(crate) held: String,
    /// Whether the reader or the writer failed.
    pub(crate) has_failed: bool,
    /// Whether the program wrote on after the writer had failed.
    pub(crate) went_on: bool,
}

impl Drop for Came {
    // By hand, so that dropping it is one call, wherever it is dropped.
    fn drop(self) {
        let Came {
            told: _,
            held: _,
            has_failed: _,
            went_on: _,
        } = self;
    }
}

impl Came {
    /// What was written, alone.
    pub(crate) fn into_told(self) -> String {
        let Came {
            told,
            held: _,
            has_failed: _,
            went_on: _,
        } = self;
        told
    }
}

// What came of a session that wrote this, of a store that holds what this report says.
fn held_of(alloc: Global, out: &FailingWriter, report: &[u8]) -> Result<Came, AllocError> {
    let told = String::from_str(alloc, text_of(out.text()))?;
    let held = String::from_str(alloc, text_of(report))?;
    Ok(Came {
        told,
        held,
        has_failed: out.has_failed(),
        went_on: out.went_on(),
    })
}

/// What was written; after `! ` each line of the error output; and a line with the status, if that is not 0.
pub(crate) fn told_of(
    alloc: Global,
    out: &[u8],
    err: &[u8],
    status: u8,
) -> Result<String, AllocError> {
    let mut told = String::from_str(alloc, text_of(out))?;
    tell_errors(&mut told, text_of(err))?;
    if status != 0 {
        writeln!(told, "status {status}")?;
    }
    Ok(told)
}

fn tell_errors(told: &mut String, err: &str) -> Result<(), AllocError> {
    for line in err.lines() {
        writeln!(told, "! {line}")?;
    }
    Ok(())
}

fn text_of(bytes: &[u8]) -> &str {
    str::from_utf8(bytes).unwrap_or("no text\n")
}

/// Calls the program with these words, the first of which is its name, on a disk. A graph or a script is the text with that
/// name.
pub(crate) fn call<D: Disk + Send + Drop, R: Threads + Wait + Sync>(
    stage: &Stage<'_, R>,
    line: &str,
    way: Way,
    limits: &Limits,
    disk: D,
) -> Result<(D, Came), AllocError> {
    let words: Vec<&str> = line.split(' ').collect(stage.alloc)?;
    called(stage, words.as_slice(), way, limits, disk)
}

// Calls the program with these words.
fn called<D: Disk + Send + Drop, R: Threads + Wait + Sync>(
    stage: &Stage<'_, R>,
    words: &[&str],
    way: Way,
    limits: &Limits,
    disk: D,
) -> Result<(D, Came), AllocError> {
    match read_words(stage.alloc, words) {
        Ok(command) => match way {
            Way::Whole => obeyed(stage, &command, limits, disk),
            Way::Held => held(stage, &command, limits, disk),
        },
        Err(error) => {
            drop(error);
            let told = String::from_str(stage.alloc, "no such words\n")?;
            let came = Came {
                told,
                held: String::new(stage.alloc),
                has_failed: false,
                went_on: false,
            };
            Ok((disk, came))
        }
    }
}

// The text that a command reads.
fn input<'a, R>(stage: &'a Stage<'_, R>, command: &Command<'_>) -> &'a [u8] {
    match stage.names.bytes(command.input()) {
        Some(bytes) => bytes,
        None => &[],
    }
}

// Does what a command asks for, with a crew for its steps.
fn obeyed<D: Disk + Send + Drop, R: Threads + Wait + Sync>(
    stage: &Stage<'_, R>,
    command: &Command<'_>,
    limits: &Limits,
    disk: D,
) -> Result<(D, Came), AllocError>
    requires { IsInRange command.now }
{
    let mut reader = FailingReader::new(input(stage, command), limits);
    let mut out = FailingWriter::new(stage.alloc, limits);
    let mut err = Vec::new(stage.alloc);
    let driver = Driver::Crew(Crew::new(stage.rt, command.workers(), AlwaysGo));
    let (disk, status) = obey(
        stage.alloc,
        command,
        disk,
        &mut reader,
        &mut out,
        &mut err,
        &driver,
    );
    let told = told_of(stage.alloc, out.text(), err.as_slice(), status)?;
    let came = Came {
        told,
        held: String::new(stage.alloc),
        has_failed: reader.has_failed() || out.has_failed(),
        went_on: out.went_on(),
    };
    Ok((disk, came))
}

// Runs the session of a script, with a crew for its steps, and asks the store for its report.
fn held<D: Disk + Send + Drop, R: Threads + Wait + Sync>(
    stage: &Stage<'_, R>,
    command: &Command<'_>,
    limits: &Limits,
    disk: D,
) -> Result<(D, Came), AllocError>
    requires { IsInRange command.now }
{
    let mut out = FailingWriter::new(stage.alloc, limits);
    let mut report = Vec::new(stage.alloc);
    let driver = Driver::Crew(Crew::new(stage.rt, command.workers(), AlwaysGo));
    let disk = answered(
        stage.alloc,
        input(stage, command),
        &mut out,
        &mut report,
        &driver,
        disk,
    );
    let came = held_of(stage.alloc, &out, report.as_slice())?;
    Ok((disk, came))
}

// Opens a store, runs a script on it, and writes the report of what it holds then.
fn answered<D: Disk + Send, R: Threads + Wait + Sync>(
    alloc: Global,
    script: &[u8],
    out: &mut FailingWriter,
    report: &mut Vec<u8>,
    driver: &Driver<'_, R, AlwaysGo>,
    disk: D,
) -> D {
    match Core::open(alloc, disk) {
        Ok(core) => {
            let core = ran(alloc, script, out, driver, core);
            let _ = write_report(alloc, &core, report);
            core.into_disk()
        }
        Err(refused) => {
            let Refused { disk, error: _ } = refused;
            disk
        }
    }
}

// Runs a script on a store.
fn ran<D: Disk + Send, R: Threads + Wait + Sync>(
    alloc: Global,
    script: &[u8],
    out: &mut FailingWriter,
    driver: &Driver<'_, R, AlwaysGo>,
    core: Core<D>,
) -> Core<D>
    requires { NoneRuns core }
{
    let mut script = script;
    let mut source = ReaderSource {
        input: &mut script,
        failed: false,
    };
    let mut sink = WriterSink { out, failed: false };
    let (core, _) = session(alloc, core, &mut source, &mut sink, driver, MOST_LIMIT);
    core
}
