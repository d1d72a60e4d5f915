//! A run whose probe asks for a stop.
ghost use Rattle.cli.specs.Words.{IsInRange};

use crate::calls::told_of;
use crate::stage::Stage;
use cli::{Command, obey, read_words};
use disk::MemDisk;
use pool::{Answer, Crew, Driver, Probe};
use std::alloc::AllocError;
use std::sync::Wait;
use std::thread::Threads;
use terms::Inst;

// Answers `Stop` to each question.
#[derive(Clone, Copy, Debug, PartialEq, Eq)]
struct AlwaysStop;

impl Probe for AlwaysStop {
    ghost use Rattle.std.specs.Prelude.{true};

    ghost may_stop = { true };

    fn enter(&self, _instance: Inst) -> Answer {
        Answer::Stop
    }
}

/// What a command writes whose workers are asked to stop before the first step, as that of a call.
pub(crate) fn answer<R: Threads + Wait + Sync>(
    stage: &Stage<'_, R>,
    line: &str,
) -> Result<String, AllocError> {
    let words: Vec<&str> = line.split(' ').collect(stage.alloc)?;
    let disk = stage.disk()?;
    match read_words(stage.alloc, words.as_slice()) {
        Ok(command) => asked(stage, &command, disk),
        Err(_) => String::from_str(stage.alloc, "no such words\n"),
    }
}

fn asked<R: Threads + Wait + Sync>(
    stage: &Stage<'_, R>,
    command: &Command<'_>,
    disk: MemDisk,
) -> Result<String, AllocError>
    requires { IsInRange command.now }
{
    let mut input = stage.names.bytes(command.input()).unwrap_or(&[]);
    let mut out = Vec::new(stage.alloc);
    let mut err = Vec::new(stage.alloc);
    let driver = Driver::Crew(Crew::new(stage.rt, command.workers(), AlwaysStop));
    let (_, status) = obey(
        stage.alloc,
        command,
        disk,
        &mut input,
        &mut out,
        &mut err,
        &driver,
    );
    told_of(stage.alloc, out.as_slice(), err.as_slice(), status)
}
