//! The commands. WORDS are those of the program, with the name of a text in place of a file. The first of them is not read.
//!
//! - `text NAME`: gives the name to what stands below it
//! - `begin`: from now on each disk begins with the calls that stand below, a line of WORDS each. The result is what a report says then
//! - `device WORDS`, `memory WORDS`, `reader WORDS`, `writer WORDS`: the command on such a disk, with a failure at its first call, at its
//!   second, and so on. Below stands what it writes before the report, a line `report`, and what a report says after it. The result is
//!   'as promised', or what is not
//! - `retries WORDS`, `forgets WORDS`, `gives_up WORDS`, `reads_on WORDS`, `writes_on WORDS`: the same with a wrong program: one that tries
//!   again after a failure, one that makes no sync from its N-th on, one that always gives up, one that takes a failed read for the end, one
//!   that does not see that a write failed
//! - `fails N WORDS`, `falls N WORDS`: the command on such a disk, whose N-th call fails, or is refused memory. The result is what it writes
//! - `aged WORDS`: the same, on such a disk whose first file says that it has the greatest generation
//! - `long WORDS`: the same, on such a disk that keeps only the first 65,536 bytes of each file: for a store that grows up to its limit
//! - `asked WORDS`: the same, with workers that are asked to stop before the first step
//! - `put N GRAPH`: one put on a new store of the graph, of which the N-th call fails, and each crash after it
//! - `lying N`: the calls of the program that stand below, on a disk that is not honest, for N seeds. The result is 'as promised', or the
//!   first seed with the first call that is not
//! - `hiding N`: the same on a disk that hides its errors: so the program does not tell them
use crate::calls::{Way, call};
use crate::front_disk::FrontDisk;
use crate::lengths::measured;
use crate::stage::Stage;
use crate::streams::Limits;
use crate::trials::{Kind, Trial, tried};
use crate::wrong_disk::Wrong;
use crate::{asking, failures, lies, puts};
use disk::{Choice, Disk, DiskError, Fill, MemDisk, Side};
use std::alloc::AllocError;
use std::sync::Wait;
use std::thread::Threads;
use test_cases::texts;

/// The result of a command with its input.
pub(crate) fn answer<R: Threads + Wait + Sync>(
    stage: &mut Stage<'_, R>,
    command: &str,
    input: &str,
) -> Result<String, AllocError> {
    let (word, rest) = command.split_once(' ').unwrap_or((command, ""));
    if word == "text" {
        return name(stage, rest, input);
    }
    let text = texts::lines_of(stage.alloc, input)?;
    if word == "begin" {
        return stage.begin(text.as_str());
    }
    result(stage, word, command, text.as_str())
}

// Gives the name to a text.
fn name<R>(stage: &mut Stage<'_, R>, name: &str, input: &str) -> Result<String, AllocError> {
    let text = texts::lines_of(stage.alloc, input)?;
    stage.names.give(name, text.into_bytes())?;
    Ok(String::new(stage.alloc))
}

// The result of a command with this first word and this text, which changes neither the names nor how each disk begins.
fn result<R: Threads + Wait + Sync>(
    stage: &Stage<'_, R>,
    word: &str,
    command: &str,
    text: &str,
) -> Result<String, AllocError> {
    let (_, rest) = command.split_once(' ').unwrap_or((command, ""));
    match word {
        "aged" => aged(stage, command),
        "long" => long(stage, command),
        "asked" => asking::answer(stage, command),
        "lying" => lies::answer(stage, rest, false, text),
        "hiding" => lies::answer(stage, rest, true, text),
        "put" => put(stage, rest),
        "fails" => once(stage, Kind::Device, rest),
        "falls" => once(stage, Kind::Memory, rest),
        _ => match kind_of(word) {
            Some(kind) => failures::answer(stage, kind, command, text),
            None => String::from_str(stage.alloc, "no such command\n"),
        },
    }
}

// What fails.
fn kind_of(word: &str) -> Option<Kind> {
    match word {
        "device" => Some(Kind::Device),
        "memory" => Some(Kind::Memory),
        "reader" => Some(Kind::Reader),
        "writer" => Some(Kind::Writer),
        "retries" => Some(Kind::Program(Wrong::Retries)),
        "forgets" => Some(Kind::Program(Wrong::Forgets)),
        "gives_up" => Some(Kind::Program(Wrong::GivesUp)),
        "reads_on" => Some(Kind::ReadsOn),
        "writes_on" => Some(Kind::WritesOn),
        _ => None,
    }
}

// One put: `N GRAPH`.
fn put<R>(stage: &Stage<'_, R>, words: &str) -> Result<String, AllocError> {
    let (number, graph) = words.split_once(' ').unwrap_or((words, ""));
    puts::answer(
        stage.alloc,
        &stage.names,
        graph,
        number.parse::<u64>().unwrap_or(0),
    )
}

// What a command writes if this call fails: `N WORDS`.
fn once<R: Threads + Wait + Sync>(
    stage: &Stage<'_, R>,
    kind: Kind,
    words: &str,
) -> Result<String, AllocError> {
    let (number, _) = words.split_once(' ').unwrap_or((words, ""));
    let number = number.parse::<u64>().unwrap_or(0);
    let disk = stage.disk()?;
    let (_, came, _) = tried(stage, words, Way::Whole, Trial { kind, number }, disk)?;
    Ok(came.into_told())
}

// What a command writes where the first file has the greatest generation.
fn aged<R: Threads + Wait + Sync>(stage: &Stage<'_, R>, line: &str) -> Result<String, AllocError> {
    let mut disk = stage.disk()?;
    if age(&mut disk).is_err() {
        return String::from_str(stage.alloc, "no first file\n");
    }
    let (_, came) = call(stage, line, Way::Whole, &Limits::none(), disk)?;
    Ok(came.into_told())
}

// What a command writes on a disk that keeps only the front of its files.
fn long<R: Threads + Wait + Sync>(stage: &Stage<'_, R>, line: &str) -> Result<String, AllocError> {
    let begun = stage.disk()?;
    let Fill { a, b } = begun.fill(stage.alloc, Choice::Written)?;
    let disk = FrontDisk::new(a, b);
    let (_, came) = call(stage, line, Way::Whole, &Limits::none(), disk)?;
    Ok(came.into_told())
}

// Writes the greatest generation to the first file.
fn age(disk: &mut MemDisk) -> Result<(), DiskError> {
    match measured(disk, Side::A) {
        Some(count) if GENERATION <= count => {
            disk.write_at(Side::A, GENERATION, &[255; 8])?;
            disk.sync(Side::A)
        }
        _ => Err(DiskError::Device),
    }
}

// Where a file has the eight bytes of its generation.
const GENERATION: u64 = 2;
