//! A failure at each call in turn.
use crate::calls::{Came, Way, call};
use crate::crashes::CHOICES;
use crate::left::{broken_by_crash, broken_by_more};
use crate::right::{Deed, Right, broken_by_text};
use crate::stage::Stage;
use crate::streams::Limits;
use crate::trials::{Kind, Trial, tried};
use disk::{Choice, Fill, MemDisk};
use std::alloc::{AllocError, Global};
use std::sync::Wait;
use std::thread::Threads;

// The most failures that are tried.
const MOST: u64 = 1000;

// What a trial finds.
#[derive(Clone, Copy)]
enum Found {
    /// All is as promised.
    Kept,
    /// No failure was met, and all is right.
    Over,
    /// By what the command wrote this is broken.
    Told(&'static str),
    /// After a crash with this choice this is broken.
    Left(&'static str, &'static str),
}

/// Tries a failure of this kind at each call of a command in turn, until it meets none. The text has what the command writes
/// before a report, a line `report`, and what a report says after it.
pub(crate) fn answer<R: Threads + Wait + Sync>(
    stage: &Stage<'_, R>,
    kind: Kind,
    line: &str,
    text: &str,
) -> Result<String, AllocError> {
    let (replies, report) = text.split_once("report\n").unwrap_or((text, ""));
    let deed = Deed::of(line);
    let writes = written(stage.alloc, deed, replies, report)?;
    let script = script_of(stage, line);
    let right = Right {
        deed,
        script,
        replies,
        report,
        writes: writes.as_str(),
    };
    try_all(stage, kind, line, &right)
}

// A failure at the first call, at the second, and so on.
fn try_all<R: Threads + Wait + Sync>(
    stage: &Stage<'_, R>,
    kind: Kind,
    line: &str,
    right: &Right<'_>,
) -> Result<String, AllocError> {
    for number in 1..MOST {
        let trial = Trial { kind, number };
        match find(stage, line, right, trial)? {
            Found::Kept => {}
            Found::Over => return String::from_str(stage.alloc, "as promised\n"),
            Found::Told(what) => return said(stage.alloc, number, "", what),
            Found::Left(choice, what) => return said(stage.alloc, number, choice, what),
        }
    }
    String::from_str(stage.alloc, "no end\n")
}

// All that the command writes if nothing fails.
fn written(alloc: Global, deed: Deed, replies: &str, report: &str) -> Result<String, AllocError> {
    let mut writes = String::from_str(alloc, replies)?;
    if deed == Deed::Run || deed == Deed::Report {
        writes.push_str(report)?;
    }
    Ok(writes)
}

// The script that a command runs; nothing if it runs none.
fn script_of<'a, R>(stage: &'a Stage<'_, R>, line: &str) -> &'a str {
    match stage.names.bytes(line.split(' ').nth(3).unwrap_or("")) {
        Some(bytes) => str::from_utf8(bytes).unwrap_or(""),
        None => "",
    }
}

// The line for a promise that is broken.
fn said(alloc: Global, number: u64, choice: &str, what: &str) -> Result<String, AllocError> {
    let mut text = String::new(alloc);
    if choice.is_empty() {
        writeln!(text, "at {number}: {what}")?;
    } else {
        writeln!(text, "at {number}, touched bytes {choice}: {what}")?;
    }
    Ok(text)
}

// One failure, and each crash after it.
fn find<R: Threads + Wait + Sync>(
    stage: &Stage<'_, R>,
    line: &str,
    right: &Right<'_>,
    trial: Trial,
) -> Result<Found, AllocError> {
    let disk = stage.disk()?;
    let (_, came, is_met) = tried(stage, line, Way::Whole, trial, disk)?;
    if let Some(what) = broken_by_text(trial.kind, right, &came, is_met) {
        return Ok(Found::Told(what));
    }
    drop(came);
    if !is_met {
        return Ok(Found::Over);
    }
    crash_each(stage, line, right, trial)
}

// Each crash after this failure.
fn crash_each<R: Threads + Wait + Sync>(
    stage: &Stage<'_, R>,
    line: &str,
    right: &Right<'_>,
    trial: Trial,
) -> Result<Found, AllocError> {
    for (choice, name) in CHOICES {
        if let Some(what) = crash(stage, line, right, trial, choice)? {
            return Ok(Found::Left(name, what));
        }
    }
    Ok(Found::Kept)
}

// The command anew with its failure, and a crash. Returns what is broken then.
fn crash<R: Threads + Wait + Sync>(
    stage: &Stage<'_, R>,
    line: &str,
    right: &Right<'_>,
    trial: Trial,
    choice: Choice,
) -> Result<Option<&'static str>, AllocError> {
    let way = if right.deed == Deed::Run && trial.kind != Kind::Reader {
        Way::Held
    } else {
        Way::Whole
    };
    let begun = stage.disk()?;
    let first = begun.fill(stage.alloc, Choice::Written)?;
    let (disk, came, _) = tried(stage, line, way, trial, begun)?;
    crashed(stage, line, right, trial.kind, choice, &first, &came, disk)
}

// A crash of a disk that began with these files. Returns what is broken then.
fn crashed<R: Threads + Wait + Sync>(
    stage: &Stage<'_, R>,
    line: &str,
    right: &Right<'_>,
    kind: Kind,
    choice: Choice,
    first: &Fill,
    came: &Came,
    disk: MemDisk,
) -> Result<Option<&'static str>, AllocError> {
    let mut disk = disk;
    let fill = disk.fill(stage.alloc, choice)?;
    if matches!(right.deed, Deed::Report | Deed::Tell) && !are_same(first, &fill) {
        return Ok(Some("the files have changed"));
    }
    if disk.crash(fill).is_err() {
        return Ok(Some("no such crash"));
    }
    recover(stage, line, right, kind, came, disk)
}

fn are_same(first: &Fill, second: &Fill) -> bool {
    first.a.as_slice() == second.a.as_slice() && first.b.as_slice() == second.b.as_slice()
}

// The report after a crash, and the command once more. Returns what is broken.
fn recover<R: Threads + Wait + Sync>(
    stage: &Stage<'_, R>,
    line: &str,
    right: &Right<'_>,
    kind: Kind,
    came: &Came,
    disk: MemDisk,
) -> Result<Option<&'static str>, AllocError> {
    let (disk, after) = call(stage, "cnc report .", Way::Whole, &Limits::none(), disk)?;
    let before = stage.before.as_str();
    if let Some(what) = broken_by_crash(kind, right, before, came, after.told.as_str()) {
        return Ok(Some(what));
    }
    let answered = right.answered(came.told.as_str());
    again(stage, line, right, answered, after.told.as_str(), disk)
}

// The command once more on a store of which a report said this, and the report after it. Returns what is broken.
fn again<R: Threads + Wait + Sync>(
    stage: &Stage<'_, R>,
    line: &str,
    right: &Right<'_>,
    answered: usize,
    found: &str,
    disk: MemDisk,
) -> Result<Option<&'static str>, AllocError> {
    let (disk, more) = call(stage, line, Way::Whole, &Limits::none(), disk)?;
    if let Some(what) = broken_by_more(right, answered, found, more.told.as_str()) {
        return Ok(Some(what));
    }
    let (_, last) = call(stage, "cnc report .", Way::Whole, &Limits::none(), disk)?;
    if right.deed != Deed::Create && last.told.as_str() != right.report {
        return Ok(Some("the last report is not the right one"));
    }
    Ok(None)
}
