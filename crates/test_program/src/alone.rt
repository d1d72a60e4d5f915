//! A session in which the calling thread runs the steps.
ghost use Rattle.commit.specs.Runs.{NoneRuns};

use commit::Core;
use disk::MemDisk;
use report::WriterSink;
use session::{Ending, ReaderSource, SessionError, session_alone};
use std::alloc::{AllocError, Global};
use vault::Refused;

/// Runs a script on the store that is on a disk, with this limit for each run. Returns what was written, and after `! `
/// why the session did not come to its end, if it did not.
pub(crate) fn run(
    alloc: Global,
    disk: MemDisk,
    text: &str,
    limit: u64,
) -> Result<(MemDisk, String), AllocError> {
    let mut out = Vec::new(alloc);
    let (disk, went) = opened(alloc, disk, text.as_bytes(), &mut out, limit);
    let mut told = String::new(alloc);
    told.push_str(str::from_utf8(out.as_slice()).unwrap_or("no text\n"))?;
    match went {
        Some(Ok(_)) => {}
        Some(Err(error)) => writeln!(told, "! {error}")?,
        None => told.push_str("! no store\n")?,
    }
    Ok((disk, told))
}

// Opens the store and runs the script on it, or returns nothing if there is none.
fn opened(
    alloc: Global,
    disk: MemDisk,
    text: &[u8],
    out: &mut Vec<u8>,
    limit: u64,
) -> (MemDisk, Option<Result<Ending, SessionError>>) {
    match Core::open(alloc, disk) {
        Ok(core) => {
            let (core, went) = answered(alloc, core, text, out, limit);
            (core.into_disk(), Some(went))
        }
        Err(refused) => {
            let Refused { disk, error: _ } = refused;
            (disk, None)
        }
    }
}

// Runs the script on a store.
fn answered(
    alloc: Global,
    core: Core<MemDisk>,
    text: &[u8],
    out: &mut Vec<u8>,
    limit: u64,
) -> (Core<MemDisk>, Result<Ending, SessionError>)
    requires { NoneRuns core }
{
    let mut input = text;
    let mut source = ReaderSource {
        input: &mut input,
        failed: false,
    };
    let mut sink = WriterSink { out, failed: false };
    session_alone(alloc, core, &mut source, &mut sink, limit)
}
