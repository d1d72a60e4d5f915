//! Examples: a folder has a `graph`, a `script`, and in `output` what the program writes when the script is run on a new
//! store of the graph. If there is a `script_again`, it is run on the same store after the first one, and `output_again`
//! is what the program writes then. The output is the same with any number of workers.
use crate::calls::{Streams, call};
use anyhow::Error;
use disk::MemDisk;
use std::fs;
use std::io::Print;
use std::sync::Wait;
use std::thread::Threads;
use test_cases::Names;

// How a script is run: by the calling thread, and by crews.
const RUNS: [&str; 5] = [
    "cnc run . -",
    "cnc run . - --workers 1",
    "cnc run . - --workers 2",
    "cnc run . - --workers 4",
    "cnc run . - --workers 8",
];

/// Runs an example in each of these ways, prints whether its outputs are as they must be, and returns how many are not.
pub(crate) fn run<R: Threads + Wait + Sync>(
    rt: &HostRuntime,
    threads: &R,
    folder: &str,
) -> Result<u64, Error> {
    let graph = read(rt, folder, "graph")?;
    let script = read(rt, folder, "script")?;
    let wanted = read(rt, folder, "output")?;
    let again = match read(rt, folder, "script_again") {
        Ok(again) => Some((again, read(rt, folder, "output_again")?)),
        Err(_) => None,
    };
    let mut differ = 0u64;
    for line in RUNS {
        let disk = MemDisk::new(rt.alloc());
        let (disk, _) = said(rt, threads, disk, "cnc create - .", graph.as_str())?;
        let (disk, came) = said(rt, threads, disk, line, script.as_str())?;
        let mut more = told(rt, folder, line, wanted.as_str(), came.as_str())?;
        if let Some((again, wanted)) = &again {
            let (_, came) = said(rt, threads, disk, line, again.as_str())?;
            more = more.saturating_add(told(rt, folder, line, wanted.as_str(), came.as_str())?);
        }
        differ = differ.saturating_add(more);
    }
    if differ == 0 {
        rt.println(format_args!(
            "{folder}: as it must be, by one thread and by 1, 2, 4 and 8 workers"
        ))?;
    }
    Ok(differ)
}

/// Shows an example: makes a store of its graph, runs its script, prints the report, turns the store over, and runs what
/// is left to run. It prints each command, with all that the command writes.
pub(crate) fn show<R: Threads + Wait + Sync>(
    rt: &HostRuntime,
    threads: &R,
    folder: &str,
) -> Result<(), Error> {
    let graph = read(rt, folder, "graph")?;
    let script = read(rt, folder, "script")?;
    let mut disk = MemDisk::new(rt.alloc());
    for (line, text) in [
        ("cnc create graph store", graph.as_str()),
        ("cnc run store script", script.as_str()),
        ("cnc report store", ""),
        ("cnc turn store", ""),
        ("cnc run store -", "run\n"),
    ] {
        let (next, told) = said(rt, threads, disk, line, text)?;
        rt.print(format_args!("> {line}\n{told}"))?;
        disk = next;
    }
    Ok(())
}

// Does a command, and returns all that it wrote.
fn said<R: Threads + Wait + Sync>(
    rt: &HostRuntime,
    threads: &R,
    disk: MemDisk,
    line: &str,
    text: &str,
) -> Result<(MemDisk, String), Error> {
    let alloc = rt.alloc();
    let names = Names::new(alloc);
    Ok(call(threads, alloc, &names, line, text, Streams::Work, disk)?)
}

fn read(rt: &HostRuntime, folder: &str, name: &str) -> Result<String, Error> {
    let mut path = String::from_str(rt.alloc(), folder)?;
    path.push_str("/")?;
    path.push_str(name)?;
    Ok(fs::read_to_string(rt, path.as_str())?)
}

// Prints an output that is not as it must be, without the line of its status. Returns 0, or 1 if it is not.
fn told(
    rt: &HostRuntime,
    folder: &str,
    line: &str,
    wanted: &str,
    came: &str,
) -> Result<u64, Error> {
    let came = came.split("status ").next().unwrap_or(came);
    if came == wanted {
        return Ok(0);
    }
    rt.println(format_args!("{folder}: {line}: wanted:\n{wanted}came:\n{came}"))?;
    Ok(1)
}
