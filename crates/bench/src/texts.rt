//! Graph texts: their canonical text, and how fast one is parsed.
use crate::images::copying;
use crate::readings::seconds_between;
use anyhow::Error;
use graph::{GraphError, canonical, parse};
use std::alloc::{AllocError, Global};
use std::fs;
use std::io::{Print, Write};
use std::num::nearest_usize_to_f64;
use std::process::ExitCode;
use std::time::Instant;

/// At least this number of bytes is parsed, over as many rounds as that takes.
const BYTES: u32 = 20_000_000;

/// Prints the canonical text of the graph text in a file, or why it is refused. The status is 2 if it is refused, and 5
/// if memory is.
pub(crate) fn print_canonical(rt: &HostRuntime, path: &str) -> Result<ExitCode, Error> {
    let text = fs::read(rt, path)?;
    let (status, told) = told(rt.alloc(), &text)?;
    print(rt, status, &told)?;
    Ok(ExitCode::from(status))
}

fn print(rt: &HostRuntime, status: u8, told: &[u8]) -> Result<(), Error> {
    if status == 0 {
        rt.stdout().write_all(told)?;
    } else {
        rt.stderr().write_all(told)?;
    }
    Ok(())
}

// What is printed of a graph text, and the status.
fn told(alloc: Global, text: &[u8]) -> Result<(u8, Vec<u8>), AllocError> {
    match parse(alloc, text) {
        Ok(graph) => Ok((0, canonical(alloc, &graph)?)),
        Err(fault) if fault.error == GraphError::NoMemory => {
            Ok((5, b"no memory\n".to_vec(alloc)?))
        }
        Err(fault) => {
            let line = format!(in alloc; "graph refused {fault}\n")?;
            Ok((2, line.as_bytes().to_vec(alloc)?))
        }
    }
}

/// Parses the text in a file again and again, and copies it as often, and prints how many megabytes of the text each
/// handles in a second, and the ratio of the times. A text that is refused is parsed up to its fault.
pub(crate) fn measure(rt: &HostRuntime, path: &str) -> Result<(), Error> {
    let text = fs::read(rt, path)?;
    compare(rt, &text)
}

fn compare(rt: &HostRuntime, text: &[u8]) -> Result<(), Error> {
    let rounds = BYTES / u32::try_from(text.len())?.max(1) + 1;
    let told = if parse(rt.alloc(), text).is_ok() {
        "accepted"
    } else {
        "refused"
    };
    let copy = copying(rt, text, rounds)?;
    let parse = parsing(rt, text, rounds)?;
    let megabytes = nearest_usize_to_f64(text.len()) * f64::from(rounds) / 1e6;
    println!(rt; "{} bytes, {told}, {rounds} rounds", text.len())?;
    println!(rt; "copy {:.0} MB/s", megabytes / copy)?;
    tell(rt, megabytes, rounds, copy, parse)
}

// Prints what parsing takes.
fn tell<R: Print>(rt: &R, megabytes: f64, rounds: u32, copy: f64, parse: f64) -> Result<(), Error> {
    println!(rt;
        "parse {:.1} MB/s, {:.3} milliseconds, {:.0} copies",
        megabytes / parse,
        parse * 1e3 / f64::from(rounds),
        parse / copy
    )?;
    Ok(())
}

// The seconds that `rounds` rounds of parsing take.
fn parsing(rt: &HostRuntime, text: &[u8], rounds: u32) -> Result<f64, Error> {
    let start = Instant::now(rt);
    for _ in 0..rounds {
        let _graph = parse(rt.alloc(), text);
    }
    seconds_between(start, Instant::now(rt))
}
