//! Each failure in turn: of the device, of memory, of a reader and of a writer. The arguments name the files of cases.
//!
//! A case is a command of the program and what it writes if nothing fails. It is tried with a failure at its first call, at
//! its second, and so on until it meets none; after each failure the disk crashes, and the store is opened again. The result
//! is 'as promised', or the first number at which a promise is broken. `commands` lists the commands, `trials` what fails,
//! `right` and `left` what is promised.
#![tactic(auto)]

mod asking;
mod calls;
mod commands;
mod contents;
mod counts;
mod crashes;
mod failures;
mod falling_disk;
mod front_disk;
mod left;
mod lengths;
mod lies;
mod lying_disk;
mod puts;
mod right;
mod stage;
mod streams;
mod trials;
mod wrong_disk;

use anyhow::{Error, bail};
use commands::answer;
use stage::Stage;
use std::env;
use test_cases::run_file;

fn main(rt: HostRuntime) -> Result<(), Error> {
    let alloc = rt.alloc();
    let mut differ = 0u64;
    for path in env::args(&rt)?.skip(1) {
        let mut stage = Stage::new(&rt, alloc);
        let tally = run_file(&rt, path.as_str(), |command: &str, input: &str| {
            answer(&mut stage, command, input)
        })?;
        differ = differ.saturating_add(tally.differ);
    }
    if differ > 0 {
        bail!("{differ} cases differ");
    }
    Ok(())
}
