//! Runs the program on memory disks: cases, each the words of a command, what it reads, what it must write, and its
//! status; and the examples, each a folder.
//!
//! `test_cases` says how a file of cases is written, `commands` lists the commands, and `examples` says what a folder has.
//! After `--workers=N` the files are run by crews of N workers, if they do not say otherwise. `--show=FOLDER` shows an
//! example.
#![tactic(auto)]

mod alone;
mod calls;
mod commands;
mod examples;

use anyhow::{Error, bail};
use commands::Commands;
use std::env;
use std::io::Print;
use test_cases::run_file;

fn main(rt: HostRuntime) -> Result<(), Error> {
    let alloc = rt.alloc();
    let mut differ = 0u64;
    let mut workers = String::new(alloc);
    for path in env::args(&rt)?.skip(1) {
        let path = path.as_str();
        let more = if let Some(number) = path.strip_prefix("--workers=") {
            workers = String::from_str(alloc, number)?;
            rt.println(format_args!("on so many workers: {number}"))?;
            0
        } else if path.ends_with(".rows") {
            let mut commands = Commands::new(&rt, alloc, workers.as_str());
            run_file(&rt, path, |command: &str, input: &str| {
                commands.answer(alloc, command, input)
            })?
            .differ
        } else if let Some(folder) = path.strip_prefix("--show=") {
            examples::show(&rt, &rt, folder)?;
            0
        } else {
            examples::run(&rt, &rt, path)?
        };
        differ = differ.saturating_add(more);
    }
    if differ > 0 {
        bail!("{differ} cases differ");
    }
    Ok(())
}
