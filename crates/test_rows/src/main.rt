//! Runs cases that are data: each is a command, its input, and the result that must come. The arguments name the files
//! of cases.
//!
//! `test_cases` says how a file is written, `bytes` how bytes are written, and `commands` lists the commands.
#![tactic(auto)]

mod bodies;
mod bytes;
mod changes;
mod choosers;
mod codecs;
mod commands;
mod contents;
mod core_calls;
mod cores;
mod crashes;
mod disks;
mod forged;
mod graphs;
mod item_calls;
mod journals;
mod laws;
mod legal;
mod many_items;
mod named;
mod orders;
mod plain;
mod random;
mod random_bodies;
mod random_stores;
mod reopening;
mod running;
mod side_bytes;
mod states;
mod stories;
mod telling;
mod together;
mod vault_stories;
mod vaults;

use anyhow::{Error, bail};
use std::env;
use test_cases::{Names, run_file};

fn main(rt: HostRuntime) -> Result<(), Error> {
    laws::hold();
    let alloc = rt.alloc();
    let mut differ = 0u64;
    for path in env::args(&rt)?.skip(1) {
        let mut names = Names::new(alloc);
        let tally = run_file(&rt, path.as_str(), |command: &str, input: &str| {
            commands::answer(alloc, &mut names, command, input)
        })?;
        differ = differ.saturating_add(tally.differ);
    }
    if differ > 0 {
        bail!("{differ} cases differ");
    }
    Ok(())
}
