//! Measures what the layers do, by the clock, and tries graph texts by hand. Its numbers are measured, not proved.
#![tactic(auto)]

mod cores;
mod evaluate;
mod hubs;
mod images;
mod machines;
mod many_items;
mod plain_disk;
mod pools;
mod readings;
mod stores;
mod syncs;
mod texts;

use anyhow::Error;
use hubs::Handles;
use std::env;
use std::process::ExitCode;

const USAGE: &str = "usage: bench canonical FILE
       bench parse FILE
       bench codec ITEMS
       bench core STEPS
       bench evaluate STATEMENTS
       bench group STEPS
       bench hub CALLS
       bench items ITEMS
       bench machine STEPS
       bench open RECORDS
       bench pool STEPS
       bench sync WRITES";

fn main(rt: HostRuntime) -> Result<ExitCode, Error> {
    let words: Vec<String> = env::args(&rt)?.collect(rt.alloc())?;
    asked(&rt, &rt, &words)
}

// Does what the words ask for: a command and its one argument.
fn asked<R: Handles>(rt: &HostRuntime, threads: &R, words: &[String]) -> Result<ExitCode, Error> {
    if words.len() == 3 {
        return match (words[1].as_str(), words[2].parse::<u32>()) {
            ("core", Ok(count)) => done(cores::measure(rt, threads, count)),
            ("group", Ok(count)) => done(pools::on_files(rt, threads, count)),
            ("hub", Ok(count)) => done(hubs::measure(threads, count)),
            ("pool", Ok(count)) => done(pools::measure(rt, threads, count)),
            (_, count) => without_threads(rt, words[1].as_str(), words[2].as_str(), count.ok()),
        };
    }
    if words.len() > 1 {
        return refused(rt);
    }
    println!(rt; "{USAGE}")?;
    Ok(ExitCode::from(0))
}

// A command that starts no threads, with its argument, and the number that it is.
fn without_threads(
    rt: &HostRuntime,
    name: &str,
    argument: &str,
    count: Option<u32>,
) -> Result<ExitCode, Error> {
    match (name, count) {
        ("canonical", _) => texts::print_canonical(rt, argument),
        ("parse", _) => done(texts::measure(rt, argument)),
        ("codec", Some(count)) => done(images::measure(rt, count)),
        ("evaluate", Some(count)) => done(evaluate::measure(rt, count)),
        ("items", Some(count)) => done(many_items::measure(rt, count)),
        ("machine", Some(count)) => done(machines::measure(rt, count)),
        ("open", Some(count)) => done(stores::measure(rt, count)),
        ("sync", Some(count)) => done(syncs::measure(rt, count)),
        _ => refused(rt),
    }
}

// Prints the usage as an error.
fn refused(rt: &HostRuntime) -> Result<ExitCode, Error> {
    eprintln!(rt; "{USAGE}")?;
    Ok(ExitCode::from(2))
}

// Returns status 0 if the measurement succeeded.
fn done(measured: Result<(), Error>) -> Result<ExitCode, Error> {
    measured?;
    Ok(ExitCode::from(0))
}
