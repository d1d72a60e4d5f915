//! A hub on real threads. Each line that it prints was derived by hand from what a store and a hub are. It is the same
//! on every schedule, unless a thread looks for another 10,000,000 times in vain.
#![tactic(auto)]

mod batches;
mod claims;
mod handles;
mod held;
mod held_disk;
mod rows;
mod stores;
mod strangers;
mod task;
mod tickets;
mod twice;
mod watched;
mod watches;

use anyhow::Error;
use rows::{Row, try_row};
use std::io::Print;

fn main(rt: HostRuntime) -> Result<(), Error> {
    println!(rt; "one pass puts, gets, counts and asks for a stop")?;
    try_row(&rt, Row::OnePass, 1)?;
    println!(rt; "four threads put 16 items each")?;
    try_row(&rt, Row::Apart, 4)?;
    println!(rt; "four threads put their number at one address")?;
    try_row(&rt, Row::Together, 4)?;
    println!(rt; "a hub is closed without one of its passes")?;
    try_row(&rt, Row::PassMissing, 1)?;
    println!(rt; "a hub is closed while an instance runs")?;
    try_row(&rt, Row::TaskOut, 1)?;
    println!(rt; "an instance is claimed by its number, and waits")?;
    try_row(&rt, Row::Claims, 1)?;
    println!(rt; "two instances are claimed by tickets, and one may run at a time")?;
    try_row(&rt, Row::Tickets, 1)?;
    println!(rt; "a task of another hub is finished")?;
    strangers::try_foreign(&rt)?;
    println!(rt; "a put is within its sync")?;
    held::try_held(&rt)?;
    println!(rt; "two threads put an item each")?;
    twice::try_two(&rt)?;
    println!(rt; "a watch is filled by another thread")?;
    watches::try_watches(&rt)?;
    println!(rt; "three watches of [fib: 5] and one of [fib: 6], and two workers")?;
    watched::try_watched(&rt)
}
