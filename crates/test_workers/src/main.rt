//! Workers on real threads. Each line that it prints was derived by hand from what a graph means. It is the same on
//! every schedule, unless a thread looks for another 10,000,000 times in vain.
#![tactic(auto)]

mod counting;
mod meeting;
mod rows;
mod stopping;
mod stores;

use anyhow::Error;
use rows::{Row, try_row};
use std::io::Print;

// With how many workers each row is run.
const COUNTS: [u8; 4] = [1, 2, 8, 64];

fn main(rt: HostRuntime) -> Result<(), Error> {
    for row in [
        Row::Complete,
        Row::Blocked,
        Row::Overflow,
        Row::PutTwice,
        Row::Waiting,
    ] {
        rt.println(row.title())?;
        for workers in COUNTS {
            try_row(&rt, &rt, row, workers)?;
        }
    }
    rt.println("two hundred steps, none of which waits, with a probe that counts")?;
    for workers in COUNTS {
        counting::try_counting(&rt, &rt, workers)?;
    }
    rt.println("a run that may commit nothing")?;
    for workers in COUNTS {
        stopping::try_limit(&rt, &rt, workers)?;
    }
    rt.println("a probe that stops at its second call, on one worker")?;
    stopping::try_probe(&rt, &rt)?;
    rt.println(
        "two workers, with a probe that holds each of two instances until it has seen the other",
    )?;
    meeting::try_meeting(&rt, &rt)?;
    Ok(())
}
