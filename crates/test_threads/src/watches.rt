//! A watch that another thread fills.
use crate::handles::Handles;
use anyhow::Error;
use cells::{Watch, cells_cross};
use std::io::Print;
use std::thread::join;

/// Tries this: three looks before another thread fills the watch, and two after it; and a watch whose filler is dropped.
pub(crate) fn try_watches<R: Handles>(rt: &R) -> Result<(), Error> {
    cells_cross();
    let (watch, filler) = Watch::pair(rt.alloc())?;
    let mut watch = looked(rt, watch, 3)?;
    join(rt, move || filler.fill(5), || {});
    watch = looked(rt, watch, 2)?;
    drop(watch);
    let (unfilled, filler) = Watch::pair(rt.alloc())?;
    drop(filler);
    let unfilled = looked(rt, unfilled, 2)?;
    drop(unfilled);
    Ok(())
}

// Looks this number of times, and prints what it saw.
fn looked<R: Handles>(rt: &R, watch: Watch, looks: u8) -> Result<Watch, Error> {
    let mut watch = watch;
    for _ in 0..looks {
        match watch.look() {
            Some(value) => println!(rt; "  {value}")?,
            None => println!(rt; "  nothing yet")?,
        }
    }
    Ok(watch)
}
