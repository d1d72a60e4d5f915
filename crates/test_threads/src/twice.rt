//! Two threads that put an item each, through `put_two`.
use crate::handles::Handles;
use crate::stores::{bytes, created, fib, number};
use crate::task::keep;
use anyhow::{Error, bail};
use disk::MemDisk;
use hub::put_two;
use std::io::Print;

/// Tries this on a new store: at two addresses, at one, and while an instance runs.
pub(crate) fn try_two<R: Handles>(rt: &R) -> Result<(), Error> {
    put_at(rt, 0, 1)?;
    put_at(rt, 0, 0)?;
    put_while_one_runs(rt)
}

fn put_at<R: Handles>(rt: &R, one: i64, two: i64) -> Result<(), Error> {
    let core = created(rt.alloc(), MemDisk::new(rt.alloc()))?;
    let Ok(both) = put_two(rt, rt.alloc(), core, (fib(one), 7), (fib(two), 8)) else {
        bail!("nothing was put")
    };
    let ok = usize::from(both.one.is_ok()).saturating_add(usize::from(both.two.is_ok()));
    println!(rt;
        "  at {one} and {two}: {ok} Ok, A has {} bytes",
        bytes(both.core)?
    )?;
    Ok(())
}

fn put_while_one_runs<R: Handles>(rt: &R) -> Result<(), Error> {
    let mut core = created(rt.alloc(), MemDisk::new(rt.alloc()))?;
    core.put_tag(number(2))?;
    let Some(task) = core.claim(0)? else {
        bail!("nothing was claimed")
    };
    match put_two(rt, rt.alloc(), core, (fib(0), 7), (fib(1), 8)) {
        Ok(_) => {
            keep(rt, task);
            bail!("something was put")
        }
        Err(none) => {
            let mut core = none.core;
            core.release(task);
            println!(rt;
                "  while an instance runs: {}, A has {} bytes",
                none.error,
                bytes(core)?
            )?;
            Ok(())
        }
    }
}
