//! Claims by number, an instance that waits, and whether a hub is busy.
use crate::handles::Handles;
use crate::stores::{fib, number};
use crate::task::{release, spent};
use anyhow::{Error, bail};
use disk::Disk;
use hub::{EnvPass, Hub, Ran, WorkPass};
use passes::Naming;
use std::io::Print;
use steplang::Room;

/// One instance becomes ready, with the number 0, runs, waits, and is ready again when its item is put.
pub(crate) fn by_number<J: Naming, D: Disk, R: Handles>(
    rt: &R,
    hub: &Hub<J, D>,
    env: &mut EnvPass<J>,
    worker: &mut WorkPass<J>,
) -> Result<(), Error> {
    println!(rt; "  at first: busy {}", hub.busy(rt, worker))?;
    hub.put_tag(rt, env, number(2))?;
    println!(rt; "  ready: busy {}", hub.busy(rt, worker))?;
    println!(rt; "  claimed at 1: {}", is_claimed(rt, hub, worker, 1)?)?;
    println!(rt; "  running: busy {}", busy_until_it_waits(rt, hub, worker)?)?;
    println!(rt; "  waiting: busy {}", hub.busy(rt, worker))?;
    println!(rt; "  claimed at 0: {}", is_claimed(rt, hub, worker, 0)?)?;
    hub.put_item(rt, env, fib(1), 1)?;
    println!(rt; "  ready again: busy {}", hub.busy(rt, worker))?;
    println!(rt; "  claimed at 0: {}", is_claimed(rt, hub, worker, 0)?)?;
    Ok(())
}

// Whether an instance is claimed by this number. It is given back.
fn is_claimed<J: Naming, D: Disk, R: Handles>(
    rt: &R,
    hub: &Hub<J, D>,
    worker: &mut WorkPass<J>,
    at: usize,
) -> Result<bool, Error> {
    match hub.claim(rt, worker, at)? {
        None => Ok(false),
        Some(task) => {
            release(rt, hub, worker, task)?;
            Ok(true)
        }
    }
}

// Whether the hub was busy while the only instance ran, which then waits.
fn busy_until_it_waits<J: Naming, D: Disk, R: Handles>(
    rt: &R,
    hub: &Hub<J, D>,
    worker: &mut WorkPass<J>,
) -> Result<bool, Error> {
    let Some(task) = hub.claim(rt, worker, 0)? else {
        bail!("nothing was claimed")
    };
    let busy = hub.busy(rt, worker);
    match hub.run(rt, &mut Room::new(rt.alloc()), worker, &task, None) {
        Ok(Ran::Waits(run, _)) => spent(rt, hub.park(rt, worker, task, &run.park()))?,
        Ok(Ran::Ended(_, _)) => {
            release(rt, hub, worker, task)?;
            bail!("it ended")
        }
        Err(error) => {
            release(rt, hub, worker, task)?;
            return Err(error.into());
        }
    }
    Ok(busy)
}
