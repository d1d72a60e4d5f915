//! Watches on the items of a store: workers put them, and the watches outlive the hub.
ghost use Rattle.graph.specs.Fits.{InstanceIsOf};
ghost use Rattle.hub.specs.Whole.{IsNamedFor};

use crate::handles::Handles;
use crate::stores::{bytes, created, fib, number};
use crate::task::keep;
use anyhow::{Error, bail};
use cells::Watch;
use commit::{Core, CoreError};
use disk::{Disk, MemDisk};
use hub::{EnvPass, Hub, Ran, TaskError, WorkPass, hubs_cross};
use instances::Task;
use passes::{Blank, Naming};
use std::io::Print;
use std::marker::Brand;
use std::thread::join;
use steplang::Room;
use vault::VaultError;

// Three watches of `[fib: 5]`, and one of `[fib: 6]`.
#[derive(Drop)]
struct Watches {
    fives: Vec<Watch>,
    six: Watch,
}

/// Tries this on a new store: the watches are made, two workers put the first six numbers, and the hub is closed.
pub(crate) fn try_watched<R: Handles>(rt: &R) -> Result<(), Error> {
    watch_on(rt, MemDisk::new(rt.alloc()))
}

fn watch_on<D: Disk + Drop + Send, R: Handles>(rt: &R, disk: D) -> Result<(), Error> {
    let core = created(rt.alloc(), disk)?;
    let blank = Blank::new(rt.alloc(), 1, 2)?;
    watch_as::<Brand, D, R>(rt, core, blank)
}

fn watch_as<J: Naming + Send + Sync, D: Disk + Drop + Send, R: Handles>(
    rt: &R,
    core: Core<D>,
    blank: Blank,
) -> Result<(), Error>
    requires { IsNamedFor D.Disk J.table J.passes J.envs J.opening J.left blank core }
{
    let Ok((hub, mut envs, mut workers)) = Hub::<J, D>::open(rt.alloc(), core, blank) else {
        bail!("no hub was opened")
    };
    let (Some(mut env), Some(one), Some(two)) = (envs.pop(), workers.pop(), workers.pop()) else {
        bail!("no pass")
    };
    let mut watches = watched(rt, &hub, &mut env)?;
    look(rt, &mut watches, "at first")?;
    let (one, two) = worked(rt, &hub, &mut env, one, two)?;
    look(rt, &mut watches, "at the end")?;
    look(rt, &mut watches, "again")?;
    let mut later = hub.watch(rt, rt.alloc(), &mut env, fib(5))?;
    println!(rt; "  a later one: {:?}", later.look())?;
    envs.push(env)?;
    workers.push(one)?;
    workers.push(two)?;
    match hub.close(envs, workers) {
        Ok(core) => println!(rt; "  A has {} bytes", bytes(core)?)?,
        Err(not_closed) => bail!("not closed: {}", not_closed.error),
    }
    look(rt, &mut watches, "after the hub")
}

// Makes the watches.
fn watched<J: Naming, D: Disk + Drop, R: Handles>(
    rt: &R,
    hub: &Hub<J, D>,
    env: &mut EnvPass<J>,
) -> Result<Watches, Error> {
    let mut fives = Vec::new(rt.alloc());
    for _ in 0..3 {
        fives.push(hub.watch(rt, rt.alloc(), env, fib(5))?)?;
    }
    let six = hub.watch(rt, rt.alloc(), env, fib(6))?;
    Ok(Watches { fives, six })
}

// Looks at each watch once, and prints what it saw.
fn look<R: Handles>(rt: &R, watches: &mut Watches, when: &str) -> Result<(), Error> {
    for five in watches.fives.as_mut_slice() {
        println!(rt; "  {when}: {:?}", five.look())?;
    }
    println!(rt; "  {when}, of [fib: 6]: {:?}", watches.six.look())?;
    Ok(())
}

// Puts what the first six numbers need, and lets two workers run until nothing is left to do.
fn worked<J: Naming + Send + Sync, D: Disk + Drop + Send, R: Handles>(
    rt: &R,
    hub: &Hub<J, D>,
    env: &mut EnvPass<J>,
    one: WorkPass<J>,
    two: WorkPass<J>,
) -> Result<(WorkPass<J>, WorkPass<J>), Error> {
    hubs_cross::<J, D>();
    for key in 2i64..6 {
        hub.put_tag(rt, env, number(key))?;
    }
    for key in 0i64..2 {
        hub.put_item(rt, env, fib(key), key)?;
    }
    let (one, two) = join(rt, move || work(rt, hub, one), move || work(rt, hub, two));
    Ok((pass_of(one)?, pass_of(two)?))
}

// The pass of a worker that has ended, and the error that ended it.
#[derive(Drop)]
struct Ended<J: Naming> {
    pass: WorkPass<J>,
    error: Option<CoreError>,
}

// The pass, or the error.
fn pass_of<J: Naming>(worker: Ended<J>) -> Result<WorkPass<J>, Error> {
    let Ended { pass, error } = worker;
    match error {
        None => Ok(pass),
        Some(error) => Err(error.into()),
    }
}

// Runs instances until none is ready and none runs.
fn work<J: Naming, D: Disk, R: Handles>(
    rt: &R,
    hub: &Hub<J, D>,
    mut pass: WorkPass<J>,
) -> Ended<J> {
    for _ in rt.forever() {
        match run_one(rt, hub, &mut pass) {
            Ok(true) => {}
            Ok(false) => return Ended { pass, error: None },
            Err(error) => {
                return Ended {
                    pass,
                    error: Some(error),
                };
            }
        }
    }
    unreachable!()
}

// Runs one instance, if one is ready. Returns whether there may be more to do.
fn run_one<J: Naming, D: Disk, R: Handles>(
    rt: &R,
    hub: &Hub<J, D>,
    pass: &mut WorkPass<J>,
) -> Result<bool, CoreError> {
    match hub.claim(rt, pass, 0)? {
        None => Ok(hub.busy(rt, pass)),
        Some(task) => {
            run(rt, hub, pass, task)?;
            Ok(true)
        }
    }
}

// Runs the instance of a task, to its end or until it waits.
fn run<J: Naming, D: Disk, R: Handles>(
    rt: &R,
    hub: &Hub<J, D>,
    pass: &mut WorkPass<J>,
    task: Task,
) -> Result<(), CoreError>
    requires { InstanceIsOf J.opening.graph task }
{
    match hub.run(rt, &mut Room::new(rt.alloc()), pass, &task, None) {
        Ok(Ran::Ended(outcome, _)) => settled(rt, hub.finish(rt, pass, task, outcome)),
        Ok(Ran::Waits(run, _)) => settled(rt, hub.park(rt, pass, task, &run.park())),
        Err(error) => {
            settled(rt, hub.release(rt, pass, task))?;
            Err(error)
        }
    }
}

// The answer of a call that spent a task of its own hub.
fn settled<T: Drop, R: Handles>(rt: &R, answer: Result<T, TaskError>) -> Result<(), CoreError> {
    match answer {
        Ok(done) => {
            drop(done);
            Ok(())
        }
        Err(TaskError::Refused(error)) => Err(error),
        Err(TaskError::Foreign(task)) => {
            keep(rt, task);
            Err(CoreError::Store(VaultError::NotAStore))
        }
    }
}
