//! A task of another hub, given to `finish`, and in a batch to `finish_all`.
ghost use Rattle.std.specs.Prelude.{◌≡◌, IfOk};
ghost use Rattle.commit.specs.Came.{IsOutcomeIn};
ghost use Rattle.hub.specs.Opening.{facts_behind};
ghost use Rattle.hub.specs.Whole.{IsNamedFor};

use crate::batches::try_batch;
use crate::handles::Handles;
use crate::stores::{created, fib, number};
use crate::task::{keep, release};
use anyhow::{Error, bail};
use commit::{Core, Outcome};
use disk::{Disk, MemDisk};
use hub::{Hub, Ran, TaskError, WorkPass};
use instances::Task;
use passes::{Blank, Naming};
use std::io::Print;
use std::marker::Brand;
use steplang::Room;
use terms::{Inst, equals_are_one};

/// Tries this with two hubs, of stores with the same facts.
pub(crate) fn try_foreign<R: Handles>(rt: &R) -> Result<(), Error> {
    open_both(rt, filled(rt)?, filled(rt)?)
}

// A store in which `(add: 2)` and `(add: 5)` are ready.
fn filled<R: Handles>(rt: &R) -> Result<Core<MemDisk>, Error> {
    let mut core = created(rt.alloc(), MemDisk::new(rt.alloc()))?;
    core.put_item(fib(0), 0)?;
    core.put_item(fib(1), 1)?;
    core.put_item(fib(3), 2)?;
    core.put_item(fib(4), 3)?;
    core.put_tag(number(2))?;
    core.put_tag(number(5))?;
    Ok(core)
}

fn open_both<D: Disk + Drop, R: Handles>(
    rt: &R,
    here: Core<D>,
    there: Core<D>,
) -> Result<(), Error> {
    let blank = Blank::new(rt.alloc(), 0, 2)?;
    let other = Blank::new(rt.alloc(), 0, 1)?;
    open_here::<Brand, D, R>(rt, here, blank, there, other)
}

fn open_here<J: Naming, D: Disk + Drop, R: Handles>(
    rt: &R,
    core: Core<D>,
    blank: Blank,
    other_core: Core<D>,
    other_blank: Blank,
) -> Result<(), Error>
    requires { IsNamedFor D.Disk J.table J.passes J.envs J.opening J.left blank core }
{
    let Ok((here, _, mut workers)) = Hub::<J, D>::open(rt.alloc(), core, blank) else {
        bail!("no hub was opened")
    };
    let (Some(mut runner), Some(mut releaser)) = (workers.pop(), workers.pop()) else {
        bail!("no pass")
    };
    let (instance, outcome) = outcome_here(rt, &here, &mut runner, &mut releaser)?;
    open_there::<J, Brand, D, R>(
        rt,
        &here,
        &mut runner,
        &mut releaser,
        instance,
        outcome,
        other_core,
        other_blank,
    )
}

/// The outcome of the first ready instance, which is ready again afterwards.
pub(crate) fn outcome_here<'a, J: Naming, D: Disk + Drop, R: Handles>(
    rt: &R,
    here: &'a Hub<J, D>,
    runner: &mut WorkPass<J>,
    releaser: &mut WorkPass<J>,
) -> Result<(Inst, Outcome<'a>), Error>
    ensures { IfOk result (λ it. IsOutcomeIn J.opening.graph (facts_behind J.opening runner.new.seen) it.0 it.1) }
{
    let Some(task) = here.claim(rt, runner, 0)? else {
        bail!("nothing was claimed")
    };
    let instance = task.inst();
    let came = here.run(rt, &mut Room::new(rt.alloc()), runner, &task, None);
    release(rt, here, releaser, task)?;
    match came? {
        Ran::Ended(outcome, _) => Ok((instance, outcome)),
        Ran::Waits(_, _) => bail!("it waits"),
    }
}

fn open_there<J: Naming, K: Naming, D: Disk + Drop, R: Handles>(
    rt: &R,
    here: &Hub<J, D>,
    runner: &mut WorkPass<J>,
    releaser: &mut WorkPass<J>,
    instance: Inst,
    outcome: Outcome<'_>,
    core: Core<D>,
    blank: Blank,
) -> Result<(), Error>
    requires outcome { IsOutcomeIn J.opening.graph (facts_behind J.opening runner.old.seen) instance outcome }
    requires named { IsNamedFor D.Disk K.table K.passes K.envs K.opening K.left blank core }
{
    let Ok((there, _, mut workers)) = Hub::<K, D>::open(rt.alloc(), core, blank) else {
        bail!("no hub was opened")
    };
    let Some(mut stranger) = workers.pop() else {
        bail!("no pass")
    };
    let task = claimed(rt, &there, &mut stranger, instance)?;
    let Some(task) = foreign(rt, here, runner, task, outcome) else {
        bail!("it was finished here")
    };
    release(rt, &there, &mut stranger, task)?;
    println!(rt; "  the task of {:?} came back", instance.key.components())?;
    try_batch(rt, here, runner, releaser, &there, &mut stranger)
}

/// The task of this instance.
pub(crate) fn claimed<K: Naming, D: Disk + Drop, R: Handles>(
    rt: &R,
    there: &Hub<K, D>,
    stranger: &mut WorkPass<K>,
    instance: Inst,
) -> Result<Task, Error>
    ensures { IfOk result (λ task. task ≡ instance) }
{
    equals_are_one();
    match there.claim(rt, stranger, 0)? {
        Some(task) if task.inst() == instance => Ok(task),
        Some(task) => {
            keep(rt, task);
            bail!("another instance was claimed")
        }
        None => bail!("nothing was claimed"),
    }
}

// The task, if a finish gives it back.
fn foreign<J: Naming, D: Disk + Drop, R: Handles>(
    rt: &R,
    here: &Hub<J, D>,
    runner: &mut WorkPass<J>,
    task: Task,
    outcome: Outcome<'_>,
) -> Option<Task>
    requires { IsOutcomeIn J.opening.graph (facts_behind J.opening runner.old.seen) task outcome }
{
    match here.finish(rt, runner, task, outcome) {
        Ok(_) => None,
        Err(TaskError::Foreign(task)) => Some(task),
        Err(TaskError::Refused(error)) => {
            drop(error);
            None
        }
    }
}
