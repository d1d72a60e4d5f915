//! A batch with a task of another hub, given to `finish_all`.
ghost use Rattle.std.specs.Prelude.{IfOk};
ghost use Rattle.commit.specs.Came.{IsOutcomeIn};
ghost use Rattle.hub.specs.Opening.{facts_behind};
ghost use Rattle.test_threads.specs.Alone.{AreAlone};

use crate::handles::Handles;
use crate::stores::fib;
use crate::strangers::{claimed, outcome_here};
use crate::task::{keep, keep_batch, release};
use anyhow::{Error, bail};
use commit::{Batch, MOST_TOGETHER, Outcome};
use disk::Disk;
use hub::{BatchError, Hub, Ran, WorkPass};
use instances::Task;
use machine::results_are_meant;
use passes::Naming;
use std::io::Print;
use steplang::Room;
use terms::{facts_are_told_apart, facts_go_on};

/// Tries this with two hubs in which the same two instances are ready. The first of them is claimed from the other hub.
pub(crate) fn try_batch<'a, J: Naming, K: Naming, D: Disk + Drop, R: Handles>(
    rt: &R,
    here: &'a Hub<J, D>,
    runner: &mut WorkPass<J>,
    releaser: &mut WorkPass<J>,
    there: &Hub<K, D>,
    stranger: &mut WorkPass<K>,
) -> Result<(), Error> {
    let (instance, outcome) = outcome_here(rt, here, runner, releaser)?;
    let task = claimed(rt, there, stranger, instance)?;
    let batch = come_back(rt, here, runner, task, outcome)?;
    finish_rest(rt, here, runner, releaser, there, stranger, batch)
}

// Gives the task of the other hub to this one: with another instance, and then with the same instance too, which runs here.
fn come_back<'a, J: Naming, D: Disk, R: Handles>(
    rt: &R,
    here: &'a Hub<J, D>,
    runner: &mut WorkPass<J>,
    task: Task,
    outcome: Outcome<'a>,
) -> Result<Batch<'a>, Error>
    requires { IsOutcomeIn J.opening.graph (facts_behind J.opening runner.old.seen) task outcome }
    ensures { IfOk result (λ back. AreAlone J.opening.graph (facts_behind J.opening runner.new.seen) back.tasks back.outcomes) }
{
    let batch = match Batch::new(rt.alloc(), task, outcome) {
        Ok(batch) => batch,
        Err((task, _)) => {
            keep(rt, task);
            bail!("no memory")
        }
    };
    let batch = with_own(rt, here, runner, batch, 1)?;
    let batch = comes_back(rt, here, runner, batch)?;
    let batch = with_own(rt, here, runner, batch, 0)?;
    comes_back(rt, here, runner, batch)
}

// The batch with one more: the ready instance with this number, which ran here.
fn with_own<'a, J: Naming, D: Disk, R: Handles>(
    rt: &R,
    here: &'a Hub<J, D>,
    runner: &mut WorkPass<J>,
    mut batch: Batch<'a>,
    at: usize,
) -> Result<Batch<'a>, Error>
    requires { AreAlone J.opening.graph (facts_behind J.opening runner.old.seen) batch.tasks batch.outcomes }
    ensures { IfOk result (λ more. AreAlone J.opening.graph (facts_behind J.opening runner.new.seen) more.tasks more.outcomes) }
{
    facts_are_told_apart();
    facts_go_on();
    results_are_meant();
    let Ok(Some(task)) = here.claim(rt, runner, at) else {
        keep_batch(rt, batch);
        bail!("nothing was claimed")
    };
    let Ok(Ran::Ended(outcome, _)) = here.run(rt, &mut Room::new(rt.alloc()), runner, &task, None)
    else {
        keep(rt, task);
        keep_batch(rt, batch);
        bail!("it did not end")
    };
    if batch.len() == MOST_TOGETHER {
        keep(rt, task);
        keep_batch(rt, batch);
        bail!("too many")
    }
    match batch.add(task, outcome) {
        Ok(()) => Ok(batch),
        Err((task, _)) => {
            keep(rt, task);
            keep_batch(rt, batch);
            bail!("no memory")
        }
    }
}

// The batch, which `finish_all` gives back. Prints its instances.
fn comes_back<'a, J: Naming, D: Disk, R: Handles>(
    rt: &R,
    here: &'a Hub<J, D>,
    runner: &mut WorkPass<J>,
    batch: Batch<'a>,
) -> Result<Batch<'a>, Error>
    requires { AreAlone J.opening.graph (facts_behind J.opening runner.old.seen) batch.tasks batch.outcomes }
    ensures { IfOk result (λ back. AreAlone J.opening.graph (facts_behind J.opening runner.new.seen) back.tasks back.outcomes) }
{
    facts_are_told_apart();
    facts_go_on();
    results_are_meant();
    let batch = match here.finish_all(rt, runner, batch) {
        Err(BatchError::Foreign(batch)) => batch,
        Err(BatchError::Refused(error)) => return Err(error.into()),
        Ok(_) => bail!("it was finished here"),
    };
    match tell(rt, &batch) {
        Ok(()) => Ok(batch),
        Err(error) => {
            keep_batch(rt, batch);
            Err(error)
        }
    }
}

// Prints the keys of the instances of a batch.
fn tell<R: Handles>(rt: &R, batch: &Batch<'_>) -> Result<(), Error> {
    print!(rt; "  in a batch:")?;
    for number in 0..batch.len() {
        if let Some(instance) = batch.tasks().get(number) {
            print!(rt; " {:?}", instance.key.components())?;
        }
    }
    println!(rt; " came back")?;
    Ok(())
}

// Takes the batch of three apart: the last instance is given back here, the one before it is finished here, and the first is given back to
// its own hub.
fn finish_rest<'a, J: Naming, K: Naming, D: Disk, R: Handles>(
    rt: &R,
    here: &'a Hub<J, D>,
    runner: &mut WorkPass<J>,
    releaser: &mut WorkPass<J>,
    there: &Hub<K, D>,
    stranger: &mut WorkPass<K>,
    batch: Batch<'a>,
) -> Result<(), Error>
    requires { AreAlone J.opening.graph (facts_behind J.opening runner.old.seen) batch.tasks batch.outcomes }
{
    let (again, _, rest) = batch.pop();
    let given = release(rt, here, releaser, again);
    let Some(rest) = rest else {
        bail!("one came back")
    };
    let (own, outcome, rest) = rest.pop();
    let finished = finish_alone(rt, here, runner, own, outcome);
    let Some(rest) = rest else {
        bail!("two came back")
    };
    let (strange, _, rest) = rest.pop();
    let given_there = release(rt, there, stranger, strange);
    if let Some(rest) = rest {
        keep_batch(rt, rest);
        bail!("more than three came back")
    }
    given?;
    given_there?;
    println!(rt;
        "  by its own hub: {} done, and got {:?}",
        finished?,
        here.read(rt, runner, fib(5))?
    )?;
    Ok(())
}

// How many instances are done by a batch of this one.
fn finish_alone<'a, J: Naming, D: Disk, R: Handles>(
    rt: &R,
    hub: &'a Hub<J, D>,
    pass: &mut WorkPass<J>,
    task: Task,
    outcome: Outcome<'a>,
) -> Result<usize, Error>
    requires { IsOutcomeIn J.opening.graph (facts_behind J.opening pass.old.seen) task outcome }
{
    let batch = match Batch::new(rt.alloc(), task, outcome) {
        Ok(batch) => batch,
        Err((task, _)) => {
            keep(rt, task);
            bail!("no memory")
        }
    };
    match hub.finish_all(rt, pass, batch) {
        Ok(ended) => Ok(ended.done),
        Err(BatchError::Refused(error)) => Err(error.into()),
        Err(BatchError::Foreign(batch)) => {
            keep_batch(rt, batch);
            bail!("a task was foreign to its own hub")
        }
    }
}
