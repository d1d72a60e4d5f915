//! Instances that are claimed by tickets.
ghost use Rattle.std.specs.Prelude.{IfOk, IfSome};
ghost use Rattle.graph.specs.Fits.{InstanceIsOf};

use crate::handles::Handles;
use crate::stores::{fib, number};
use crate::task::release;
use anyhow::{Error, bail};
use commit::Committed;
use disk::Disk;
use hub::{EnvPass, Hub, Ran, TaskError, WorkPass};
use instances::{Task, Ticket};
use passes::Naming;
use std::io::Print;
use steplang::Room;

/// Two instances are handed out, and one at a time may run. The one that puts `[fib: 2]` once more stops the store.
pub(crate) fn by_ticket<J: Naming, D: Disk, R: Handles>(
    rt: &R,
    hub: &Hub<J, D>,
    env: &mut EnvPass<J>,
    worker: &mut WorkPass<J>,
) -> Result<(), Error> {
    hub.put_tag(rt, env, number(2))?;
    hub.put_tag(rt, env, number(3))?;
    let (first, second) = two(rt, hub, worker)?;
    println!(rt; "  two tickets, and then {}", more(rt, hub, worker)?)?;
    let second = second_at_once(rt, hub, worker, first, second)?;
    // The one that was given back stands in front, and the one that is handed out behind it.
    claim_and_release(rt, hub, worker, 1)?;
    let old = claimed(rt, hub, worker, second)?;
    println!(rt; "  an old ticket: {}", told(rt, hub, worker, old)?)?;
    for key in 0..3 {
        hub.put_item(rt, env, fib(key), key)?;
    }
    stopped(rt, hub, worker)
}

// Claims an instance by the first ticket, and while it runs asks by the second, which comes back, since one may run at a time.
fn second_at_once<J: Naming, D: Disk, R: Handles>(
    rt: &R,
    hub: &Hub<J, D>,
    worker: &mut WorkPass<J>,
    first: Ticket,
    second: Ticket,
) -> Result<Ticket, Error> {
    let Some(task) = claimed(rt, hub, worker, first)? else {
        bail!("the first ticket gave nothing")
    };
    let instance = task.inst();
    let answer = hub.claim_by(rt, worker, second);
    let released = release(rt, hub, worker, task);
    let back = match answer {
        Ok(Err(back)) => back,
        Ok(Ok(Some(task))) => {
            release(rt, hub, worker, task)?;
            bail!("two ran at once")
        }
        Ok(Ok(None)) => bail!("the second ticket gave nothing"),
        Err(error) => return Err(error.into()),
    };
    released?;
    println!(rt; "  by the first: {:?}", instance.key.components())?;
    println!(rt; "  the second came back while it ran")?;
    Ok(back)
}

// Two tickets, which the hub hands out.
fn two<J: Naming, D: Disk, R: Handles>(
    rt: &R,
    hub: &Hub<J, D>,
    worker: &mut WorkPass<J>,
) -> Result<(Ticket, Ticket), Error> {
    let mut tickets = Vec::new(rt.alloc());
    let _over = hub.take_tickets(rt, worker, &mut tickets)?;
    let (Some(second), Some(first)) = (tickets.pop(), tickets.pop()) else {
        bail!("there were not two tickets")
    };
    Ok((first, second))
}

// How many tickets the hub hands out.
fn more<J: Naming, D: Disk, R: Handles>(
    rt: &R,
    hub: &Hub<J, D>,
    worker: &mut WorkPass<J>,
) -> Result<usize, Error> {
    let mut tickets = Vec::new(rt.alloc());
    let _over = hub.take_tickets(rt, worker, &mut tickets)?;
    Ok(tickets.len())
}

// The task that a ticket gives, if it gives one.
fn claimed<J: Naming, D: Disk, R: Handles>(
    rt: &R,
    hub: &Hub<J, D>,
    worker: &mut WorkPass<J>,
    ticket: Ticket,
) -> Result<Option<Task>, Error>
    ensures { IfOk result (λ claimed. IfSome claimed (InstanceIsOf J.opening.graph)) }
{
    match hub.claim_by(rt, worker, ticket)? {
        Ok(task) => Ok(task),
        Err(_) => bail!("the ticket came back"),
    }
}

// Whether there is a task, which is given back.
fn told<J: Naming, D: Disk, R: Handles>(
    rt: &R,
    hub: &Hub<J, D>,
    worker: &mut WorkPass<J>,
    task: Option<Task>,
) -> Result<&'static str, Error> {
    match task {
        Some(task) => {
            release(rt, hub, worker, task)?;
            Ok("a task")
        }
        None => Ok("none"),
    }
}

// Claims the ready instance with this number, and gives it back.
fn claim_and_release<J: Naming, D: Disk, R: Handles>(
    rt: &R,
    hub: &Hub<J, D>,
    worker: &mut WorkPass<J>,
    at: usize,
) -> Result<(), Error> {
    match hub.claim(rt, worker, at)? {
        Some(task) => release(rt, hub, worker, task),
        None => bail!("nothing was claimed"),
    }
}

// Runs the instance that puts an item once more, and then asks by the ticket of the other.
fn stopped<J: Naming, D: Disk, R: Handles>(
    rt: &R,
    hub: &Hub<J, D>,
    worker: &mut WorkPass<J>,
) -> Result<(), Error> {
    let (one, other) = two(rt, hub, worker)?;
    let Some(task) = claimed(rt, hub, worker, one)? else {
        bail!("a new ticket gave nothing")
    };
    let instance = task.inst();
    let committed = ended(rt, hub, worker, task)?;
    println!(rt;
        "  by a new one: {:?}, which ended as {committed:?}",
        instance.key.components()
    )?;
    let none = claimed(rt, hub, worker, other)?;
    println!(rt; "  in a stopped store: {}", told(rt, hub, worker, none)?)?;
    Ok(())
}

// Runs the body of an instance to its end, and commits what came of it.
fn ended<J: Naming, D: Disk, R: Handles>(
    rt: &R,
    hub: &Hub<J, D>,
    worker: &mut WorkPass<J>,
    task: Task,
) -> Result<Committed, Error>
    requires { InstanceIsOf J.opening.graph task }
{
    match hub.run(rt, &mut Room::new(rt.alloc()), worker, &task, None) {
        Ok(Ran::Ended(outcome, _)) => match hub.finish(rt, worker, task, outcome) {
            Ok(committed) => Ok(committed),
            Err(TaskError::Foreign(task)) => {
                release(rt, hub, worker, task)?;
                bail!("a task was foreign to its own hub")
            }
            Err(TaskError::Refused(error)) => Err(error.into()),
        },
        Ok(Ran::Waits(_, _)) => {
            release(rt, hub, worker, task)?;
            bail!("it waits")
        }
        Err(error) => {
            release(rt, hub, worker, task)?;
            Err(error.into())
        }
    }
}
