//! What threads do with a hub: each call opens a hub round a new store, and prints what came of it.
ghost use Rattle.hub.specs.Whole.{IsNamedFor};

use crate::claims::by_number;
use crate::handles::Handles;
use crate::stores::{bytes, created, fib, number};
use crate::task::{keep, release};
use crate::tickets::by_ticket;
use anyhow::{Error, bail};
use commit::{Core, CoreError};
use disk::{Disk, MemDisk};
use hub::{EnvPass, Hub, NotClosed, WorkPass, hubs_cross};
use instances::Task;
use machine::Refusal;
use passes::{Blank, Naming};
use std::io::Print;
use std::marker::Brand;
use std::thread;

/// A row: what is tried.
#[derive(Clone, Copy)]
pub(crate) enum Row {
    /// One pass puts, gets, counts and asks for a stop.
    OnePass,
    /// Each of four threads puts 16 items of its own.
    Apart,
    /// Each of four threads puts its own number at one address.
    Together,
    /// A hub is closed without one of its passes.
    PassMissing,
    /// A hub is closed while an instance runs.
    TaskOut,
    /// An instance is claimed by its number, and waits.
    Claims,
    /// Two instances are claimed by tickets, and one may run at a time.
    Tickets,
}

/// Tries a row on a new store in memory.
pub(crate) fn try_row<R: Handles>(rt: &R, row: Row, passes: u8) -> Result<(), Error> {
    try_on(rt, MemDisk::new(rt.alloc()), row, passes)
}

fn try_on<D: Disk + Drop + Send, R: Handles>(
    rt: &R,
    disk: D,
    row: Row,
    passes: u8,
) -> Result<(), Error> {
    let mut core = created(rt.alloc(), disk)?;
    if let Row::Tickets = row {
        core.allow(1)?;
    }
    let blank = Blank::new(rt.alloc(), passes, 1)?;
    let core = try_as::<Brand, D, R>(rt, core, blank, row)?;
    println!(rt;
        "  {} items, A has {} bytes",
        core.counts().items,
        bytes(core)?
    )?;
    Ok(())
}

fn try_as<J: Naming + Send + Sync, D: Disk + Drop + Send, R: Handles>(
    rt: &R,
    core: Core<D>,
    blank: Blank,
    row: Row,
) -> Result<Core<D>, Error>
    requires { IsNamedFor D.Disk J.table J.passes J.envs J.opening J.left blank core }
{
    let Ok((hub, envs, workers)) = Hub::<J, D>::open(rt.alloc(), core, blank) else {
        bail!("no hub was opened")
    };
    match row {
        Row::OnePass => one_pass(rt, hub, envs, workers),
        Row::Apart => apart(rt, hub, envs, workers),
        Row::Together => together(rt, hub, envs, workers),
        Row::PassMissing => pass_missing(rt, hub, envs, workers),
        Row::TaskOut => task_out(rt, hub, envs, workers),
        Row::Claims | Row::Tickets => claims(rt, hub, envs, workers, row),
    }
}

fn closed<J: Naming, D: Disk + Drop>(
    hub: Hub<J, D>,
    envs: Vec<EnvPass<J>>,
    workers: Vec<WorkPass<J>>,
) -> Result<Core<D>, Error> {
    match hub.close(envs, workers) {
        Ok(core) => Ok(core),
        Err(not_closed) => bail!("not closed: {}", not_closed.error),
    }
}

// ---- one pass

fn one_pass<J: Naming, D: Disk + Drop, R: Handles>(
    rt: &R,
    hub: Hub<J, D>,
    mut envs: Vec<EnvPass<J>>,
    workers: Vec<WorkPass<J>>,
) -> Result<Core<D>, Error> {
    for pass in envs.as_mut_slice() {
        put_and_ask(rt, &hub, pass)?;
    }
    closed(hub, envs, workers)
}

fn put_and_ask<J: Naming, D: Disk, R: Handles>(
    rt: &R,
    hub: &Hub<J, D>,
    pass: &mut EnvPass<J>,
) -> Result<(), Error> {
    hub.put_item(rt, pass, fib(0), 0)?;
    let found = hub.get(rt, pass, fib(0))?;
    println!(rt; "  put [fib: 0] = 0, and got {found:?}")?;
    println!(rt; "  at least 1 commit: {}", hub.commits(pass) >= 1)?;
    println!(rt; "  stop asked: {}", hub.stop_asked(pass))?;
    hub.ask_stop(pass);
    println!(rt; "  after it was asked: {}", hub.stop_asked(pass))?;
    Ok(())
}

// ---- instances that are claimed by number, or by ticket

fn claims<J: Naming, D: Disk + Drop, R: Handles>(
    rt: &R,
    hub: Hub<J, D>,
    mut envs: Vec<EnvPass<J>>,
    mut workers: Vec<WorkPass<J>>,
    row: Row,
) -> Result<Core<D>, Error> {
    let (Some(env), Some(worker)) = (
        envs.as_mut_slice().first_mut(),
        workers.as_mut_slice().first_mut(),
    ) else {
        bail!("no pass")
    };
    match row {
        Row::Tickets => by_ticket(rt, &hub, env, worker)?,
        _ => by_number(rt, &hub, env, worker)?,
    }
    closed(hub, envs, workers)
}

// ---- four threads

// A thread's number, and its pass.
#[derive(Drop)]
struct Job<J: Naming> {
    number: i64,
    pass: EnvPass<J>,
}

// The result of a thread: its pass, how many of its puts were `Ok`, and the value that was there already.
#[derive(Drop)]
struct Came<J: Naming> {
    pass: EnvPass<J>,
    ok: usize,
    already: Option<i64>,
}

fn jobs<J: Naming, R: Handles>(rt: &R, envs: Vec<EnvPass<J>>) -> Result<Vec<Job<J>>, Error> {
    let mut jobs = Vec::new(rt.alloc());
    let mut number = 0i64;
    for pass in envs {
        jobs.push(Job { number, pass })?;
        number = number.saturating_add(1);
    }
    Ok(jobs)
}

fn apart<J: Naming + Send + Sync, D: Disk + Drop + Send, R: Handles>(
    rt: &R,
    hub: Hub<J, D>,
    envs: Vec<EnvPass<J>>,
    workers: Vec<WorkPass<J>>,
) -> Result<Core<D>, Error> {
    hubs_cross::<J, D>();
    let jobs = jobs(rt, envs)?;
    let shared = &hub;
    let came = thread::map_vec(rt, jobs, &|job: Job<J>| put_sixteen(rt, shared, job))?;
    let mut envs = Vec::new(rt.alloc());
    let mut ok = 0usize;
    for one in came {
        ok = ok.saturating_add(one.ok);
        envs.push(one.pass)?;
    }
    println!(rt; "  {ok} Ok")?;
    closed(hub, envs, workers)
}

// Puts `[fib: 16 * number + j] = j` for each `j` below 16.
fn put_sixteen<J: Naming, D: Disk, R: Handles>(rt: &R, hub: &Hub<J, D>, job: Job<J>) -> Came<J> {
    let Job { number, mut pass } = job;
    let mut ok = 0usize;
    for j in 0i64..16 {
        let key = number.saturating_mul(16).saturating_add(j);
        if hub.put_item(rt, &mut pass, fib(key), j).is_ok() {
            ok = ok.saturating_add(1);
        }
    }
    Came {
        pass,
        ok,
        already: None,
    }
}

fn together<J: Naming + Send + Sync, D: Disk + Drop + Send, R: Handles>(
    rt: &R,
    hub: Hub<J, D>,
    envs: Vec<EnvPass<J>>,
    workers: Vec<WorkPass<J>>,
) -> Result<Core<D>, Error> {
    hubs_cross::<J, D>();
    let jobs = jobs(rt, envs)?;
    let shared = &hub;
    let came = thread::map_vec(rt, jobs, &|job: Job<J>| put_number(rt, shared, job))?;
    tell_winner(rt, came.as_slice())?;
    let mut envs = Vec::new(rt.alloc());
    for one in came {
        envs.push(one.pass)?;
    }
    closed(hub, envs, workers)
}

// Puts `[fib: 0]` with the thread's own number.
fn put_number<J: Naming, D: Disk, R: Handles>(rt: &R, hub: &Hub<J, D>, job: Job<J>) -> Came<J> {
    let Job { number, mut pass } = job;
    let (ok, already) = match hub.put_item(rt, &mut pass, fib(0), number) {
        Ok(()) => (1, None),
        Err(CoreError::Refused(Refusal::AlreadyPut(value))) => (0, Some(value)),
        Err(_) => (0, None),
    };
    Came { pass, ok, already }
}

fn tell_winner<J: Naming, R: Handles>(rt: &R, came: &[Came<J>]) -> Result<(), Error> {
    let mut ok = 0usize;
    let mut winner = None;
    let mut number = 0i64;
    for one in came {
        if one.ok == 1 {
            winner = Some(number);
        }
        ok = ok.saturating_add(one.ok);
        number = number.saturating_add(1);
    }
    let mut already = 0usize;
    for one in came {
        if one.already.is_some() && one.already == winner {
            already = already.saturating_add(1);
        }
    }
    println!(rt; "  {ok} Ok, {already} already put as the winner's number")?;
    Ok(())
}

// ---- a close that is refused

fn pass_missing<J: Naming, D: Disk + Drop, R: Handles>(
    rt: &R,
    hub: Hub<J, D>,
    mut envs: Vec<EnvPass<J>>,
    workers: Vec<WorkPass<J>>,
) -> Result<Core<D>, Error> {
    let Some(kept_back) = envs.pop() else {
        bail!("no pass")
    };
    match hub.close(envs, workers) {
        Ok(_) => bail!("closed without one of its passes"),
        Err(not_closed) => {
            let (error, hub, mut envs, workers) = not_closed.into_parts();
            println!(rt; "  {error}")?;
            envs.push(kept_back)?;
            closed(hub, envs, workers)
        }
    }
}

fn task_out<J: Naming, D: Disk + Drop, R: Handles>(
    rt: &R,
    hub: Hub<J, D>,
    mut envs: Vec<EnvPass<J>>,
    mut workers: Vec<WorkPass<J>>,
) -> Result<Core<D>, Error> {
    let task = claimed(rt, &hub, envs.as_mut_slice(), workers.as_mut_slice())?;
    match hub.close(envs, workers) {
        Ok(_) => {
            keep(rt, task);
            bail!("closed while an instance runs")
        }
        Err(not_closed) => give_back(rt, not_closed, task),
    }
}

// The instance `(add: 2)`, which was claimed.
fn claimed<J: Naming, D: Disk, R: Handles>(
    rt: &R,
    hub: &Hub<J, D>,
    envs: &mut [EnvPass<J>],
    workers: &mut [WorkPass<J>],
) -> Result<Task, Error> {
    let (Some(env), Some(worker)) = (envs.first_mut(), workers.first_mut()) else {
        bail!("no pass")
    };
    hub.put_tag(rt, env, number(2))?;
    match hub.claim(rt, worker, 0)? {
        Some(task) => Ok(task),
        None => bail!("nothing was claimed"),
    }
}

fn give_back<J: Naming, D: Disk + Drop, R: Handles>(
    rt: &R,
    not_closed: NotClosed<J, D>,
    task: Task,
) -> Result<Core<D>, Error> {
    let (error, hub, envs, mut workers) = not_closed.into_parts();
    let Some(worker) = workers.as_mut_slice().first_mut() else {
        keep(rt, task);
        bail!("no pass")
    };
    release(rt, &hub, worker, task)?;
    println!(rt; "  {error}")?;
    closed(hub, envs, workers)
}
