//! A watch on an item: it is made, the item is put, and the watch tells its value.
ghost use Rattle.hub.specs.Whole.{IsNamedFor};

use crate::fib;
use anyhow::{Error, bail};
use commit::Core;
use disk::Disk;
use hub::{EnvPass, Hub};
use passes::{Blank, Naming};
use std::alloc::Global;
use std::io::Print;
use std::marker::Brand;
use std::sync::Wait;

/// What a hub needs from the program: it prints, allocates and waits.
pub(crate) trait Handles: Wait + Print + Alloc<A = Global> {}

impl<R: Wait + Print + Alloc<A = Global>> Handles for R {}

/// Watches `[fib: 40]` while it is put. Threads that share the hub would each have a pass of their own; here there is one, of the environment.
pub(crate) fn watch<D: Disk + Drop, R: Handles>(rt: &R, core: Core<D>) -> Result<Core<D>, Error> {
    let blank = Blank::new(rt.alloc(), 1, 0)?;
    watch_as::<Brand, D, R>(rt, core, blank)
}

fn watch_as<J: Naming, D: Disk + Drop, R: Handles>(
    rt: &R,
    core: Core<D>,
    blank: Blank,
) -> Result<Core<D>, Error>
    requires { IsNamedFor D.Disk J.table J.passes J.envs J.opening J.left blank core }
{
    let Ok((hub, mut envs, workers)) = Hub::<J, D>::open(rt.alloc(), core, blank) else {
        bail!("no hub was opened")
    };
    let Some(mut env) = envs.pop() else {
        bail!("no pass")
    };
    watched(rt, &hub, &mut env)?;
    envs.push(env)?;
    match hub.close(envs, workers) {
        Ok(core) => Ok(core),
        Err(not_closed) => bail!("not closed: {}", not_closed.error),
    }
}

fn watched<J: Naming, D: Disk + Drop, R: Handles>(
    rt: &R,
    hub: &Hub<J, D>,
    env: &mut EnvPass<J>,
) -> Result<(), Error> {
    let mut forty = hub.watch(rt, rt.alloc(), env, fib(40))?;
    println!(rt; "watched: {:?}", forty.look())?;
    hub.put_item(rt, env, fib(40), 102_334_155)?;
    println!(rt; "watched: {:?}", forty.look())?;
    Ok(())
}
