//! What the calls of a thread return while another thread is in the sync of its put.
ghost use Rattle.hub.specs.Whole.{IsNamedFor};

use crate::handles::Handles;
use crate::held_disk::{Gate, HeldDisk};
use crate::stores::{created, fib};
use anyhow::{Error, bail};
use commit::{Core, CoreError};
use disk::{Disk, MemDisk};
use hub::{EnvPass, Hub, hubs_cross};
use passes::{Blank, Naming};
use std::io::Print;
use std::marker::Brand;
use std::sync::Arc;
use std::thread::join;

/// Tries this on a new store.
pub(crate) fn try_held<R: Handles>(rt: &R) -> Result<(), Error> {
    let gate = Arc::new(rt.alloc(), Gate::new())?;
    let disk = HeldDisk::new(MemDisk::new(rt.alloc()), Arc::clone(&gate)?);
    hold_on(rt, disk, &gate)?;
    println!(rt; "  in time: {}", gate.was_in_time())?;
    Ok(())
}

fn hold_on<D: Disk + Drop + Send, R: Handles>(rt: &R, disk: D, gate: &Gate) -> Result<(), Error> {
    let core = created(rt.alloc(), disk)?;
    let blank = Blank::new(rt.alloc(), 2, 0)?;
    hold_as::<Brand, D, R>(rt, core, blank, gate)
}

fn hold_as<J: Naming + Send + Sync, D: Disk + Drop + Send, R: Handles>(
    rt: &R,
    core: Core<D>,
    blank: Blank,
    gate: &Gate,
) -> Result<(), Error>
    requires { IsNamedFor D.Disk J.table J.passes J.envs J.opening J.left blank core }
{
    let Ok((hub, mut envs, _)) = Hub::<J, D>::open(rt.alloc(), core, blank) else {
        bail!("no hub was opened")
    };
    hubs_cross::<J, D>();
    let (Some(asker), Some(putter)) = (envs.pop(), envs.pop()) else {
        bail!("no pass")
    };
    let shared = &hub;
    gate.arm();
    let (put, answers) = join(
        rt,
        move || put(rt, shared, putter),
        move || ask(shared, asker, gate),
    );
    put?;
    println!(rt; "  commits: {}", answers.commits)?;
    println!(rt; "  stop asked: {}", answers.asked)?;
    Ok(())
}

fn put<J: Naming, D: Disk, R: Handles>(
    rt: &R,
    hub: &Hub<J, D>,
    mut pass: EnvPass<J>,
) -> Result<(), CoreError> {
    hub.put_item(rt, &mut pass, fib(0), 0)
}

#[derive(Drop)]
struct Answers {
    commits: u64,
    asked: bool,
}

// Makes the calls while the other thread is in its sync, and then lets that go on.
fn ask<J: Naming, D: Disk>(hub: &Hub<J, D>, mut pass: EnvPass<J>, gate: &Gate) -> Answers {
    gate.wait_for_sync();
    let commits = hub.commits(&mut pass);
    hub.ask_stop(&mut pass);
    let asked = hub.stop_asked(&mut pass);
    gate.free();
    Answers { commits, asked }
}
