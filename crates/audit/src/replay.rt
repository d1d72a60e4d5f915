//! The instances that are done in a store, run anew.
ghost use Rattle.std.specs.Prelude.{◌≡◌, true, false, IfOk, IsSome, Ok, OnOk};
ghost use Rattle.audit.specs.Replayed.{AreStuck, Grows, IsReplayed, ReplaysOne};

use crate::Progress;
use crate::hints::Hints;
use crate::steps::try_one;
use crate::tried::Tried;
use crate::waiting::Waiting;
use graph::Graph;
use machine::{Machine, Marks};
use std::alloc::{AllocError, Global};
use std::sync::Arc;
use terms::{Puts, facts_are_told_apart};

// The number of sweeps after which instances wait for one another.
const MOST_SWEEPS: u32 = 8;

/// Replays each instance of the store that can be replayed. It sweeps over those that are done, until none is left or a sweep replays none. If some are left after
/// `MOST_SWEEPS`, it lets them wait for one another between two sweeps: so no order of them takes many sweeps.
pub(crate) fn replay<P: Progress>(
    alloc: Global,
    store: &Machine,
    marks: &mut Marks<'_>,
    progress: &mut P,
) -> Result<(), AllocError>
    requires { IsReplayed store.now marks.old }
    ensures replayed { OnOk result (IsReplayed store.now marks.new) }
    ensures stuck { OnOk result (AreStuck store.now marks.new) }
{
    facts_are_told_apart();
    store.is_kept();
    // What is known of the instances that are done: they are listed, and each round replays one of them.
    store.done();
    let graph = Arc::clone(store.graph())?;
    let mut hints = Hints::new();
    let mut sweeps_left = MOST_SWEEPS;
    loop {
        if marks.first_done_left().is_none() {
            return Ok(());
        }
        if !sweep(alloc, store, &graph, marks, &mut hints, progress)? {
            return Ok(());
        }
        replay_between(
            alloc,
            store,
            &graph,
            marks,
            &mut hints,
            &mut sweeps_left,
            progress,
        )?;
    }
}

// Tries each instance that is done in the store, by step and then by key. Says whether one was replayed.
fn sweep<P: Progress>(
    alloc: Global,
    store: &Machine,
    graph: &Graph,
    marks: &mut Marks<'_>,
    hints: &mut Hints,
    progress: &mut P,
) -> Result<bool, AllocError>
    requires graph { graph.now ≡ store.now.graph }
    requires replayed { IsReplayed store.now marks.old }
    ensures replayed { OnOk result (IsReplayed store.now marks.new) }
    ensures one { result ≡ Ok true → ReplaysOne store.now marks.old marks.new }
    ensures none { result ≡ Ok false → AreStuck store.now marks.new }
{
    facts_are_told_apart();
    store.is_kept();
    let mut is_one = false;
    for inst in store.done() {
        let one = inst;
        match try_one(alloc, store, graph, marks, one, hints)? {
            Tried::Replayed(puts) => {
                drop(puts);
                progress.replayed();
                is_one = true;
            }
            Tried::Waits(_) => {}
            Tried::AsBefore => {}
        }
    }
    Ok(is_one)
}

// After a sweep: counts it. If there were `MOST_SWEEPS`, it lets instances wait for one another.
fn replay_between<P: Progress>(
    alloc: Global,
    store: &Machine,
    graph: &Graph,
    marks: &mut Marks<'_>,
    hints: &mut Hints,
    sweeps_left: &mut u32,
    progress: &mut P,
) -> Result<(), AllocError>
    requires graph { graph.now ≡ store.now.graph }
    requires replayed { IsReplayed store.now marks.old }
    ensures replayed { OnOk result (IsReplayed store.now marks.new) }
    ensures grows { OnOk result (Grows marks.old marks.new) }
{
    *sweeps_left = sweeps_left.saturating_sub(1);
    if *sweeps_left > 0 {
        return Ok(());
    }
    replay_waiting(alloc, store, graph, marks, hints, progress)
}

// Tries each instance that is done in the store. One that waits for an item is tried again when that was replayed, and one whose tag was not replayed when that was.
fn replay_waiting<P: Progress>(
    alloc: Global,
    store: &Machine,
    graph: &Graph,
    marks: &mut Marks<'_>,
    hints: &mut Hints,
    progress: &mut P,
) -> Result<(), AllocError>
    requires graph { graph.now ≡ store.now.graph }
    requires replayed { IsReplayed store.now marks.old }
    ensures replayed { OnOk result (IsReplayed store.now marks.new) }
    ensures grows { OnOk result (Grows marks.old marks.new) }
{
    let mut waiting = Waiting::new(alloc);
    for inst in store.done() {
        let one = inst;
        waiting.push(one)?;
        replay_woken(alloc, store, graph, marks, hints, &mut waiting, progress)?;
    }
    Ok(())
}

// Tries instances until none is to be tried. Each that is replayed wakes those that wait for what it puts.
fn replay_woken<P: Progress>(
    alloc: Global,
    store: &Machine,
    graph: &Graph,
    marks: &mut Marks<'_>,
    hints: &mut Hints,
    waiting: &mut Waiting,
    progress: &mut P,
) -> Result<(), AllocError>
    requires graph { graph.now ≡ store.now.graph }
    requires replayed { IsReplayed store.now marks.old }
    ensures replayed { OnOk result (IsReplayed store.now marks.new) }
    ensures grows { OnOk result (Grows marks.old marks.new) }
{
    facts_are_told_apart();
    store.is_kept();
    // What is known of the instances that are done: they are listed, and each turn replays one of them.
    store.done();
    loop {
        match replay_next(alloc, store, graph, marks, hints, waiting)? {
            Some(puts) => {
                progress.replayed();
                waiting.wake(graph, puts.as_slice())?;
            }
            None => return Ok(()),
        }
    }
}

// Tries instances until one is replayed, and returns its puts, or until none is to be tried.
fn replay_next(
    alloc: Global,
    store: &Machine,
    graph: &Graph,
    marks: &mut Marks<'_>,
    hints: &mut Hints,
    waiting: &mut Waiting,
) -> Result<Option<Puts>, AllocError>
    requires graph { graph.now ≡ store.now.graph }
    requires replayed { IsReplayed store.now marks.old }
    ensures replayed { OnOk result (IsReplayed store.now marks.new) }
    ensures one { IfOk result (λ puts. IsSome puts → ReplaysOne store.now marks.old marks.new) }
    ensures none { IfOk result (λ puts. puts ≡ None → marks.new ≡ marks.old) }
{
    while let Some(inst) = waiting.pop() {
        let done = inst;
        if !store.is_done_near(done, &mut hints.done) {
            continue;
        }
        let one = inst;
        match try_one(alloc, store, graph, marks, one, hints)? {
            Tried::Replayed(puts) => return Ok(Some(puts)),
            Tried::Waits(address) => waiting.park(inst, address)?,
            Tried::AsBefore => {}
        }
    }
    Ok(None)
}
