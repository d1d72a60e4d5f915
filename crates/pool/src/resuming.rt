//! How a worker goes on with a run that waits for an item.
ghost use Rattle.std.specs.Prelude.{◌≡◌, Some};
ghost use Rattle.commit.specs.Batch.{facts_with};
ghost use Rattle.hub.specs.Opening.{facts_behind};
ghost use Rattle.hub.specs.Running.{WaitsIn};
ghost use Rattle.pool.specs.declared.worker.Met.TheVariants.{Asked as MetAsked};
ghost use Rattle.pool.specs.declared.worker.Turned.TheVariants.{Ends};
ghost use Rattle.pool.specs.Worked.{AreKept, IsHand, IsTurned};

use crate::committing::commit_before;
use crate::hand::Hand;
use crate::running::{keep, park_beside};
use crate::settling::{park, settled, stopped_by};
use crate::worker::{Turned, gives_up, goes_on_unless};
use commit::Batch;
use disk::Disk;
use hub::{Hub, Ran, WorkPass};
use instances::Task;
use machine::results_are_meant;
use passes::Naming;
use std::alloc::Global;
use std::sync::Wait;
use steplang::Run;
use terms::{facts_are_told_apart, facts_go_on};

/// Goes on with the run of an instance that was kept while the instance waited. If a result that is kept puts its item, what is kept is committed first, since a run that goes on reads what
/// is committed alone.
pub(crate) fn go_on<'a, J: Naming, D: Disk, R: Wait>(
    rt: &R,
    alloc: Global,
    hub: &'a Hub<J, D>,
    pass: &mut WorkPass<J>,
    hand: &mut Hand<'a>,
    task: Task,
    run: Run<'a>,
    kept: Option<Batch<'a>>,
) -> Turned<'a>
    requires run { WaitsIn J.opening.graph (facts_behind J.opening pass.old.seen) task run }
    requires hand { IsHand J.opening pass.old.seen hand.old }
    requires kept { AreKept J.opening pass.old kept }
    ensures hand { IsHand J.opening pass.new.seen hand.new }
    ensures turned { IsTurned J.opening pass.new result }
    ensures asked { result ≡ Ends (Some MetAsked) → ⊥ }
{
    facts_are_told_apart();
    facts_go_on();
    results_are_meant();
    if is_put(&kept, &run) {
        return wait_for_own(rt, alloc, hub, pass, hand, task, run, kept);
    }
    let before = run.statements();
    match hub.resume(rt, &mut hand.room, pass, run) {
        Ok(Ran::Ended(outcome, statements)) => {
            let made = statements.saturating_sub(before);
            hand.note_end(&outcome, statements, made, kept.is_some());
            keep(rt, alloc, hub, pass, hand, task, outcome, kept)
        }
        Ok(Ran::Waits(run, _)) => {
            let made = run.statements().saturating_sub(before);
            hand.note(made, 0, kept.is_some());
            if hand.pace.is_slow() || is_put(&kept, &run) {
                return wait_for_own(rt, alloc, hub, pass, hand, task, run, kept);
            }
            hand.note_wait();
            park_beside(rt, hub, pass, hand, task, run, kept)
        }
        Err(error) => { gives_up(rt, hub, pass, hand, task, stopped_by(error), kept) }
    }
}

// Whether a result that is kept puts the item that a run waits for.
fn is_put(kept: &Option<Batch<'_>>, run: &Run<'_>) -> bool {
    let Some(batch) = kept else {
        return false;
    };
    match run.pending() {
        Some(address) => batch.item(address).is_some(),
        None => false,
    }
}

/// The body waits, after it took long or has read items that are kept, or could not look among them: what is kept is committed first, and the same run goes on if its item is there then. Otherwise
/// the instance waits.
pub(crate) fn wait_for_own<'a, J: Naming, D: Disk, R: Wait>(
    rt: &R,
    alloc: Global,
    hub: &'a Hub<J, D>,
    pass: &mut WorkPass<J>,
    hand: &mut Hand<'a>,
    task: Task,
    run: Run<'a>,
    kept: Option<Batch<'a>>,
) -> Turned<'a>
    requires run { WaitsIn J.opening.graph (facts_with (facts_behind J.opening pass.old.seen) kept) task run }
    requires hand { IsHand J.opening pass.old.seen hand.old }
    requires kept { AreKept J.opening pass.old kept }
    ensures hand { IsHand J.opening pass.new.seen hand.new }
    ensures turned { IsTurned J.opening pass.new result }
    ensures asked { result ≡ Ends (Some MetAsked) → ⊥ }
{
    facts_are_told_apart();
    facts_go_on();
    results_are_meant();
    let Some(batch) = kept else {
        return goes_on_unless(park(rt, hub, pass, hand, task, run));
    };
    match commit_before(rt, hub, pass, batch) {
        Ok(true) => go_on_alone(rt, alloc, hub, pass, hand, task, run),
        Ok(false) => {
            drop(run);
            goes_on_unless(settled(rt, hub.release(rt, pass, task)))
        }
        Err(met) => {
            drop(run);
            let _ = settled(rt, hub.release(rt, pass, task));
            Turned::Ends(Some(met))
        }
    }
}

// Lets a run go on if its item is there by now, when nothing is kept.
fn go_on_alone<'a, J: Naming, D: Disk, R: Wait>(
    rt: &R,
    alloc: Global,
    hub: &'a Hub<J, D>,
    pass: &mut WorkPass<J>,
    hand: &mut Hand<'a>,
    task: Task,
    run: Run<'a>,
) -> Turned<'a>
    requires run { WaitsIn J.opening.graph (facts_behind J.opening pass.old.seen) task run }
    requires hand { IsHand J.opening pass.old.seen hand.old }
    ensures hand { IsHand J.opening pass.new.seen hand.new }
    ensures turned { IsTurned J.opening pass.new result }
    ensures asked { result ≡ Ends (Some MetAsked) → ⊥ }
{
    match hub.resume(rt, &mut hand.room, pass, run) {
        Ok(Ran::Ended(outcome, statements)) => {
            hand.note_end(&outcome, statements, statements, false);
            keep(rt, alloc, hub, pass, hand, task, outcome, None)
        }
        Ok(Ran::Waits(run, _)) => goes_on_unless(park(rt, hub, pass, hand, task, run)),
        Err(error) => { gives_up(rt, hub, pass, hand, task, stopped_by(error), None) }
    }
}
