//! How a worker runs an instance, and what it does with the result.
ghost use Rattle.std.specs.Prelude.{◌≡◌, Some, false, true};
ghost use mathlib.Core.List.{IsPrefix};
ghost use Rattle.graph.specs.Fits.{InstanceIsOf};
ghost use Rattle.commit.specs.Batch.{HaveOutcomes, facts_with};
ghost use Rattle.commit.specs.Came.{IsOutcomeIn};
ghost use Rattle.hub.specs.Opening.{facts_behind};
ghost use Rattle.hub.specs.Running.{WaitsIn};
ghost use Rattle.pool.specs.declared.worker.Met.TheVariants.{Asked as MetAsked};
ghost use Rattle.pool.specs.declared.worker.Turned.TheVariants.{Ends};
ghost use Rattle.pool.specs.Worked.{AreKept, IsHand, IsTurned};

use crate::committing::{commit, commit_before, commit_kept, exchange};
use crate::hand::{Hand, count_of};
use crate::resuming::{go_on, wait_for_own};
use crate::settling::{finish, park, settled, stopped_by};
use crate::worker::{Met, Turned, ends, gives_up, goes_on_unless};
use crate::{Answer, Probe};
use commit::{Batch, Outcome};
use disk::Disk;
use hub::{Hub, Ran, WorkPass};
use instances::Task;
use machine::results_are_meant;
use passes::Naming;
use std::alloc::Global;
use std::sync::Wait;
use steplang::Run;
use terms::{Inst, facts_are_told_apart, facts_go_on};

/// Runs one instance.
pub(crate) fn run_task<'a, J: Naming, D: Disk, P: Probe, R: Wait>(
    rt: &R,
    alloc: Global,
    hub: &'a Hub<J, D>,
    pass: &mut WorkPass<J>,
    probe: &P,
    hand: &mut Hand<'a>,
    task: Task,
    kept: Option<Batch<'a>>,
) -> Turned<'a>
    requires instance { InstanceIsOf J.opening.graph task }
    requires hand { IsHand J.opening pass.old.seen hand.old }
    requires kept { AreKept J.opening pass.old kept }
    ensures hand { IsHand J.opening pass.new.seen hand.new }
    ensures turned { IsTurned J.opening pass.new result }
    ensures asked { result ≡ Ends (Some MetAsked) → P.may_stop ≡ true }
{
    facts_are_told_apart();
    facts_go_on();
    results_are_meant();
    if !may_run(rt, hub, pass, probe, task.inst()) {
        return gives_up(rt, hub, pass, hand, task, Met::Asked, kept);
    }
    match hand.waiting.take(pass, &task.inst()) {
        Some(run) => go_on(rt, alloc, hub, pass, hand, task, run, kept),
        None => begin(rt, alloc, hub, pass, hand, task, kept),
    }
}

// Asks the probe whether an instance is to be run, and shows it how much the store holds, if it wants to know. If it answers `Stop`, all workers are asked to
// end, before the instance is given back, so that none runs it meanwhile.
fn may_run<J: Naming, D: Disk, P: Probe, R: Wait>(
    rt: &R,
    hub: &Hub<J, D>,
    pass: &mut WorkPass<J>,
    probe: &P,
    instance: Inst,
) -> bool
    ensures ahead { IsPrefix pass.old.seen pass.new.seen }
    ensures asked { result ≡ false → P.may_stop ≡ true }
{
    match probe.enter(instance) {
        Answer::Go => true,
        Answer::Count => {
            probe.counted(hub.counts(rt, pass));
            true
        }
        Answer::Stop => {
            hub.ask_stop(pass);
            false
        }
    }
}

// Runs the body of an instance from its start.
fn begin<'a, J: Naming, D: Disk, R: Wait>(
    rt: &R,
    alloc: Global,
    hub: &'a Hub<J, D>,
    pass: &mut WorkPass<J>,
    hand: &mut Hand<'a>,
    task: Task,
    kept: Option<Batch<'a>>,
) -> Turned<'a>
    requires instance { InstanceIsOf J.opening.graph task }
    requires hand { IsHand J.opening pass.old.seen hand.old }
    requires kept { AreKept J.opening pass.old kept }
    ensures hand { IsHand J.opening pass.new.seen hand.new }
    ensures turned { IsTurned J.opening pass.new result }
    ensures asked { result ≡ Ends (Some MetAsked) → ⊥ }
{
    facts_are_told_apart();
    facts_go_on();
    results_are_meant();
    let beside = hand.ahead(&kept, hub.ready());
    match hub.run(rt, &mut hand.room, pass, &task, beside) {
        Ok(Ran::Ended(outcome, statements)) => {
            hand.note_end(&outcome, statements, statements, kept.is_some());
            keep(rt, alloc, hub, pass, hand, task, outcome, kept)
        }
        Ok(Ran::Waits(run, ahead)) => {
            hand.note(run.statements(), 0, kept.is_some());
            hand.pace.note_missing();
            hand.pace.note_work(run.statements());
            let own = hand.own(count_of(&kept));
            if hand.pace.leaves(own, hub.running()) {
                hand.room.keep(run);
                return leave(rt, hub, pass, hand, task, kept);
            }
            if ahead || hand.pace.is_slow() || hand.pace.has_many_puts() {
                return wait_for_own(rt, alloc, hub, pass, hand, task, run, kept);
            }
            hand.note_wait();
            park_beside(rt, hub, pass, hand, task, run, kept)
        }
        Err(error) => { gives_up(rt, hub, pass, hand, task, stopped_by(error), kept) }
    }
}

// Gives back what is claimed, in its order, and commits what is kept.
fn leave<'a, J: Naming, D: Disk, R: Wait>(
    rt: &R,
    hub: &'a Hub<J, D>,
    pass: &mut WorkPass<J>,
    hand: &mut Hand<'a>,
    task: Task,
    kept: Option<Batch<'a>>,
) -> Turned<'a>
    requires hand { IsHand J.opening pass.old.seen hand.old }
    requires kept { AreKept J.opening pass.old kept }
    ensures hand { IsHand J.opening pass.new.seen hand.new }
    ensures turned { IsTurned J.opening pass.new result }
    ensures asked { result ≡ Ends (Some MetAsked) → ⊥ }
{
    facts_are_told_apart();
    facts_go_on();
    results_are_meant();
    hand.leave(rt, hub, pass);
    let _ = settled(rt, hub.release(rt, pass, task));
    goes_on_unless(commit_kept(rt, hub, pass, kept))
}

/// Lets the instance wait, and goes on with what is kept, unless that is to be committed now.
pub(crate) fn park_beside<'a, J: Naming, D: Disk, R: Wait>(
    rt: &R,
    hub: &'a Hub<J, D>,
    pass: &mut WorkPass<J>,
    hand: &mut Hand<'a>,
    task: Task,
    run: Run<'a>,
    kept: Option<Batch<'a>>,
) -> Turned<'a>
    requires run { WaitsIn J.opening.graph (facts_behind J.opening pass.old.seen) task run }
    requires hand { IsHand J.opening pass.old.seen hand.old }
    requires kept { AreKept J.opening pass.old kept }
    ensures hand { IsHand J.opening pass.new.seen hand.new }
    ensures turned { IsTurned J.opening pass.new result }
    ensures asked { result ≡ Ends (Some MetAsked) → ⊥ }
{
    facts_are_told_apart();
    facts_go_on();
    results_are_meant();
    match park(rt, hub, pass, hand, task, run) {
        None => {
            if hand.pace.is_due() {
                return goes_on_unless(commit_kept(rt, hub, pass, kept));
            }
            Turned::GoesOn(kept)
        }
        Some(met) => ends(rt, hub, pass, met, kept),
    }
}

/// Keeps the outcome of an instance with the others. If there is no memory to keep it, it is committed by itself, after them.
pub(crate) fn keep<'a, J: Naming, D: Disk, R: Wait>(
    rt: &R,
    alloc: Global,
    hub: &'a Hub<J, D>,
    pass: &mut WorkPass<J>,
    hand: &mut Hand<'a>,
    task: Task,
    outcome: Outcome<'a>,
    kept: Option<Batch<'a>>,
) -> Turned<'a>
    requires outcome { IsOutcomeIn J.opening.graph (facts_with (facts_behind J.opening pass.old.seen) kept) task outcome }
    requires hand { IsHand J.opening pass.old.seen hand.old }
    requires kept { AreKept J.opening pass.old kept }
    ensures hand { IsHand J.opening pass.new.seen hand.new }
    ensures turned { IsTurned J.opening pass.new result }
    ensures asked { result ≡ Ends (Some MetAsked) → ⊥ }
{
    facts_are_told_apart();
    facts_go_on();
    results_are_meant();
    let Some(mut batch) = kept else {
        return match Batch::new(alloc, task, outcome) {
            Ok(batch) => go_on_with(rt, hub, pass, hand, batch),
            Err((task, outcome)) => goes_on_unless(finish(rt, hub, pass, task, outcome)),
        };
    };
    match batch.add(task, outcome) {
        Ok(()) => go_on_with(rt, hub, pass, hand, batch),
        Err((task, outcome)) => finish_after(rt, hub, pass, batch, task, outcome),
    }
}

// Commits a batch, and then an outcome by itself, which may be over what the batch puts.
fn finish_after<'a, J: Naming, D: Disk, R: Wait>(
    rt: &R,
    hub: &'a Hub<J, D>,
    pass: &mut WorkPass<J>,
    batch: Batch<'a>,
    task: Task,
    outcome: Outcome<'a>,
) -> Turned<'a>
    requires batch { HaveOutcomes J.opening.graph (facts_behind J.opening pass.old.seen) batch.tasks batch.outcomes }
    requires outcome { IsOutcomeIn J.opening.graph (facts_with (facts_behind J.opening pass.old.seen) (Some batch)) task outcome }
    ensures ahead { IsPrefix pass.old.seen pass.new.seen }
    ensures turned { IsTurned J.opening pass.new result }
    ensures asked { result ≡ Ends (Some MetAsked) → ⊥ }
{
    results_are_meant();
    match commit_before(rt, hub, pass, batch) {
        Ok(true) => goes_on_unless(finish(rt, hub, pass, task, outcome)),
        Ok(false) => {
            drop(outcome);
            goes_on_unless(settled(rt, hub.release(rt, pass, task)))
        }
        Err(met) => {
            drop(outcome);
            let _ = settled(rt, hub.release(rt, pass, task));
            Turned::Ends(Some(met))
        }
    }
}

// Goes on with these results. They are committed if bodies took long since the first of them, so that others do not wait for them; or if they are as many as it keeps, and
// then the worker claims the next instances with the same visit of the lock.
fn go_on_with<'a, J: Naming, D: Disk, R: Wait>(
    rt: &R,
    hub: &'a Hub<J, D>,
    pass: &mut WorkPass<J>,
    hand: &mut Hand<'a>,
    batch: Batch<'a>,
) -> Turned<'a>
    requires batch { HaveOutcomes J.opening.graph (facts_behind J.opening pass.old.seen) batch.tasks batch.outcomes }
    requires hand { IsHand J.opening pass.old.seen hand.old }
    ensures hand { IsHand J.opening pass.new.seen hand.new }
    ensures turned { IsTurned J.opening pass.new result }
    ensures asked { result ≡ Ends (Some MetAsked) → ⊥ }
{
    if hand.pace.is_due() {
        return goes_on_unless(commit(rt, hub, pass, batch));
    }
    if batch.len() < hand.pace.most_kept() {
        return Turned::GoesOn(Some(batch));
    }
    goes_on_unless(exchange(rt, hub, pass, hand, batch))
}
