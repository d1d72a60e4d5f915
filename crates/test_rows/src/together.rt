//! Several instances of a store, whose ends are committed together: `together NUMBER` lets that number of the ready ones run,
//! in their order, or fewer if fewer are ready. One whose body waits for an item is given back.
ghost use Rattle.std.specs.Prelude.{◌≡◌, IfSome, Some};
ghost use Rattle.instances.specs.declared.state.State.TheVariants.{Running};
ghost use Rattle.commit.specs.Batch.{AreOutcomesOf};
ghost use Rattle.commit.specs.Came.{IsOutcomeIn};
ghost use Rattle.commit.specs.Core.{facts, graph as graph_of, state_of};
ghost use Rattle.test_rows.specs.Apart.{AreOutcomesApart};

use commit::{Batch, Came, Core, CoreError, MOST_TOGETHER, Outcome};
use disk::MemDisk;
use graph::Graph;
use instances::Task;
use machine::{Ended, results_are_meant};
use std::alloc::{AllocError, Global};
use std::sync::Arc;
use terms::{facts_are_told_apart, orders_are_total};

/// Lets at most this number of ready instances run, and commits the ends of those that came to one. Returns what was
/// committed of them, or `None` if none came to an end.
pub(crate) fn finish_together(
    alloc: Global,
    core: &mut Core<MemDisk>,
    most: usize,
) -> Result<Option<Result<Ended, CoreError>>, AllocError> {
    let graph = Arc::clone(core.graph())?;
    match ended(alloc, core, &graph, most) {
        Some(batch) => Ok(Some(core.finish_all(batch))),
        None => Ok(None),
    }
}

// The outcomes of at most this number of ready instances.
fn ended<'a>(
    alloc: Global,
    core: &mut Core<MemDisk>,
    graph: &'a Graph,
    most: usize,
) -> Option<Batch<'a>>
    requires graph { graph.now ≡ graph_of core.old }
    ensures { IfSome result (AreOutcomesOf core.new) }
{
    let mut kept = None;
    for _ in 0..most.min(MOST_TOGETHER) {
        kept = with_next(alloc, core, graph, kept);
    }
    kept
}

// These outcomes, and that of the first ready instance, if it comes to an end.
fn with_next<'a>(
    alloc: Global,
    core: &mut Core<MemDisk>,
    graph: &'a Graph,
    kept: Option<Batch<'a>>,
) -> Option<Batch<'a>>
    requires graph { graph.now ≡ graph_of core.old }
    requires kept { IfSome kept (AreOutcomesOf core.old) }
    ensures graph { graph_of core.new ≡ graph_of core.old }
    ensures kept { IfSome result (AreOutcomesOf core.new) }
{
    orders_are_total();
    match core.claim(0) {
        Ok(Some(task)) => with_end(alloc, core, graph, task, kept),
        Ok(None) => kept,
        Err(error) => {
            drop(error);
            kept
        }
    }
}

// These outcomes, and that of this instance, if it comes to an end; otherwise it is given back.
fn with_end<'a>(
    alloc: Global,
    core: &mut Core<MemDisk>,
    graph: &'a Graph,
    task: Task,
    kept: Option<Batch<'a>>,
) -> Option<Batch<'a>>
    requires graph { graph.now ≡ graph_of core.old }
    requires running { state_of core.old task ≡ Some Running }
    requires kept { IfSome kept (AreOutcomesApart core.old task) }
    ensures graph { graph_of core.new ≡ graph_of core.old }
    ensures kept { IfSome result (AreOutcomesOf core.new) }
{
    orders_are_total();
    let Ok(Came::Ended(outcome)) = core.run(alloc, graph, &task) else {
        core.release(task);
        return kept;
    };
    match kept {
        Some(batch) => Some(with_outcome(core, batch, task, outcome)),
        None => alone(alloc, core, task, outcome),
    }
}

// The outcome of this instance. If there is no memory for it, the instance is given back.
fn alone<'a>(
    alloc: Global,
    core: &mut Core<MemDisk>,
    task: Task,
    outcome: Outcome<'a>,
) -> Option<Batch<'a>>
    requires running { state_of core.old task ≡ Some Running }
    requires outcome { IsOutcomeIn (graph_of core.old) (facts core.old) task outcome }
    ensures graph { graph_of core.new ≡ graph_of core.old }
    ensures kept { IfSome result (AreOutcomesOf core.new) }
{
    match Batch::new(alloc, task, outcome) {
        Ok(batch) => Some(batch),
        Err((task, _)) => {
            core.release(task);
            None
        }
    }
}

// These outcomes, and that of this instance behind them. If there are as many as may be, or there is no memory for it, the
// instance is given back.
fn with_outcome<'a>(
    core: &mut Core<MemDisk>,
    mut batch: Batch<'a>,
    task: Task,
    outcome: Outcome<'a>,
) -> Batch<'a>
    requires running { state_of core.old task ≡ Some Running }
    requires outcome { IsOutcomeIn (graph_of core.old) (facts core.old) task outcome }
    requires kept { AreOutcomesApart core.old task batch }
    ensures graph { graph_of core.new ≡ graph_of core.old }
    ensures kept { AreOutcomesOf core.new result }
{
    facts_are_told_apart();
    results_are_meant();
    orders_are_total();
    if batch.len() == MOST_TOGETHER {
        core.release(task);
        return batch;
    }
    match batch.add(task, outcome) {
        Ok(()) => batch,
        Err((task, _)) => {
            core.release(task);
            batch
        }
    }
}
